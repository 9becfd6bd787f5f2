// Rust's whole numbers as those of columns.
ghost use Rattle.std.specs.Prelude.{◌≡◌, ℤ, IfSome, map, refl, pos, negsuc};
ghost use Rattle.vx_array.specs.Kinds.{numbers_in};
ghost use Rattle.vx_dtype.specs.declared.dtype.PType.{PType as Kind};
ghost use Rattle.vx_dtype.specs.declared.dtype.PType.TheVariants as kinds;
ghost use Rattle.vx_value.specs.Fits.{fits_ptype};

use vx_array::{Numbers, Part};
use vx_array_loops::Number;
use vx_dtype::PType;

/// A whole number of Rust's that is one of a `PType`.
pub trait Native: Number {
    /// The type of the numbers.
    ghost kind: { Kind };

    /// The type of the numbers.
    fn ptype() -> PType
        ensures { result ≡ kind };

    /// The numbers as those of a column.
    fn numbers(part: Part<Self>) -> Numbers
        ensures { numbers_in result ≡ map Self.number part };

    /// The numbers of a column, where they are of this type.
    fn of(numbers: &Numbers) -> Option<&Part<Self>>
        ensures { IfSome result (λ part. map Self.number part.now ≡ numbers_in numbers.now) };

    /// The type's numbers are those of the `PType`.
    ghost same_range: { (z : ℤ) → Self.fits z ≡ fits_ptype z kind };
}

impl Native for u8 {
    ghost kind = { kinds.U8 };

    ghost same_range = { elim [ pos n ↦ refl | negsuc n ↦ refl ] };

    fn ptype() -> PType {
        PType::U8
    }

    fn numbers(part: Part<u8>) -> Numbers
        ensures { numbers_in result ≡ map (λ n. pos n) part }
    {
        Numbers::U8(part)
    }

    fn of(numbers: &Numbers) -> Option<&Part<u8>>
        ensures { IfSome result (λ part. map (λ n. pos n) part.now ≡ numbers_in numbers.now) }
    {
        match numbers {
            Numbers::U8(part) => Some(part),
            _ => None,
        }
    }
}

impl Native for u16 {
    ghost kind = { kinds.U16 };

    ghost same_range = { elim [ pos n ↦ refl | negsuc n ↦ refl ] };

    fn ptype() -> PType {
        PType::U16
    }

    fn numbers(part: Part<u16>) -> Numbers
        ensures { numbers_in result ≡ map (λ n. pos n) part }
    {
        Numbers::U16(part)
    }

    fn of(numbers: &Numbers) -> Option<&Part<u16>>
        ensures { IfSome result (λ part. map (λ n. pos n) part.now ≡ numbers_in numbers.now) }
    {
        match numbers {
            Numbers::U16(part) => Some(part),
            _ => None,
        }
    }
}

impl Native for u32 {
    ghost kind = { kinds.U32 };

    ghost same_range = { elim [ pos n ↦ refl | negsuc n ↦ refl ] };

    fn ptype() -> PType {
        PType::U32
    }

    fn numbers(part: Part<u32>) -> Numbers
        ensures { numbers_in result ≡ map (λ n. pos n) part }
    {
        Numbers::U32(part)
    }

    fn of(numbers: &Numbers) -> Option<&Part<u32>>
        ensures { IfSome result (λ part. map (λ n. pos n) part.now ≡ numbers_in numbers.now) }
    {
        match numbers {
            Numbers::U32(part) => Some(part),
            _ => None,
        }
    }
}

impl Native for u64 {
    ghost kind = { kinds.U64 };

    ghost same_range = { elim [ pos n ↦ refl | negsuc n ↦ refl ] };

    fn ptype() -> PType {
        PType::U64
    }

    fn numbers(part: Part<u64>) -> Numbers
        ensures { numbers_in result ≡ map (λ n. pos n) part }
    {
        Numbers::U64(part)
    }

    fn of(numbers: &Numbers) -> Option<&Part<u64>>
        ensures { IfSome result (λ part. map (λ n. pos n) part.now ≡ numbers_in numbers.now) }
    {
        match numbers {
            Numbers::U64(part) => Some(part),
            _ => None,
        }
    }
}

impl Native for i8 {
    ghost kind = { kinds.I8 };

    ghost same_range = { elim [ pos n ↦ refl | negsuc n ↦ refl ] };

    fn ptype() -> PType {
        PType::I8
    }

    fn numbers(part: Part<i8>) -> Numbers
        ensures { numbers_in result ≡ map (λ n. n) part }
    {
        Numbers::I8(part)
    }

    fn of(numbers: &Numbers) -> Option<&Part<i8>>
        ensures { IfSome result (λ part. map (λ n. n) part.now ≡ numbers_in numbers.now) }
    {
        match numbers {
            Numbers::I8(part) => Some(part),
            _ => None,
        }
    }
}

impl Native for i16 {
    ghost kind = { kinds.I16 };

    ghost same_range = { elim [ pos n ↦ refl | negsuc n ↦ refl ] };

    fn ptype() -> PType {
        PType::I16
    }

    fn numbers(part: Part<i16>) -> Numbers
        ensures { numbers_in result ≡ map (λ n. n) part }
    {
        Numbers::I16(part)
    }

    fn of(numbers: &Numbers) -> Option<&Part<i16>>
        ensures { IfSome result (λ part. map (λ n. n) part.now ≡ numbers_in numbers.now) }
    {
        match numbers {
            Numbers::I16(part) => Some(part),
            _ => None,
        }
    }
}

impl Native for i32 {
    ghost kind = { kinds.I32 };

    ghost same_range = { elim [ pos n ↦ refl | negsuc n ↦ refl ] };

    fn ptype() -> PType {
        PType::I32
    }

    fn numbers(part: Part<i32>) -> Numbers
        ensures { numbers_in result ≡ map (λ n. n) part }
    {
        Numbers::I32(part)
    }

    fn of(numbers: &Numbers) -> Option<&Part<i32>>
        ensures { IfSome result (λ part. map (λ n. n) part.now ≡ numbers_in numbers.now) }
    {
        match numbers {
            Numbers::I32(part) => Some(part),
            _ => None,
        }
    }
}

impl Native for i64 {
    ghost kind = { kinds.I64 };

    ghost same_range = { elim [ pos n ↦ refl | negsuc n ↦ refl ] };

    fn ptype() -> PType {
        PType::I64
    }

    fn numbers(part: Part<i64>) -> Numbers
        ensures { numbers_in result ≡ map (λ n. n) part }
    {
        Numbers::I64(part)
    }

    fn of(numbers: &Numbers) -> Option<&Part<i64>>
        ensures { IfSome result (λ part. map (λ n. n) part.now ≡ numbers_in numbers.now) }
    {
        match numbers {
            Numbers::I64(part) => Some(part),
            _ => None,
        }
    }
}
