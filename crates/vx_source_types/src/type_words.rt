// The words of types.
ghost use Rattle.std.specs.Prelude.{◌≡◌, codes, option_map};
ghost use Rattle.vx_dtype.specs.Types.{ty, atomic};
ghost use Rattle.vx_source_types.specs.TypeReading.{ptype_word, float_word, of_number, atomic_word, type_word_of, unit_word};
ghost use Rattle.vx_source_types.specs.TypeViews.{atomic_type, word_of};
ghost use Rattle.vx_dtype.specs.Views.{type_of};

use crate::names::is_word;
use vx_dtype::{DType, FieldName, FloatType, Nullability, PType, TimeUnit};

// What a word begins that names a type.
pub(crate) enum TypeWord {
    // A type without parts.
    Plain(DType),
    // A list, whose element type follows.
    List,
    // A list of one length, whose element type and length follow.
    FixedSizeList,
    // A decimal, whose precision and scale follow.
    Decimal,
    // A timestamp, whose unit and zone follow.
    Timestamp,
    // No type.
    None,
}

pub(crate) fn type_word(name: &FieldName) -> TypeWord
    ensures { word_of result ≡ type_word_of name.now }
{
    if is_word(name, "list") {
        TypeWord::List
    } else if is_word(name, "fixed_size_list") {
        TypeWord::FixedSizeList
    } else if is_word(name, "decimal") {
        TypeWord::Decimal
    } else if is_word(name, "timestamp") {
        TypeWord::Timestamp
    } else {
        match plain_type(name) {
            Some(dtype) => TypeWord::Plain(dtype),
            None => TypeWord::None,
        }
    }
}

// The type of that name, not nullable, if it has no parts.
fn plain_type(name: &FieldName) -> Option<DType>
    ensures { option_map type_of result ≡ option_map atomic_type (atomic_word name.now) }
{
    if is_word(name, "bool") {
        Some(DType::Bool(Nullability::NonNullable))
    } else if is_word(name, "utf8") {
        Some(DType::Utf8(Nullability::NonNullable))
    } else if is_word(name, "binary") {
        Some(DType::Binary(Nullability::NonNullable))
    } else if is_word(name, "date") {
        Some(DType::Date(Nullability::NonNullable))
    } else {
        number_type(name)
    }
}

// The type of numbers of that name, not nullable.
fn number_type(name: &FieldName) -> Option<DType>
    ensures { option_map type_of result ≡ option_map atomic_type (of_number (ptype_word name.now) (float_word name.now)) }
{
    match ptype_word(name) {
        Some(p) => Some(DType::Primitive(p, Nullability::NonNullable)),
        None => {
            let format = float_word(name)?;
            Some(DType::Float(format, Nullability::NonNullable))
        }
    }
}

// The type of floating-point numbers of that name, in either case.
fn float_word(name: &FieldName) -> Option<FloatType>
    ensures { result ≡ float_word name.now }
{
    if is_word(name, "f32") {
        Some(FloatType::F32)
    } else if is_word(name, "f64") {
        Some(FloatType::F64)
    } else {
        None
    }
}

/// The number type of that name, in either case.
pub fn ptype_word(name: &FieldName) -> Option<PType>
    ensures { result ≡ ptype_word name.now }
{
    if is_word(name, "u8") {
        Some(PType::U8)
    } else if is_word(name, "u16") {
        Some(PType::U16)
    } else if is_word(name, "u32") {
        Some(PType::U32)
    } else if is_word(name, "u64") {
        Some(PType::U64)
    } else if is_word(name, "i8") {
        Some(PType::I8)
    } else if is_word(name, "i16") {
        Some(PType::I16)
    } else if is_word(name, "i32") {
        Some(PType::I32)
    } else if is_word(name, "i64") {
        Some(PType::I64)
    } else {
        None
    }
}

/// The unit of that name, in either case.
pub(crate) fn unit_word(name: &FieldName) -> Option<TimeUnit>
    ensures { result ≡ unit_word name.now }
{
    if is_word(name, "s") {
        Some(TimeUnit::Seconds)
    } else if is_word(name, "ms") {
        Some(TimeUnit::Milliseconds)
    } else if is_word(name, "us") {
        Some(TimeUnit::Microseconds)
    } else if is_word(name, "ns") {
        Some(TimeUnit::Nanoseconds)
    } else {
        None
    }
}
