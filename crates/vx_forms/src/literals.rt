// Scalars of days, decimals and instants, read of texts.
ghost use Rattle.std.specs.Prelude.{◌≡◌, IfSome, is_some};
ghost use Rattle.vx_dtype.specs.Returns.{Returns};
ghost use Rattle.vx_forms.specs.Literals.{day_said, decimal_said, digit_count, instant_said, is_decimal_type, places};

use vx_dtype::{DType, DecimalType, Nullability, TimestampType, VortexError, VortexResult};
use vx_literals::{read_day, read_decimal, read_instant};
use vx_value::{Scalar, Value};

/// The day of a text as `2024-01-31`, of the type of days without null, as `date("2024-01-31")`. Refuses with
/// `RowMisfit` (18) and row 0 a text that is of no day of the calendar in the years 1 to 9999. Takes no memory.
pub fn date(text: &str) -> VortexResult<Scalar>
    ensures { Returns (λ s. s) result (day_said text.now) }
{
    match read_day(text.as_bytes()) {
        Some(day) => Scalar::try_new(DType::Date(Nullability::NonNullable), Value::Int(day)),
        None => Err(VortexError::RowMisfit { row: 0 }),
    }
}

/// The instant of a text as RFC 3339 has it, `2024-01-31T10:15:30.25Z`, of that type without null. Refuses with
/// `RowMisfit` (18) and row 0 a text that is of no instant in the years 1 to 9999, has an offset or a `Z` where the
/// type has no zone, has none where it has one, or has a part of a second that the unit hasn't. Takes no memory.
pub fn timestamp(text: &str, t: TimestampType) -> VortexResult<Scalar>
    ensures { Returns (λ s. s) result (instant_said t text.now) }
{
    match read_instant(text.as_bytes(), &t) {
        Some(instant) => {
            let dtype = DType::Timestamp(t, Nullability::NonNullable);
            Scalar::try_new(dtype, Value::Int(instant))
        }
        None => Err(VortexError::RowMisfit { row: 0 }),
    }
}

/// The decimal of a text as `-12.50`, of the type without null of as many digits as stand there, so many of them
/// behind the point: `decimal("12.50")` is one of `decimal(4, 2)`. Refuses with `RowMisfit` (18) and row 0 a text that
/// is of no decimal, or has more than 38 digits. Takes no memory.
pub fn decimal(text: &str) -> VortexResult<Scalar>
    ensures { Returns (λ s. s) result (decimal_said text.now) }
{
    let Some(t) = decimal_type(text) else {
        return Err(VortexError::RowMisfit { row: 0 });
    };
    match read_decimal(text.as_bytes(), t.scale()) {
        Some(units) => {
            let dtype = DType::Decimal(t, Nullability::NonNullable);
            Scalar::try_new(dtype, Value::Int(units))
        }
        None => Err(VortexError::RowMisfit { row: 0 }),
    }
}

// The type of decimals of as many digits as the text has, as many of them behind the point.
fn decimal_type(text: &str) -> Option<DecimalType>
    ensures some { is_some result ≡ is_decimal_type (digit_count text.now) (places text.now) }
    ensures precision { IfSome result (λ t. t.precision ≡ digit_count text.now) }
    ensures scale { IfSome result (λ t. t.scale ≡ places text.now) }
{
    let precision = digit_count(text);
    let scale = places(text);
    if precision > 38 || scale > precision {
        return None;
    }
    DecimalType::new(precision as u8, scale as u8)
}

// How many digits the text has.
fn digit_count(text: &str) -> usize
    ensures { result ≡ digit_count text.now }
{
    text.as_bytes()
        .iter()
        .filter(|b| b.is_ascii_digit())
        .count()
}

// How many bytes stand behind the first point.
fn places(text: &str) -> usize
    ensures { result ≡ places text.now }
{
    match text.split_once('.') {
        Some((_, behind)) => behind.len(),
        None => 0,
    }
}
