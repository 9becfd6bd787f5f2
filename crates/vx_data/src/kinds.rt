// What tells the kind of a text, and the type of a kind.
ghost use Rattle.std.specs.Prelude.{◌≡◌, ◌≤◌, IfOk, Some, codes, get_or, length, true, false};
ghost use Rattle.std.specs.Char.{is_ascii_digit};
ghost use Rattle.std.specs.Coded.{Coded-set};
ghost use Rattle.std.specs.List.{list_all};
ghost use Rattle.std.specs.Arc.{arc_str_bytes};
ghost use Rattle.std.specs.Option.{option_map};
ghost use Rattle.vx_dtype.specs.declared.timestamp_type.TimeUnit.TheVariants.{Microseconds, Nanoseconds};
ghost use Rattle.vx_dtype.specs.Codes.{type_code};
ghost use Rattle.vx_dtype.specs.Types.{atomic, date, timestamp, ty};
ghost use Rattle.vx_dtype.specs.Views.{admits_null};
ghost use Rattle.vx_literals.specs.Decimals.{decimal_read};
ghost use Rattle.vx_value.specs.Fits.{fits_ptype};
ghost use Rattle.vx_value.specs.Views.{type_of};
ghost use Rattle.vx_data.specs.declared.kind.Kind.TheVariants.{Instant, Number};
ghost use Rattle.vx_data.specs.Kinds.{before_point, cell_kind, float_kind, has_digits, in_number, is_fine, is_plain, kind_type, moment, moment_kind, number_kind, numbers_type, places_kind, says, text_kind, unsigned_part, whole_digits, whole_kind};

use crate::kind::{Instants, Kind, Numbers};
use crate::numbers::number_said;
use std::alloc::{AllocError, Global};
use std::sync::ArcStr;
use vx_dtype::{DType, DecimalType, FloatType, Nullability, PType, TimeUnit, TimestampType};
use vx_floats::read_float;
use vx_literals::read_decimal;
use vx_value::Value;

/// The kinds that are told of texts, and their types.
#[derive(Debug, Drop)]
pub struct Kinds {
    /// Whether numbers with a point are decimals; else they are floating-point numbers, and so are those with an exponent.
    pub decimals: bool,
    instant: DType,
    fine_instant: DType,
    clock: DType,
    fine_clock: DType,
    ghost instant_is: { type_of instant ≡ moment Microseconds true } by { Coded-set type_code _ _ },
    ghost fine_instant_is: { type_of fine_instant ≡ moment Nanoseconds true } by { Coded-set type_code _ _ },
    ghost clock_is: { type_of clock ≡ moment Microseconds false } by { Coded-set type_code _ _ },
    ghost fine_clock_is: { type_of fine_clock ≡ moment Nanoseconds false } by { Coded-set type_code _ _ },
}

impl Kinds {
    /// All kinds; numbers with a point are floating-point numbers unless decimals are told.
    pub fn new(alloc: Global, decimals: bool) -> Result<Kinds, AllocError>
        ensures { IfOk result (λ kinds. kinds.decimals ≡ decimals) }
    {
        Ok(Kinds {
            decimals,
            instant: moment(TimeUnit::Microseconds, Some(utc(alloc)?)),
            fine_instant: moment(TimeUnit::Nanoseconds, Some(utc(alloc)?)),
            clock: moment(TimeUnit::Microseconds, None),
            fine_clock: moment(TimeUnit::Nanoseconds, None),
        })
    }

    /// The kind of a cell of CSV that isn't empty: a truth value, a number, a day, an instant, or a text.
    pub fn of_cell(&self, text: &str) -> Kind
        ensures { result ≡ cell_kind self.now.decimals text.now }
    {
        if text == "true" || text == "false" {
            return Kind::Truth;
        }
        match self.of_number(text) {
            Kind::Text => self.of_text(text),
            kind => kind,
        }
    }

    /// The kind of a number, or of a text.
    pub fn of_number(&self, text: &str) -> Kind
        ensures { result ≡ number_kind self.now.decimals text.now }
    {
        let digits = unsigned_part(text.as_bytes());
        if !is_plain(digits) {
            return Kind::Text;
        }
        let before = before_point(digits);
        let whole = whole_digits(digits, before);
        if are_digits(digits) {
            whole_kind(text, whole)
        } else if self.decimals {
            places_kind(text, whole, digits.len().saturating_sub(before + 1))
        } else {
            float_kind(text, digits, before)
        }
    }

    /// The kind of a text: a day, an instant, or a text.
    pub fn of_text(&self, text: &str) -> Kind
        ensures { result ≡ text_kind text.now }
    {
        if says(text, &days()) {
            return Kind::Day;
        }
        match moment_kind(text, true, &self.instant, &self.fine_instant) {
            Kind::Text => moment_kind(text, false, &self.clock, &self.fine_clock),
            kind => kind,
        }
    }

    /// The narrowest type of a kind.
    pub fn dtype(&self, kind: Kind, nullability: Nullability) -> Result<DType, AllocError>
        ensures { IfOk result (λ t. type_of t ≡ ty (atomic (kind_type kind)) (admits_null nullability)) }
    {
        Ok(match kind {
            Kind::Truth => DType::Bool(nullability),
            Kind::Number(numbers) => numbers_type(numbers, nullability),
            Kind::Float => DType::Float(FloatType::F64, nullability),
            Kind::Day => DType::Date(nullability),
            Kind::Instant(instants) => self.moment(instants).clone()?.with_nullability(nullability),
            Kind::Unknown | Kind::Text => DType::Utf8(nullability),
        })
    }

    // The type of instants.
    fn moment(&self, instants: Instants) -> &DType
        ensures { type_of result.now ≡ ty (atomic (kind_type (Instant instants))) false }
    {
        match (instants.zoned, instants.micros) {
            (true, true) => &self.instant,
            (true, false) => &self.fine_instant,
            (false, true) => &self.clock,
            (false, false) => &self.fine_clock,
        }
    }
}

// The type of days.
fn days() -> DType
    ensures { type_of result ≡ ty (atomic date) false }
{
    DType::Date(Nullability::NonNullable)
}

// The zone of instants.
fn utc(alloc: Global) -> Result<ArcStr, AllocError>
    ensures { IfOk result (λ name. arc_str_bytes name ≡ codes "UTC") }
{
    ArcStr::from_str(alloc, "UTC")
}

// The type of instants in that unit and of that zone, or of none.
fn moment(unit: TimeUnit, zone: Option<ArcStr>) -> DType
    ensures { type_of result ≡ ty (atomic (timestamp unit (option_map arc_str_bytes zone))) false }
{
    DType::Timestamp(TimestampType { unit, zone }, Nullability::NonNullable)
}

// Whether the text says a number of the type, as it is read.
fn says(text: &str, dtype: &DType) -> bool
    ensures { result ≡ says text.now (type_of dtype.now) }
{
    match number_said(text, dtype) {
        Some(number) => Value::Int(number).fits(dtype),
        None => false,
    }
}

// The kind of instants, by their types in microseconds and in nanoseconds.
fn moment_kind(text: &str, zoned: bool, micros: &DType, nanos: &DType) -> Kind
    requires micros { type_of micros.now ≡ moment Microseconds zoned }
    requires nanos { type_of nanos.now ≡ moment Nanoseconds zoned }
    ensures { result ≡ moment_kind zoned text.now }
{
    let instants = Instants {
        zoned,
        micros: !is_fine(text.as_bytes()) && says(text, micros),
        nanos: says(text, nanos),
    };
    instants.kind()
}

// Whether more than six digits stand behind the point of a second.
fn is_fine(text: &[u8]) -> bool
    ensures { result ≡ is_fine text.now }
{
    text.len() >= 27 && are_digits(&text[20..27])
}

// Whether each byte is a digit.
fn are_digits(bytes: &[u8]) -> bool
    ensures { result ≡ list_all is_ascii_digit bytes.now }
{
    bytes.iter().all(|byte| byte.is_ascii_digit())
}

// A number without its minus.
fn unsigned_part(text: &[u8]) -> &[u8]
    ensures { result.now ≡ unsigned_part text.now }
{
    if !text.is_empty() && text[0] == b'-' {
        &text[1..]
    } else {
        text
    }
}

// How many bytes stand before the point.
fn before_point(digits: &[u8]) -> usize
    ensures count { result ≡ before_point digits.now }
    ensures bound { result ≤ length digits.now }
{
    for i in 0..digits.len() {
        if digits[i] == b'.' {
            return i;
        }
    }
    digits.len()
}

// Whether digits are written as those of a number are: `007` may be more than a number.
fn is_plain(digits: &[u8]) -> bool
    ensures { result ≡ is_plain digits.now }
{
    digits.len() < 2 || digits[0] != b'0' || !digits[1].is_ascii_digit()
}

// How many of so many digits before the point count.
fn whole_digits(digits: &[u8], before: usize) -> usize
    ensures { result ≡ whole_digits digits.now before }
{
    if !digits.is_empty() && digits[0] == b'0' {
        0
    } else {
        before
    }
}

// The kind of a whole number of so many digits.
fn whole_kind(text: &str, whole: usize) -> Kind
    ensures { result ≡ whole_kind whole (decimal_read 0 text.now) }
{
    match read_decimal(text.as_bytes(), 0) {
        Some(number) => Kind::of_numbers(
            is_of(number, PType::I64),
            is_of(number, PType::U64),
            whole,
            None,
        ),
        None => Kind::Text,
    }
}

// Whether the number is one of the type.
fn is_of(number: i128, ptype: PType) -> bool
    ensures { result ≡ fits_ptype number ptype }
{
    Value::Int(number).fits(&DType::Primitive(ptype, Nullability::NonNullable))
}

// The kind of a number with so many digits before the point, and so many behind it.
fn places_kind(text: &str, whole: usize, places: usize) -> Kind
    ensures { result ≡ places_kind text.now whole places }
{
    if places > 38 {
        return Kind::Text;
    }
    let places = places as u8;
    if says(text, &decimal(places, Nullability::NonNullable)) {
        Kind::of_numbers(false, false, whole, Some(places))
    } else {
        Kind::Text
    }
}

// The kind of a number with a point or an exponent, whose digits have so many bytes before the point, and of any other text.
fn float_kind(text: &str, digits: &[u8], before: usize) -> Kind
    requires { before ≤ length digits.now }
    ensures { result ≡ float_kind text.now digits.now before }
{
    if has_digits(digits, before)
        && are_in_number(digits)
        && read_float(text.as_bytes(), FloatType::F64).is_some()
    {
        Kind::Float
    } else {
        Kind::Text
    }
}

// Whether a digit stands in front, and behind the point, if there is one.
fn has_digits(digits: &[u8], before: usize) -> bool
    requires { before ≤ length digits.now }
    ensures { result ≡ has_digits digits.now before }
{
    is_digit_at(digits, 0) && (before == digits.len() || is_digit_at(digits, before + 1))
}

// Whether a digit stands at that place.
fn is_digit_at(bytes: &[u8], place: usize) -> bool
    ensures { result ≡ is_ascii_digit (get_or bytes.now place 0) }
{
    place < bytes.len() && bytes[place].is_ascii_digit()
}

// Whether each byte may stand in a number: a digit, a point, or an exponent's letter or sign.
fn are_in_number(bytes: &[u8]) -> bool
    ensures { result ≡ list_all in_number bytes.now }
{
    bytes.iter().all(|byte| {
        byte.is_ascii_digit()
            || *byte == b'.'
            || *byte == b'e'
            || *byte == b'E'
            || *byte == b'+'
            || *byte == b'-'
    })
}

// The narrowest type of numbers.
fn numbers_type(numbers: Numbers, nullability: Nullability) -> DType
    ensures { type_of result ≡ ty (atomic (kind_type (Number numbers))) (admits_null nullability) }
{
    match numbers.places {
        Some(places) => decimal(places, nullability),
        None if numbers.signed => DType::Primitive(PType::I64, nullability),
        None if numbers.unsigned => DType::Primitive(PType::U64, nullability),
        None => DType::Utf8(nullability),
    }
}

// The type of decimals with so many digits behind the point, and room for more before it; of texts where there are more
// than 38.
fn decimal(places: u8, nullability: Nullability) -> DType
    ensures { type_of result ≡ ty (atomic (numbers_type false false (Some places))) (admits_null nullability) }
{
    match DecimalType::new(DecimalType::MAX_PRECISION, places) {
        Some(decimal) => DType::Decimal(decimal, nullability),
        None => DType::Utf8(nullability),
    }
}
