// What decimals and timestamps are made of, token by token.
ghost use Rattle.std.specs.Prelude.{◌≡◌, ◌&&◌, nat_le, false, None, MatchOption};
ghost use Rattle.vx_dtype.specs.Types.{decimals, timestamp};
ghost use Rattle.vx_dtype.specs.Views.{type_of};
ghost use Rattle.vx_source_types.specs.Views.{lexeme_of};
ghost use Rattle.vx_source_types.specs.Reading.{ReadsAt};
ghost use Rattle.vx_source_types.specs.TypeReading as reading;
ghost use Rattle.vx_source_types.specs.TypeViews.{frames_of, mode_of, step_of};

use crate::error::ParseError;
use crate::expectation::Expected;
use crate::first::Found;
use crate::state::{expected, refusal};
use crate::token::{Sign, Token};
use crate::type_reader::{Around, length_of, more};
use crate::type_state::{TypeMode, TypeStep};
use crate::type_words::unit_word;
use std::alloc::Global;
use std::sync::ArcStr;
use vx_dtype::{DType, DecimalType, Nullability, TimeUnit, TimestampType};

// The bracket before the parts, with what is due behind it.
pub(crate) fn parts_open(
    around: Around,
    mode: TypeMode,
    found: &Found,
) -> Result<TypeStep, ParseError>
    ensures { ReadsAt found.now.at step_of result (reading.parts_open (frames_of around.frames.items) around.room (mode_of mode) (lexeme_of found.now.token)) }
{
    match &found.token {
        Token::Sign(Sign::OpenParen) => Ok(more(around, mode)),
        _ => Err(refusal(found, Expected::OpenParen)),
    }
}

// The bracket behind the parts of the type. Asks one without parts, which isn't nullable.
pub(crate) fn parts_close(
    around: Around,
    dtype: DType,
    found: &Found,
) -> Result<TypeStep, ParseError>
    ensures { ReadsAt found.now.at step_of result (reading.parts_close (frames_of around.frames.items) around.room (type_of dtype) (lexeme_of found.now.token)) }
{
    match &found.token {
        Token::Sign(Sign::CloseParen) => Ok(more(around, TypeMode::Unmarked(dtype))),
        _ => Err(refusal(found, Expected::CloseParen)),
    }
}

// More of the parts behind a comma, or the bracket behind those of the type.
fn parts_go_on(
    around: Around,
    dtype: DType,
    mode: TypeMode,
    found: &Found,
) -> Result<TypeStep, ParseError>
    ensures { ReadsAt found.now.at step_of result (reading.parts_go_on (frames_of around.frames.items) around.room (type_of dtype) (mode_of mode) (lexeme_of found.now.token)) }
{
    match &found.token {
        Token::Sign(Sign::Comma) => Ok(more(around, mode)),
        Token::Sign(Sign::CloseParen) => Ok(more(around, TypeMode::Unmarked(dtype))),
        _ => Err(refusal(found, Expected::CommaOrParen)),
    }
}

// The precision of a decimal.
pub(crate) fn precision_at(around: Around, found: &Found) -> Result<TypeStep, ParseError>
    ensures { ReadsAt found.now.at step_of result (reading.precision_read (frames_of around.frames.items) around.room (lexeme_of found.now.token) (reading.length_at (lexeme_of found.now.token))) }
{
    match length_of(&found.token) {
        Some(precision) => match decimal_of(precision, 0) {
            Some(decimal) => Ok(more(around, TypeMode::PrecisionEnds(decimal))),
            None => Err(expected(found, Expected::Precision)),
        },
        None => Err(refusal(found, Expected::Precision)),
    }
}

// The decimals of that precision and scale, if there are any.
fn decimal_of(precision: u32, scale: u32) -> Option<DecimalType>
    ensures { MatchOption result ((nat_le 1 precision && nat_le precision 38 && nat_le scale precision) ≡ false) (λ d. (d.precision ≡ precision) × (d.scale ≡ scale)) }
{
    let precision = u8::try_from(precision).ok()?;
    let scale = u8::try_from(scale).ok()?;
    DecimalType::new(precision, scale)
}

// What follows the precision.
pub(crate) fn precision_ends(
    around: Around,
    decimal: DecimalType,
    found: &Found,
) -> Result<TypeStep, ParseError>
    ensures { ReadsAt found.now.at step_of result (reading.parts_go_on (frames_of around.frames.items) around.room (reading.plain (decimals decimal.precision 0)) (reading.scale_due decimal.precision) (lexeme_of found.now.token)) }
{
    match decimal_of(u32::from(decimal.precision()), 0) {
        Some(whole) => {
            let dtype = DType::Decimal(whole, Nullability::NonNullable);
            parts_go_on(around, dtype, TypeMode::Scale(decimal), found)
        }
        None => Err(expected(found, Expected::Precision)),
    }
}

// The scale of a decimal of that precision.
pub(crate) fn scale_at(
    around: Around,
    decimal: DecimalType,
    found: &Found,
) -> Result<TypeStep, ParseError>
    ensures { ReadsAt found.now.at step_of result (reading.scale_read (frames_of around.frames.items) around.room decimal.precision (lexeme_of found.now.token) (reading.length_at (lexeme_of found.now.token))) }
{
    match length_of(&found.token) {
        Some(scale) => match decimal_of(u32::from(decimal.precision()), scale) {
            Some(decimal) => Ok(more(around, TypeMode::ScaleCloses(decimal))),
            None => Err(expected(found, Expected::Scale)),
        },
        None => Err(refusal(found, Expected::Scale)),
    }
}

// The unit of a timestamp.
pub(crate) fn unit_at(around: Around, found: &Found) -> Result<TypeStep, ParseError>
    ensures { ReadsAt found.now.at step_of result (reading.unit_read (frames_of around.frames.items) around.room (lexeme_of found.now.token) (reading.unit_at (lexeme_of found.now.token))) }
{
    match unit_of(&found.token) {
        Some(unit) => Ok(more(around, TypeMode::UnitEnds(unit))),
        None => Err(refusal(found, Expected::Unit)),
    }
}

// The unit that the token is.
fn unit_of(token: &Token) -> Option<TimeUnit>
    ensures { result ≡ reading.unit_at (lexeme_of token.now) }
{
    match token {
        Token::Word(name) => unit_word(name),
        _ => None,
    }
}

// What follows the unit.
pub(crate) fn unit_ends(
    around: Around,
    unit: TimeUnit,
    found: &Found,
) -> Result<TypeStep, ParseError>
    ensures { ReadsAt found.now.at step_of result (reading.parts_go_on (frames_of around.frames.items) around.room (reading.plain (timestamp unit None)) (reading.zone_due unit) (lexeme_of found.now.token)) }
{
    let dtype = DType::Timestamp(TimestampType { unit, zone: None }, Nullability::NonNullable);
    parts_go_on(around, dtype, TypeMode::Zone(unit), found)
}

// The zone behind the unit.
pub(crate) fn zone_at(
    alloc: Global,
    around: Around,
    unit: TimeUnit,
    found: &Found,
) -> Result<TypeStep, ParseError>
    ensures { ReadsAt found.now.at step_of result (reading.zone_at (frames_of around.frames.items) around.room unit (lexeme_of found.now.token)) }
{
    match &found.token {
        Token::Text(text) => {
            let zone = ArcStr::from_str(alloc, text.as_str())?;
            Ok(more(around, TypeMode::ZoneCloses(unit, zone)))
        }
        _ => Err(refusal(found, Expected::Zone)),
    }
}
