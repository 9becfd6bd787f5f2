// Days of the calendar, and their texts.
ghost use Rattle.std.specs.Prelude.{◌≡◌, ◌<◌, option_map, is_some, IfSome};
ghost use Rattle.jiff_core.specs.Calendar.{IsEpochDay};
ghost use Rattle.std.specs.Fmt.{WritesOnOk};
ghost use Rattle.vx_literals.specs.Dates.{civil_of};
ghost use Rattle.vx_literals.specs.Days.{civil, civil_at, civil_text, day_number, day_read, day_text};

use crate::digits::{number_of, write_last_digits};
use jiff_core::civil::Date;
use std::fmt;
use std::fmt::{Display, Formatter, Write};

// The first of January of the year 1, and the last of December of the year 9999.
const FIRST: i128 = -719_162;

const LAST: i128 = 2_932_896;

/// Writes the day, counted from the first of January 1970, as `2024-01-31`, or as its number outside the years 1 to
/// 9999. Takes no memory.
pub fn write_day<W: Write>(day: i128, f: &mut Formatter<W>) -> fmt::Result
    ensures { WritesOnOk W.write_str_gives f.old result (day_text day) f.new }
{
    match date_at(day) {
        Some(date) => write_date(date, f),
        None => day.fmt(f),
    }
}

/// Whether the day, counted from the first of January 1970, lies in the years 1 to 9999, so that it has a text.
pub fn has_day_text(day: i128) -> bool
    ensures { result ≡ is_some (civil_at day) }
{
    date_at(day).is_some()
}

// The date of the day, in the years 1 to 9999.
pub(crate) fn date_at(day: i128) -> Option<Date>
    ensures { option_map civil_of result ≡ civil_at day }
{
    if day < FIRST || LAST < day {
        return None;
    }
    match Date::from_unix_epoch_day(day as i64) {
        Ok(date) => Some(date),
        Err(_) => None,
    }
}

// Writes the date, in a year from 0 on, as `2024-01-31`.
pub(crate) fn write_date<W: Write>(date: Date, f: &mut Formatter<W>) -> fmt::Result
    ensures { WritesOnOk W.write_str_gives f.old result (civil_text (civil_of date)) f.new }
{
    let year = u128::from(date.year.unsigned_abs());
    write_civil(year, u128::from(date.month), u128::from(date.day), f)
}

// Writes the year by four digits, the month and the day by two.
fn write_civil<W: Write>(year: u128, month: u128, day: u128, f: &mut Formatter<W>) -> fmt::Result
    ensures { WritesOnOk W.write_str_gives f.old result (civil_text (civil year month day)) f.new }
{
    write_last_digits(year, 4, f)?;
    f.write_str("-")?;
    write_last_digits(month, 2, f)?;
    f.write_str("-")?;
    write_last_digits(day, 2, f)
}

/// The day, counted from the first of January 1970, of a text as `2024-01-31`. None where it is no such text, or of no day of
/// the calendar in the years 1 to 9999.
pub fn read_day(text: &[u8]) -> Option<i128>
    ensures day { result ≡ day_read text.now }
    ensures bound { IfSome result IsEpochDay }
{
    if text.len() != 10 || text[4] != b'-' || text[7] != b'-' {
        return None;
    }
    let year = number_of(&text[..4])?;
    let month = number_of(&text[5..7])?;
    let day = number_of(&text[8..10])?;
    day_number(year, month, day)
}

// The number of the day, if the calendar has it. Asks numbers of four digits and of two.
fn day_number(year: u128, month: u128, day: u128) -> Option<i128>
    requires year { year < 10_000 }
    requires month { month < 100 }
    requires day { day < 100 }
    ensures number { result ≡ day_number year month day }
    ensures bound { IfSome result IsEpochDay }
{
    if year == 0 {
        return None;
    }
    match Date::new(year as i16, month as i8, day as i8) {
        Ok(date) => Some(i128::from(date.to_unix_epoch_day())),
        Err(_) => None,
    }
}
