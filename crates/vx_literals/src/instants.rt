// Instants as texts.
ghost use Rattle.std.specs.Prelude.{◌≡◌, ◌<◌, ◌≤◌, ◌^◌, ◌*ℤ◌, IfSome, Some, is_some, option_map, pos};
ghost use Rattle.std.specs.Int.{int_div_euclid};
ghost use Rattle.std.specs.Arc.{arc_str_bytes};
ghost use Rattle.std.specs.Fmt.{WritesOnOk};
ghost use Rattle.vx_dtype.specs.Timestamps.{zone_name};
ghost use Rattle.jiff_core.specs.Calendar.{IsEpochDay, IsWithin};
ghost use Rattle.vx_literals.specs.Dates.{civil_of};
ghost use Rattle.vx_literals.specs.Days.{civil_at};
ghost use Rattle.vx_literals.specs.Digits.{digits_in_front};
ghost use Rattle.vx_literals.specs.Instants.{clock_read, instant_of, instant_read, instant_text, is_separator, is_zulu, moment_read, moment_text, offset_read, part_text, part_units, parts_read, second_of, second_read, time_text, unit_places, units_a_day, units_a_second, zone_mark};

use crate::days::{date_at, read_day, write_date};
use crate::decimals::units_of;
use crate::digits::{begin_with, in_front, number_of, write_last_digits};
use jiff_core::civil::Date;
use std::fmt;
use std::fmt::{Display, Formatter, Write};
use std::sync::ArcStr;
use vx_dtype::{TimeUnit, TimestampType};

/// Writes the instant of that type, counted from 1970 in its unit, as `2024-01-31T10:15:30.250Z`, without
/// the `Z` where the type has no zone, or as its number outside the years 1 to 9999. Takes no memory.
pub fn write_instant<W: Write>(
    instant: i128,
    t: &TimestampType,
    f: &mut Formatter<W>,
) -> fmt::Result
    ensures { WritesOnOk W.write_str_gives f.old result (instant_text t.now.unit (zone_name t.now) instant) f.new }
{
    let a_day = i128::from(units_a_day(t.unit));
    match date_at(instant.div_euclid(a_day)) {
        Some(date) => write_moment(date, instant.rem_euclid(a_day).unsigned_abs(), t, f),
        None => instant.fmt(f),
    }
}

/// Whether the instant of that unit, counted from 1970, lies in the years 1 to 9999, so that it has a text.
pub fn has_instant_text(instant: i128, unit: TimeUnit) -> bool
    ensures { result ≡ is_some (civil_at (int_div_euclid instant (pos (units_a_day unit)))) }
{
    date_at(instant.div_euclid(i128::from(units_a_day(unit)))).is_some()
}

// Writes the instant so many units behind the beginning of the day.
fn write_moment<W: Write>(
    date: Date,
    units: u128,
    t: &TimestampType,
    f: &mut Formatter<W>,
) -> fmt::Result
    ensures { WritesOnOk W.write_str_gives f.old result (moment_text t.now.unit (zone_name t.now) units (civil_of date)) f.new }
{
    write_date(date, f)?;
    f.write_str("T")?;
    write_time(units, t.unit, f)?;
    f.write_str(zone_mark(t))
}

// Writes the time so many units behind the beginning of a day, as `10:15:30.250`.
fn write_time<W: Write>(units: u128, unit: TimeUnit, f: &mut Formatter<W>) -> fmt::Result
    ensures { WritesOnOk W.write_str_gives f.old result (time_text unit units) f.new }
{
    let seconds = units / u128::from(units_a_second(unit));
    write_last_digits(seconds / 3_600, 2, f)?;
    f.write_str(":")?;
    write_last_digits(seconds / 60 % 60, 2, f)?;
    f.write_str(":")?;
    write_last_digits(seconds % 60, 2, f)?;
    write_part(units, unit, f)
}

// Writes the part of a second, where there is one.
fn write_part<W: Write>(units: u128, unit: TimeUnit, f: &mut Formatter<W>) -> fmt::Result
    ensures { WritesOnOk W.write_str_gives f.old result (part_text unit units) f.new }
{
    if units % u128::from(units_a_second(unit)) == 0 {
        return Ok(());
    }
    f.write_str(".")?;
    write_last_digits(units, unit_places(unit), f)
}

// How many digits behind the point of a second the unit is.
fn unit_places(unit: TimeUnit) -> u8
    ensures places { result ≡ unit_places unit }
    ensures bound { result ≤ 9 }
{
    match unit {
        TimeUnit::Seconds => 0,
        TimeUnit::Milliseconds => 3,
        TimeUnit::Microseconds => 6,
        TimeUnit::Nanoseconds => 9,
    }
}

/// How many of the unit are a second.
pub fn units_a_second(unit: TimeUnit) -> u64
    ensures units { result ≡ units_a_second unit }
    ensures some { 0 < result }
    ensures bound { result ≤ 1_000_000_000 }
{
    match unit {
        TimeUnit::Seconds => 1,
        TimeUnit::Milliseconds => 1_000,
        TimeUnit::Microseconds => 1_000_000,
        TimeUnit::Nanoseconds => 1_000_000_000,
    }
}

// How many of the unit are a day.
fn units_a_day(unit: TimeUnit) -> u64
    ensures units { result ≡ units_a_day unit }
    ensures some { 0 < result }
    ensures bound { result ≤ 86_400_000_000_000 }
{
    86_400 * units_a_second(unit)
}

// The mark of an instant, which a time on a clock has not.
fn zone_mark(t: &TimestampType) -> &'static str
    ensures { result.now ≡ zone_mark (zone_name t.now) }
{
    match &t.zone {
        None => "",
        Some(_) => "Z",
    }
}

/// The instant, counted from 1970 in the type's unit, of a text as RFC 3339 has it: `2024-01-31T10:15:30.25Z`, with an offset
/// (`+02:00`) or `Z` where the type has a zone, and with none where it has not; a blank may stand for the `T`. None where it
/// is no such text, of no day of the years 1 to 9999, or has a part of a second that the unit hasn't.
pub fn read_instant(text: &[u8], t: &TimestampType) -> Option<i128>
    ensures { result ≡ instant_read t.now.unit (zone_name t.now) text.now }
{
    if text.len() < 19 || !is_separator(text[10]) {
        return None;
    }
    let day = read_day(&text[..10])?;
    let second = read_second(&text[11..19])?;
    read_moment(day, second, &text[19..], t)
}

// Whether the byte may stand between a day and a time.
fn is_separator(byte: u8) -> bool
    ensures { result ≡ is_separator byte }
{
    byte == b'T' || byte == b't' || byte == b' '
}

// The second of the day of a text as `10:15:30`.
fn read_second(text: &[u8]) -> Option<u64>
    ensures second { result ≡ second_read text.now }
    ensures bound { IfSome result (λ s. s < 86_400) }
{
    if text.len() != 8 || text[2] != b':' || text[5] != b':' {
        return None;
    }
    let hour = number_of(&text[..2])?;
    let minute = number_of(&text[3..5])?;
    let second = number_of(&text[6..8])?;
    second_of(hour, minute, second)
}

// The second of the day, if there is one.
fn second_of(hour: u128, minute: u128, second: u128) -> Option<u64>
    ensures second { result ≡ second_of hour minute second }
    ensures bound { IfSome result (λ s. s < 86_400) }
{
    if hour < 24 && minute < 60 && second < 60 {
        Some(3_600 * hour as u64 + 60 * minute as u64 + second as u64)
    } else {
        None
    }
}

// The instant in that second of that day, by what is behind them: a part of a second, and an offset.
fn read_moment(day: i128, second: u64, rest: &[u8], t: &TimestampType) -> Option<i128>
    requires day { IsEpochDay day }
    requires second { second < 86_400 }
    ensures { result ≡ moment_read t.now.unit (zone_name t.now) (Some day) (Some second) rest.now }
{
    if begin_with(rest, b'.') {
        return read_part(day, second, &rest[1..], t);
    }
    let offset = read_offset(rest, &t.zone)?;
    Some(instant_of(day, second, 0, offset, t.unit))
}

// The same, by what is behind a point.
fn read_part(day: i128, second: u64, behind: &[u8], t: &TimestampType) -> Option<i128>
    requires day { IsEpochDay day }
    requires second { second < 86_400 }
    ensures { result ≡ parts_read t.now.unit (zone_name t.now) (Some day) (Some second) behind.now (digits_in_front behind.now) }
{
    let count = in_front(behind, b'0', b'9');
    let part = part_units(&behind[..count], t.unit)?;
    let offset = read_offset(&behind[count..], &t.zone)?;
    Some(instant_of(day, second, part, offset, t.unit))
}

// The units of the digits behind the point of a second.
fn part_units(digits: &[u8], unit: TimeUnit) -> Option<u128>
    ensures units { result ≡ part_units unit digits.now }
    ensures bound { IfSome result (λ n. n < 10 ^ 38) }
{
    if digits.is_empty() {
        return None;
    }
    units_of(&[], digits, unit_places(unit))
}

// The offset, in seconds to the east, of what ends a text: of an instant, or of a time on a clock.
fn read_offset(text: &[u8], zone: &Option<ArcStr>) -> Option<i128>
    ensures offset { result ≡ offset_read (option_map arc_str_bytes zone.now) text.now }
    ensures bound { IfSome result (IsWithin 86_400) }
{
    match zone {
        None if text.is_empty() => Some(0),
        None => None,
        Some(_) if is_zulu(text) => Some(0),
        Some(_) => read_clock(text),
    }
}

// Whether the text is `Z`.
fn is_zulu(text: &[u8]) -> bool
    ensures { result ≡ is_zulu text.now }
{
    text.len() == 1 && (text[0] == b'Z' || text[0] == b'z')
}

// The seconds of hours and minutes, as `+02:00`.
fn read_clock(text: &[u8]) -> Option<i128>
    ensures clock { result ≡ clock_read text.now }
    ensures bound { IfSome result (IsWithin 86_400) }
{
    if text.len() != 6 || !(text[0] == b'+' || text[0] == b'-') || text[3] != b':' {
        return None;
    }
    let hours = number_of(&text[1..3])?;
    let minutes = number_of(&text[4..6])?;
    let seconds = i128::from(second_of(hours, minutes, 0)?);
    Some(if text[0] == b'-' { -seconds } else { seconds })
}

// The units from 1970 to that part of that second of the day, at an offset.
fn instant_of(day: i128, second: u64, part: u128, offset: i128, unit: TimeUnit) -> i128
    requires day { IsEpochDay day }
    requires second { second < 86_400 }
    requires part { part < 10 ^ 38 }
    requires offset { IsWithin 86_400 offset }
    ensures { result ≡ instant_of unit day second part offset }
{
    in_units(day * 86_400 + i128::from(second) - offset, unit) + part as i128
}

// So many seconds in the unit.
fn in_units(seconds: i128, unit: TimeUnit) -> i128
    requires { IsWithin 1_000_000_000_000 seconds }
    ensures units { result ≡ seconds *ℤ pos (units_a_second unit) }
    ensures bound { IsWithin 1_000_000_000_000_000_000_000 result }
{
    match unit {
        TimeUnit::Seconds => seconds,
        TimeUnit::Milliseconds => seconds * 1_000,
        TimeUnit::Microseconds => seconds * 1_000_000,
        TimeUnit::Nanoseconds => seconds * 1_000_000_000,
    }
}
