// What is written of days, instants and decimals is read back.
ghost use Rattle.std.specs.Prelude.{◌≡◌, ◌<◌, ◌≤◌, ◌^◌, Some, IsSome, pos, unsigned_abs};
ghost use Rattle.std.specs.Int.{int_div_euclid};
ghost use Rattle.vx_dtype.specs.Timestamps.{zone_name};
ghost use Rattle.vx_literals.specs.Decimals.{decimal_read, decimal_text};
ghost use Rattle.vx_literals.specs.Days.{Civil, civil_at, civil_text, day_read};
ghost use Rattle.vx_literals.specs.Instants.{instant_read, instant_text, units_a_day};

use vx_dtype::TimestampType;

/// The text of a day of the years 1 to 9999 is read as that day.
pub fn days_are_read_back(day: i128)
    ensures { (c : Civil) → civil_at day ≡ Some c → day_read (civil_text c) ≡ Some day }
{}

/// The text of a decimal of at most 38 digits is read as that decimal.
pub fn decimals_are_read_back(units: i128, scale: u8)
    requires { scale ≤ 38 }
    ensures { unsigned_abs units < 10 ^ 38 → decimal_read scale (decimal_text units scale) ≡ Some units }
{}

/// The text of an instant of the years 1 to 9999 is read as that instant.
pub fn instants_are_read_back(instant: i128, t: &TimestampType)
    ensures { IsSome (civil_at (int_div_euclid instant (pos (units_a_day t.now.unit)))) → instant_read t.now.unit (zone_name t.now) (instant_text t.now.unit (zone_name t.now) instant) ≡ Some instant }
{}
