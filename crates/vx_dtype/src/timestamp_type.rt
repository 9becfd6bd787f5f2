// The types of instants.
ghost use Rattle.std.specs.Prelude.{◌≡◌, Some, fold};
ghost use Rattle.std.specs.Fmt.{WritesOnOk};
ghost use Rattle.vx_dtype.specs.Hashes.{atomic_fed};
ghost use Rattle.vx_dtype.specs.Texts.{atomic_text, unit_text, zone_text};
ghost use Rattle.vx_dtype.specs.Timestamps.{instants, zone_name};
ghost use Rattle.vx_dtype.specs.Types.{same_atomic, same_zone, unit_index};

use crate::quotes::write_quoted;
use std::alloc::AllocError;
use std::fmt;
use std::fmt::{Display, Formatter, Write};
use std::hash::{Hash, Hasher};
use std::sync::ArcStr;

/// What instants are counted in.
#[derive(Clone, Copy, Debug, PartialEq, Eq, Hash)]
pub enum TimeUnit {
    /// Seconds.
    Seconds,
    /// Thousandths of a second.
    Milliseconds,
    /// Millionths of a second.
    Microseconds,
    /// Billionths of a second.
    Nanoseconds,
}

/// The type of instants: what they are counted in, and the name of the zone in which they are shown. Those
/// without a zone are the time on a clock, wherever that is. Clones share the name.
#[derive(Debug)]
pub struct TimestampType {
    /// What the instants are counted in.
    pub unit: TimeUnit,
    /// The name of the zone, if there is one.
    pub zone: Option<ArcStr>,
}

impl Drop for TimestampType {
    fn drop(self) {
        let TimestampType { unit: _, zone } = self;
        drop(zone);
    }
}

impl Clone for TimestampType {
    ghost is_clone = { λ t copy. instants copy ≡ instants t };

    fn clone(&self) -> Result<TimestampType, AllocError> {
        let zone = match &self.zone {
            Some(name) => Some(name.clone()?),
            None => None,
        };
        Ok(TimestampType {
            unit: self.unit,
            zone,
        })
    }
}

impl TimeUnit {
    // The place among the units.
    pub(crate) fn index(self) -> u8
        ensures { result ≡ unit_index self }
    {
        match self {
            TimeUnit::Seconds => 0,
            TimeUnit::Milliseconds => 1,
            TimeUnit::Microseconds => 2,
            TimeUnit::Nanoseconds => 3,
        }
    }

    /// The text of the unit, as `ms`.
    pub fn as_str(self) -> &'static str
        ensures { result.now ≡ unit_text self }
    {
        match self {
            TimeUnit::Seconds => "s",
            TimeUnit::Milliseconds => "ms",
            TimeUnit::Microseconds => "us",
            TimeUnit::Nanoseconds => "ns",
        }
    }
}

impl TimestampType {
    // Whether the types have one unit and one zone.
    pub(crate) fn is_same(&self, other: &TimestampType) -> bool
        ensures { result ≡ same_atomic (instants self.now) (instants other.now) }
    {
        self.unit.index() == other.unit.index() && self.is_in_zone_of(other)
    }

    // Whether the zones have one name, or there is none.
    fn is_in_zone_of(&self, other: &TimestampType) -> bool
        ensures { result ≡ same_zone (zone_name self.now) (zone_name other.now) }
    {
        match (&self.zone, &other.zone) {
            (None, None) => true,
            (Some(name), Some(other)) => name == other,
            _ => false,
        }
    }

    // Feeds the type to the hasher.
    pub(crate) fn feed<H: Hasher>(&self, state: &mut H)
        ensures { state.new ≡ fold H.write state.old (atomic_fed (instants self.now)) }
    {
        state.write_u8(9);
        state.write_u8(self.unit.index());
        match &self.zone {
            None => state.write_u8(0),
            Some(name) => {
                state.write_u8(1);
                name.hash(state);
            }
        }
    }
}

impl Display for TimestampType {
    ghost output = { λ t. Some (atomic_text (instants t)) };

    fn fmt<W: Write>(&self, f: &mut Formatter<W>) -> fmt::Result {
        f.write_str("timestamp(")?;
        f.write_str(self.unit.as_str())?;
        write_zone(self, f)?;
        f.write_str(")")
    }
}

// Writes the zone behind a comma, if there is one.
fn write_zone<W: Write>(t: &TimestampType, f: &mut Formatter<W>) -> fmt::Result
    ensures { WritesOnOk W.write_str_gives f.old result (zone_text (zone_name t.now)) f.new }
{
    match &t.zone {
        None => Ok(()),
        Some(name) => {
            f.write_str(", ")?;
            write_quoted(name.as_str(), '"', f)
        }
    }
}
