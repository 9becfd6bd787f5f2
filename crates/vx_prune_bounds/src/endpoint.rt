// Values that can be compared, lent.
ghost use Rattle.std.specs.Prelude.{◌≡◌, option_map};
ghost use Rattle.vx_value.specs.Types.{float, utf8};
ghost use Rattle.vx_value.specs.Views.{value_of};
ghost use Rattle.vx_prune_bounds.specs.Order.{at_most, below, comparable};

use vx_floats::Float;
use vx_value::Value;

/// A value that can be compared, lent: an end of bounds.
#[derive(Clone, Copy, Debug)]
pub enum Endpoint<'a> {
    /// A truth value.
    Bool(bool),
    /// A whole number.
    Int(i128),
    /// A floating-point number.
    Float(Float),
    /// A text.
    Text(&'a str),
    /// Bytes.
    Bytes(&'a [u8]),
}

impl<'a> Endpoint<'a> {
    ghost use Rattle.vx_prune_bounds.specs.Views.{endpoint_value};

    /// The value, lent, if it is one that can be compared: a truth value, a whole number, a
    /// floating-point number that is no NaN but the quiet one, a text or bytes. Takes no memory.
    pub fn of(value: &'a Value) -> Option<Endpoint<'a>>
        ensures { option_map endpoint_value result ≡ comparable (value_of value.now) }
    {
        match value {
            Value::Bool(b) => Some(Endpoint::Bool(*b)),
            Value::Int(i) => Some(Endpoint::Int(*i)),
            Value::Float(x) => Endpoint::of_float(*x),
            Value::Utf8(text) => Some(Endpoint::Text(text.as_str())),
            Value::Binary(bytes) => Some(Endpoint::Bytes(bytes.as_slice())),
            Value::Null | Value::List(_) | Value::Struct(_) => None,
        }
    }

    // The number, if it is no NaN but the quiet one.
    fn of_float(x: Float) -> Option<Endpoint<'a>>
        ensures { option_map endpoint_value result ≡ comparable (float x) }
    {
        if is_float_at_most(x, x) {
            Some(Endpoint::Float(x))
        } else {
            None
        }
    }

    /// Whether both are of one kind, and this one comes before the other or is equal to it. Takes
    /// no memory.
    pub fn at_most(&self, other: &Endpoint) -> bool
        ensures { result ≡ at_most (endpoint_value self.now) (endpoint_value other.now) }
    {
        match self {
            Endpoint::Bool(a) => match other {
                Endpoint::Bool(b) => a.cmp(b).is_le(),
                _ => false,
            },
            Endpoint::Int(a) => match other {
                Endpoint::Int(b) => a.cmp(b).is_le(),
                _ => false,
            },
            Endpoint::Float(a) => match other {
                Endpoint::Float(b) => is_float_at_most(*a, *b),
                _ => false,
            },
            Endpoint::Text(a) => match other {
                Endpoint::Text(b) => is_text_at_most(a, b),
                _ => false,
            },
            Endpoint::Bytes(a) => match other {
                Endpoint::Bytes(b) => a.cmp(b).is_le(),
                _ => false,
            },
        }
    }

    /// Whether both are of one kind, and this one comes before the other. Takes no memory.
    pub fn below(&self, other: &Endpoint) -> bool
        ensures { result ≡ below (endpoint_value self.now) (endpoint_value other.now) }
    {
        self.at_most(other) && !other.at_most(self)
    }
}

// Whether the number comes before the other in IEEE 754's total order, or is equal to it, each NaN
// being the quiet one.
fn is_float_at_most(a: Float, b: Float) -> bool
    ensures { result ≡ at_most (float a) (float b) }
{
    a.is_canonical() && b.is_canonical() && a.total_order(b).is_le()
}

// Whether the text comes before the other by its bytes, or is equal to it.
fn is_text_at_most(a: &str, b: &str) -> bool
    ensures { result ≡ at_most (utf8 a.now) (utf8 b.now) }
{
    a.cmp(b).is_le()
}
