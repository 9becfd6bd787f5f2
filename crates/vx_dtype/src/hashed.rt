// Equal types are hashed alike: what is fed depends on the type that is stood for alone.
ghost use Rattle.std.specs.Prelude.{◌≡◌, ℕ, fold};
ghost use Rattle.vx_dtype.specs.Types.{ptype_index};
ghost use Rattle.vx_dtype.specs.Hashes.{type_fed, fields_fed};
ghost use Rattle.vx_dtype.specs.Deciding.{type_alike, fields_alike};
ghost use Rattle.vx_dtype.specs.Views.{type_of, fields_of, fields_view};

use crate::fields::field_count;
use crate::{DType, FieldName, PType, StructFields};
use std::hash::{Hash, Hasher};

impl PType {
    // The place among the eight types.
    pub(crate) fn index(self) -> u8
        ensures { result ≡ ptype_index self }
    {
        match self {
            PType::U8 => 0,
            PType::U16 => 1,
            PType::U32 => 2,
            PType::U64 => 3,
            PType::I8 => 4,
            PType::I16 => 5,
            PType::I32 => 6,
            PType::I64 => 7,
        }
    }
}

// Feeds the type to the hasher.
#[cycle(feed)]
fn feed<H: Hasher>(t: &DType, state: &mut H)
    ensures { state.new ≡ fold H.write state.old (type_fed (type_of t.now)) }
{
    t.is_nullable().hash(state);
    match t {
        DType::Bool(_) => state.write_u8(0),
        DType::Primitive(p, _) => {
            state.write_u8(1);
            state.write_u8(p.index());
        }
        DType::Float(p, _) => {
            state.write_u8(10);
            state.write_u8(p.index());
        }
        DType::Decimal(decimal, _) => {
            state.write_u8(7);
            state.write_u8(decimal.precision());
            state.write_u8(decimal.scale());
        }
        DType::Date(_) => state.write_u8(8),
        DType::Timestamp(timestamp, _) => timestamp.feed(state),
        DType::Utf8(_) => state.write_u8(2),
        DType::Binary(_) => state.write_u8(3),
        DType::List(t, _) => {
            state.write_u8(4);
            feed(t.as_ref(), state);
        }
        DType::FixedSizeList(t, size, _) => {
            state.write_u8(5);
            state.write_u32(*size);
            feed(t.as_ref(), state);
        }
        DType::Struct(fields, _) => {
            state.write_u8(6);
            feed_all(fields.names.as_slice(), fields.types.as_slice(), state);
        }
    }
}

// Feeds the fields, and then that there are no more.
#[cycle(feed)]
fn feed_all<H: Hasher>(names: &[FieldName], types: &[DType], state: &mut H)
    ensures { state.new ≡ fold H.write state.old (fields_fed (fields_view names.now types.now)) }
{
    for i in 0..field_count(names, types) {
        state.write_u8(1);
        names[i].hash(state);
        feed(&types[i], state);
    }
    state.write_u8(0);
}

impl Hash for DType {
    ghost hash_input = { λ t. type_fed (type_of t) };

    ghost respects_eq = { λ x y. type_alike.fed (type_of x) (type_of y) };

    fn hash<H: Hasher>(&self, state: &mut H) {
        feed(self, state);
    }
}

impl Hash for StructFields {
    ghost hash_input = { λ s. fields_fed (fields_of s) };

    ghost respects_eq = { λ x y. fields_alike.fed (fields_of x) (fields_of y) };

    fn hash<H: Hasher>(&self, state: &mut H) {
        feed_all(self.names.as_slice(), self.types.as_slice(), state);
    }
}
