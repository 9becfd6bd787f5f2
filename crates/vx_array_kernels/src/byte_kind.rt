// Texts and bytes, as which rows of bytes are read.
ghost use Rattle.std.specs.Prelude.{◌≡◌, ℕ, IfSome, List, map};
ghost use Rattle.vx_value.specs.Types as types;
ghost use Rattle.vx_value.specs.Types.{Datum};
ghost use Rattle.vx_value.specs.Views.{value_of};
ghost use Rattle.vx_array.specs.Kinds.{spans_in, text_row};
ghost use Rattle.vx_array.specs.Rows.{lanes_rows};
ghost use Rattle.vx_array.specs.Shown.{shown};
ghost use Rattle.vx_array_kernels.specs.ByteRows.{shown_row};

use vx_array::{Lanes, Spans, Validity};
use vx_value::Value;

/// What rows of bytes are.
pub trait ByteKind: Drop {
    /// The value of a row with these bytes.
    ghost datum: { List ℕ → Datum };

    /// The bytes of a value, beside whether it isn't null, if it is null or of the kind.
    fn bytes_of(value: &Value) -> Option<(&[u8], bool)>
        ensures { IfSome result (λ row. shown_row datum row.1 row.0.now ≡ value_of value.now) };

    /// The bytes of lanes of the kind in a buffer, and which rows are valid.
    fn spans_of(lanes: &Lanes) -> Option<(&Spans, &Validity)>
        ensures { IfSome result (λ found. lanes_rows lanes.now ≡ shown found.1.now (map datum (spans_in found.0.now))) };

    /// The rows as lanes, null where they aren't valid.
    fn lanes(spans: Spans, validity: Validity) -> Lanes
        ensures { lanes_rows result ≡ shown validity (map datum (spans_in spans)) };
}

/// Texts. Bytes that aren't UTF-8 are null.
#[derive(Drop)]
pub struct TextKind;

impl ByteKind for TextKind {
    ghost datum = { text_row };

    #[inline(always)]
    fn bytes_of(value: &Value) -> Option<(&[u8], bool)> {
        match value {
            Value::Null => Some(("".as_bytes(), false)),
            Value::Utf8(text) => Some((text.as_str().as_bytes(), true)),
            _ => None,
        }
    }

    #[inline(always)]
    fn spans_of(lanes: &Lanes) -> Option<(&Spans, &Validity)> {
        match lanes {
            Lanes::Texts(spans, validity) => Some((spans, validity)),
            _ => None,
        }
    }

    fn lanes(spans: Spans, validity: Validity) -> Lanes {
        Lanes::Texts(spans, validity)
    }
}

/// Bytes.
#[derive(Drop)]
pub struct OctetKind;

impl ByteKind for OctetKind {
    ghost datum = { types.bytes };

    #[inline(always)]
    fn bytes_of(value: &Value) -> Option<(&[u8], bool)> {
        match value {
            Value::Null => Some(("".as_bytes(), false)),
            Value::Binary(bytes) => Some((bytes.as_slice(), true)),
            _ => None,
        }
    }

    #[inline(always)]
    fn spans_of(lanes: &Lanes) -> Option<(&Spans, &Validity)> {
        match lanes {
            Lanes::Octets(spans, validity) => Some((spans, validity)),
            _ => None,
        }
    }

    fn lanes(spans: Spans, validity: Validity) -> Lanes {
        Lanes::Octets(spans, validity)
    }
}
