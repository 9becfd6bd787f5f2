// Which rows are null, and how many.
ghost use Rattle.std.specs.Prelude.{◌≡◌, count_by, get_or, map};
ghost use Rattle.std.proofs.Math.ListN.{replicate};
ghost use Rattle.vx_value.specs.Types.{bytes, is_null_datum, null};
ghost use Rattle.vx_value.specs.Views.{value_of};
ghost use Rattle.vx_array.specs.Kinds.{spans_in, text_row};
ghost use Rattle.vx_array.specs.Rows.{lanes_each, lanes_rows, structs_from};
ghost use Rattle.vx_array.specs.Shown.{shown};

use crate::values::{float_at, has_row, number_at, truth_at};
use crate::{Lanes, Spans, Stretch, Validity};
use std::str;
use vx_value::Value;

impl Lanes {
    /// Whether the row is null, as one is that isn't there. Reads the bytes of a text, which are null where they are
    /// none.
    pub fn is_null(&self, i: usize) -> bool
        ensures { result ≡ is_null_datum (get_or (lanes_rows self.now) i null) }
    {
        match self {
            Lanes::Same(value, count) => is_same_null(value.as_ref(), *count, i),
            Lanes::Values(values) => is_boxed_null(values.as_slice(), i),
            Lanes::Bools(values, validity) => truth_at(values, validity, i).is_null(),
            Lanes::Numbers(values, validity) => number_at(values, validity, i).is_null(),
            Lanes::Floats(values, validity) => float_at(values, validity, i).is_null(),
            Lanes::Texts(values, validity) => is_text_null(values, validity, i),
            Lanes::Octets(values, validity) => is_octets_null(values, validity, i),
            Lanes::Structs(fields, stretch, validity) => {
                is_struct_null(fields.as_slice(), *stretch, validity, i)
            }
        }
    }

    /// How many rows are null. Looks at each row.
    pub fn null_count(&self) -> usize
        ensures { result ≡ count_by is_null_datum (lanes_rows self.now) }
    {
        let mut nulls = 0;
        for i in 0..self.len() {
            if self.is_null(i) {
                nulls += 1;
            }
        }
        nulls
    }
}

// Whether there is no such row of so many, or their one value is null.
fn is_same_null(value: &Value, count: usize, i: usize) -> bool
    ensures { result ≡ is_null_datum (get_or (replicate count (value_of value.now)) i null) }
{
    i >= count || value.is_null()
}

// Whether the value at that place is null, or there is none.
fn is_boxed_null(values: &[Value], i: usize) -> bool
    ensures { result ≡ is_null_datum (get_or (map value_of values.now) i null) }
{
    match values.get(i) {
        Some(value) => value.is_null(),
        None => true,
    }
}

// Whether there is no valid text at that place.
fn is_text_null(spans: &Spans, validity: &Validity, i: usize) -> bool
    ensures { result ≡ is_null_datum (get_or (shown validity.now (map text_row (spans_in spans.now))) i null) }
{
    if has_row(validity, spans.len(), i) {
        return is_no_text(spans.span(i));
    }
    true
}

// Whether the bytes are no text.
fn is_no_text(bytes: &[u8]) -> bool
    ensures { result ≡ is_null_datum (text_row bytes.now) }
{
    match str::from_utf8(bytes) {
        Ok(_) => false,
        Err(_) => true,
    }
}

// Whether there are no valid bytes at that place.
fn is_octets_null(spans: &Spans, validity: &Validity, i: usize) -> bool
    ensures { result ≡ is_null_datum (get_or (shown validity.now (map bytes (spans_in spans.now))) i null) }
{
    !has_row(validity, spans.len(), i)
}

// Whether there is no valid struct at that place of the stretch. The fields are looked at by contracts alone.
fn is_struct_null(_fields: &[Lanes], stretch: Stretch, validity: &Validity, i: usize) -> bool
    ensures { result ≡ is_null_datum (get_or (shown validity.now (structs_from stretch.from stretch.len (lanes_each _fields.now))) i null) }
{
    !has_row(validity, stretch.len, i)
}
