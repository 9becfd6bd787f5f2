// The rows of a column in buffers.
ghost use Rattle.std.specs.Prelude.{◌≡◌, ◌≤◌, ◌+◌, IfOk, length, take, drop};
ghost use Rattle.vx_array.specs.Rows.{lanes_rows};

use crate::{BitPart, Floats, Numbers, Part, Spans, Stretch, Validity};
use std::alloc::AllocError;
use std::sync::Arc;
use vx_value::Value;

/// The rows of a column in buffers, without their type. Clones and slices share the buffers.
#[cycle(lanes)]
#[derive(Debug)]
pub enum Lanes {
    /// One value in so many rows.
    Same(Arc<Value>, usize),
    /// Values of any kind.
    Values(Part<Value>),
    /// Truth values.
    Bools(BitPart, Validity),
    /// Whole numbers.
    Numbers(Numbers, Validity),
    /// Floating-point numbers.
    Floats(Floats, Validity),
    /// Texts; bytes that aren't UTF-8 are null.
    Texts(Spans, Validity),
    /// Bytes.
    Octets(Spans, Validity),
    /// Structs, by the lanes of their fields, in a stretch of their rows.
    Structs(Arc<Vec<Lanes>>, Stretch, Validity),
}

impl Drop for Lanes {
    fn drop(self) {
        match self {
            Lanes::Same(value, _) => drop(value),
            Lanes::Values(values) => drop(values),
            Lanes::Bools(bits, validity) => {
                drop(bits);
                drop(validity);
            }
            Lanes::Numbers(numbers, validity) => {
                drop(numbers);
                drop(validity);
            }
            Lanes::Floats(floats, validity) => {
                drop(floats);
                drop(validity);
            }
            Lanes::Texts(spans, validity) | Lanes::Octets(spans, validity) => {
                drop(spans);
                drop(validity);
            }
            Lanes::Structs(fields, _, validity) => {
                drop(fields);
                drop(validity);
            }
        }
    }
}

impl Lanes {
    /// The number of rows.
    pub fn len(&self) -> usize
        ensures { result ≡ length (lanes_rows self.now) }
    {
        match self {
            Lanes::Same(_, count) => *count,
            Lanes::Values(values) => values.len(),
            Lanes::Bools(values, validity) => validity.count(values.len()),
            Lanes::Numbers(values, validity) => validity.count(values.len()),
            Lanes::Floats(values, validity) => validity.count(values.len()),
            Lanes::Texts(values, validity) => validity.count(values.len()),
            Lanes::Octets(values, validity) => validity.count(values.len()),
            Lanes::Structs(_, stretch, validity) => validity.count(stretch.len),
        }
    }

    /// So many rows from one on, in the same buffers. Asks rows that are there.
    pub fn slice(&self, from: usize, len: usize) -> Result<Lanes, AllocError>
        requires { from + len ≤ length (lanes_rows self.now) }
        ensures { IfOk result (λ l. lanes_rows l ≡ take len (drop from (lanes_rows self.now))) }
    {
        match self {
            Lanes::Same(value, _) => Ok(Lanes::Same(value.clone()?, len)),
            Lanes::Values(values) => Ok(Lanes::Values(values.slice(from, len)?)),
            Lanes::Bools(values, validity) => {
                Ok(Lanes::Bools(values.slice(from, len)?, validity.slice(from, len)?))
            }
            Lanes::Numbers(values, validity) => {
                Ok(Lanes::Numbers(values.slice(from, len)?, validity.slice(from, len)?))
            }
            Lanes::Floats(values, validity) => {
                Ok(Lanes::Floats(values.slice(from, len)?, validity.slice(from, len)?))
            }
            Lanes::Texts(values, validity) => {
                Ok(Lanes::Texts(values.slice(from, len)?, validity.slice(from, len)?))
            }
            Lanes::Octets(values, validity) => {
                Ok(Lanes::Octets(values.slice(from, len)?, validity.slice(from, len)?))
            }
            Lanes::Structs(fields, stretch, validity) => {
                let rows = stretch.slice(from, len);
                Ok(Lanes::Structs(fields.clone()?, rows, validity.slice(from, len)?))
            }
        }
    }
}

impl Clone for Lanes {
    ghost is_clone = { λ l copy. lanes_rows copy ≡ lanes_rows l };

    fn clone(&self) -> Result<Lanes, AllocError> {
        match self {
            Lanes::Same(value, count) => Ok(Lanes::Same(value.clone()?, *count)),
            Lanes::Values(values) => Ok(Lanes::Values(values.clone()?)),
            Lanes::Bools(values, validity) => Ok(Lanes::Bools(values.clone()?, validity.clone()?)),
            Lanes::Numbers(values, validity) => {
                Ok(Lanes::Numbers(values.clone()?, validity.clone()?))
            }
            Lanes::Floats(values, validity) => {
                Ok(Lanes::Floats(values.clone()?, validity.clone()?))
            }
            Lanes::Texts(values, validity) => Ok(Lanes::Texts(values.clone()?, validity.clone()?)),
            Lanes::Octets(values, validity) => {
                Ok(Lanes::Octets(values.clone()?, validity.clone()?))
            }
            Lanes::Structs(fields, stretch, validity) => {
                Ok(Lanes::Structs(fields.clone()?, *stretch, validity.clone()?))
            }
        }
    }
}
