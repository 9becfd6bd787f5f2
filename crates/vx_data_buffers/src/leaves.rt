// Values without others inside them, and which rows are null.
ghost use Rattle.std.specs.Prelude.{◌≡◌, Ok};
ghost use Rattle.vx_data_buffers.specs.Results.{Reads, and_so};
ghost use Rattle.vx_data_buffers.specs.Bytes.{bit_of, bytes_at, bytes_in, float_at, number_at, units_at};
ghost use Rattle.vx_data_buffers.specs.Layout.{found, is_valid, text_of};
ghost use Rattle.vx_value.specs.Types.{bool, bytes, float, int};
ghost use Rattle.vx_value.specs.Views.{value_of};

use crate::Buffer;
use crate::buffer::bytes_at;
use crate::bytes::{bit_of, float_at, number_at, units_at};
use crate::fault::Fault;
use std::alloc::Global;
use vx_dtype::{FloatType, PType};
use vx_value::Value;

// Whether row i isn't null, as the validity buffer of that index says.
pub(crate) fn is_valid(buffers: &[Buffer<'_>], at: usize, i: usize) -> Result<bool, Fault>
    ensures { result ≡ is_valid (bytes_in buffers.now) at i }
{
    let bits = bytes_at(buffers, at);
    if bits.is_empty() {
        return Ok(true);
    }
    bit_of(bits, i).ok_or(Fault::EndsEarly(at))
}

// The truth value of row i.
pub(crate) fn truth_at(buffers: &[Buffer<'_>], at: usize, i: usize) -> Result<Value, Fault>
    ensures { Reads value_of result (and_so (found at (bit_of (bytes_at (bytes_in buffers.now) at) i)) bool) }
{
    match bit_of(bytes_at(buffers, at), i) {
        Some(truth) => Ok(Value::Bool(truth)),
        None => Err(Fault::EndsEarly(at)),
    }
}

// The number of row i.
pub(crate) fn whole_at(
    buffers: &[Buffer<'_>],
    ptype: PType,
    at: usize,
    i: usize,
) -> Result<Value, Fault>
    ensures { Reads value_of result (and_so (found at (number_at ptype (bytes_at (bytes_in buffers.now) at) i)) int) }
{
    match number_at(bytes_at(buffers, at), ptype, i) {
        Some(number) => Ok(Value::Int(number)),
        None => Err(Fault::EndsEarly(at)),
    }
}

// The floating-point number of row i.
pub(crate) fn real_at(
    buffers: &[Buffer<'_>],
    format: FloatType,
    at: usize,
    i: usize,
) -> Result<Value, Fault>
    ensures { Reads value_of result (and_so (found at (float_at format (bytes_at (bytes_in buffers.now) at) i)) float) }
{
    match float_at(bytes_at(buffers, at), format, i) {
        Some(float) => Ok(Value::Float(float)),
        None => Err(Fault::EndsEarly(at)),
    }
}

// The decimal of row i.
pub(crate) fn decimal_at(buffers: &[Buffer<'_>], at: usize, i: usize) -> Result<Value, Fault>
    ensures { Reads value_of result (and_so (found at (units_at (bytes_at (bytes_in buffers.now) at) i)) int) }
{
    match units_at(bytes_at(buffers, at), i) {
        Some(units) => Ok(Value::Int(units)),
        None => Err(Fault::EndsEarly(at)),
    }
}

// The bytes, which are of the buffer of that index, as a text.
pub(crate) fn text_of(alloc: Global, at: usize, bytes: &[u8]) -> Result<Value, Fault>
    ensures { Reads value_of result (text_of at bytes.now) }
{
    match str::from_utf8(bytes) {
        Ok(text) => Ok(Value::Utf8(String::from_str(alloc, text)?)),
        Err(_) => Err(Fault::NotUtf8(at)),
    }
}

// The bytes as they are.
pub(crate) fn octets_of(alloc: Global, octets: &[u8]) -> Result<Value, Fault>
    ensures { Reads value_of result (Ok (bytes octets.now)) }
{
    Ok(Value::Binary(Vec::from_slice(alloc, octets)?))
}
