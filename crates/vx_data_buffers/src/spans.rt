// Where rows of a list, a text or bytes lie.
ghost use Rattle.std.specs.Prelude.{◌≡◌, ◌+◌, ◌*◌, ◌<◌, ◌≤◌, IfErr, IfOk, length};
ghost use Rattle.std.specs.Result.{result_map_both};
ghost use Rattle.vx_data_buffers.specs.Bytes.{bytes_in};
ghost use Rattle.vx_data_buffers.specs.Layout.{between, row_bytes, span};
ghost use Rattle.vx_data_buffers.specs.declared.fault.Fault.TheVariants.{OutOfMemory};

use crate::Buffer;
use crate::buffer::bytes_at;
use crate::bytes::{offset_at, part};
use crate::fault::Fault;

// From where up to where, as two offsets of that buffer say.
fn between(at: usize, from: i32, to: i32) -> Result<(usize, usize), Fault>
    ensures value { result ≡ between at from to }
    ensures order { IfOk result (λ s. s.0 ≤ s.1) }
{
    if from < 0 || to < from {
        return Err(Fault::Unordered(at));
    }
    Ok((from as usize, to as usize))
}

// From where up to where row i lies, as the buffer of offsets says.
pub(crate) fn span(buffers: &[Buffer<'_>], at: usize, i: usize) -> Result<(usize, usize), Fault>
    requires { i < usize.MAX }
    ensures value { result ≡ span (bytes_in buffers.now) at i }
    ensures order { IfOk result (λ s. s.0 ≤ s.1) }
{
    let offsets = bytes_at(buffers, at);
    let from = offset_at(offsets, i).ok_or(Fault::EndsEarly(at))?;
    let to = offset_at(offsets, i + 1).ok_or(Fault::EndsEarly(at))?;
    between(at, from, to)
}

// From where up to where row i lies, if each has so many items.
pub(crate) fn fixed_span(size: u32, i: usize) -> Result<(usize, usize), Fault>
    ensures value { IfOk result (λ s. (s.0 ≡ i * size) × (s.1 ≡ i * size + size)) }
    ensures memory { IfErr result (λ e. e ≡ OutOfMemory) }
{
    let size = size as usize;
    let from = i.checked_mul(size).ok_or(Fault::OutOfMemory)?;
    let to = from.checked_add(size).ok_or(Fault::OutOfMemory)?;
    Ok((from, to))
}

// The bytes of row i, of the buffer behind that of the offsets.
pub(crate) fn row_bytes<'a>(buffers: &[Buffer<'a>], at: usize, i: usize) -> Result<&'a [u8], Fault>
    requires buffer { at < length buffers.now }
    requires row { i < usize.MAX }
    ensures { result_map_both (λ b. b.now) (λ e. e) result ≡ row_bytes (bytes_in buffers.now) at i }
{
    let (from, to) = span(buffers, at, i)?;
    part(bytes_at(buffers, at + 1), from, to - from).ok_or(Fault::EndsEarly(at + 1))
}
