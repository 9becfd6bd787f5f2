// Buffers that are lent.
ghost use Rattle.std.specs.Prelude.{◌≡◌};
ghost use Rattle.vx_data_buffers.specs.Bytes.{bytes_at, bytes_in};

/// Bytes that are lent: a buffer of a column.
#[repr(C)]
#[derive(Clone, Copy, Debug)]
pub struct Buffer<'a> {
    /// What the buffer holds; it may be longer than its rows need.
    pub bytes: &'a [u8],
}

// The bytes of the buffer of that index, of which there are none where there is no such buffer.
pub(crate) fn bytes_at<'a>(buffers: &[Buffer<'a>], at: usize) -> &'a [u8]
    ensures { result.now ≡ bytes_at (bytes_in buffers.now) at }
{
    match buffers.get(at) {
        Some(buffer) => buffer.bytes,
        None => &[],
    }
}
