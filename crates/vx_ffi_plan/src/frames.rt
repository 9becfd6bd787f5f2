// Buffers one behind the other.
ghost use Rattle.std.specs.Prelude.{◌≡◌, ◌++◌, IfOk, map};
ghost use Rattle.vx_data_buffers.specs.Laid.{lists_in};
ghost use Rattle.vx_ffi_plan.specs.Frames.{framed, framed_one, padding};
ghost use Rattle.std.specs.Int.{to_le_bytes, w64};

use std::alloc::{AllocError, Global};

// The number of rows in 8 bytes, and then of each buffer its length in 8 bytes, the bytes, and zeros up to a
// multiple of 8. Numbers are little-endian.
pub(crate) fn framed(alloc: Global, rows: usize, buffers: &[Vec<u8>]) -> Result<Vec<u8>, AllocError>
    ensures { IfOk result (λ page. page.items ≡ framed rows (lists_in buffers.now)) }
{
    let mut page = Vec::new(alloc);
    page.extend_from_slice(&rows.to_le_bytes())?;
    for i in 0..buffers.len() {
        push_buffer(&mut page, buffers[i].as_slice())?;
    }
    Ok(page)
}

// One buffer behind the others.
fn push_buffer(page: &mut Vec<u8>, buffer: &[u8]) -> Result<(), AllocError>
    ensures { IfOk result (λ _. page.new.items ≡ page.old.items ++ framed_one buffer.now) }
{
    page.extend_from_slice(&buffer.len().to_le_bytes())?;
    page.extend_from_slice(buffer)?;
    page.extend_from_slice(zeros_behind(buffer.len()))
}

// As many zeros as there are up to a multiple of 8.
fn zeros_behind(length: usize) -> &'static [u8]
    ensures { result.now ≡ padding length }
{
    match length % 8 {
        0 => &[],
        1 => &[0, 0, 0, 0, 0, 0, 0],
        2 => &[0, 0, 0, 0, 0, 0],
        3 => &[0, 0, 0, 0, 0],
        4 => &[0, 0, 0, 0],
        5 => &[0, 0, 0],
        6 => &[0, 0],
        _ => &[0],
    }
}
