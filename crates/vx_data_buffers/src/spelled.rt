// Numbers as bytes, least first.
ghost use Rattle.std.specs.Prelude.{◌≡◌, IfOk, IfSome, length, map};
ghost use Rattle.vx_array.specs.Kinds.{numbers_in};
ghost use Rattle.vx_data_buffers.specs.Arrays.{AreNumbers};
ghost use Rattle.vx_data_buffers.specs.Laid.{AddsNumber};

use std::alloc::{AllocError, Global};
use vx_array::Numbers;
use vx_array_build::Native;
use vx_dtype::PType;

// The numbers in the width of the type. None where they are held in another one.
pub(crate) fn number_bytes(
    alloc: Global,
    ptype: PType,
    numbers: &Numbers,
) -> Result<Option<Vec<u8>>, AllocError>
    ensures { IfOk result (λ found. IfSome found (λ bytes. AreNumbers ptype bytes.items (length (numbers_in numbers.now)) (numbers_in numbers.now))) }
{
    match (ptype, numbers) {
        (PType::U8, Numbers::U8(part)) => spell_all(alloc, part.as_slice()),
        (PType::U16, Numbers::U16(part)) => spell_all(alloc, part.as_slice()),
        (PType::U32, Numbers::U32(part)) => spell_all(alloc, part.as_slice()),
        (PType::U64, Numbers::U64(part)) => spell_all(alloc, part.as_slice()),
        (PType::I8, Numbers::I8(part)) => spell_all(alloc, part.as_slice()),
        (PType::I16, Numbers::I16(part)) => spell_all(alloc, part.as_slice()),
        (PType::I32, Numbers::I32(part)) => spell_all(alloc, part.as_slice()),
        (PType::I64, Numbers::I64(part)) => spell_all(alloc, part.as_slice()),
        _ => Ok(None),
    }
}

// The bytes of numbers of Rust's.
fn spell_all<T: Spelled>(alloc: Global, numbers: &[T]) -> Result<Option<Vec<u8>>, AllocError>
    ensures { IfOk result (λ found. IfSome found (λ bytes. AreNumbers T.kind bytes.items (length numbers.now) (map T.number numbers.now))) }
{
    let mut bytes = Vec::new(alloc);
    for i in 0..numbers.len() {
        numbers[i].spell(&mut bytes)?;
    }
    Ok(Some(bytes))
}

/// A whole number of Rust's that is written as its bytes.
trait Spelled: Native {
    /// Writes the bytes of the number behind others.
    fn spell(self, bytes: &mut Vec<u8>) -> Result<(), AllocError>
        ensures { IfOk result (λ _. AddsNumber Self.kind bytes.old.items (Self.number self) bytes.new.items) };
}

impl Spelled for u8 {
    fn spell(self, bytes: &mut Vec<u8>) -> Result<(), AllocError> {
        bytes.extend_from_slice(&self.to_le_bytes())
    }
}

impl Spelled for u16 {
    fn spell(self, bytes: &mut Vec<u8>) -> Result<(), AllocError> {
        bytes.extend_from_slice(&self.to_le_bytes())
    }
}

impl Spelled for u32 {
    fn spell(self, bytes: &mut Vec<u8>) -> Result<(), AllocError> {
        bytes.extend_from_slice(&self.to_le_bytes())
    }
}

impl Spelled for u64 {
    fn spell(self, bytes: &mut Vec<u8>) -> Result<(), AllocError> {
        bytes.extend_from_slice(&self.to_le_bytes())
    }
}

impl Spelled for i8 {
    fn spell(self, bytes: &mut Vec<u8>) -> Result<(), AllocError> {
        bytes.extend_from_slice(&self.to_le_bytes())
    }
}

impl Spelled for i16 {
    fn spell(self, bytes: &mut Vec<u8>) -> Result<(), AllocError> {
        bytes.extend_from_slice(&self.to_le_bytes())
    }
}

impl Spelled for i32 {
    fn spell(self, bytes: &mut Vec<u8>) -> Result<(), AllocError> {
        bytes.extend_from_slice(&self.to_le_bytes())
    }
}

impl Spelled for i64 {
    fn spell(self, bytes: &mut Vec<u8>) -> Result<(), AllocError> {
        bytes.extend_from_slice(&self.to_le_bytes())
    }
}
