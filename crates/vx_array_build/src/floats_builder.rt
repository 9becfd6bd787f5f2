// Floating-point numbers of one format, to which those of lanes are added.
ghost use Rattle.std.specs.Prelude.{◌≡◌, map};
ghost use Rattle.vx_array_build.specs.FloatBits.{float_row};

use crate::float_bits::{FloatBits, bits_of};
use crate::numbers_builder::NumbersBuilder;
use crate::rows_builder::RowsBuilder;
use std::alloc::{AllocError, Global};
use vx_array::Lanes;

/// Bits of floating-point numbers of one format, of which some may be null, to which others are added.
#[derive(Drop)]
pub struct FloatsBuilder<T: FloatBits> {
    bits: NumbersBuilder<T>,
}

impl<T: FloatBits> RowsBuilder for FloatsBuilder<T> {
    ghost rows = { λ b. map (float_row T.format) b.bits };

    fn with_capacity(alloc: Global, count: usize) -> Result<FloatsBuilder<T>, AllocError> {
        Ok(FloatsBuilder {
            bits: NumbersBuilder::<T>::with_capacity(alloc, count)?,
        })
    }

    fn push(self, alloc: Global, lanes: &Lanes) -> Result<Option<FloatsBuilder<T>>, AllocError> {
        let Some(more) = bits_of(alloc, T::float_type(), lanes)? else {
            return Ok(None);
        };
        match self.bits.push(alloc, &more)? {
            Some(bits) => Ok(Some(FloatsBuilder { bits })),
            None => Ok(None),
        }
    }

    fn finish(self, alloc: Global) -> Result<Lanes, AllocError> {
        let (bits, validity) = self.bits.into_parts(alloc)?;
        Ok(Lanes::Floats(T::floats(bits), validity))
    }
}
