// Columns of floating-point numbers in a buffer, which others are written over.
ghost use Rattle.std.specs.Prelude.{map};
ghost use Rattle.vx_array_build.specs.FloatBits.{float_row};

use crate::blend::Blend;
use std::alloc::{AllocError, Global};
use std::marker::PhantomData;
use vx_array::Lanes;
use vx_array_build::{FloatBits, bits_of, floats_of};
use vx_array_loops::Bits;

/// Floating-point numbers of one format, as rows of the numbers that have their bits.
#[derive(Drop)]
pub struct FloatRows<B: Blend, F: FloatBits> {
    bits: B,
    format: PhantomData<F>,
}

impl<B: Blend, F: FloatBits> Blend for FloatRows<B, F> {
    ghost rows = { λ r. map (float_row F.format) (B.rows r.bits) };

    fn of(
        alloc: Global,
        count: usize,
        lanes: &Lanes,
    ) -> Result<Option<FloatRows<B, F>>, AllocError> {
        let Some(bits) = bits_of(alloc, F::float_type(), lanes)? else {
            return Ok(None);
        };
        match B::of(alloc, count, &bits)? {
            Some(bits) => Ok(Some(FloatRows {
                bits,
                format: PhantomData,
            })),
            None => Ok(None),
        }
    }

    fn put(&mut self, alloc: Global, mask: &Bits, lanes: &Lanes) -> Result<bool, AllocError> {
        match bits_of(alloc, F::float_type(), lanes)? {
            Some(bits) => self.bits.put(alloc, mask, &bits),
            None => Ok(false),
        }
    }

    fn into_lanes(self, alloc: Global) -> Result<Option<Lanes>, AllocError> {
        match self.bits.into_lanes(alloc)? {
            Some(bits) => floats_of(F::float_type(), &bits),
            None => Ok(None),
        }
    }
}
