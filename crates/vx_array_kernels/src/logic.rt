// And, Or and Not of truth values in bits, by Kleene's tables.
ghost use Rattle.std.specs.Prelude.{map};
ghost use Rattle.vx_fn.specs.Values.{kleene_not};
ghost use Rattle.vx_array.specs.Rows.{lanes_rows};
ghost use Rattle.vx_array_kernels.specs.Connected.{connected};
ghost use Rattle.vx_array_kernels.specs.Found.{Finds, IsLong, pair_rows};

use crate::blend::Blend;
use crate::pair::Pair;
use crate::truths::{Truths, turned};
use std::alloc::{AllocError, Global};
use vx_array::{BitPart, Lanes};

/// How two truth values are joined into one.
#[derive(Clone, Copy)]
pub enum Connective {
    /// Both are true.
    And,
    /// One of them is true.
    Or,
}

/// The And or the Or of two columns. There is an answer where both are truth values in bits.
pub fn connect(
    alloc: Global,
    connective: Connective,
    pair: Pair,
) -> Result<Option<Lanes>, AllocError>
    requires { IsLong pair }
    ensures { Finds (pair_rows (connected connective) pair.entry) result }
{
    match (pair.lhs, pair.rhs) {
        (Lanes::Bools(a, v), Lanes::Bools(b, w)) => {
            let mut truths = Truths::of_bits(alloc, pair.count, a, v)?;
            let others = Truths::of_bits(alloc, pair.count, b, w)?;
            truths.connect(connective, &others);
            truths.into_lanes(alloc)
        }
        _ => Ok(None),
    }
}

/// The negation of a column. There is an answer where it holds truth values in bits.
pub fn not(alloc: Global, input: &Lanes) -> Result<Option<Lanes>, AllocError>
    ensures { Finds (map kleene_not (lanes_rows input.now)) result }
{
    match input {
        Lanes::Bools(bits, validity) => {
            let others = turned(alloc, &bits.first(alloc, bits.len())?)?;
            Ok(Some(Lanes::Bools(BitPart::new(alloc, others)?, validity.clone()?)))
        }
        _ => Ok(None),
    }
}
