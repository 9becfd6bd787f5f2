// Comparisons of floating-point numbers in buffers, by their places in the total order.
ghost use Rattle.vx_fn.specs.Values.{compared};
ghost use Rattle.vx_array_kernels.specs.Asked.{asked};
ghost use Rattle.vx_array_kernels.specs.Found.{Finds, IsLong, pair_rows};

use crate::comparison::compare_whole;
use crate::keys::keys_of;
use crate::pair::Pair;
use std::alloc::{AllocError, Global};
use vx_array::Lanes;
use vx_array_loops::Comparison;
use vx_dtype::FloatType;

/// The format of the two columns, if one has floating-point numbers in a buffer.
pub fn format_of(pair: Pair) -> Option<FloatType> {
    match (pair.lhs, pair.rhs) {
        (Lanes::Floats(floats, _), _) => Some(floats.float_type()),
        (_, Lanes::Floats(floats, _)) => Some(floats.float_type()),
        _ => None,
    }
}

/// The comparison of two columns. There is an answer where each has floating-point numbers of the format in
/// a buffer, or is one of them or null in all rows.
pub fn compare_floats(
    alloc: Global,
    comparison: Comparison,
    float_type: FloatType,
    pair: Pair,
) -> Result<Option<Lanes>, AllocError>
    requires { IsLong pair }
    ensures { Finds (pair_rows (compared (asked comparison)) pair.entry) result }
{
    let Some(lhs) = keys_of(alloc, float_type, pair.lhs)? else {
        return Ok(None);
    };
    let Some(rhs) = keys_of(alloc, float_type, pair.rhs)? else {
        return Ok(None);
    };
    let keys = Pair {
        count: pair.count,
        lhs: &lhs,
        rhs: &rhs,
    };
    compare_whole(alloc, comparison, keys)
}
