// Columns between two bounds.
ghost use Rattle.vx_fn.specs.Values.{compared};
ghost use Rattle.vx_array_kernels.specs.Asked.{asked};
ghost use Rattle.vx_array_kernels.specs.Found.{Finds};
ghost use Rattle.vx_array_kernels.specs.Ranges.{AreLong, range_rows};

use crate::comparison::compare;
use crate::keys::keys_of;
use crate::logic::{Connective, connect};
use crate::pair::Pair;
use std::alloc::{AllocError, Global};
use vx_array::Lanes;
use vx_array_loops::Comparison;
use vx_dtype::FloatType;

/// A column beside its bounds, each with so many rows.
#[derive(Clone, Copy)]
pub struct Range<'a> {
    /// How many rows each has.
    pub count: usize,
    /// The lower bound.
    pub lower: &'a Lanes,
    /// What lies between them, or not.
    pub column: &'a Lanes,
    /// The upper bound.
    pub upper: &'a Lanes,
}

/// Whether each row lies between two bounds: by one comparison of the lower bound with the row, and by another
/// one of the row with the upper bound. There is an answer where each of the two has one.
pub fn between(
    alloc: Global,
    comparisons: (Comparison, Comparison),
    range: Range,
) -> Result<Option<Lanes>, AllocError>
    requires { AreLong range }
    ensures { Finds (range_rows (compared (asked comparisons.0)) (compared (asked comparisons.1)) range.entry) result }
{
    match range.column {
        Lanes::Floats(floats, _) => {
            between_floats(alloc, comparisons, floats.float_type(), range)
        }
        _ => between_bounds(alloc, comparisons, range),
    }
}

// The same of floating-point numbers of the format, by their places in the total order.
fn between_floats(
    alloc: Global,
    comparisons: (Comparison, Comparison),
    float_type: FloatType,
    range: Range,
) -> Result<Option<Lanes>, AllocError>
    requires { AreLong range }
    ensures { Finds (range_rows (compared (asked comparisons.0)) (compared (asked comparisons.1)) range.entry) result }
{
    let Some(lower) = keys_of(alloc, float_type, range.lower)? else {
        return Ok(None);
    };
    let Some(column) = keys_of(alloc, float_type, range.column)? else {
        return Ok(None);
    };
    let Some(upper) = keys_of(alloc, float_type, range.upper)? else {
        return Ok(None);
    };
    let keys = Range {
        count: range.count,
        lower: &lower,
        column: &column,
        upper: &upper,
    };
    between_bounds(alloc, comparisons, keys)
}

// The same by two comparisons of columns.
fn between_bounds(
    alloc: Global,
    comparisons: (Comparison, Comparison),
    range: Range,
) -> Result<Option<Lanes>, AllocError>
    requires { AreLong range }
    ensures { Finds (range_rows (compared (asked comparisons.0)) (compared (asked comparisons.1)) range.entry) result }
{
    let count = range.count;
    let lower = Pair {
        count,
        lhs: range.lower,
        rhs: range.column,
    };
    let Some(above) = compare(alloc, comparisons.0, lower)? else {
        return Ok(None);
    };
    let upper = Pair {
        count,
        lhs: range.column,
        rhs: range.upper,
    };
    let Some(below) = compare(alloc, comparisons.1, upper)? else {
        return Ok(None);
    };
    let both = Pair {
        count,
        lhs: &above,
        rhs: &below,
    };
    connect(alloc, Connective::And, both)
}
