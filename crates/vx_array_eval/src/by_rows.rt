// Functions by way of columns of values.
ghost use Rattle.std.specs.Prelude.{Ok};
ghost use Rattle.vx_dtype.specs.Returns.{ReturnsOrOom};
ghost use Rattle.vx_array.specs.Rows.{lanes_each, lanes_rows};
ghost use Rattle.vx_array_eval.specs.Nodes.{IsEven, IsTyped, IsWhole, answer_of};
ghost use Rattle.vx_eval.specs.Columns.{rows_view, rows_views};

use crate::node::Node;
use std::alloc::Global;
use vx_array::{Lanes, Part, to_values};
use vx_dtype::VortexResult;
use vx_eval::{Rows, apply_function};

/// The function over its children's lanes, or its fault over their rows, by the kernels of columns.
#[inline(never)]
pub fn apply_by_rows(alloc: Global, node: Node) -> VortexResult<Lanes>
    requires typed { IsTyped node }
    requires number { IsWhole node }
    requires long { IsEven node }
    ensures { ReturnsOrOom lanes_rows result (answer_of node.entry) }
{
    let columns = rows_each(alloc, node.below)?;
    let out = apply_function(alloc, node.count, node.function, node.children, columns)?;
    Ok(Lanes::Values(Part::new(alloc, out.into_values(alloc)?)?))
}

// The rows of each of the lanes.
fn rows_each<'a>(alloc: Global, lanes: &'a [Lanes]) -> VortexResult<Vec<Rows<'a>>>
    ensures { ReturnsOrOom (λ rs. rows_views rs.items) result (Ok (lanes_each lanes.now)) }
{
    let mut columns = Vec::with_capacity(alloc, lanes.len())?;
    for lane in lanes {
        columns.push(rows_in(alloc, lane)?)?;
    }
    Ok(columns)
}

// The rows of lanes: lent where they are values, and else made.
fn rows_in<'a>(alloc: Global, lanes: &'a Lanes) -> VortexResult<Rows<'a>>
    ensures { ReturnsOrOom rows_view result (Ok (lanes_rows lanes.now)) }
{
    match lanes {
        Lanes::Same(value, count) => Ok(Rows::Same(value.as_ref(), *count)),
        Lanes::Values(values) => Ok(Rows::Lent(values.as_slice())),
        _ => Ok(Rows::Owned(to_values(alloc, lanes)?)),
    }
}
