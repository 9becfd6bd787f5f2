// Trees split by the fields of their scope, their partitions optimized, and evaluated over an array.
ghost use Rattle.std.specs.Prelude.{true};
ghost use Rattle.vx_query.specs.Queries.{Runs};
ghost use Rattle.vx_tree.specs.Trees.{WellTyped, Over};
ghost use Rattle.vx_tree.specs.Views.{bound_of};

use std::alloc::Global;
use vx_array::Array;
use vx_array_eval::apply_array;
use vx_array_scan::evaluate_split_array;
use vx_dtype::VortexResult;
use vx_query::optimize_partitions;
use vx_query_split::split_by_fields;
use vx_tree::BoundExpression;

// What the tree gives over the batch: split by the fields of the scope that its nodes read, where
// the batch is of structs and these cover the tree, else whole.
pub(crate) fn run_split(alloc: Global, tree: &BoundExpression, batch: &Array) -> VortexResult<Array>
    requires well_typed { WellTyped (bound_of tree.now) }
    requires over { Over (bound_of tree.now) batch.now.type }
    ensures { Runs true (bound_of tree.now) batch.now result }
{
    match split_by_fields(alloc, tree, batch.dtype())? {
        Some(split) => {
            let split = optimize_partitions(alloc, split)?;
            let answer = evaluate_split_array(alloc, batch, &split);
            drop(split);
            answer
        }
        None => apply_array(alloc, batch, tree),
    }
}
