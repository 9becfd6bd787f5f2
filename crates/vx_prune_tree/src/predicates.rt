// Whether a predicate is true in no row of a chunk, in every row, or that isn't known.
ghost use Rattle.std.specs.Prelude.{◌≡◌, IsTrue};
ghost use Rattle.vx_fn.specs.Functions.{is_truth};
ghost use Rattle.vx_tree.specs.Trees.{node_type, WellTyped};
ghost use Rattle.vx_tree.specs.Views.{bound_of};
ghost use Rattle.vx_prune_tree.specs.Verdicts.{verdict_in, verdict_of, VerdictHolds};

use crate::bounding::bounds;
use crate::chunk_stats::ChunkStats;
use crate::verdicts::Verdict;
use vx_prune_bounds::Truths;
use vx_tree::BoundExpression;

/// In which rows of a chunk of these statistics the tree is true. Asks a well-typed tree of type
/// `bool` or `bool?`.
///
/// In a chunk without rows it is true in no row. Else it is true in no row where `true` isn't within
/// its bounds, and in every row where neither `false` nor null is. That is so of each batch of which
/// the statistics are true, and on which the tree doesn't fault.
///
/// Takes no memory. Looks at each node of the tree no more than three times, at each element of a list
/// that is a literal and searched once, and besides at each node of a path once for each entry of the
/// statistics.
pub fn verdict(e: &BoundExpression, stats: &ChunkStats) -> Verdict
    requires typed { WellTyped (bound_of e.now) }
    requires truth { IsTrue (is_truth (node_type (bound_of e.now))) }
    ensures exact { result ≡ verdict_in stats.now (bound_of e.now) }
    ensures holds { VerdictHolds stats.now (bound_of e.now) result }
{
    if stats.rows() == 0 {
        return Verdict::NoRow;
    }
    verdict_of(bounds(e, stats).truths())
}

// No row where it can't be true, and every row where it can't be anything else.
fn verdict_of(truths: Truths) -> Verdict
    ensures { result ≡ verdict_of truths }
{
    if !truths.yes {
        Verdict::NoRow
    } else if !truths.may_fail() {
        Verdict::EveryRow
    } else {
        Verdict::Unknown
    }
}
