// The keys of numbered nodes.
ghost use Rattle.std.specs.Prelude.{◌≡◌, ◌+◌, ◌<◌, All, IfOk, OnOk, get_or, length, map};
ghost use Rattle.vx_rewrite_analysis.specs.Keys.{key_of};
ghost use Rattle.vx_rewrite_analysis.specs.Numbers.{tree_at, HasDigests, IsNumbered};

use crate::numbers::NumberedNode;
use smallvec::SmallVec;
use std::alloc::{AllocError, Global};
use vx_tree::ExactBoundExpr;

// The key of the node with the next number, where those before it have these digests; its own comes
// behind them. Nothing below the node is looked at.
pub(crate) fn next_key(
    alloc: Global,
    nodes: &[NumberedNode<'_>],
    digests: &mut Vec<u64>,
) -> Result<ExactBoundExpr, AllocError>
    requires numbered { IsNumbered nodes.now }
    requires within { length digests.old.items < length nodes.now }
    requires digests { HasDigests nodes.now digests.old.items }
    ensures key { IfOk result (λ key. key_of key ≡ tree_at nodes.now (length digests.old.items)) }
    ensures count { OnOk result (length digests.new.items ≡ length digests.old.items + 1) }
    ensures digests { OnOk result (HasDigests nodes.now digests.new.items) }
{
    let node = &nodes[digests.len()];
    let below = digests_at(alloc, digests.as_slice(), node.children.as_slice())?;
    let key = ExactBoundExpr::over(node.tree.clone()?, below.as_slice());
    digests.push(key.digest())?;
    Ok(key)
}

// The digests of the numbers.
fn digests_at(
    alloc: Global,
    digests: &[u64],
    numbers: &[usize],
) -> Result<SmallVec<u64, 2>, AllocError>
    requires { All (λ k. k < length digests.now) numbers.now }
    ensures { IfOk result (λ below. below.items ≡ map (λ k. get_or digests.now k 0) numbers.now) }
{
    let mut below = SmallVec::with_capacity(alloc, numbers.len())?;
    for number in numbers {
        below.push(digests[*number])?;
    }
    Ok(below)
}
