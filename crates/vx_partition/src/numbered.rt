// The annotations that nodes have alone, and those that a walk meets, by the numbers of the nodes: no
// tree is looked up.
ghost use Rattle.std.specs.Prelude.{◌≡◌, ◌<◌, ◌≤◌, ◌++◌, IfOk, OnOk, Option, length, map};
ghost use Rattle.std.specs.Option.{option_copied};
ghost use Rattle.vx_rewrite_analysis.specs.Answered.{count_of, tree_of, AreAnswered};
ghost use Rattle.vx_partition.specs.Found.{found_copied};
ghost use Rattle.vx_partition.specs.Gathered.{found_at, AreFound, IsOnly};
ghost use Rattle.vx_partition.specs.Only.{annotations_met};
ghost use Rattle.vx_tree.specs.Trees.{BoundTree};

use crate::found::{Found, alone, combined, found_in};
use std::alloc::{AllocError, Global};
use vx_rewrite_analysis::{Annotation, AnsweredNodes};

// What each node has, from the lowest number up: what a node's children have is there before.
pub(crate) fn found_each<'a, A: Annotation + Drop>(
    alloc: Global,
    nodes: &'a AnsweredNodes<'_, A>,
) -> Result<Vec<Found<&'a A>>, AllocError>
    requires { AreAnswered nodes.now }
    ensures count { IfOk result (λ found. length found.items ≡ count_of nodes.now) }
    ensures found { IfOk result (λ found. AreFound A.eq nodes.now found.items) }
{
    let count = nodes.count();
    let mut found = Vec::with_capacity(alloc, count)?;
    for number in 0..count {
        let here = found_at(nodes, number, found.as_slice());
        found.push(here)?;
    }
    Ok(found)
}

// What the node has, where those below it have this: its own answers, or what its children have together.
fn found_at<'a, A: Annotation + Drop>(
    nodes: &'a AnsweredNodes<'_, A>,
    number: usize,
    below: &[Found<&'a A>],
) -> Found<&'a A>
    requires numbered { AreAnswered nodes.now }
    requires within { number < count_of nodes.now }
    requires count { number ≤ length below.now }
    requires below { AreFound A.eq nodes.now below.now }
    ensures { found_copied result ≡ found_at A.eq nodes.now (tree_of nodes.now number) }
{
    let Some(answers) = nodes.answers(number) else {
        return Found::Nothing;
    };
    if !answers.is_empty() {
        return found_in(answers);
    }
    let mut found = Found::Nothing;
    for child in nodes.children(number) {
        found = combined(found, below[*child]);
    }
    found
}

// Puts the annotations that a walk of the number's tree meets behind those that there are. It calls
// itself at each level.
pub(crate) fn meet_numbered<'a, A: Annotation + Drop>(
    nodes: &AnsweredNodes<'_, A>,
    number: usize,
    found: &[Found<&'a A>],
    met: &mut Vec<Option<&'a A>>,
) -> Result<(), AllocError>
    requires numbered { AreAnswered nodes.now }
    requires within { number < count_of nodes.now }
    requires count { length found.now ≡ count_of nodes.now }
    ensures { OnOk result ((only : BoundTree → Option A) → IsOnly nodes.now only found.now → map option_copied met.new.items ≡ map option_copied met.old.items ++ annotations_met only (tree_of nodes.now number)) }
{
    let only = alone(found[number]);
    met.push(only)?;
    if only.is_some() {
        return Ok(());
    }
    for child in nodes.children(number) {
        meet_numbered(nodes, *child, found, met)?;
    }
    Ok(())
}
