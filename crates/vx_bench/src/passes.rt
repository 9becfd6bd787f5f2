// The call that passes are timed through.
ghost use Rattle.std.specs.Prelude.{◌≡◌, ◌≢◌, ◌<◌, IfOk};
ghost use Rattle.vx_tree.specs.Trees.{WellTyped};
ghost use Rattle.vx_tree.specs.Views.{bound_of};

use crate::family::Family;
use crate::pass::Pass;
use crate::subject::{Subject, visited};
use crate::{Status, refused};
use std::alloc::Global;
use vx_dtype::VortexResult;

/// Makes the tree of the family with that number and of that size, binds it, runs the pass with that
/// number so often, each result let go before the next, and writes how many nodes a walk of the tree
/// visits; with no repeat no pass is run. Answers the number of a [`Status`]; where that isn't 0,
/// `nodes` stays.
#[unsafe(no_mangle)]
pub extern "C" fn vx_pass(
    alloc: Global,
    family: u8,
    size: usize,
    pass: u8,
    repeats: u32,
    nodes: &mut u64,
) -> u8
    ensures status { result < 4 }
    ensures kept { result ≢ 0 → nodes.new ≡ nodes.old }
    ensures counted { result ≡ 0 → 0 < nodes.new }
{
    let (Some(family), Some(pass)) = (Family::of(family), Pass::of(pass)) else {
        return Status::NoSuchNumber as u8;
    };
    match passed(alloc, family, size, pass, repeats) {
        Ok(count) => {
            *nodes = count;
            Status::Answered as u8
        }
        Err(refusal) => refused(refusal),
    }
}

// The nodes of the family's tree, after so many passes.
fn passed(alloc: Global, family: Family, size: usize, pass: Pass, repeats: u32) -> VortexResult<u64>
    ensures { IfOk result (λ count. 0 < count) }
{
    let subject = Subject::new(alloc, family, size)?;
    for _ in 0..repeats {
        pass.run(alloc, &subject)?;
    }
    Ok(visited(&subject.tree))
}
