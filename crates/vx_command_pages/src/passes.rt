// What passes make of a tree.
ghost use Rattle.std.specs.Prelude.{IfOk, IfErr, ◌≡◌};
ghost use Rattle.vx_command_pages.specs.declared.error.CommandError.TheVariants.{OutOfMemory};
ghost use Rattle.vx_tree.specs.Trees.{WellTyped};
ghost use Rattle.vx_tree.specs.Views.{bound_of};

use crate::error::CommandError;
use crate::shown::Shown;
use crate::sources::source_text;
use std::alloc::Global;
use vx_rewrite::{Pass, run_passes};
use vx_tree::BoundExpression;

// A tree, and its source text.
#[derive(Drop)]
struct TreeText {
    tree: BoundExpression,
    text: String,
}

/// Adds a line for each pass that changes the tree which the passes before it left. Asks a well-typed
/// tree.
pub(crate) fn push_passes(
    alloc: Global,
    tree: &BoundExpression,
    page: &mut String,
) -> Result<(), CommandError>
    requires { WellTyped (bound_of tree.now) }
    ensures { IfErr result (λ c. c ≡ OutOfMemory) }
{
    let tree = unpassed(alloc, tree)?;
    let standard = pushed(
        alloc,
        &tree,
        Pass::OptimizeRecursive,
        "standard rules",
        page,
    )?;
    let branches = pushed(alloc, &standard, Pass::Branches, "branch rules", page)?;
    let folded = pushed(alloc, &branches, Pass::Fold, "folding", page)?;
    let _fused = pushed(alloc, &folded, Pass::FindBetween, "fused ranges", page)?;
    Ok(())
}

// The tree before all passes.
fn unpassed(alloc: Global, tree: &BoundExpression) -> Result<TreeText, CommandError>
    requires { WellTyped (bound_of tree.now) }
    ensures typed { IfOk result (λ u. WellTyped (bound_of u.tree)) }
    ensures memory { IfErr result (λ c. c ≡ OutOfMemory) }
{
    let text = source_text(alloc, tree)?;
    let tree = tree.clone()?;
    Ok(TreeText { tree, text })
}

// Adds the line of one pass, and gives what it makes of the tree. That it changes something is told by the texts: trees are
// compared with the types of their nodes, which takes as long for each as the scope has fields.
fn pushed(
    alloc: Global,
    before: &TreeText,
    pass: Pass,
    name: &str,
    page: &mut String,
) -> Result<TreeText, CommandError>
    requires { WellTyped (bound_of before.now.tree) }
    ensures typed { IfOk result (λ u. WellTyped (bound_of u.tree)) }
    ensures memory { IfErr result (λ c. c ≡ OutOfMemory) }
{
    let tree = passed(alloc, &before.tree, pass)?;
    let text = source_text(alloc, &tree)?;
    if text != before.text {
        let shown = Shown(text.as_str());
        page.push_str(format!(in alloc; "{name}: {shown}\n")?.as_str())?;
    }
    Ok(TreeText { tree, text })
}

// What the pass makes of the tree.
fn passed(
    alloc: Global,
    tree: &BoundExpression,
    pass: Pass,
) -> Result<BoundExpression, CommandError>
    requires { WellTyped (bound_of tree.now) }
    ensures typed { IfOk result (λ u. WellTyped (bound_of u)) }
    ensures memory { IfErr result (λ c. c ≡ OutOfMemory) }
{
    match run_passes(alloc, tree.clone()?, &[pass]) {
        Ok(passed) => Ok(passed),
        Err(_) => Err(CommandError::OutOfMemory),
    }
}
