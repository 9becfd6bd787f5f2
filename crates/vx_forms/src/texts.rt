// Functions of texts over operands: matches of a pattern, tests of a beginning, and lengths.
ghost use Rattle.std.specs.Prelude.{true, false, [], ◌∷◌};
ghost use Rattle.vx_fn.specs.Functions.{like, starts_with, byte_length};
ghost use Rattle.vx_forms.specs.Given.{GivesOver};

use crate::operands::Operand;
use std::alloc::Global;
use vx_tree::{TreeNode, VortexResult};

/// Whether the text matches the pattern. Refuses as the first operand that was refused, else over
/// sources with `OutOfMemory` (1) alone, over bound trees as the node does: `NotText` (10).
pub fn like<T: TreeNode, A: Operand<T>, B: Operand<T>>(
    alloc: Global,
    child: A,
    pattern: B,
) -> VortexResult<T>
    ensures { GivesOver T.seen (T.over (like false false)) (A.given child ∷ B.given pattern ∷ []) result }
{
    let child = child.into_tree()?;
    vx_build::like(alloc, child, pattern.into_tree()?)
}

/// Whether the text matches the pattern, the case of ASCII letters ignored. Refuses as the first
/// operand that was refused, else over sources with `OutOfMemory` (1) alone, over bound trees as
/// the node does: `NotText` (10).
pub fn ilike<T: TreeNode, A: Operand<T>, B: Operand<T>>(
    alloc: Global,
    child: A,
    pattern: B,
) -> VortexResult<T>
    ensures { GivesOver T.seen (T.over (like false true)) (A.given child ∷ B.given pattern ∷ []) result }
{
    let child = child.into_tree()?;
    vx_build::ilike(alloc, child, pattern.into_tree()?)
}

/// Whether the text doesn't match the pattern. Refuses as the first operand that was refused, else
/// over sources with `OutOfMemory` (1) alone, over bound trees as the node does: `NotText` (10).
pub fn not_like<T: TreeNode, A: Operand<T>, B: Operand<T>>(
    alloc: Global,
    child: A,
    pattern: B,
) -> VortexResult<T>
    ensures { GivesOver T.seen (T.over (like true false)) (A.given child ∷ B.given pattern ∷ []) result }
{
    let child = child.into_tree()?;
    vx_build::not_like(alloc, child, pattern.into_tree()?)
}

/// Whether the text doesn't match the pattern, the case of ASCII letters ignored. Refuses as the
/// first operand that was refused, else over sources with `OutOfMemory` (1) alone, over bound trees
/// as the node does: `NotText` (10).
pub fn not_ilike<T: TreeNode, A: Operand<T>, B: Operand<T>>(
    alloc: Global,
    child: A,
    pattern: B,
) -> VortexResult<T>
    ensures { GivesOver T.seen (T.over (like true true)) (A.given child ∷ B.given pattern ∷ []) result }
{
    let child = child.into_tree()?;
    vx_build::not_ilike(alloc, child, pattern.into_tree()?)
}

/// Whether the text begins with the prefix. Refuses as the first operand that was refused, else over
/// sources with `OutOfMemory` (1) alone, over bound trees as the node does: `NotText` (10).
pub fn starts_with<T: TreeNode, A: Operand<T>, B: Operand<T>>(
    alloc: Global,
    child: A,
    prefix: B,
) -> VortexResult<T>
    ensures { GivesOver T.seen (T.over starts_with) (A.given child ∷ B.given prefix ∷ []) result }
{
    let child = child.into_tree()?;
    vx_build::starts_with(alloc, child, prefix.into_tree()?)
}

/// The number of the text's bytes. Refuses as the operand that was refused, else over sources with
/// `OutOfMemory` (1) alone, over bound trees as the node does: `NotText` (10).
pub fn byte_length<T: TreeNode, O: Operand<T>>(alloc: Global, child: O) -> VortexResult<T>
    ensures { GivesOver T.seen (T.over byte_length) (O.given child ∷ []) result }
{
    vx_build::byte_length(alloc, child.into_tree()?)
}
