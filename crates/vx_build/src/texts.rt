// Constructors of functions of texts: matches of a pattern, tests of a beginning, and lengths.
ghost use Rattle.std.specs.Prelude.{◌≡◌, true, false, [], ◌∷◌};
ghost use Rattle.vx_fn.specs.Functions.{like, starts_with, byte_length};
ghost use Rattle.vx_fn.specs.Views.{function_of};

use crate::node::{node_of_one, node_of_two};
use std::alloc::Global;
use vx_tree::{EmptyOptions, LikeOptions, ScalarFnRef, TreeNode, VortexResult};

/// Whether the text matches the pattern. Over sources it refuses with `OutOfMemory` (1) alone, over
/// bound trees as the node does: `NotText` (10).
pub fn like<T: TreeNode>(alloc: Global, child: T, pattern: T) -> VortexResult<T>
    ensures { T.gives (like false false) (child ∷ pattern ∷ []) result }
{
    node_of_two(alloc, matching(false, false), child, pattern)
}

/// Whether the text matches the pattern, the case of ASCII letters ignored. Over sources it refuses
/// with `OutOfMemory` (1) alone, over bound trees as the node does: `NotText` (10).
pub fn ilike<T: TreeNode>(alloc: Global, child: T, pattern: T) -> VortexResult<T>
    ensures { T.gives (like false true) (child ∷ pattern ∷ []) result }
{
    node_of_two(alloc, matching(false, true), child, pattern)
}

/// Whether the text doesn't match the pattern. Over sources it refuses with `OutOfMemory` (1)
/// alone, over bound trees as the node does: `NotText` (10).
pub fn not_like<T: TreeNode>(alloc: Global, child: T, pattern: T) -> VortexResult<T>
    ensures { T.gives (like true false) (child ∷ pattern ∷ []) result }
{
    node_of_two(alloc, matching(true, false), child, pattern)
}

/// Whether the text doesn't match the pattern, the case of ASCII letters ignored. Over sources it
/// refuses with `OutOfMemory` (1) alone, over bound trees as the node does: `NotText` (10).
pub fn not_ilike<T: TreeNode>(alloc: Global, child: T, pattern: T) -> VortexResult<T>
    ensures { T.gives (like true true) (child ∷ pattern ∷ []) result }
{
    node_of_two(alloc, matching(true, true), child, pattern)
}

/// Whether the text begins with the prefix. Over sources it refuses with `OutOfMemory` (1) alone,
/// over bound trees as the node does: `NotText` (10).
pub fn starts_with<T: TreeNode>(alloc: Global, child: T, prefix: T) -> VortexResult<T>
    ensures { T.gives starts_with (child ∷ prefix ∷ []) result }
{
    node_of_two(alloc, ScalarFnRef::StartsWith(EmptyOptions), child, prefix)
}

/// The number of the text's bytes. Over sources it refuses with `OutOfMemory` (1) alone, over bound
/// trees as the node does: `NotText` (10).
pub fn byte_length<T: TreeNode>(alloc: Global, child: T) -> VortexResult<T>
    ensures { T.gives byte_length (child ∷ []) result }
{
    node_of_one(alloc, ScalarFnRef::ByteLength(EmptyOptions), child)
}

// How a text is matched with a pattern.
fn matching(negated: bool, case_insensitive: bool) -> ScalarFnRef
    ensures { function_of result ≡ like negated case_insensitive }
{
    ScalarFnRef::Like(LikeOptions {
        negated,
        case_insensitive,
    })
}
