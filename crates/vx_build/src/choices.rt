// Constructors of choices between values.
ghost use Rattle.std.specs.Prelude.{◌≡◌, ◌<◌, ◌^◌, is_some, length, true, false, [], ◌∷◌};
ghost use Rattle.vx_fn.specs.Functions as function;
ghost use Rattle.vx_fn.specs.Functions.{case_when, zip};
ghost use Rattle.vx_fn.specs.Views.{function_of};
ghost use Rattle.vx_build.specs.Operands.{case_operands};

use crate::node::{node_of_three, node_of_two};
use crate::operands::case_operands;
use std::alloc::Global;
use vx_tree::{CaseWhenOptions, EmptyOptions, ScalarFnRef, TreeNode, VortexResult};

/// The first value where the condition is true, and else the second. Over sources it refuses with
/// `OutOfMemory` (1) alone, over bound trees as the node does: `NotBool` (7), `BaseTypesDiffer`
/// (6).
pub fn case_when<T: TreeNode>(
    alloc: Global,
    condition: T,
    then_value: T,
    else_value: T,
) -> VortexResult<T>
    ensures { T.gives (case_when 1 true) (condition ∷ then_value ∷ else_value ∷ []) result }
{
    node_of_three(alloc, one_pair(true), condition, then_value, else_value)
}

/// The value where the condition is true, and else null. Over sources it refuses with `OutOfMemory`
/// (1) alone, over bound trees as the node does: `NotBool` (7).
pub fn case_when_no_else<T: TreeNode>(alloc: Global, condition: T, then_value: T) -> VortexResult<T>
    ensures { T.gives (case_when 1 false) (condition ∷ then_value ∷ []) result }
{
    node_of_two(alloc, one_pair(false), condition, then_value)
}

// A CASE of one pair.
fn one_pair(has_else: bool) -> ScalarFnRef
    ensures { function_of result ≡ case_when 1 has_else }
{
    ScalarFnRef::CaseWhen(CaseWhenOptions {
        num_when_then_pairs: 1,
        has_else,
    })
}

/// The first value where the mask is true, and else the second. The mask is the last child. Over
/// sources it refuses with `OutOfMemory` (1) alone, over bound trees as the node does: `NotBool`
/// (7), `BaseTypesDiffer` (6).
pub fn zip_expr<T: TreeNode>(alloc: Global, mask: T, if_true: T, if_false: T) -> VortexResult<T>
    ensures { T.gives zip (if_true ∷ if_false ∷ mask ∷ []) result }
{
    let zip = ScalarFnRef::Zip(EmptyOptions);
    node_of_three(alloc, zip, if_true, if_false, mask)
}

/// The child where the mask is true, and else null. Over sources it refuses with `OutOfMemory` (1)
/// alone, over bound trees as the node does: `NotBool` (7) at a mask of another type or a nullable
/// one.
pub fn mask<T: TreeNode>(alloc: Global, child: T, mask: T) -> VortexResult<T>
    ensures { T.gives function.mask (child ∷ mask ∷ []) result }
{
    node_of_two(alloc, ScalarFnRef::Mask(EmptyOptions), child, mask)
}

/// The value beside the first condition that is true, else the ELSE value, else null. Asks for at
/// least one pair of a condition and a value, and for fewer than 2^32. Over sources it refuses with
/// `OutOfMemory` (1) alone, over bound trees as the node does: `NotBool` (7), `BaseTypesDiffer`
/// (6).
pub fn nested_case_when<T: TreeNode>(
    alloc: Global,
    when_then_pairs: Vec<(T, T)>,
    else_value: Option<T>,
) -> VortexResult<T>
    requires some { 0 < length when_then_pairs.items }
    requires countable { length when_then_pairs.items < 2 ^ 32 }
    ensures { T.gives (case_when (length when_then_pairs.items) (is_some else_value)) (case_operands when_then_pairs.items else_value) result }
{
    let options = CaseWhenOptions {
        num_when_then_pairs: when_then_pairs.len() as u32,
        has_else: else_value.is_some(),
    };
    let children = case_operands(alloc, when_then_pairs, else_value)?;
    T::of_function(alloc, ScalarFnRef::CaseWhen(options), children)
}
