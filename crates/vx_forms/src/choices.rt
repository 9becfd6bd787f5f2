// Choices between values, over operands.
ghost use Rattle.std.specs.Prelude.{◌≡◌, ◌<◌, ◌^◌, is_some, map, IfOk, length, true, false, [], ◌∷◌};
ghost use Rattle.vx_build.specs.Operands.{case_operands};
ghost use Rattle.vx_fn.specs.Functions as function;
ghost use Rattle.vx_fn.specs.Functions.{case_when};
ghost use Rattle.vx_forms.specs.Given.{GivesOver, zip_over};

use crate::operands::{Operand, trees_given};
use std::alloc::Global;
use vx_build::case_operands;
use vx_tree::{CaseWhenOptions, ScalarFnRef, TreeNode, VortexResult};

/// The first value where the condition is true, and else the second. Refuses as the first operand
/// that was refused, else over sources with `OutOfMemory` (1) alone, over bound trees as the node
/// does: `NotBool` (7), `BaseTypesDiffer` (6).
pub fn case_when<T: TreeNode, A: Operand<T>, B: Operand<T>, C: Operand<T>>(
    alloc: Global,
    condition: A,
    then_value: B,
    else_value: C,
) -> VortexResult<T>
    ensures { GivesOver T.seen (T.over (case_when 1 true)) (A.given condition ∷ B.given then_value ∷ C.given else_value ∷ []) result }
{
    let condition = condition.into_tree()?;
    let then_value = then_value.into_tree()?;
    vx_build::case_when(alloc, condition, then_value, else_value.into_tree()?)
}

/// The value where the condition is true, and else null. Refuses as the first operand that was
/// refused, else over sources with `OutOfMemory` (1) alone, over bound trees as the node does:
/// `NotBool` (7).
pub fn case_when_no_else<T: TreeNode, A: Operand<T>, B: Operand<T>>(
    alloc: Global,
    condition: A,
    then_value: B,
) -> VortexResult<T>
    ensures { GivesOver T.seen (T.over (case_when 1 false)) (A.given condition ∷ B.given then_value ∷ []) result }
{
    let condition = condition.into_tree()?;
    vx_build::case_when_no_else(alloc, condition, then_value.into_tree()?)
}

/// The first value where the mask is true, and else the second. The mask is the last child, and the
/// first operand. Refuses as the first operand that was refused, else over sources with
/// `OutOfMemory` (1) alone, over bound trees as the node does: `NotBool` (7), `BaseTypesDiffer`
/// (6).
pub fn zip_expr<T: TreeNode, A: Operand<T>, B: Operand<T>, C: Operand<T>>(
    alloc: Global,
    mask: A,
    if_true: B,
    if_false: C,
) -> VortexResult<T>
    ensures { GivesOver T.seen (zip_over (T.over function.zip)) (A.given mask ∷ B.given if_true ∷ C.given if_false ∷ []) result }
{
    let mask = mask.into_tree()?;
    let if_true = if_true.into_tree()?;
    vx_build::zip_expr(alloc, mask, if_true, if_false.into_tree()?)
}

/// The child where the mask is true, and else null. Refuses as the first operand that was refused,
/// else over sources with `OutOfMemory` (1) alone, over bound trees as the node does: `NotBool` (7)
/// at a mask of another type or a nullable one.
pub fn mask<T: TreeNode, A: Operand<T>, B: Operand<T>>(
    alloc: Global,
    child: A,
    mask: B,
) -> VortexResult<T>
    ensures { GivesOver T.seen (T.over function.mask) (A.given child ∷ B.given mask ∷ []) result }
{
    let child = child.into_tree()?;
    vx_build::mask(alloc, child, mask.into_tree()?)
}

/// The value beside the first condition that is true, else the ELSE value, else null. Asks for at
/// least one pair of a condition and a value, and for fewer than 2^32. Refuses as the first operand
/// that was refused, else over sources with `OutOfMemory` (1) alone, over bound trees as the node does:
/// `NotBool` (7), `BaseTypesDiffer` (6).
pub fn nested_case_when<T: TreeNode, O: Operand<T>, const N: usize>(
    alloc: Global,
    when_then_pairs: [(O, O); N],
    else_value: Option<O>,
) -> VortexResult<T>
    requires some { 0 < N }
    requires countable { N < 2 ^ 32 }
    ensures { GivesOver T.seen (T.over (case_when N (is_some else_value))) (map O.given (case_operands when_then_pairs else_value)) result }
{
    let options = CaseWhenOptions {
        num_when_then_pairs: N as u32,
        has_else: else_value.is_some(),
    };
    let pairs = Vec::from_array(alloc, when_then_pairs)?;
    let operands = case_operands(alloc, pairs, else_value)?;
    let children = trees_given(alloc, operands)?;
    T::of_function(alloc, ScalarFnRef::CaseWhen(options), children)
}
