// Comparisons, logic and arithmetic over operands.
ghost use Rattle.std.specs.Prelude.{[], ◌∷◌};
ghost use Rattle.vx_fn.specs.Functions.{binary, logical_not, between, compares, equal, not_equal, greater, greater_or_equal, less, less_or_equal, and_also, or_else, computes};
ghost use Rattle.vx_floats.specs.declared.arithmetic.Arithmetic.TheVariants.{Sum, Difference, Product, Quotient, Remainder};
ghost use Rattle.vx_fn.specs.Views.{operation_of, is_strict};
ghost use Rattle.vx_forms.specs.Given.{GivesOver};

use crate::operands::Operand;
use std::alloc::Global;
use vx_tree::{BetweenOptions, Operator, TreeNode, VortexResult};

/// The operator between two operands. Refuses as the first operand that was refused, else over
/// sources with `OutOfMemory` (1) alone, over bound trees as the node does: 6 to 9.
pub fn binary<T: TreeNode, L: Operand<T>, R: Operand<T>>(
    alloc: Global,
    operator: Operator,
    lhs: L,
    rhs: R,
) -> VortexResult<T>
    ensures { GivesOver T.seen (T.over (binary (operation_of operator))) (L.given lhs ∷ R.given rhs ∷ []) result }
{
    let lhs = lhs.into_tree()?;
    vx_build::binary(alloc, operator, lhs, rhs.into_tree()?)
}

/// Whether the operands are equal. Refuses as the first operand that was refused, else over sources
/// with `OutOfMemory` (1) alone, over bound trees as the node does: `NotComparable` (8),
/// `BaseTypesDiffer` (6).
pub fn eq<T: TreeNode, L: Operand<T>, R: Operand<T>>(
    alloc: Global,
    lhs: L,
    rhs: R,
) -> VortexResult<T>
    ensures { GivesOver T.seen (T.over (binary (compares equal))) (L.given lhs ∷ R.given rhs ∷ []) result }
{
    binary(alloc, Operator::Eq, lhs, rhs)
}

/// Whether the operands differ. Refuses as the first operand that was refused, else over sources
/// with `OutOfMemory` (1) alone, over bound trees as the node does: `NotComparable` (8),
/// `BaseTypesDiffer` (6).
pub fn not_eq<T: TreeNode, L: Operand<T>, R: Operand<T>>(
    alloc: Global,
    lhs: L,
    rhs: R,
) -> VortexResult<T>
    ensures { GivesOver T.seen (T.over (binary (compares not_equal))) (L.given lhs ∷ R.given rhs ∷ []) result }
{
    binary(alloc, Operator::NotEq, lhs, rhs)
}

/// Whether the left operand is greater or equal. Refuses as the first operand that was refused,
/// else over sources with `OutOfMemory` (1) alone, over bound trees as the node does:
/// `NotComparable` (8), `BaseTypesDiffer` (6).
pub fn gt_eq<T: TreeNode, L: Operand<T>, R: Operand<T>>(
    alloc: Global,
    lhs: L,
    rhs: R,
) -> VortexResult<T>
    ensures { GivesOver T.seen (T.over (binary (compares greater_or_equal))) (L.given lhs ∷ R.given rhs ∷ []) result }
{
    binary(alloc, Operator::Gte, lhs, rhs)
}

/// Whether the left operand is greater. Refuses as the first operand that was refused, else over
/// sources with `OutOfMemory` (1) alone, over bound trees as the node does: `NotComparable` (8),
/// `BaseTypesDiffer` (6).
pub fn gt<T: TreeNode, L: Operand<T>, R: Operand<T>>(
    alloc: Global,
    lhs: L,
    rhs: R,
) -> VortexResult<T>
    ensures { GivesOver T.seen (T.over (binary (compares greater))) (L.given lhs ∷ R.given rhs ∷ []) result }
{
    binary(alloc, Operator::Gt, lhs, rhs)
}

/// Whether the left operand is less or equal. Refuses as the first operand that was refused, else
/// over sources with `OutOfMemory` (1) alone, over bound trees as the node does: `NotComparable`
/// (8), `BaseTypesDiffer` (6).
pub fn lt_eq<T: TreeNode, L: Operand<T>, R: Operand<T>>(
    alloc: Global,
    lhs: L,
    rhs: R,
) -> VortexResult<T>
    ensures { GivesOver T.seen (T.over (binary (compares less_or_equal))) (L.given lhs ∷ R.given rhs ∷ []) result }
{
    binary(alloc, Operator::Lte, lhs, rhs)
}

/// Whether the left operand is less. Refuses as the first operand that was refused, else over
/// sources with `OutOfMemory` (1) alone, over bound trees as the node does: `NotComparable` (8),
/// `BaseTypesDiffer` (6).
pub fn lt<T: TreeNode, L: Operand<T>, R: Operand<T>>(
    alloc: Global,
    lhs: L,
    rhs: R,
) -> VortexResult<T>
    ensures { GivesOver T.seen (T.over (binary (compares less))) (L.given lhs ∷ R.given rhs ∷ []) result }
{
    binary(alloc, Operator::Lt, lhs, rhs)
}

/// Whether one of the operands is true, by Kleene's table. Refuses as the first operand that was
/// refused, else over sources with `OutOfMemory` (1) alone, over bound trees as the node does:
/// `NotBool` (7).
pub fn or<T: TreeNode, L: Operand<T>, R: Operand<T>>(
    alloc: Global,
    lhs: L,
    rhs: R,
) -> VortexResult<T>
    ensures { GivesOver T.seen (T.over (binary or_else)) (L.given lhs ∷ R.given rhs ∷ []) result }
{
    binary(alloc, Operator::Or, lhs, rhs)
}

/// Whether both operands are true, by Kleene's table. Refuses as the first operand that was
/// refused, else over sources with `OutOfMemory` (1) alone, over bound trees as the node does:
/// `NotBool` (7).
pub fn and<T: TreeNode, L: Operand<T>, R: Operand<T>>(
    alloc: Global,
    lhs: L,
    rhs: R,
) -> VortexResult<T>
    ensures { GivesOver T.seen (T.over (binary and_also)) (L.given lhs ∷ R.given rhs ∷ []) result }
{
    binary(alloc, Operator::And, lhs, rhs)
}

/// The sum of the operands. Refuses as the first operand that was refused, else over sources with
/// `OutOfMemory` (1) alone, over bound trees as the node does: `NotNumeric` (9), `BaseTypesDiffer`
/// (6).
pub fn checked_add<T: TreeNode, L: Operand<T>, R: Operand<T>>(
    alloc: Global,
    lhs: L,
    rhs: R,
) -> VortexResult<T>
    ensures { GivesOver T.seen (T.over (binary (computes Sum))) (L.given lhs ∷ R.given rhs ∷ []) result }
{
    binary(alloc, Operator::Add, lhs, rhs)
}

/// The left operand minus the right one. Refuses as the first operand that was refused, else over
/// sources with `OutOfMemory` (1) alone, over bound trees as the node does: `NotNumeric` (9),
/// `BaseTypesDiffer` (6).
pub fn checked_sub<T: TreeNode, L: Operand<T>, R: Operand<T>>(
    alloc: Global,
    lhs: L,
    rhs: R,
) -> VortexResult<T>
    ensures { GivesOver T.seen (T.over (binary (computes Difference))) (L.given lhs ∷ R.given rhs ∷ []) result }
{
    binary(alloc, Operator::Sub, lhs, rhs)
}

/// The product of the operands. Refuses as the first operand that was refused, else over sources
/// with `OutOfMemory` (1) alone, over bound trees as the node does: `NotNumeric` (9), also of
/// decimals, `BaseTypesDiffer` (6).
pub fn checked_mul<T: TreeNode, L: Operand<T>, R: Operand<T>>(
    alloc: Global,
    lhs: L,
    rhs: R,
) -> VortexResult<T>
    ensures { GivesOver T.seen (T.over (binary (computes Product))) (L.given lhs ∷ R.given rhs ∷ []) result }
{
    binary(alloc, Operator::Mul, lhs, rhs)
}

/// The left operand by the right one, of whole numbers cut towards zero. Refuses as the first
/// operand that was refused, else over sources with `OutOfMemory` (1) alone, over bound trees as
/// the node does: `NotNumeric` (9), also of decimals, `BaseTypesDiffer` (6).
pub fn checked_div<T: TreeNode, L: Operand<T>, R: Operand<T>>(
    alloc: Global,
    lhs: L,
    rhs: R,
) -> VortexResult<T>
    ensures { GivesOver T.seen (T.over (binary (computes Quotient))) (L.given lhs ∷ R.given rhs ∷ []) result }
{
    binary(alloc, Operator::Div, lhs, rhs)
}

/// The remainder of the left operand by the right one, with the left one's sign. Refuses as the
/// first operand that was refused, else over sources with `OutOfMemory` (1) alone, over bound trees
/// as the node does: `NotNumeric` (9), also of decimals, `BaseTypesDiffer` (6).
pub fn checked_rem<T: TreeNode, L: Operand<T>, R: Operand<T>>(
    alloc: Global,
    lhs: L,
    rhs: R,
) -> VortexResult<T>
    ensures { GivesOver T.seen (T.over (binary (computes Remainder))) (L.given lhs ∷ R.given rhs ∷ []) result }
{
    binary(alloc, Operator::Rem, lhs, rhs)
}

/// The other truth value, null for null. Refuses as the first operand that was refused, else over
/// sources with `OutOfMemory` (1) alone, over bound trees as the node does: `NotBool` (7).
pub fn not<T: TreeNode, O: Operand<T>>(alloc: Global, child: O) -> VortexResult<T>
    ensures { GivesOver T.seen (T.over logical_not) (O.given child ∷ []) result }
{
    vx_build::not(alloc, child.into_tree()?)
}

/// Whether the value lies between the bounds, each let in or left out by the options. Refuses as
/// the first operand that was refused, else over sources with `OutOfMemory` (1) alone, over bound
/// trees as the node does: `NotComparable` (8), `BaseTypesDiffer` (6).
pub fn between<T: TreeNode, A: Operand<T>, L: Operand<T>, U: Operand<T>>(
    alloc: Global,
    arr: A,
    lower: L,
    upper: U,
    options: BetweenOptions,
) -> VortexResult<T>
    ensures { GivesOver T.seen (T.over (between (is_strict options.lower_strict) (is_strict options.upper_strict))) (A.given arr ∷ L.given lower ∷ U.given upper ∷ []) result }
{
    let arr = arr.into_tree()?;
    let lower = lower.into_tree()?;
    vx_build::between(alloc, arr, lower, upper.into_tree()?, options)
}
