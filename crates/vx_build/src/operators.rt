// Constructors of comparisons, logic and arithmetic.
ghost use Rattle.std.specs.Prelude.{[], ◌∷◌};
ghost use Rattle.vx_fn.specs.Functions.{binary, logical_not, between, compares, equal, not_equal, greater, greater_or_equal, less, less_or_equal, and_also, or_else, computes};
ghost use Rattle.vx_floats.specs.declared.arithmetic.Arithmetic.TheVariants.{Sum, Difference, Product, Quotient, Remainder};
ghost use Rattle.vx_fn.specs.Views.{operation_of, is_strict};

use crate::node::{node_of_one, node_of_three, node_of_two};
use std::alloc::Global;
use vx_tree::{BetweenOptions, EmptyOptions, Operator, ScalarFnRef, TreeNode, VortexResult};

/// The operator between two operands. Over sources it refuses with `OutOfMemory` (1) alone, over
/// bound trees as the node does (6 to 9).
pub fn binary<T: TreeNode>(alloc: Global, operator: Operator, lhs: T, rhs: T) -> VortexResult<T>
    ensures { T.gives (binary (operation_of operator)) (lhs ∷ rhs ∷ []) result }
{
    node_of_two(alloc, ScalarFnRef::Binary(operator), lhs, rhs)
}

/// Whether the operands are equal. Over sources it refuses with `OutOfMemory` (1) alone, over bound
/// trees as the node does: `NotComparable` (8), `BaseTypesDiffer` (6).
pub fn eq<T: TreeNode>(alloc: Global, lhs: T, rhs: T) -> VortexResult<T>
    ensures { T.gives (binary (compares equal)) (lhs ∷ rhs ∷ []) result }
{
    binary(alloc, Operator::Eq, lhs, rhs)
}

/// Whether the operands differ. Over sources it refuses with `OutOfMemory` (1) alone, over bound
/// trees as the node does: `NotComparable` (8), `BaseTypesDiffer` (6).
pub fn not_eq<T: TreeNode>(alloc: Global, lhs: T, rhs: T) -> VortexResult<T>
    ensures { T.gives (binary (compares not_equal)) (lhs ∷ rhs ∷ []) result }
{
    binary(alloc, Operator::NotEq, lhs, rhs)
}

/// Whether the left operand is greater or equal. Over sources it refuses with `OutOfMemory` (1)
/// alone, over bound trees as the node does: `NotComparable` (8), `BaseTypesDiffer` (6).
pub fn gt_eq<T: TreeNode>(alloc: Global, lhs: T, rhs: T) -> VortexResult<T>
    ensures { T.gives (binary (compares greater_or_equal)) (lhs ∷ rhs ∷ []) result }
{
    binary(alloc, Operator::Gte, lhs, rhs)
}

/// Whether the left operand is greater. Over sources it refuses with `OutOfMemory` (1) alone, over
/// bound trees as the node does: `NotComparable` (8), `BaseTypesDiffer` (6).
pub fn gt<T: TreeNode>(alloc: Global, lhs: T, rhs: T) -> VortexResult<T>
    ensures { T.gives (binary (compares greater)) (lhs ∷ rhs ∷ []) result }
{
    binary(alloc, Operator::Gt, lhs, rhs)
}

/// Whether the left operand is less or equal. Over sources it refuses with `OutOfMemory` (1) alone,
/// over bound trees as the node does: `NotComparable` (8), `BaseTypesDiffer` (6).
pub fn lt_eq<T: TreeNode>(alloc: Global, lhs: T, rhs: T) -> VortexResult<T>
    ensures { T.gives (binary (compares less_or_equal)) (lhs ∷ rhs ∷ []) result }
{
    binary(alloc, Operator::Lte, lhs, rhs)
}

/// Whether the left operand is less. Over sources it refuses with `OutOfMemory` (1) alone, over
/// bound trees as the node does: `NotComparable` (8), `BaseTypesDiffer` (6).
pub fn lt<T: TreeNode>(alloc: Global, lhs: T, rhs: T) -> VortexResult<T>
    ensures { T.gives (binary (compares less)) (lhs ∷ rhs ∷ []) result }
{
    binary(alloc, Operator::Lt, lhs, rhs)
}

/// Whether one of the operands is true, by Kleene's table. Over sources it refuses with
/// `OutOfMemory` (1) alone, over bound trees as the node does: `NotBool` (7).
pub fn or<T: TreeNode>(alloc: Global, lhs: T, rhs: T) -> VortexResult<T>
    ensures { T.gives (binary or_else) (lhs ∷ rhs ∷ []) result }
{
    binary(alloc, Operator::Or, lhs, rhs)
}

/// Whether both operands are true, by Kleene's table. Over sources it refuses with `OutOfMemory`
/// (1) alone, over bound trees as the node does: `NotBool` (7).
pub fn and<T: TreeNode>(alloc: Global, lhs: T, rhs: T) -> VortexResult<T>
    ensures { T.gives (binary and_also) (lhs ∷ rhs ∷ []) result }
{
    binary(alloc, Operator::And, lhs, rhs)
}

/// The sum of the operands. Over sources it refuses with `OutOfMemory` (1) alone, over bound trees
/// as the node does: `NotNumeric` (9), `BaseTypesDiffer` (6).
pub fn checked_add<T: TreeNode>(alloc: Global, lhs: T, rhs: T) -> VortexResult<T>
    ensures { T.gives (binary (computes Sum)) (lhs ∷ rhs ∷ []) result }
{
    binary(alloc, Operator::Add, lhs, rhs)
}

/// The left operand minus the right one. Over sources it refuses with `OutOfMemory` (1) alone, over
/// bound trees as the node does: `NotNumeric` (9), `BaseTypesDiffer` (6).
pub fn checked_sub<T: TreeNode>(alloc: Global, lhs: T, rhs: T) -> VortexResult<T>
    ensures { T.gives (binary (computes Difference)) (lhs ∷ rhs ∷ []) result }
{
    binary(alloc, Operator::Sub, lhs, rhs)
}

/// The product of the operands. Over sources it refuses with `OutOfMemory` (1) alone, over bound
/// trees as the node does: `NotNumeric` (9), also of decimals, `BaseTypesDiffer` (6).
pub fn checked_mul<T: TreeNode>(alloc: Global, lhs: T, rhs: T) -> VortexResult<T>
    ensures { T.gives (binary (computes Product)) (lhs ∷ rhs ∷ []) result }
{
    binary(alloc, Operator::Mul, lhs, rhs)
}

/// The left operand by the right one, of whole numbers cut towards zero. Over sources it refuses
/// with `OutOfMemory` (1) alone, over bound trees as the node does: `NotNumeric` (9), also of
/// decimals, `BaseTypesDiffer` (6).
pub fn checked_div<T: TreeNode>(alloc: Global, lhs: T, rhs: T) -> VortexResult<T>
    ensures { T.gives (binary (computes Quotient)) (lhs ∷ rhs ∷ []) result }
{
    binary(alloc, Operator::Div, lhs, rhs)
}

/// The remainder of the left operand by the right one, with the left one's sign. Over sources it
/// refuses with `OutOfMemory` (1) alone, over bound trees as the node does: `NotNumeric` (9), also
/// of decimals, `BaseTypesDiffer` (6).
pub fn checked_rem<T: TreeNode>(alloc: Global, lhs: T, rhs: T) -> VortexResult<T>
    ensures { T.gives (binary (computes Remainder)) (lhs ∷ rhs ∷ []) result }
{
    binary(alloc, Operator::Rem, lhs, rhs)
}

/// The other truth value, null for null. Over sources it refuses with `OutOfMemory` (1) alone, over
/// bound trees as the node does: `NotBool` (7).
pub fn not<T: TreeNode>(alloc: Global, child: T) -> VortexResult<T>
    ensures { T.gives logical_not (child ∷ []) result }
{
    node_of_one(alloc, ScalarFnRef::Not(EmptyOptions), child)
}

/// Whether the value lies between the bounds, each let in or left out by the options. Over sources
/// it refuses with `OutOfMemory` (1) alone, over bound trees as the node does: `NotComparable` (8),
/// `BaseTypesDiffer` (6).
pub fn between<T: TreeNode>(
    alloc: Global,
    arr: T,
    lower: T,
    upper: T,
    options: BetweenOptions,
) -> VortexResult<T>
    ensures { T.gives (between (is_strict options.lower_strict) (is_strict options.upper_strict)) (arr ∷ lower ∷ upper ∷ []) result }
{
    node_of_three(alloc, ScalarFnRef::Between(options), arr, lower, upper)
}
