// Functions of one child, two or three over their lanes.
ghost use Rattle.std.specs.Prelude.{◌≡◌, IfSome, List, [], ◌∷◌, false, length, true};
ghost use Rattle.vx_value.specs.Types.{LogicalType, is_null_datum};
ghost use Rattle.vx_value.specs.Views.{type_of, value_of};
ghost use Rattle.vx_fn.specs.Faults.{differs};
ghost use Rattle.vx_fn.specs.Functions as functions;
ghost use Rattle.vx_fn.specs.Functions.{computes};
ghost use Rattle.vx_fn.specs.Values as values;
ghost use Rattle.vx_fn.specs.Views.{function_of, is_strict, operation_of};
ghost use Rattle.vx_array.specs.Rows.{lanes_each, lanes_rows};
ghost use Rattle.vx_array_kernels.specs.Asked.{arithmetic_of, asked};
ghost use Rattle.vx_array_kernels.specs.Choices.{chosen_rows};
ghost use Rattle.vx_array_kernels.specs.Found.{Finds, IsLong};
ghost use Rattle.vx_array_eval.specs.Nodes.{FindsAnswer, types_of};

use crate::node::Node;
use std::alloc::{AllocError, Global};
use vx_array::Lanes;
use vx_array_kernels::{
    Connective, Pair, Range, between, byte_length, compare, comparison_of, computation_of, compute,
    compute_floats, connect, fill_null, is_not_null, is_null, list_contains, mask, not,
    starts_with, zip,
};
use vx_array_loops::{Comparison, Computation};
use vx_dtype::DType;
use vx_fn::{BetweenOptions, FillNull, Operator, ScalarFnRef, StrictComparison};
use vx_value::Value;

/// The function over the one child, where there is a fast way.
pub fn of_one(alloc: Global, node: Node, input: &Lanes) -> Result<Option<Lanes>, AllocError>
    requires one { lanes_each node.below.now ≡ lanes_rows input.now ∷ [] }
    requires long { length (lanes_rows input.now) ≡ node.count }
    ensures { FindsAnswer node.entry result }
{
    match node.function {
        ScalarFnRef::Not(_) => not(alloc, input),
        ScalarFnRef::IsNull(_) => is_null(alloc, input),
        ScalarFnRef::IsNotNull(_) => is_not_null(alloc, input),
        ScalarFnRef::ByteLength(_) => byte_length(alloc, input),
        _ => Ok(None),
    }
}

/// The function over the two children, where there is a fast way.
pub fn of_two(alloc: Global, node: Node, pair: Pair) -> Result<Option<Lanes>, AllocError>
    requires two { lanes_each node.below.now ≡ lanes_rows pair.lhs.now ∷ lanes_rows pair.rhs.now ∷ [] }
    requires count { pair.count ≡ node.count }
    requires long { IsLong pair }
    ensures { FindsAnswer node.entry result }
{
    match node.function {
        ScalarFnRef::Binary(operator) => binary(alloc, node, *operator, pair),
        ScalarFnRef::FillNull(_) => filled_of(alloc, node, pair),
        ScalarFnRef::Mask(_) => mask(alloc, pair),
        ScalarFnRef::StartsWith(_) => starts_with(alloc, pair),
        ScalarFnRef::ListContains(_) => list_contains(alloc, pair),
        _ => Ok(None),
    }
}

/// The function over the three children, where there is a fast way.
pub fn of_three(
    alloc: Global,
    node: Node,
    below: (&Lanes, &Lanes, &Lanes),
) -> Result<Option<Lanes>, AllocError>
    requires three { lanes_each node.below.now ≡ lanes_rows below.0.now ∷ lanes_rows below.1.now ∷ lanes_rows below.2.now ∷ [] }
    requires first { length (lanes_rows below.0.now) ≡ node.count }
    requires second { length (lanes_rows below.1.now) ≡ node.count }
    requires third { length (lanes_rows below.2.now) ≡ node.count }
    ensures { FindsAnswer node.entry result }
{
    let count = node.count;
    let (first, second, third) = below;
    match node.function {
        ScalarFnRef::Between(options) => {
            let range = Range {
                count,
                lower: second,
                column: first,
                upper: third,
            };
            between(alloc, comparisons(options), range)
        }
        ScalarFnRef::Zip(_) => {
            let pair = Pair {
                count,
                lhs: first,
                rhs: second,
            };
            zip_of(alloc, node, pair, third)
        }
        _ => Ok(None),
    }
}

// The operator over two columns, where there is a fast way.
fn binary(
    alloc: Global,
    node: Node,
    operator: Operator,
    pair: Pair,
) -> Result<Option<Lanes>, AllocError>
    requires operator { function_of node.function.now ≡ functions.binary (operation_of operator) }
    requires two { lanes_each node.below.now ≡ lanes_rows pair.lhs.now ∷ lanes_rows pair.rhs.now ∷ [] }
    requires count { pair.count ≡ node.count }
    requires long { IsLong pair }
    ensures { FindsAnswer node.entry result }
{
    match operator {
        Operator::And => connect(alloc, Connective::And, pair),
        Operator::Or => connect(alloc, Connective::Or, pair),
        _ => match comparison_of(operator) {
            Some(comparison) => compare(alloc, comparison, pair),
            None => arithmetic(alloc, node, operator, pair),
        },
    }
}

// The arithmetic of the operator on two columns, where there is a fast way and no fault.
fn arithmetic(
    alloc: Global,
    node: Node,
    operator: Operator,
    pair: Pair,
) -> Result<Option<Lanes>, AllocError>
    requires operator { function_of node.function.now ≡ functions.binary (operation_of operator) }
    requires two { lanes_each node.below.now ≡ lanes_rows pair.lhs.now ∷ lanes_rows pair.rhs.now ∷ [] }
    requires count { pair.count ≡ node.count }
    requires long { IsLong pair }
    ensures { FindsAnswer node.entry result }
{
    match computation_of(operator) {
        Some(computation) => computed_of(alloc, node, computation, pair),
        None => Ok(None),
    }
}

// What is computed of two columns, where there is a fast way and no fault.
fn computed_of(
    alloc: Global,
    node: Node,
    computation: Computation,
    pair: Pair,
) -> Result<Option<Lanes>, AllocError>
    requires computes { function_of node.function.now ≡ functions.binary (computes (arithmetic_of computation)) }
    requires two { lanes_each node.below.now ≡ lanes_rows pair.lhs.now ∷ lanes_rows pair.rhs.now ∷ [] }
    requires count { pair.count ≡ node.count }
    requires long { IsLong pair }
    ensures { FindsAnswer node.entry result }
{
    match first_type(node) {
        Some(DType::Primitive(number, _)) => compute(alloc, computation, *number, pair),
        Some(DType::Float(_, _)) => compute_floats(alloc, computation, pair),
        _ => Ok(None),
    }
}

// The first column with its nulls filled, where there is a fast way and no fault.
fn filled_of(alloc: Global, node: Node, pair: Pair) -> Result<Option<Lanes>, AllocError>
    requires fill { function_of node.function.now ≡ functions.fill_null }
    requires two { lanes_each node.below.now ≡ lanes_rows pair.lhs.now ∷ lanes_rows pair.rhs.now ∷ [] }
    requires count { pair.count ≡ node.count }
    requires long { IsLong pair }
    ensures { FindsAnswer node.entry result }
{
    match (first_type(node), pair.rhs) {
        (Some(dtype), Lanes::Same(value, _)) => {
            if FillNull::supports_dtype(dtype) && is_fill(value.as_ref()) {
                fill_null(alloc, dtype, pair)
            } else {
                Ok(None)
            }
        }
        _ => Ok(None),
    }
}

// The first column's values where the condition is true, and else the other's, where there is a fast way.
// The first child's type tells of which kind they are.
fn zip_of(
    alloc: Global,
    node: Node,
    pair: Pair,
    condition: &Lanes,
) -> Result<Option<Lanes>, AllocError>
    requires pair { IsLong pair }
    requires condition { length (lanes_rows condition.now) ≡ pair.count }
    ensures { Finds (chosen_rows pair.entry.count (lanes_rows condition.now) (lanes_rows pair.entry.lhs.now) (lanes_rows pair.entry.rhs.now)) result }
{
    match first_type(node) {
        Some(dtype) => zip(alloc, dtype, pair, condition),
        None => Ok(None),
    }
}

// Whether the value fills nulls, as each does that isn't null.
fn is_fill(value: &Value) -> bool
    ensures { result ≡ true → (is_null_datum (value_of value.now) ≡ false) × (differs (value_of value.now) (value_of value.now) ≡ false) }
{
    !value.is_null()
}

// The first child's type, if there is one.
fn first_type<'a>(node: Node<'a>) -> Option<&'a DType>
    ensures { IfSome result (λ t. (rest : List LogicalType) × (types_of node.entry ≡ type_of t.now ∷ rest)) }
{
    match node.children {
        [first, ..] => Some(first.dtype()),
        [] => None,
    }
}

// The comparisons of a test by two bounds.
fn comparisons(options: &BetweenOptions) -> (Comparison, Comparison)
    ensures lower { asked result.0 ≡ values.bound_comparison (is_strict options.now.lower_strict) }
    ensures upper { asked result.1 ≡ values.bound_comparison (is_strict options.now.upper_strict) }
{
    (
        bound_comparison(options.lower_strict),
        bound_comparison(options.upper_strict),
    )
}

// The comparison of a bound, strict or not.
fn bound_comparison(strict: StrictComparison) -> Comparison
    ensures { asked result ≡ values.bound_comparison (is_strict strict) }
{
    match strict {
        StrictComparison::Strict => Comparison::Less,
        StrictComparison::NonStrict => Comparison::LessOrEqual,
    }
}
