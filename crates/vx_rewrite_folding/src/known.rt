// What is known of a node by its function before any row is read, borrowed from the node: telling it
// takes no memory.
ghost use Rattle.std.specs.Prelude.{◌≡◌, IsFalse, Ok};
ghost use Rattle.std.specs.Option.{option_map};
ghost use Rattle.vx_value.specs.Returns.{ReturnsOrOom};
ghost use Rattle.vx_value.specs.Views.{type_of};
ghost use Rattle.vx_fn.specs.Functions.{binary};
ghost use Rattle.vx_fn.specs.Views.{function_of, operation_of};
ghost use Rattle.vx_rewrite_folding.specs.Known.{IsMade, is_case, tree_of};
ghost use Rattle.vx_rewrite_rule_laws.specs.Folding.{known_given};
ghost use Rattle.vx_tree.specs.Trees.{node};
ghost use Rattle.vx_tree.specs.Views.{bound_of, bounds_of};

use crate::arithmetic::known_of_arithmetic;
use crate::constants::truth_literal;
use crate::like::{beginning_tree, known_of_like};
use crate::logic::known_of_logic;
use crate::nulls::{known_of_between, known_of_comparison};
use crate::searches::known_of_search;
use crate::single::{known_of_cast, known_of_mask, known_of_not, known_of_test, null_test};
use std::alloc::Global;
use vx_dtype::DType;
use vx_floats::Arithmetic;
use vx_fn::{Operator, ScalarFnRef};
use vx_rewrite_core::{null_of, pair};
use vx_tree::{BoundExpression, VortexResult};

// What stands for a node.
#[derive(Clone, Copy)]
pub(crate) enum Known<'a> {
    // A tree below it.
    Tree(&'a BoundExpression),
    // The literal of that truth value, of the type without null.
    Truth(bool),
    // The null literal of that type.
    Null(&'a DType),
    // The test whether a tree is null, or that it is not.
    NullTest(bool, &'a BoundExpression),
    // A test whether texts begin with one.
    Beginning(BeginningTest<'a>),
}

// A test, of that type, whether the texts of a tree begin with a literal of that type.
#[derive(Clone, Copy)]
pub(crate) struct BeginningTest<'a> {
    pub dtype: &'a DType,
    pub input: &'a BoundExpression,
    pub prefix_dtype: &'a DType,
    pub prefix: &'a str,
}

// What is known of a node of that type and function over the children, if anything. A CASE isn't asked:
// what stands for it is no part of it.
pub(crate) fn known_of<'a>(
    dtype: &'a DType,
    scalar_fn: &ScalarFnRef,
    children: &'a [BoundExpression],
) -> Option<Known<'a>>
    requires { IsFalse (is_case (function_of scalar_fn.now)) }
    ensures { option_map tree_of result ≡ known_given (node (type_of dtype.now) (function_of scalar_fn.now) (bounds_of children.now)) }
{
    match scalar_fn {
        ScalarFnRef::Binary(operator) => known_of_binary(dtype, *operator, children),
        ScalarFnRef::Between(_) => known_of_between(dtype, children),
        ScalarFnRef::Not(_) => known_of_not(children),
        ScalarFnRef::Cast(_) => known_of_cast(dtype, children),
        ScalarFnRef::Mask(_) => known_of_mask(children),
        ScalarFnRef::Like(options) => known_of_like(dtype, *options, children),
        ScalarFnRef::ListContains(_) => known_of_search(dtype, children),
        ScalarFnRef::IsNull(_) => known_of_test(false, children),
        ScalarFnRef::IsNotNull(_) => known_of_test(true, children),
        _ => None,
    }
}

// The same of a binary function of the type.
fn known_of_binary<'a>(
    dtype: &'a DType,
    operator: Operator,
    children: &'a [BoundExpression],
) -> Option<Known<'a>>
    ensures { option_map tree_of result ≡ known_given (node (type_of dtype.now) (binary (operation_of operator)) (bounds_of children.now)) }
{
    let (left, right) = pair(children)?;
    match operator {
        Operator::And => known_of_logic(true, left, right),
        Operator::Or => known_of_logic(false, left, right),
        Operator::Add => known_of_arithmetic(Arithmetic::Sum, left, right),
        Operator::Sub => known_of_arithmetic(Arithmetic::Difference, left, right),
        Operator::Mul => known_of_arithmetic(Arithmetic::Product, left, right),
        Operator::Div => known_of_arithmetic(Arithmetic::Quotient, left, right),
        Operator::Rem => None,
        Operator::Eq
        | Operator::NotEq
        | Operator::Gt
        | Operator::Gte
        | Operator::Lt
        | Operator::Lte => known_of_comparison(dtype, left, right),
    }
}

// The tree that is known.
pub(crate) fn known_tree(alloc: Global, known: &Known) -> VortexResult<BoundExpression>
    requires { IsMade known.now }
    ensures { ReturnsOrOom bound_of result (Ok (tree_of known.now)) }
{
    match *known {
        Known::Tree(tree) => Ok(tree.clone()?),
        Known::Truth(b) => truth_literal(alloc, b),
        Known::Null(dtype) => null_of(alloc, dtype),
        Known::NullTest(is_null, tested) => null_test(alloc, is_null, tested),
        Known::Beginning(test) => beginning_tree(alloc, test),
    }
}
