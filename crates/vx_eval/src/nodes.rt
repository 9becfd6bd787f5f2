// The function of a node over its children's columns.
ghost use Rattle.std.specs.Prelude.{◌≡◌, ◌<◌, length, List, [], ◌∷◌, IsOk, IsTrue};
ghost use Rattle.vx_value.specs.Types.{LogicalType};
ghost use Rattle.vx_value.specs.Views.{type_of};
ghost use Rattle.vx_fn.specs.Functions.{fn_type, computes, is_number};
ghost use Rattle.vx_fn.specs.Functions as functions;
ghost use Rattle.vx_fn.specs.Views.{function_of, operation_of};
ghost use Rattle.vx_tree.specs.Trees.{no_bound, bound, node_types};
ghost use Rattle.vx_tree.specs.Views.{bound_of, bounds_of};
ghost use Rattle.vx_eval.specs.Columns.{rows_view, rows_views, AllLong, Evaluates};
ghost use Rattle.vx_eval.specs.Items.{is_arithmetic};

use crate::rows::Rows;
use crate::{
    arithmetic, beginnings, byte_lengths, casting, choice, comparison, fields, logic, membership,
    nulls, text,
};
use std::alloc::Global;
use vx_dtype::{DType, VortexResult};
use vx_floats::Arithmetic;
use vx_fn::{Operator, ScalarFnRef};
use vx_tree::BoundExpression;
use vx_value::Scalar;

/// The function over its children's columns, or its fault over their rows.
pub fn apply<'a>(
    alloc: Global,
    count: usize,
    f: &'a ScalarFnRef,
    children: &'a [BoundExpression],
    columns: Vec<Rows<'a>>,
) -> VortexResult<Rows<'a>>
    requires typed { IsOk (fn_type (function_of f.now) (node_types (bounds_of children.now))) }
    requires number { length columns.items ≡ length (node_types (bounds_of children.now)) }
    requires long { AllLong count (rows_views columns.items) }
    ensures { Evaluates (function_of f.now) (node_types (bounds_of children.now)) count (rows_views columns.entry.items) result }
{
    match f {
        ScalarFnRef::CaseWhen(_) => choice::case_when(alloc, count, columns),
        ScalarFnRef::GetItem(name) => {
            let dtype = only(children).dtype();
            fields::get_item(alloc, count, name, dtype, one(columns))
        }
        ScalarFnRef::Literal(scalar) => literal(count, scalar),
        ScalarFnRef::Pack(_) => fields::pack(alloc, count, columns),
        ScalarFnRef::Select(selection) => {
            let dtype = only(children).dtype();
            fields::select(alloc, count, selection, dtype, single(columns.as_slice()))
        }
        ScalarFnRef::FillNull(_) => {
            let (input, fill) = two(columns);
            let filled = nulls::fill_null(alloc, count, first_type(children), input, &fill);
            drop(fill);
            filled
        }
        ScalarFnRef::Zip(_) => {
            let (if_true, if_false, mask) = three(columns);
            choice::zip(alloc, count, if_true, if_false, mask)
        }
        ScalarFnRef::Binary(operator) => {
            binary(alloc, count, *operator, first_type(children), columns)
        }
        ScalarFnRef::Not(_) => logic::not(alloc, count, single(columns.as_slice())),
        ScalarFnRef::Between(options) => {
            let (array, lower, upper) = triple(columns.as_slice());
            comparison::between(alloc, count, options, array, (lower, upper))
        }
        ScalarFnRef::Like(options) => {
            let (child, pattern) = pair(columns.as_slice());
            text::like(alloc, count, options, child, pattern)
        }
        ScalarFnRef::IsNull(_) => nulls::is_null(alloc, count, single(columns.as_slice())),
        ScalarFnRef::IsNotNull(_) => nulls::is_not_null(alloc, count, single(columns.as_slice())),
        ScalarFnRef::Mask(_) => {
            let (input, mask) = two(columns);
            nulls::mask(alloc, count, input, mask)
        }
        ScalarFnRef::Cast(target) => casting::cast(count, target, one(columns)),
        ScalarFnRef::StartsWith(_) => {
            let (input, prefix) = pair(columns.as_slice());
            beginnings::starts_with(alloc, count, input, prefix)
        }
        ScalarFnRef::ByteLength(_) => {
            byte_lengths::byte_length(alloc, count, single(columns.as_slice()))
        }
        ScalarFnRef::ListContains(_) => {
            let (list, needle) = pair(columns.as_slice());
            membership::list_contains(alloc, count, list, needle)
        }
    }
}

// The scalar's value in so many rows, lent.
fn literal<'a>(count: usize, scalar: &'a Scalar) -> VortexResult<Rows<'a>>
    ensures { (ts : List LogicalType) → Evaluates (functions.literal scalar.now.type scalar.now.value) ts count [] result }
{
    Ok(Rows::Same(scalar.value(), count))
}

// The operator over two columns, of which the left one has that type.
fn binary<'a>(
    alloc: Global,
    count: usize,
    operator: Operator,
    dtype: &DType,
    columns: Vec<Rows<'a>>,
) -> VortexResult<Rows<'a>>
    requires numbers { IsTrue (is_arithmetic (operation_of operator)) → IsTrue (is_number (type_of dtype.now)) }
    requires two { length columns.items ≡ 2 }
    requires long { AllLong count (rows_views columns.items) }
    ensures { (ts : List LogicalType) → Evaluates (functions.binary (operation_of operator)) (type_of dtype.now ∷ ts) count (rows_views columns.entry.items) result }
{
    match operator {
        Operator::And => {
            let (lhs, rhs) = two(columns);
            logic::and(alloc, count, lhs, rhs)
        }
        Operator::Or => {
            let (lhs, rhs) = pair(columns.as_slice());
            logic::or(alloc, count, lhs, rhs)
        }
        Operator::Add => computed(alloc, count, Arithmetic::Sum, dtype, columns),
        Operator::Sub => computed(alloc, count, Arithmetic::Difference, dtype, columns),
        Operator::Mul => computed(alloc, count, Arithmetic::Product, dtype, columns),
        Operator::Div => computed(alloc, count, Arithmetic::Quotient, dtype, columns),
        Operator::Rem => computed(alloc, count, Arithmetic::Remainder, dtype, columns),
        Operator::Eq
        | Operator::NotEq
        | Operator::Gt
        | Operator::Gte
        | Operator::Lt
        | Operator::Lte => {
            let (lhs, rhs) = pair(columns.as_slice());
            comparison::compare(alloc, count, operator, lhs, rhs)
        }
    }
}

// The arithmetic over two columns, of which the left one has that number type.
fn computed<'a>(
    alloc: Global,
    count: usize,
    arithmetic: Arithmetic,
    dtype: &DType,
    columns: Vec<Rows<'a>>,
) -> VortexResult<Rows<'a>>
    requires number { IsTrue (is_number (type_of dtype.now)) }
    requires two { length columns.items ≡ 2 }
    requires long { AllLong count (rows_views columns.items) }
    ensures { (ts : List LogicalType) → Evaluates (functions.binary (computes arithmetic)) (type_of dtype.now ∷ ts) count (rows_views columns.entry.items) result }
{
    let (lhs, rhs) = pair(columns.as_slice());
    arithmetic::compute(alloc, count, arithmetic, dtype, lhs, rhs)
}

// The one child.
fn only(children: &[BoundExpression]) -> &BoundExpression
    requires { length children.now ≡ 1 }
    ensures { bounds_of children.now ≡ bound (bound_of result.now) no_bound }
{
    &children[0]
}

// The first child's type.
fn first_type(children: &[BoundExpression]) -> &DType
    requires { 0 < length children.now }
    ensures { (rest : List LogicalType) × (node_types (bounds_of children.now) ≡ type_of result.now ∷ rest) }
{
    children[0].dtype()
}

// The one column, lent.
fn single<'c, 'a>(columns: &'c [Rows<'a>]) -> &'c Rows<'a>
    requires { length columns.now ≡ 1 }
    ensures { columns.now ≡ result.now ∷ [] }
{
    &columns[0]
}

// The two columns, lent.
fn pair<'c, 'a>(columns: &'c [Rows<'a>]) -> (&'c Rows<'a>, &'c Rows<'a>)
    requires { length columns.now ≡ 2 }
    ensures { columns.now ≡ result.0.now ∷ result.1.now ∷ [] }
{
    (&columns[0], &columns[1])
}

// The three columns, lent.
fn triple<'c, 'a>(columns: &'c [Rows<'a>]) -> (&'c Rows<'a>, &'c Rows<'a>, &'c Rows<'a>)
    requires { length columns.now ≡ 3 }
    ensures { columns.now ≡ result.0.now ∷ result.1.now ∷ result.2.now ∷ [] }
{
    (&columns[0], &columns[1], &columns[2])
}

/// The one column. Asks for just one.
pub fn one<'a>(mut columns: Vec<Rows<'a>>) -> Rows<'a>
    requires { length columns.items ≡ 1 }
    ensures { columns.entry.items ≡ result ∷ [] }
{
    columns.pop().unwrap()
}

// The two columns.
fn two<'a>(mut columns: Vec<Rows<'a>>) -> (Rows<'a>, Rows<'a>)
    requires { length columns.items ≡ 2 }
    ensures { columns.entry.items ≡ result.0 ∷ result.1 ∷ [] }
{
    let last = columns.pop().unwrap();
    let first = columns.pop().unwrap();
    (first, last)
}

// The three columns.
fn three<'a>(mut columns: Vec<Rows<'a>>) -> (Rows<'a>, Rows<'a>, Rows<'a>)
    requires { length columns.items ≡ 3 }
    ensures { columns.entry.items ≡ result.0 ∷ result.1 ∷ result.2 ∷ [] }
{
    let last = columns.pop().unwrap();
    let (first, second) = two(columns);
    (first, second, last)
}
