// Comparisons of values of one kind.
ghost use Rattle.std.specs.Prelude.{◌≡◌, length, List, [], ◌∷◌, IsTrue};
ghost use Rattle.std.specs.Ordering.{int_cmp};
ghost use Rattle.std.proofs.Math.ListN.{replicate};
ghost use Rattle.vx_value.specs.Types.{LogicalType};
ghost use Rattle.vx_value.specs.Views.{value_of};
ghost use Rattle.vx_fn.specs.Functions.{binary, compares};
ghost use Rattle.vx_fn.specs.Functions as functions;
ghost use Rattle.vx_fn.specs.Values.{binary_value, bound_comparison, kleene_and, compared};
ghost use Rattle.vx_fn.specs.Values as values;
ghost use Rattle.vx_fn.specs.Views.{operation_of, is_strict};
ghost use Rattle.vx_eval.specs.Columns.{rows_view, truth_datum, Evaluates};
ghost use Rattle.vx_eval.specs.Kernels.{is_comparison, agrees_with};

use crate::compared::ComparedItem;
use crate::conjunction::Conjunction;
use crate::logic::kleene_and;
use crate::rows::Rows;
use crate::truths::told;
use std::alloc::Global;
use std::cmp::Ordering;
use vx_dtype::VortexResult;
use vx_fn::{BetweenOptions, Operator, StrictComparison};
use vx_value::Value;

/// The comparison of two columns. Asks one of the six comparisons.
/// Refuses with `OutOfMemory` (1) alone.
pub fn compare<'a>(
    alloc: Global,
    count: usize,
    operator: Operator,
    lhs: &Rows<'a>,
    rhs: &Rows<'a>,
) -> VortexResult<Rows<'a>>
    requires comparison { IsTrue (is_comparison (operation_of operator)) }
    requires left { length (rows_view lhs.now) ≡ count }
    requires right { length (rows_view rhs.now) ≡ count }
    ensures { (ts : List LogicalType) → Evaluates (binary (operation_of operator)) ts count (rows_view lhs.now ∷ rows_view rhs.now ∷ []) result }
{
    match rhs {
        Rows::Same(value, _) => compare_with(alloc, count, operator, lhs, *value),
        _ => told(alloc, count, |i| compared(operator, lhs.row(i), rhs.row(i))),
    }
}

// The same with one value on the right of all rows; a field of lent structs is compared where it
// lies, when its rows are asked for.
fn compare_with<'a>(
    alloc: Global,
    count: usize,
    operator: Operator,
    lhs: &Rows<'a>,
    value: &'a Value,
) -> VortexResult<Rows<'a>>
    requires comparison { IsTrue (is_comparison (operation_of operator)) }
    requires left { length (rows_view lhs.now) ≡ count }
    ensures { (ts : List LogicalType) → Evaluates (binary (operation_of operator)) ts count (rows_view lhs.now ∷ replicate count (value_of value.now) ∷ []) result }
{
    match lhs {
        Rows::Item(rows, place, _) => {
            let item = ComparedItem::new(operator, *rows, *place, value);
            Ok(Rows::Compared(Conjunction::new(alloc, item)?))
        }
        _ => told(alloc, count, |i| compared(operator, lhs.row(i), value)),
    }
}

/// Whether each value lies between its bounds, the lower and the upper one. Refuses with `OutOfMemory`
/// (1) alone.
pub fn between<'a>(
    alloc: Global,
    count: usize,
    options: &BetweenOptions,
    array: &Rows,
    bounds: (&Rows, &Rows),
) -> VortexResult<Rows<'a>>
    requires array { length (rows_view array.now) ≡ count }
    requires lower { length (rows_view bounds.0.now) ≡ count }
    requires upper { length (rows_view bounds.1.now) ≡ count }
    ensures { (ts : List LogicalType) → Evaluates (functions.between (is_strict options.now.lower_strict) (is_strict options.now.upper_strict)) ts count
        (rows_view array.now ∷ rows_view bounds.entry.0.now ∷ rows_view bounds.entry.1.now ∷ []) result }
{
    let (lower, upper) = bounds;
    told(
        alloc,
        count,
        |i| lies_between(options, array.row(i), lower.row(i), upper.row(i)),
    )
}

// Whether the value lies above the lower bound and below the upper one, by Kleene's And.
fn lies_between(options: &BetweenOptions, v: &Value, lower: &Value, upper: &Value) -> Option<bool>
    ensures { truth_datum result ≡ kleene_and
        (compared (bound_comparison (is_strict options.now.lower_strict)) (value_of lower.now) (value_of v.now))
        (compared (bound_comparison (is_strict options.now.upper_strict)) (value_of v.now) (value_of upper.now)) }
{
    let above = compared(below(options.lower_strict), lower, v);
    let below = compared(below(options.upper_strict), v, upper);
    kleene_and(above, below)
}

// The comparison of a bound.
fn below(strict: StrictComparison) -> Operator
    ensures { operation_of result ≡ compares (bound_comparison (is_strict strict)) }
{
    match strict {
        StrictComparison::Strict => Operator::Lt,
        StrictComparison::NonStrict => Operator::Lte,
    }
}

/// Null where one of the two is, else whether their order is one that the operator asks for.
#[inline(always)]
pub fn compared(operator: Operator, v: &Value, w: &Value) -> Option<bool>
    requires { IsTrue (is_comparison (operation_of operator)) }
    ensures { truth_datum result ≡ binary_value (operation_of operator) (value_of v.now) (value_of w.now) }
{
    if let Value::Int(a) = v {
        if let Value::Int(b) = w {
            return Some(holds(operator, *a, *b));
        }
    }
    if v.is_null() || w.is_null() {
        return None;
    }
    Some(agrees(operator, order(v, w)))
}

// Whether the comparison holds of two numbers, with no order made of them first.
#[inline(always)]
fn holds(operator: Operator, a: i128, b: i128) -> bool
    requires { IsTrue (is_comparison (operation_of operator)) }
    ensures { result ≡ agrees_with (operation_of operator) (int_cmp a b) }
{
    match operator {
        Operator::Eq => a == b,
        Operator::NotEq => a != b,
        Operator::Gt => a > b,
        Operator::Gte => a >= b,
        Operator::Lt => a < b,
        Operator::Lte => a <= b,
        Operator::And
        | Operator::Or
        | Operator::Add
        | Operator::Sub
        | Operator::Mul
        | Operator::Div
        | Operator::Rem => unreachable!(),
    }
}

// Whether the order is one that the operator asks for.
fn agrees(operator: Operator, order: Ordering) -> bool
    requires { IsTrue (is_comparison (operation_of operator)) }
    ensures { result ≡ agrees_with (operation_of operator) order }
{
    match operator {
        Operator::Eq => order.is_eq(),
        Operator::NotEq => order.is_ne(),
        Operator::Gt => order.is_gt(),
        Operator::Gte => order.is_ge(),
        Operator::Lt => order.is_lt(),
        Operator::Lte => order.is_le(),
        Operator::And
        | Operator::Or
        | Operator::Add
        | Operator::Sub
        | Operator::Mul
        | Operator::Div
        | Operator::Rem => unreachable!(),
    }
}

/// False before true, whole numbers by number, floating-point numbers by IEEE 754's total order, texts
/// and bytes by their bytes.
pub fn order(v: &Value, w: &Value) -> Ordering
    ensures { result ≡ values.order (value_of v.now) (value_of w.now) }
{
    match v {
        Value::Bool(a) => match w {
            Value::Bool(b) => a.cmp(b),
            _ => Ordering::Equal,
        },
        Value::Int(a) => match w {
            Value::Int(b) => a.cmp(b),
            _ => Ordering::Equal,
        },
        Value::Float(a) => match w {
            Value::Float(b) => a.total_order(*b),
            _ => Ordering::Equal,
        },
        Value::Utf8(a) => match w {
            Value::Utf8(b) => a.as_str().cmp(b.as_str()),
            _ => Ordering::Equal,
        },
        Value::Binary(a) => match w {
            Value::Binary(b) => a.as_slice().cmp(b.as_slice()),
            _ => Ordering::Equal,
        },
        _ => Ordering::Equal,
    }
}
