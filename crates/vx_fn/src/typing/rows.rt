// The types of nodes whose function looks at types alone: a function for each row of the table.
ghost use Rattle.std.specs.Prelude.{◌≡◌, Ok, true};
ghost use Rattle.vx_value.specs.Returns.{ReturnsOrOom, Returns};
ghost use Rattle.vx_value.specs.Fits.{Fits};
ghost use Rattle.vx_value.specs.Types.{with_nullability};
ghost use Rattle.vx_value.specs.Views.{admits_null, type_of};
ghost use Rattle.vx_fn.specs.Functions.{fill_null, zip, mask as mask_function, cast, is_truth, is_text, is_number, is_number_for, is_additive, is_atomic, truth_type, binary_type, comparison_type, logic_type, arithmetic_type, fill_type, zip_type, not_type, between_type, like_type, length_type, contains_type, is_list_of, may_hold_null, mask_type, cast_type};
ghost use Rattle.vx_fn.specs.Memory.{RefusesEarly};
ghost use Rattle.vx_fn.specs.Views.{operation_of};

use crate::Operator;
use std::alloc::Global;
use vx_dtype::{DType, Nullability, PType, VortexError, VortexResult};
use vx_floats::Arithmetic;
use vx_value::Scalar;

// Reading the value tells that it is one of the type.
pub(super) fn literal_dtype(scalar: &Scalar) -> VortexResult<DType>
    ensures typed { ReturnsOrOom type_of result (Ok scalar.now.type) }
    ensures fits { Fits scalar.now.value scalar.now.type }
{
    let _value = scalar.value();
    Ok(scalar.dtype().clone()?)
}

pub(super) fn fill_dtype(t: &DType, u: &DType) -> VortexResult<DType>
    ensures typed { ReturnsOrOom type_of result (fill_type (type_of t.now) (type_of u.now)) }
    ensures early { RefusesEarly fill_null type_of result (fill_type (type_of t.now) (type_of u.now)) }
{
    if !t.eq_ignore_nullability(u) {
        return Err(VortexError::BaseTypesDiffer);
    }
    Ok(t.clone()?.with_nullability(u.nullability()))
}

pub(super) fn zip_dtype(alloc: Global, t: &DType, u: &DType, mask: &DType) -> VortexResult<DType>
    ensures typed { ReturnsOrOom type_of result (zip_type (type_of t.now) (type_of u.now) (type_of mask.now)) }
    ensures early { RefusesEarly zip type_of result (zip_type (type_of t.now) (type_of u.now) (type_of mask.now)) }
{
    if !is_truth(mask) {
        return Err(VortexError::NotBool);
    }
    match t.union(alloc, u)? {
        Some(joined) => Ok(joined),
        None => Err(VortexError::BaseTypesDiffer),
    }
}

pub(super) fn binary_dtype(operator: Operator, t: &DType, u: &DType) -> VortexResult<DType>
    ensures { Returns type_of result (binary_type (operation_of operator) (type_of t.now) (type_of u.now)) }
{
    match operator {
        Operator::Eq
        | Operator::NotEq
        | Operator::Gt
        | Operator::Gte
        | Operator::Lt
        | Operator::Lte => comparison_dtype(t, u),
        Operator::And | Operator::Or => logic_dtype(t, u),
        Operator::Add => arithmetic_dtype(Arithmetic::Sum, t, u),
        Operator::Sub => arithmetic_dtype(Arithmetic::Difference, t, u),
        Operator::Mul => arithmetic_dtype(Arithmetic::Product, t, u),
        Operator::Div => arithmetic_dtype(Arithmetic::Quotient, t, u),
        Operator::Rem => arithmetic_dtype(Arithmetic::Remainder, t, u),
    }
}

fn comparison_dtype(t: &DType, u: &DType) -> VortexResult<DType>
    ensures { Returns type_of result (comparison_type (type_of t.now) (type_of u.now)) }
{
    if !(is_atomic(t) && is_atomic(u)) {
        return Err(VortexError::NotComparable);
    }
    if !t.eq_ignore_nullability(u) {
        return Err(VortexError::BaseTypesDiffer);
    }
    let nullable = t.is_nullable() || u.is_nullable();
    Ok(truth_dtype(nullable))
}

fn logic_dtype(t: &DType, u: &DType) -> VortexResult<DType>
    ensures { Returns type_of result (logic_type (type_of t.now) (type_of u.now)) }
{
    if !(is_truth(t) && is_truth(u)) {
        return Err(VortexError::NotBool);
    }
    Ok(truth_dtype(t.is_nullable() || u.is_nullable()))
}

fn arithmetic_dtype(arithmetic: Arithmetic, t: &DType, u: &DType) -> VortexResult<DType>
    ensures { Returns type_of result (arithmetic_type arithmetic (type_of t.now) (type_of u.now)) }
{
    if !(is_number_for(arithmetic, t) && is_number_for(arithmetic, u)) {
        return Err(VortexError::NotNumeric);
    }
    if !t.eq_ignore_nullability(u) {
        return Err(VortexError::BaseTypesDiffer);
    }
    number_dtype(t, Nullability::of(t.is_nullable() || u.is_nullable()))
}

// The type of numbers with that nullability.
fn number_dtype(t: &DType, nullability: Nullability) -> VortexResult<DType>
    requires { is_number (type_of t.now) ≡ true }
    ensures { Returns type_of result (Ok (with_nullability (admits_null nullability) (type_of t.now))) }
{
    match t {
        DType::Primitive(p, _) => Ok(DType::Primitive(*p, nullability)),
        DType::Float(format, _) => Ok(DType::Float(*format, nullability)),
        DType::Decimal(decimal, _) => Ok(DType::Decimal(*decimal, nullability)),
        _ => Err(VortexError::NotNumeric),
    }
}

// Whether the arithmetic takes values of the type.
fn is_number_for(arithmetic: Arithmetic, t: &DType) -> bool
    ensures { result ≡ is_number_for arithmetic (type_of t.now) }
{
    match t {
        DType::Primitive(_, _) | DType::Float(_, _) => true,
        DType::Decimal(_, _) => is_additive(arithmetic),
        _ => false,
    }
}

// Whether the arithmetic adds or subtracts.
fn is_additive(arithmetic: Arithmetic) -> bool
    ensures { result ≡ is_additive arithmetic }
{
    matches!(arithmetic, Arithmetic::Sum | Arithmetic::Difference)
}

pub(super) fn not_dtype(t: &DType) -> VortexResult<DType>
    ensures { Returns type_of result (not_type (type_of t.now)) }
{
    match t {
        DType::Bool(n) => Ok(DType::Bool(*n)),
        _ => Err(VortexError::NotBool),
    }
}

pub(super) fn between_dtype(t: &DType, lower: &DType, upper: &DType) -> VortexResult<DType>
    ensures { Returns type_of result (between_type (type_of t.now) (type_of lower.now) (type_of upper.now)) }
{
    if !(is_atomic(t) && is_atomic(lower) && is_atomic(upper)) {
        return Err(VortexError::NotComparable);
    }
    if !(t.eq_ignore_nullability(lower) && t.eq_ignore_nullability(upper)) {
        return Err(VortexError::BaseTypesDiffer);
    }
    Ok(truth_dtype(t.is_nullable() || lower.is_nullable() || upper.is_nullable()))
}

pub(super) fn like_dtype(t: &DType, pattern: &DType) -> VortexResult<DType>
    ensures { Returns type_of result (like_type (type_of t.now) (type_of pattern.now)) }
{
    if !(is_text(t) && is_text(pattern)) {
        return Err(VortexError::NotText);
    }
    Ok(truth_dtype(t.is_nullable() || pattern.is_nullable()))
}

pub(super) fn length_dtype(t: &DType) -> VortexResult<DType>
    ensures { Returns type_of result (length_type (type_of t.now)) }
{
    match t {
        DType::Utf8(n) => Ok(DType::Primitive(PType::I64, *n)),
        _ => Err(VortexError::NotText),
    }
}

pub(super) fn contains_dtype(t: &DType, needle: &DType) -> VortexResult<DType>
    ensures { Returns type_of result (contains_type (type_of t.now) (type_of needle.now)) }
{
    if !is_atomic(needle) {
        return Err(VortexError::NotComparable);
    }
    if !is_list_of(t, needle) {
        return Err(VortexError::BaseTypesDiffer);
    }
    Ok(truth_dtype(may_hold_null(t) || needle.is_nullable()))
}

// Whether the first is a type of lists of the second's values, but for nullability.
fn is_list_of(t: &DType, u: &DType) -> bool
    ensures { result ≡ is_list_of (type_of t.now) (type_of u.now) }
{
    match t {
        DType::List(element, _) => element.as_ref().eq_ignore_nullability(u),
        _ => false,
    }
}

// Whether a list of the type may be null, or an element of it.
fn may_hold_null(t: &DType) -> bool
    ensures { result ≡ may_hold_null (type_of t.now) }
{
    match t {
        DType::List(element, n) => n.admits_null() || element.as_ref().is_nullable(),
        _ => false,
    }
}

pub(super) fn mask_dtype(t: &DType, mask: &DType) -> VortexResult<DType>
    ensures typed { ReturnsOrOom type_of result (mask_type (type_of t.now) (type_of mask.now)) }
    ensures early { RefusesEarly mask_function type_of result (mask_type (type_of t.now) (type_of mask.now)) }
{
    if !(is_truth(mask) && !mask.is_nullable()) {
        return Err(VortexError::NotBool);
    }
    Ok(t.clone()?.with_nullability(Nullability::Nullable))
}

pub(super) fn cast_dtype(target: &DType, t: &DType) -> VortexResult<DType>
    ensures typed { ReturnsOrOom type_of result (cast_type (type_of target.now) (type_of t.now)) }
    ensures early { RefusesEarly (cast (type_of target.now)) type_of result (cast_type (type_of target.now) (type_of t.now)) }
{
    if !t.eq_ignore_nullability(target) {
        return Err(VortexError::BaseTypesDiffer);
    }
    Ok(target.clone()?)
}

pub(super) fn truth_dtype(nullable: bool) -> DType
    ensures { type_of result ≡ truth_type nullable }
{
    DType::Bool(Nullability::of(nullable))
}

pub(super) fn is_truth(t: &DType) -> bool
    ensures { result ≡ is_truth (type_of t.now) }
{
    matches!(t, DType::Bool(_))
}

fn is_text(t: &DType) -> bool
    ensures { result ≡ is_text (type_of t.now) }
{
    matches!(t, DType::Utf8(_))
}

pub(crate) fn is_atomic(t: &DType) -> bool
    ensures { result ≡ is_atomic (type_of t.now) }
{
    matches!(
        t,
        DType::Bool(_)
            | DType::Primitive(_, _)
            | DType::Float(_, _)
            | DType::Decimal(_, _)
            | DType::Date(_)
            | DType::Timestamp(_, _)
            | DType::Utf8(_)
            | DType::Binary(_)
    )
}
