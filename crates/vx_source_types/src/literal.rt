// Scalars of what was read.
ghost use Rattle.std.specs.Prelude.{◌≡◌, option_and_then, option_map, MatchResult, Some, Ok, Err};
ghost use Rattle.vx_value.specs.Types.{int};
ghost use Rattle.vx_value.specs.Views.{admits_null, type_of, fields_of, value_of, data_view};
ghost use Rattle.vx_source_types.specs.Literals.{number_literal, ranged, in_range, open_literal, open_type, plain_literal, plain_point, plain_type, point_literal, typed_literal, typed_of, fitting, names_left, items_left, row_left, behind_name};
ghost use Rattle.vx_source_types.specs.Untyped.{typed_value};
ghost use Rattle.vx_source_types.specs.ValueViews.{draft_of};

use crate::expectation::Expected;
use crate::point::is_whole;
use crate::type_words::ptype_word;
use crate::typed_value::{point_typed, type_value};
use crate::value_reader::signed;
use crate::value_state::Draft;
use vx_dtype::{DType, FieldName, FloatType, Nullability, PType, StructFields};
use vx_value::{Scalar, Value};

/// The number with a type's name behind it, if it is in the type's range.
pub fn number_literal(negative: bool, magnitude: Option<u64>, suffix: &FieldName) -> Option<Scalar>
    ensures { result ≡ number_literal negative magnitude suffix.now }
{
    ranged(negative, magnitude?, ptype_word(suffix)?)
}

// The number as one of the type, if it is in its range.
fn ranged(negative: bool, magnitude: u64, p: PType) -> Option<Scalar>
    ensures { result ≡ ranged negative (Some magnitude) (Some p) }
{
    let dtype = DType::Primitive(p, Nullability::NonNullable);
    fitting(dtype, Value::Int(signed(negative, magnitude)))
}

// The value as a scalar of the type, if it is one of it.
fn fitting(dtype: DType, value: Value) -> Option<Scalar>
    ensures { result ≡ fitting (type_of dtype) (value_of value) }
{
    Scalar::try_new(dtype, value).ok()
}

/// The scalar of a value that no type follows, or what would have stood right.
pub fn plain_literal(draft: Draft) -> Result<Scalar, Expected>
    ensures { result ≡ plain_literal (draft_of draft) }
{
    match draft {
        Draft::Value(value, _) => {
            let dtype = plain_type(&value)?;
            in_range(fitting(dtype, value))
        }
        Draft::Point(digits) => in_range(plain_point(digits.as_str())),
    }
}

// The number with a point that stands alone; a whole one from 2^64 on is none.
fn plain_point(digits: &str) -> Option<Scalar>
    ensures { result ≡ plain_point digits.now }
{
    if is_whole(digits) {
        return None;
    }
    let dtype = DType::Float(FloatType::F64, Nullability::NonNullable);
    point_literal(digits, dtype)
}

// The number with a point as a scalar of the type, if it is one of it.
fn point_literal(digits: &str, dtype: DType) -> Option<Scalar>
    ensures { result ≡ point_literal digits.now (type_of dtype) }
{
    let value = point_typed(digits, &dtype)?;
    fitting(dtype, value)
}

/// The scalar of a value that no type follows and that may take its type from what it stands beside, or what would have
/// stood right: of one of two types, which differ. A number with a point is its text, nullable where others are not.
pub fn open_literal(draft: Draft, nullable: bool) -> Result<Scalar, Expected>
    ensures { result ≡ open_literal nullable (draft_of draft) }
{
    match draft {
        Draft::Value(value, _) => {
            let dtype = open_type(&value, nullable)?;
            in_range(fitting(dtype, value))
        }
        Draft::Point(digits) => {
            let dtype = DType::Utf8(Nullability::of(!nullable));
            in_range(fitting(dtype, Value::Utf8(digits)))
        }
    }
}

// The scalar, or that a number of another range would have stood right.
fn in_range(scalar: Option<Scalar>) -> Result<Scalar, Expected>
    ensures { result ≡ in_range scalar }
{
    match scalar {
        Some(scalar) => Ok(scalar),
        None => Err(Expected::Number),
    }
}

// One of the two types of a value that may take another one, or what would have stood right.
fn open_type(value: &Value, nullable: bool) -> Result<DType, Expected>
    ensures { MatchResult result (λ t. open_type nullable (value_of value.now) ≡ Ok (type_of t)) (λ e. open_type nullable (value_of value.now) ≡ Err e) }
{
    let n = Nullability::of(nullable);
    match value {
        Value::Null if nullable => Ok(DType::Utf8(n)),
        Value::Null => Ok(DType::Bool(Nullability::Nullable)),
        Value::Bool(_) => Ok(DType::Bool(n)),
        Value::Int(number) => Ok(whole_number(*number, n)),
        Value::Float(x) => Ok(DType::Float(x.float_type(), n)),
        Value::Utf8(_) => Ok(DType::Utf8(n)),
        Value::Binary(_) => Ok(DType::Binary(n)),
        Value::List(_) => Err(Expected::ValueType),
        Value::Struct(_) => Err(Expected::ValueType),
    }
}

// The signed type of 64 bits where the number is in its range, and else the unsigned one.
fn whole_number(number: i128, n: Nullability) -> DType
    ensures { open_type (admits_null n) (int number) ≡ Ok (type_of result) }
{
    let signed = DType::Primitive(PType::I64, n);
    if Value::Int(number).fits(&signed) {
        signed
    } else {
        DType::Primitive(PType::U64, n)
    }
}

// The type of a value that no type follows, or what would have stood right.
fn plain_type(value: &Value) -> Result<DType, Expected>
    ensures { MatchResult result (λ t. plain_type (value_of value.now) ≡ Ok (type_of t)) (λ e. plain_type (value_of value.now) ≡ Err e) }
{
    match value {
        Value::Null => Err(Expected::NullType),
        Value::Bool(_) => Ok(DType::Bool(Nullability::NonNullable)),
        Value::Int(_) => Ok(DType::Primitive(PType::I32, Nullability::NonNullable)),
        Value::Float(x) => Ok(DType::Float(x.float_type(), Nullability::NonNullable)),
        Value::Utf8(_) => Ok(DType::Utf8(Nullability::NonNullable)),
        Value::Binary(_) => Ok(DType::Binary(Nullability::NonNullable)),
        Value::List(_) => Err(Expected::ValueType),
        Value::Struct(_) => Err(Expected::ValueType),
    }
}

/// The scalar of a value and the type behind it, if the value is one of the type and its structs
/// have the type's names. Of a decimal, a floating-point number, a day or an instant its text is one, and of the first two a
/// number with a point.
pub fn typed_literal(draft: Draft, dtype: DType) -> Option<Scalar>
    ensures { result ≡ typed_literal (draft_of draft) (type_of dtype) }
{
    match draft {
        Draft::Value(value, names) => {
            let value = named_value(value, names.as_slice(), &dtype)?;
            fitting(dtype, value)
        }
        Draft::Point(digits) => point_literal(digits.as_str(), dtype),
    }
}

// What the type behind it makes of the value, if its structs have the type's names.
fn named_value(mut value: Value, names: &[FieldName], dtype: &DType) -> Option<Value>
    ensures { typed_of (type_of dtype.now) (names_left (value_of value) (type_of dtype.now) names.now) (typed_value (value_of value) (type_of dtype.now)) ≡ option_and_then (λ v. fitting (type_of dtype.now) (value_of v)) result }
{
    if !names_left(&value, dtype, names)?.is_empty() {
        return None;
    }
    type_value(&mut value, dtype)?;
    Some(value)
}

// What is left of the names behind those of the value's structs, if these are the type's.
#[cycle(names)]
fn names_left<'a>(value: &Value, t: &DType, names: &'a [FieldName]) -> Option<&'a [FieldName]>
    ensures { option_map (λ ns. ns.now) result ≡ names_left (value_of value.now) (type_of t.now) names.now }
{
    match value {
        Value::List(items) => match t {
            DType::List(element, _) => items_left(items.as_slice(), element.as_ref(), names),
            DType::FixedSizeList(element, _, _) => {
                items_left(items.as_slice(), element.as_ref(), names)
            }
            _ => None,
        },
        Value::Struct(items) => match t {
            DType::Struct(fields, _) => row_left(items.as_slice(), fields, names),
            _ => None,
        },
        _ => Some(names),
    }
}

// The same of the items of a list.
#[cycle(names)]
fn items_left<'a>(items: &[Value], t: &DType, names: &'a [FieldName]) -> Option<&'a [FieldName]>
    ensures { option_map (λ ns. ns.now) result ≡ items_left (data_view items.now) (type_of t.now) names.now }
{
    let mut left = names;
    for i in 0..items.len() {
        left = names_left(&items[i], t, left)?;
    }
    Some(left)
}

// The same of the values of a struct, as many as its fields, each behind its field's name.
#[cycle(names)]
fn row_left<'a>(
    items: &[Value],
    fields: &StructFields,
    names: &'a [FieldName],
) -> Option<&'a [FieldName]>
    ensures { option_map (λ ns. ns.now) result ≡ row_left (data_view items.now) (fields_of fields.now) names.now }
{
    if items.len() != fields.nfields() {
        return None;
    }
    let known = fields.names().as_slice();
    let types = fields.types();
    let mut left = names;
    for i in 0..items.len() {
        left = names_left(&items[i], &types[i], behind_name(&known[i], left)?)?;
    }
    Some(left)
}

// What is left of the names behind that one, if it is the first.
fn behind_name<'a>(name: &FieldName, names: &'a [FieldName]) -> Option<&'a [FieldName]>
    ensures { option_map (λ ns. ns.now) result ≡ behind_name name.now names.now }
{
    let [first, rest @ ..] = names else {
        return None;
    };
    if *first == *name { Some(rest) } else { None }
}
