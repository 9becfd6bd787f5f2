// Why a node has no SQL text.
ghost use Rattle.std.specs.Prelude.{◌≡◌, not};
ghost use Rattle.std.specs.Option.{is_some};
ghost use Rattle.vx_value.specs.Views.{type_of, value_of};
ghost use Rattle.vx_fn.specs.Views.{function_of, operation_of};
ghost use Rattle.vx_tree.specs.Nodes.{bound_at};
ghost use Rattle.vx_tree.specs.Views.{bounds_of};
ghost use Rattle.vx_sql.specs.Children.{passes, names_in, names_first, literal_in, is_value};
ghost use Rattle.vx_sql.specs.Quotes.{is_escaped};
ghost use Rattle.vx_sql.specs.declared.unsupported.Reason.TheVariants.{UnknownFunction};
ghost use Rattle.vx_sql.specs.Reasons.{has_nul, is_cut, same_name, spelling_reason, name_reason, names_reason, literal_reason, pack_reason, fill_reason, pattern_reason, number_reason, range_reason, because, has_arithmetic, operation_reason, function_reason, type_reason, own_reason};

use crate::Dialect;
use crate::calculations::Check;
use crate::children::{child_at, has_atomic_first, is_atomic, literal_in};
use crate::lists::membership_reason;
use crate::types::{has_floats, has_type, makes_structs};
use crate::unsupported::Reason;
use crate::words::is_misread;
use crate::zeros::{mixes_zeros, mixes_zeros_between};
use vx_dtype::{DType, FieldName};
use vx_floats::{Arithmetic, has_value_text};
use vx_fn::{Operator, ScalarFnRef};
use vx_literals::{has_day_text, has_instant_text};
use vx_tree::BoundExpression;
use vx_value::Value;

/// Why a node of that type over these children has no text: for their number, for its type, or for its
/// function.
pub(crate) fn own_reason(
    dialect: Dialect,
    dtype: &DType,
    scalar_fn: &ScalarFnRef,
    children: &[BoundExpression],
) -> Option<Reason>
    ensures { result ≡ own_reason dialect (type_of dtype.now) (function_of scalar_fn.now) (bounds_of children.now) }
{
    if children.len() != scalar_fn.arity() {
        return Some(Reason::ChildCount);
    }
    if let Some(reason) = type_reason(dialect, dtype) {
        return Some(reason);
    }
    function_reason(dialect, dtype, scalar_fn, children)
}

// Why values of the type have no text: the engine orders them otherwise, or has none.
fn type_reason(dialect: Dialect, dtype: &DType) -> Option<Reason>
    ensures { result ≡ type_reason dialect (type_of dtype.now) }
{
    match dtype {
        DType::Float(..) if !has_floats(dialect) => Some(Reason::FloatOrder),
        _ if !has_type(dialect, dtype) => Some(Reason::UnknownType),
        _ => None,
    }
}

fn function_reason(
    dialect: Dialect,
    dtype: &DType,
    scalar_fn: &ScalarFnRef,
    children: &[BoundExpression],
) -> Option<Reason>
    ensures { result ≡ function_reason dialect (type_of dtype.now) (function_of scalar_fn.now) (bounds_of children.now) }
{
    match scalar_fn {
        ScalarFnRef::GetItem(name) => name_reason(dialect, names_first(children), name),
        ScalarFnRef::Literal(scalar) => literal_reason(scalar.dtype(), scalar.value()),
        ScalarFnRef::Pack(options) => pack_reason(dialect, options.names.as_slice()),
        ScalarFnRef::Select(_) => Some(Reason::UnknownFunction),
        ScalarFnRef::ListContains(_) => membership_reason(children),
        ScalarFnRef::FillNull(_) => fill_reason(children),
        ScalarFnRef::Like(_) | ScalarFnRef::StartsWith(_) => pattern_reason(children),
        ScalarFnRef::Binary(operator) => operation_reason(dialect, dtype, *operator, children),
        ScalarFnRef::Between(_) => range_reason(children),
        ScalarFnRef::CaseWhen(_)
        | ScalarFnRef::Zip(_)
        | ScalarFnRef::Not(_)
        | ScalarFnRef::IsNull(_)
        | ScalarFnRef::IsNotNull(_)
        | ScalarFnRef::Mask(_)
        | ScalarFnRef::Cast(_)
        | ScalarFnRef::ByteLength(_) => None,
    }
}

/// Why the name can't be written as that of one of these columns or fields alone: `EmptyName`, `Nul`,
/// `LongName`, `Backslash` or `Keyword` by its spelling, `AmbiguousName` where the engine takes several of
/// them for it.
pub fn name_reason(dialect: Dialect, names: &[FieldName], name: &FieldName) -> Option<Reason>
    ensures { result ≡ name_reason dialect names.now name.now }
{
    if let Some(reason) = spelling_reason(dialect, name.as_str()) {
        return Some(reason);
    }
    let alike = names
        .iter()
        .filter(|other| same_name(dialect, name, other))
        .count();
    if alike > 1 {
        return Some(Reason::AmbiguousName);
    }
    None
}

/// Why no such name can be written: it is empty, has a NUL, is longer than the engine keeps, has a
/// backslash, which says something of the character behind it in ClickHouse, or is a word that ClickHouse's
/// shards take for something else.
pub fn spelling_reason(dialect: Dialect, name: &str) -> Option<Reason>
    ensures { result ≡ spelling_reason dialect name.now }
{
    if name.is_empty() {
        Some(Reason::EmptyName)
    } else if has_nul(name) {
        Some(Reason::Nul)
    } else if is_cut(dialect, name) {
        Some(Reason::LongName)
    } else if is_escaped(dialect, name) {
        Some(Reason::Backslash)
    } else if is_misread(dialect, name) {
        Some(Reason::Keyword)
    } else {
        None
    }
}

fn has_nul(text: &str) -> bool
    ensures { result ≡ has_nul text.now }
{
    text.as_bytes().contains(&0)
}

// Whether the engine cuts the name: PostgreSQL keeps 63 bytes.
fn is_cut(dialect: Dialect, name: &str) -> bool
    ensures { result ≡ is_cut dialect name.now }
{
    match dialect {
        Dialect::Postgres => name.len() > 63,
        Dialect::Sqlite | Dialect::DuckDb | Dialect::Spark | Dialect::ClickHouse => false,
    }
}

/// Whether a backslash says something of the character behind it in the engine's names, and stands in
/// this one.
pub fn is_escaped(dialect: Dialect, name: &str) -> bool
    ensures { result ≡ is_escaped dialect name.now }
{
    match dialect {
        Dialect::ClickHouse => name.as_bytes().contains(&b'\\'),
        Dialect::Postgres | Dialect::Sqlite | Dialect::DuckDb | Dialect::Spark => false,
    }
}

// Whether the engine takes two names for one: all but PostgreSQL and ClickHouse ignore the case of
// ASCII letters, between quotes too.
fn same_name(dialect: Dialect, a: &FieldName, b: &FieldName) -> bool
    ensures { result ≡ same_name dialect a.now b.now }
{
    match dialect {
        Dialect::Postgres | Dialect::ClickHouse => a == b,
        Dialect::Sqlite | Dialect::DuckDb | Dialect::Spark => a
            .as_str()
            .as_bytes()
            .eq_ignore_ascii_case(b.as_str().as_bytes()),
    }
}

// The names among which a field of the first child is looked up.
fn names_first(children: &[BoundExpression]) -> &[FieldName]
    ensures { result.now ≡ names_first (bounds_of children.now) }
{
    match child_at(children, 0) {
        Some(child) => column_names(child.dtype()),
        None => &[],
    }
}

/// The names of the columns that rows of the type have: those of a struct's fields, none of another type.
pub fn column_names(dtype: &DType) -> &[FieldName]
    ensures { result.now ≡ names_in (type_of dtype.now) }
{
    match dtype {
        DType::Struct(fields, _) => &fields.names().as_slice()[..fields.nfields()],
        _ => &[],
    }
}

/// Why such a literal has no text: one is of a type without parts, a floating-point number has a text of its value, and
/// no text has a NUL.
pub(crate) fn literal_reason(dtype: &DType, value: &Value) -> Option<Reason>
    ensures { result ≡ literal_reason (type_of dtype.now) (value_of value.now) }
{
    if !is_atomic(dtype) {
        return Some(Reason::NestedLiteral);
    }
    match value {
        Value::Utf8(text) if has_nul(text.as_str()) => Some(Reason::Nul),
        Value::Int(number) => number_reason(dtype, *number),
        Value::Float(number) if !has_value_text(*number) => Some(Reason::FloatBits),
        _ => None,
    }
}

// A day that is written lies in the years 1 to 9999, and so does that of an instant.
fn number_reason(dtype: &DType, number: i128) -> Option<Reason>
    ensures { result ≡ number_reason (type_of dtype.now) number }
{
    match dtype {
        DType::Date(_) if !has_day_text(number) => Some(Reason::FarDay),
        DType::Timestamp(timestamp, _) if !has_instant_text(number, timestamp.unit) => {
            Some(Reason::FarDay)
        }
        _ => None,
    }
}

// A comparison tells -0 from 0, as no engine does.
fn operation_reason(
    dialect: Dialect,
    dtype: &DType,
    operator: Operator,
    operands: &[BoundExpression],
) -> Option<Reason>
    ensures { result ≡ operation_reason dialect (type_of dtype.now) (operation_of operator) (bounds_of operands.now) }
{
    match operator {
        Operator::And | Operator::Or => None,
        Operator::Add => arithmetic_reason(dialect, Arithmetic::Sum, dtype),
        Operator::Sub => arithmetic_reason(dialect, Arithmetic::Difference, dtype),
        Operator::Mul => arithmetic_reason(dialect, Arithmetic::Product, dtype),
        Operator::Div => arithmetic_reason(dialect, Arithmetic::Quotient, dtype),
        Operator::Rem => arithmetic_reason(dialect, Arithmetic::Remainder, dtype),
        _ if mixes_zeros(operands) => Some(Reason::FloatOrder),
        _ => None,
    }
}

fn arithmetic_reason(dialect: Dialect, arithmetic: Arithmetic, dtype: &DType) -> Option<Reason>
    ensures { result ≡ because (not (has_arithmetic dialect arithmetic (type_of dtype.now))) UnknownFunction }
{
    if has_arithmetic(dialect, arithmetic, dtype) {
        None
    } else {
        Some(Reason::UnknownFunction)
    }
}

// Whether the engine has the arithmetic of such values: of whole numbers where it can be made to fail as ours. The
// engines' results of decimals have more digits than ours, and those of floating-point numbers may fail.
fn has_arithmetic(dialect: Dialect, arithmetic: Arithmetic, dtype: &DType) -> bool
    ensures { result ≡ has_arithmetic dialect arithmetic (type_of dtype.now) }
{
    match dtype {
        DType::Primitive(p, _) => Check::of(dialect, arithmetic, *p).is_some(),
        _ => false,
    }
}

// The same of a value between two bounds.
fn range_reason(children: &[BoundExpression]) -> Option<Reason>
    ensures { result ≡ range_reason (bounds_of children.now) }
{
    if mixes_zeros_between(children) {
        Some(Reason::FloatOrder)
    } else {
        None
    }
}

// A struct that is made has a field, and no two of one name.
fn pack_reason(dialect: Dialect, names: &[FieldName]) -> Option<Reason>
    ensures { result ≡ pack_reason dialect names.now }
{
    if makes_structs(dialect) && !names.is_empty() {
        names_reason(dialect, names, names)
    } else {
        Some(Reason::UnknownFunction)
    }
}

// The first reason of one of these names among all.
fn names_reason(dialect: Dialect, all: &[FieldName], names: &[FieldName]) -> Option<Reason>
    ensures { result ≡ names_reason dialect all.now names.now }
{
    for i in 0..names.len() {
        if let Some(reason) = name_reason(dialect, all, &names[i]) {
            return Some(reason);
        }
    }
    None
}

// A fill of other values than one may be none, and so may one of lists and structs.
fn fill_reason(children: &[BoundExpression]) -> Option<Reason>
    ensures { result ≡ fill_reason (bounds_of children.now) }
{
    if has_atomic_first(children) && is_value_second(children) {
        None
    } else {
        Some(Reason::FillNotLiteral)
    }
}

// Whether the second child is a literal that isn't null.
fn is_value_second(children: &[BoundExpression]) -> bool
    ensures { result ≡ passes (λ b. is_value (literal_in b)) (bound_at (bounds_of children.now) 1) }
{
    match child_at(children, 1) {
        Some(child) => match literal_in(child) {
            Some(scalar) => !scalar.value().is_null(),
            None => false,
        },
        None => false,
    }
}

// The parts of a pattern are known where it is a literal.
fn pattern_reason(children: &[BoundExpression]) -> Option<Reason>
    ensures { result ≡ pattern_reason (bounds_of children.now) }
{
    if is_literal_second(children) {
        None
    } else {
        Some(Reason::PatternNotLiteral)
    }
}

// Whether the second child is a literal.
fn is_literal_second(children: &[BoundExpression]) -> bool
    ensures { result ≡ passes (λ b. is_some (literal_in b)) (bound_at (bounds_of children.now) 1) }
{
    match child_at(children, 1) {
        Some(child) => literal_in(child).is_some(),
        None => false,
    }
}
