// Answers of types, scalars and columns.
use crate::told::{refused, told};
use std::alloc::Global;
use vx_test_support::{Unread, dtype, typed, value, values};
use vx_tree::Nullability::NonNullable;
use vx_tree::{Column, DType, FieldNames, Scalar, VortexError, VortexResult};

/// The text of the type.
pub fn type_text(alloc: Global, text: &str) -> Result<String, Unread> {
    let dtype = dtype(alloc, text)?;
    Ok(format!(in alloc; "{dtype}")?)
}

/// The union of the types, which is there exactly where they are equal but for nullability.
pub fn union(alloc: Global, first: &str, second: &str) -> Result<String, Unread> {
    let first = dtype(alloc, first)?;
    let second = dtype(alloc, second)?;
    Ok(united(alloc, &first, &second)?)
}

fn united(alloc: Global, first: &DType, second: &DType) -> VortexResult<String> {
    let alike = first.eq_ignore_nullability(second);
    match first.union(alloc, second)? {
        Some(union) if alike => Ok(format!(in alloc; "{union}")?),
        None if !alike => Ok(String::from_str(alloc, "none")?),
        _ => Ok(format!(in alloc; "a union, or equal types, and not both")?),
    }
}

/// The text of the scalar of `VALUE:TYPE`, or what refuses it.
pub fn scalar_text(alloc: Global, word: &str) -> Result<String, Unread> {
    let (given, kind) = typed(word).ok_or("no type")?;
    let kind = dtype(alloc, kind)?;
    Ok(told(alloc, Scalar::try_new(kind, value(alloc, given)?))?)
}

/// The text of the column, or what refuses it.
pub fn column(alloc: Global, dtype: &str, rows: &str) -> Result<String, Unread> {
    let dtype = vx_test_support::dtype(alloc, dtype)?;
    Ok(told(alloc, Column::try_new(dtype, values(alloc, rows)?))?)
}

/// Columns, `TYPE: ROW ..` each with a `;` between them, as structs of so many rows under the names.
pub fn joined(alloc: Global, names: &str, columns: &str, rows: &str) -> Result<String, Unread> {
    let names = vx_test_support::names(alloc, names, ' ')?;
    let mut given = Vec::new(alloc);
    for text in columns.split(';') {
        given.push(typed_column(alloc, text.trim())?)?;
    }
    let rows = rows.parse().map_err(|_| Unread::Word("no number of rows"))?;
    Ok(joined_text(alloc, names, given, rows)?)
}

/// The column of the words: its type with a colon, and its rows.
pub fn typed_column(alloc: Global, text: &str) -> Result<Column, Unread> {
    let (dtype, rows) = text.split_once(' ').unwrap_or((text, ""));
    let dtype = dtype.strip_suffix(':').ok_or("no type")?;
    vx_test_support::column(alloc, dtype, rows)
}

fn joined_text(
    alloc: Global,
    names: FieldNames,
    columns: Vec<Column>,
    rows: usize,
) -> VortexResult<String> {
    if names.len() != columns.len() {
        return refused(alloc, &VortexError::LengthMismatch);
    }
    match Column::struct_of(alloc, names, columns, rows, NonNullable) {
        Ok(column) => {
            let dtype = column.dtype();
            Ok(format!(in alloc; "{column} : {dtype}")?)
        }
        Err(refusal) => refused(alloc, &refusal),
    }
}
