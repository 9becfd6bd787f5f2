// Types that are said of some columns, where those of the others are guessed.
ghost use Rattle.std.specs.Prelude.{◌≡◌, length};

use std::alloc::{AllocError, AllocFailed, Global};
use std::fmt;
use std::fmt::{Display, Formatter, Write};
use vx_command_pages::{Shown, nearest_field};
use vx_dtype::{DType, FieldName, FieldNames, StructFields, VortexError, VortexResult};
use vx_source::{Expected, ParseError, parse_type};
use vx_value::{Field, FieldPath};

/// The type that is said of a column.
#[derive(Clone, Copy, Debug)]
pub struct ColumnType<'a> {
    /// The column: a field, or a field of a field with a dot between the names.
    pub name: &'a str,
    /// Its type, as source text.
    pub text: &'a str,
}

impl ColumnType<'_> {
    /// Whether what stands there is the column, or inside it.
    pub(crate) fn leads_to(&self, at: &FieldPath) -> bool {
        if let Some(Field::Name(first)) = at.parts().first()
            && first.as_str() == self.name
        {
            return true;
        }
        let mut parts = at.parts().iter();
        for word in self.name.split('.') {
            match parts.next() {
                Some(Field::Name(part)) if part.as_str() == word => {}
                _ => return false,
            }
        }
        true
    }
}

/// A column as it is called: the names that lead to it, with a dot between them.
#[derive(Clone, Copy)]
pub(crate) struct ColumnName<'a>(pub(crate) &'a FieldPath);

impl Display for ColumnName<'_> {
    fn fmt<W: Write>(&self, f: &mut Formatter<W>) -> fmt::Result {
        let mut before = "";
        for part in self.0.parts() {
            let Field::Name(name) = part;
            write!(f, "{before}{}", Shown(name.as_str()))?;
            before = ".";
        }
        Ok(())
    }
}

/// Why such types aren't those of some columns.
#[derive(Debug, Drop)]
pub enum ColumnError {
    /// Memory ran out.
    OutOfMemory,
    /// Reading the type of the column of that index stopped at that byte.
    Unread {
        column: usize,
        at: usize,
        expected: Expected,
    },
    /// No column of the records has the name of that index; the nearest name of one, if there is one.
    Missing {
        column: usize,
        nearest: Option<String>,
    },
}

impl From<AllocError> for ColumnError {
    fn from(_e: AllocError) -> ColumnError {
        ColumnError::OutOfMemory
    }
}

impl<T: Drop> From<AllocFailed<T>> for ColumnError {
    fn from(_e: AllocFailed<T>) -> ColumnError {
        ColumnError::OutOfMemory
    }
}

impl From<VortexError> for ColumnError {
    fn from(_e: VortexError) -> ColumnError {
        ColumnError::OutOfMemory
    }
}

/// The names of the columns.
pub(crate) fn names_of<'a>(
    alloc: Global,
    columns: &[ColumnType<'a>],
) -> Result<Vec<&'a str>, ColumnError> {
    let mut names = Vec::with_capacity(alloc, columns.len())?;
    for said in columns {
        names.push(said.name)?;
    }
    Ok(names)
}

/// The types of the columns, which their texts say.
pub(crate) fn types_of(
    alloc: Global,
    columns: &[ColumnType<'_>],
) -> Result<Vec<DType>, ColumnError> {
    let mut types = Vec::with_capacity(alloc, columns.len())?;
    for (column, said) in columns.iter().enumerate() {
        match parse_type(alloc, said.text) {
            Ok(dtype) => types.push(dtype)?,
            Err(ParseError::OutOfMemory) => return Err(ColumnError::OutOfMemory),
            Err(ParseError::Unexpected { at, expected }) => {
                return Err(ColumnError::Unread {
                    column,
                    at,
                    expected,
                });
            }
        }
    }
    Ok(types)
}

/// The type of records, of which those columns have these types, and the others the guessed ones.
pub(crate) fn with_columns(
    alloc: Global,
    guessed: DType,
    columns: &[ColumnType<'_>],
    types: &[DType],
) -> Result<DType, ColumnError> {
    let mut dtype = guessed;
    for (column, (said, own)) in columns.iter().zip(types).enumerate() {
        dtype = match with_column(alloc, &dtype, said.name, own)? {
            Some(dtype) => dtype,
            None => {
                let nearest = nearest_column(alloc, &dtype, said.name)?;
                return Err(ColumnError::Missing { column, nearest });
            }
        };
    }
    Ok(dtype)
}

// The type with that one for the column: a field of that name, or what its parts lead to.
fn with_column(
    alloc: Global,
    dtype: &DType,
    name: &str,
    own: &DType,
) -> Result<Option<DType>, ColumnError> {
    if let Some(dtype) = replaced(alloc, dtype, &[name], own)? {
        return Ok(Some(dtype));
    }
    let parts: Vec<&str> = name.split('.').collect(alloc)?;
    Ok(replaced(alloc, dtype, parts.as_slice(), own)?)
}

// The type with that one for the field that the names lead to, none where they lead to no field.
fn replaced(
    alloc: Global,
    dtype: &DType,
    path: &[&str],
    own: &DType,
) -> VortexResult<Option<DType>> {
    let Some((first, rest)) = path.split_first() else {
        return Ok(Some(own.clone()?));
    };
    let DType::Struct(fields, nullability) = dtype else {
        return Ok(None);
    };
    let Some(place) = place_of(fields, first) else {
        return Ok(None);
    };
    let Some(inner) = fields.types().get(place) else {
        return Ok(None);
    };
    match replaced(alloc, inner, rest, own)? {
        Some(inner) => {
            let fields = with_field(alloc, fields, place, inner)?;
            Ok(Some(DType::Struct(fields, *nullability)))
        }
        None => Ok(None),
    }
}

// The fields with that type for the one at that place.
fn with_field(
    alloc: Global,
    fields: &StructFields,
    place: usize,
    own: DType,
) -> VortexResult<StructFields> {
    let mut names = Vec::new(alloc);
    let mut types = Vec::new(alloc);
    for (i, (name, dtype)) in fields.names().iter().zip(fields.types()).enumerate() {
        types.push(if i == place {
            own.clone()?
        } else {
            dtype.clone()?
        })?;
        names.push(name.clone()?)?;
    }
    fields_of(alloc, names, types)
}

// Each name with the type beside it.
fn fields_of(alloc: Global, names: Vec<FieldName>, types: Vec<DType>) -> VortexResult<StructFields>
    requires { length names.items ≡ length types.items }
{
    let names = FieldNames::new(alloc, names)?;
    StructFields::new(alloc, names, types)
}

fn place_of(fields: &StructFields, name: &str) -> Option<usize> {
    fields.names().iter().position(|own| own.as_str() == name)
}

// The nearest name of a column, among the fields of the last struct that the name leads to.
fn nearest_column(alloc: Global, dtype: &DType, name: &str) -> Result<Option<String>, AllocError> {
    let mut scope = dtype;
    let mut path = String::new(alloc);
    for part in name.split('.') {
        let DType::Struct(fields, _) = scope else {
            return Ok(None);
        };
        match place_of(fields, part).and_then(|place| fields.types().get(place)) {
            Some(inner @ DType::Struct(_, _)) => {
                scope = inner;
                path.push_str(part)?;
                path.push('.')?;
            }
            _ => {
                return match nearest_field(alloc, fields, part)? {
                    Some(field) => {
                        path.push_str(field.as_str())?;
                        Ok(Some(path))
                    }
                    None => Ok(None),
                };
            }
        }
    }
    Ok(None)
}
