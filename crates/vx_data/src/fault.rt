// What is wrong inside a record, before it is known where the record stands.
use crate::error::{DataError, WriteError};
use crate::expected::Expected;
use std::alloc::{AllocError, AllocFailed, Global};
use vx_dtype::{DType, FieldName, VortexResult};
use vx_value::FieldPath;

/// What a record is refused with by those who don't know where it stands. Its names are gathered from the inside out.
#[derive(Debug, Drop)]
pub enum Fault {
    /// Memory ran out.
    OutOfMemory,
    /// Something else is expected where these names lead, the innermost first.
    Unexpected {
        names: Vec<FieldName>,
        expected: Expected,
    },
}

impl Fault {
    /// Something else is expected of the value itself.
    pub fn new(alloc: Global, expected: Expected) -> Fault {
        Fault::Unexpected {
            names: Vec::new(alloc),
            expected,
        }
    }

    /// The same fault, seen from the struct in whose field of that name it is.
    pub fn within(self, name: &FieldName) -> Fault {
        match self {
            Fault::OutOfMemory => Fault::OutOfMemory,
            Fault::Unexpected { names, expected } => match with_name(names, name) {
                Ok(names) => Fault::Unexpected { names, expected },
                Err(_) => Fault::OutOfMemory,
            },
        }
    }

    /// The refusal of the record that begins on that line.
    pub fn on_line(self, alloc: Global, line: u64) -> DataError {
        match self {
            Fault::OutOfMemory => DataError::OutOfMemory,
            Fault::Unexpected { names, expected } => match path_of(alloc, names) {
                Ok(at) => DataError::Unexpected { line, at, expected },
                Err(_) => DataError::OutOfMemory,
            },
        }
    }

    /// The refusal of the row of that index.
    pub fn in_row(self, alloc: Global, row: usize) -> WriteError {
        match self {
            Fault::OutOfMemory => WriteError::OutOfMemory,
            Fault::Unexpected { names, expected } => match path_of(alloc, names) {
                Ok(at) => WriteError::Unwritable { row, at, expected },
                Err(_) => WriteError::OutOfMemory,
            },
        }
    }
}

/// The fault of what is no value of the type.
pub fn misfit(alloc: Global, dtype: &DType) -> Fault {
    match dtype.clone() {
        Ok(dtype) => Fault::new(alloc, Expected::Value(dtype)),
        Err(_) => Fault::OutOfMemory,
    }
}

/// The fault of a text that says no value of the type. An empty one isn't shown.
pub fn misread(alloc: Global, text: &str, dtype: &DType) -> Fault {
    if text.is_empty() {
        return misfit(alloc, dtype);
    }
    match said_not(alloc, text, dtype) {
        Ok(expected) => Fault::new(alloc, expected),
        Err(_) => Fault::OutOfMemory,
    }
}

fn said_not(alloc: Global, text: &str, dtype: &DType) -> Result<Expected, AllocError> {
    let text = beginning(alloc, text)?;
    let dtype = dtype.clone()?;
    Ok(Expected::Said { dtype, text })
}

// Up to so many characters of a text are shown.
const SHOWN: usize = 60;

// The text, of a long one the beginning.
fn beginning(alloc: Global, text: &str) -> Result<String, AllocError> {
    match text.char_indices().nth(SHOWN) {
        Some((end, _)) => format!(in alloc; "{}..", text.get(..end).unwrap_or(text)),
        None => String::from_str(alloc, text),
    }
}

fn with_name(mut names: Vec<FieldName>, name: &FieldName) -> Result<Vec<FieldName>, AllocError> {
    names.push(name.clone()?)?;
    Ok(names)
}

// The path of the names, of which the innermost comes first.
fn path_of(alloc: Global, names: Vec<FieldName>) -> VortexResult<FieldPath> {
    let mut path = FieldPath::root(alloc)?;
    for name in names.into_iter().rev() {
        path = path.push(alloc, name)?;
    }
    Ok(path)
}

impl From<AllocError> for Fault {
    fn from(_e: AllocError) -> Fault {
        Fault::OutOfMemory
    }
}

impl<T: Drop> From<AllocFailed<T>> for Fault {
    fn from(_e: AllocFailed<T>) -> Fault {
        Fault::OutOfMemory
    }
}
