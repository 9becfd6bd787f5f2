// What reading a text over a scope refuses with.
ghost use Rattle.std.specs.Prelude.{◌≡◌};
ghost use Rattle.vx_source_over.specs.Views.{over_error};
ghost use Rattle.vx_source_over.specs.declared.error.OverError.TheVariants.{OutOfMemory};

use crate::literals::is_pointed;
use std::alloc::{AllocError, AllocFailed};
use std::error::Error;
use std::fmt;
use std::fmt::{Display, Formatter, Write};
use vx_dtype::{DType, write_quoted};
use vx_source_types::{Expected, ParseError, TypeText};
use vx_value::{Scalar, Value};

/// What reading a text over a scope refuses with.
#[derive(Debug, Drop)]
pub enum OverError {
    /// Memory ran out.
    OutOfMemory,
    /// Reading stopped at that byte of the text, where something else should stand; or a literal without a type begins
    /// there that needs one, since nothing that it stands beside has a type.
    Unexpected {
        at: usize,
        expected: Expected,
    },
    /// The literal in these bytes of the text is none of the type that it takes from what it stands beside. The scalar is
    /// what was written, before it has a type: [`is_pointed`](crate::is_pointed) tells numbers with a point. Or it is a
    /// literal of an `in` that has a type, which isn't that of the first one.
    Misfit {
        start: usize,
        end: usize,
        scalar: Scalar,
        dtype: DType,
    },
}

impl Display for OverError {
    fn fmt<W: Write>(&self, f: &mut Formatter<W>) -> fmt::Result {
        match self {
            OverError::OutOfMemory => f.write_str("out of memory"),
            OverError::Unexpected { at, expected } => write!(f, "at byte {at}: {expected}"),
            OverError::Misfit {
                start,
                scalar,
                dtype,
                ..
            } => {
                write!(f, "at byte {start}: ")?;
                write_plain(scalar, f)?;
                write!(f, " is no {}", TypeText(dtype))
            }
        }
    }
}

impl Error for OverError {}

// Writes what is written of it without a type.
fn write_plain<W: Write>(scalar: &Scalar, f: &mut Formatter<W>) -> fmt::Result {
    match scalar.value() {
        Value::Utf8(digits) if is_pointed(scalar) => f.write_str(digits.as_str()),
        Value::Null => f.write_str("null"),
        Value::Bool(b) => b.fmt(f),
        Value::Int(z) => z.fmt(f),
        Value::Float(x) => x.fmt(f),
        Value::Utf8(text) => write_quoted(text.as_str(), '"', f),
        Value::Binary(bytes) => {
            f.write_str("0x")?;
            for byte in bytes {
                write!(f, "{byte:02x}")?;
            }
            Ok(())
        }
        Value::List(_) => f.write_str("the list"),
        Value::Struct(_) => f.write_str("the struct"),
    }
}

impl From<AllocError> for OverError {
    ghost from_gives = { λ _ e. e ≡ OutOfMemory };

    fn from(_e: AllocError) -> OverError {
        OverError::OutOfMemory
    }
}

impl<T: Drop> From<AllocFailed<T>> for OverError {
    ghost from_gives = { λ _ e. e ≡ OutOfMemory };

    fn from(_e: AllocFailed<T>) -> OverError {
        OverError::OutOfMemory
    }
}

impl From<ParseError> for OverError {
    ghost from_gives = { λ p e. e ≡ over_error p };

    fn from(error: ParseError) -> OverError {
        match error {
            ParseError::OutOfMemory => OverError::OutOfMemory,
            ParseError::Unexpected { at, expected } => OverError::Unexpected { at, expected },
        }
    }
}
