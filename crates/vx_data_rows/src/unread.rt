// Why a line can't be run.
use std::alloc::{AllocError, AllocFailed};
use std::fmt;
use std::fmt::{Display, Formatter, Write};
use vx_source_types::ParseError;

/// Why a line can't be run.
#[derive(Drop)]
pub enum Unread {
    /// Memory ran out.
    OutOfMemory,
    /// A word or a column of it is wrong.
    Word(&'static str),
    /// Its type isn't read.
    Type(ParseError),
}

impl Display for Unread {
    fn fmt<W: Write>(&self, f: &mut Formatter<W>) -> fmt::Result {
        match self {
            Unread::OutOfMemory => f.write_str("out of memory"),
            Unread::Word(why) => f.write_str(why),
            Unread::Type(refusal) => write!(f, "{refusal}"),
        }
    }
}

impl From<&'static str> for Unread {
    fn from(why: &'static str) -> Unread {
        Unread::Word(why)
    }
}

impl From<ParseError> for Unread {
    fn from(refusal: ParseError) -> Unread {
        Unread::Type(refusal)
    }
}

impl From<AllocError> for Unread {
    fn from(_e: AllocError) -> Unread {
        Unread::OutOfMemory
    }
}

impl<T: Drop> From<AllocFailed<T>> for Unread {
    fn from(_e: AllocFailed<T>) -> Unread {
        Unread::OutOfMemory
    }
}
