// Why words and trees aren't read.
use std::alloc::{AllocError, AllocFailed};
use std::fmt;
use vx_source::ParseError;
use vx_tree::VortexError;

/// Why words aren't read: what is wrong with one of them, where the source text of a tree isn't read,
/// or what refuses a call that they stand for.
#[derive(Drop)]
pub enum Unread {
    Word(&'static str),
    Text(ParseError),
    Refused(VortexError),
}

impl fmt::Display for Unread {
    fn fmt<W: fmt::Write>(&self, f: &mut fmt::Formatter<W>) -> fmt::Result {
        match self {
            Unread::Word(why) => f.write_str(why),
            Unread::Text(refusal) => write!(f, "{refusal}"),
            Unread::Refused(refusal) => write!(f, "{refusal}"),
        }
    }
}

// (a test ends with it as with the refusal itself)
impl fmt::Debug for Unread {
    fn fmt<W: fmt::Write>(&self, f: &mut fmt::Formatter<W>) -> fmt::Result {
        match self {
            Unread::Word(why) => f.write_str(why),
            Unread::Text(refusal) => write!(f, "{refusal}"),
            Unread::Refused(refusal) => write!(f, "{refusal:?}"),
        }
    }
}

impl From<&'static str> for Unread {
    fn from(why: &'static str) -> Unread {
        Unread::Word(why)
    }
}

impl From<VortexError> for Unread {
    fn from(refusal: VortexError) -> Unread {
        Unread::Refused(refusal)
    }
}

impl From<ParseError> for Unread {
    fn from(refusal: ParseError) -> Unread {
        match refusal {
            ParseError::OutOfMemory => Unread::Refused(VortexError::OutOfMemory),
            ParseError::Unexpected { .. } => Unread::Text(refusal),
        }
    }
}

impl From<AllocError> for Unread {
    fn from(_e: AllocError) -> Unread {
        Unread::Refused(VortexError::OutOfMemory)
    }
}

impl<T: Drop> From<AllocFailed<T>> for Unread {
    fn from(_e: AllocFailed<T>) -> Unread {
        Unread::Refused(VortexError::OutOfMemory)
    }
}
