// What reading a text of SQL refuses with.
use crate::reason::Unread;
use thiserror::Error;
use vx_source_over::OverError;

/// What reading a text of SQL refuses with.
#[derive(Debug, Drop, Error)]
pub enum SqlError {
    /// Memory ran out.
    #[error("out of memory")]
    OutOfMemory,
    /// At that byte the text has something that isn't read.
    #[error("at byte {at}: {reason}")]
    Unread { at: usize, reason: Unread },
    /// The text is no expression over the scope, by bytes of the text: what is expected there, or a literal that is none of
    /// the type that it takes.
    #[error("{0}")]
    Source(OverError),
}
