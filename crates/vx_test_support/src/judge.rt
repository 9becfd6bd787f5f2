// What judges a line.
use std::alloc::Global;
use std::fmt::Display;

/// What a line came to.
#[derive(Drop)]
pub enum Judged {
    /// It is no call: it is blank, a comment, or says what the lines behind it are judged over.
    NoCall,
    /// It is answered as it says.
    Right,
    /// It is answered so, and not as it says.
    Differs(String),
}

/// What judges lines, one after another.
pub trait Judge {
    /// Why a line can't be read.
    type Unread: Display + Drop;

    /// What the line comes to, without white space around it. Fails where it can't be read.
    fn judge(&mut self, alloc: Global, line: &str) -> Result<Judged, Self::Unread>;
}
