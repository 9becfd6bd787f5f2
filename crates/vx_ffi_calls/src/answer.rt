// What a call answers beside the buffer.
ghost use Rattle.std.specs.Prelude.{◌≡◌};

/// How a call ended.
#[derive(Clone, Copy, Debug, PartialEq, Eq)]
pub enum Status {
    /// The buffer begins with the page.
    Answered,
    /// The page or the message is longer than the buffer, which is as it was.
    TooSmall,
    /// Memory ran out; the buffer is as it was.
    OutOfMemory,
    /// A text can't be read. The buffer begins with the message, as at each status behind this one.
    Unread,
    /// The expression is refused over the type that the schema says.
    Refused,
    /// The expression faults at a record.
    Faulted,
    /// A record, or a row of a batch, isn't what it should be.
    BadData,
    /// There is no plan where the call asks for one.
    NoPlan,
}

impl Status {
    ghost use Rattle.vx_ffi_calls.specs.Endings.{number_of};

    /// The number that a call answers in other languages.
    pub fn number(self) -> u32
        ensures { result ≡ number_of self }
    {
        match self {
            Status::Answered => 0,
            Status::TooSmall => 1,
            Status::OutOfMemory => 2,
            Status::Unread => 3,
            Status::Refused => 4,
            Status::Faulted => 5,
            Status::BadData => 6,
            Status::NoPlan => 7,
        }
    }
}

/// What a call answers beside its status and the buffer.
#[repr(C)]
#[derive(Clone, Copy, Debug, PartialEq, Eq)]
pub struct Answer {
    /// How many bytes the page or the message has.
    pub needed: usize,
    /// What the message is about.
    pub place: Place,
}

/// A place in what a call was given, in numbers; each is 0 where it isn't known.
#[repr(C)]
#[derive(Clone, Copy, Debug, PartialEq, Eq)]
pub struct Place {
    /// Which of the texts: the number of a [`Given`](crate::text::Given).
    pub text: usize,
    /// The first byte, from 0 on.
    pub start: usize,
    /// The byte behind the last.
    pub end: usize,
    /// The number of the line, from 1 on.
    pub line: usize,
    /// The number of the character within the line, from 1 on.
    pub column: usize,
    /// The line of the records at which the record begins, or the number of the batch's row, from 1 on.
    pub record: u64,
}

impl Place {
    ghost use Rattle.vx_ffi_calls.specs.Endings.{IsNowhere};

    /// No place.
    pub const fn nowhere() -> Place
        ensures { IsNowhere result }
    {
        Place {
            text: 0,
            start: 0,
            end: 0,
            line: 0,
            column: 0,
            record: 0,
        }
    }
}
