// Calls for numbers of each width.

/// A call for the numbers of whichever width.
macro_rules! by_width {
    ($numbers:expr, $part:ident => $call:expr) => {
        match $numbers {
            Numbers::U8($part) => $call,
            Numbers::U16($part) => $call,
            Numbers::U32($part) => $call,
            Numbers::U64($part) => $call,
            Numbers::I8($part) => $call,
            Numbers::I16($part) => $call,
            Numbers::I32($part) => $call,
            Numbers::I64($part) => $call,
        }
    };
}

/// A call for the numbers of two columns, where they have one width.
macro_rules! by_one_width {
    ($numbers:expr, $others:expr, ($part:ident, $other:ident) => $call:expr) => {
        match ($numbers, $others) {
            (Numbers::U8($part), Numbers::U8($other)) => $call,
            (Numbers::U16($part), Numbers::U16($other)) => $call,
            (Numbers::U32($part), Numbers::U32($other)) => $call,
            (Numbers::U64($part), Numbers::U64($other)) => $call,
            (Numbers::I8($part), Numbers::I8($other)) => $call,
            (Numbers::I16($part), Numbers::I16($other)) => $call,
            (Numbers::I32($part), Numbers::I32($other)) => $call,
            (Numbers::I64($part), Numbers::I64($other)) => $call,
            _ => Ok(None),
        }
    };
}

pub(crate) use by_one_width;
pub(crate) use by_width;
