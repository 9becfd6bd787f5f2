// The ways in which a query is evaluated.

/// What a query is evaluated over.
#[derive(Clone, Copy, Debug, PartialEq, Eq)]
pub enum Way {
    /// 0: the batch, as a column.
    Column,
    /// 1: a plan is scanned, through its own reader of the batch.
    Scan,
    /// 2: an array of the batch's rows, in typed buffers.
    Array,
}

impl Way {
    /// The way of that number, if there is one.
    pub fn of(number: u8) -> Option<Way> {
        match number {
            0 => Some(Way::Column),
            1 => Some(Way::Scan),
            2 => Some(Way::Array),
            _ => None,
        }
    }
}
