// What is asked of records.
use vx_source::Placed;

/// An expression over records, and how many of these it goes over.
#[derive(Clone, Copy)]
pub struct RecordsQuery<'a> {
    /// The expression, with the bytes that its nodes were read from.
    pub placed: &'a Placed,
    /// How many records are gone over at most.
    pub limit: u64,
}
