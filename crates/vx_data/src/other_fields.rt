// Fields of records that their type doesn't have.

/// What becomes of the fields of a record that its type doesn't have.
#[derive(Clone, Copy, Debug, PartialEq, Eq)]
pub enum OtherFields {
    /// The record is refused.
    Refused,
    /// They are passed over. Where the header of a CSV file has some, a cell of the type that it lacks is refused, since one
    /// may be meant by the other.
    PassedOver,
}
