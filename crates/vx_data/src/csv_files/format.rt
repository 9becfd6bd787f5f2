// How the records of a CSV file stand in it.

/// How the records of a CSV file stand in it. By default there are commas between the cells, a header, no comments, and an
/// empty cell alone is null.
#[derive(Clone, Copy, Debug, PartialEq, Eq)]
pub struct CsvFormat<'a> {
    /// The byte between two cells.
    pub delimiter: u8,
    /// Whether the first record is the header, which names the cells. Without one they are called `column1`, `column2`,
    /// and so on, as many as the first record has.
    pub has_header: bool,
    /// The byte that begins a line that is no record.
    pub comment: Option<u8>,
    /// The text of a cell that is taken for an empty one.
    pub null: Option<&'a str>,
}

impl Default for CsvFormat<'_> {
    fn default() -> Self {
        CsvFormat {
            delimiter: b',',
            has_header: true,
            comment: None,
            null: None,
        }
    }
}
