// How the records of a file of JSON are read.

/// How the records of a file of JSON are read. By default each line is a record, and a text is a string.
#[derive(Clone, Copy, Debug, PartialEq, Eq)]
pub struct JsonFormat {
    /// Whether they may also be the items of an array, or objects that begin on a line of their own with what is in
    /// them on others. Which it is the file's beginning tells.
    pub any_layout: bool,
    /// Whether a number is its text, as it is written, where a text is expected.
    pub number_texts: bool,
}

impl Default for JsonFormat {
    fn default() -> Self {
        JsonFormat {
            any_layout: false,
            number_texts: false,
        }
    }
}
