// How types are guessed.

/// How the type of records is guessed.
#[derive(Clone, Copy, Debug)]
pub struct Guessing<'a> {
    /// How many records are looked at, at most.
    pub records: u64,
    /// The names of fields whose types are said, those of a field of a field with a dot between them. What stands in such
    /// a field isn't looked at where that could be refused.
    pub said: &'a [&'a str],
    /// Whether a record is left out that would be refused.
    pub skips: bool,
    /// Whether each name with dots in a header leads to a field of a field. A name that is both a cell and the way to others
    /// is refused then.
    pub nested: bool,
    /// Whether numbers are `decimal(38, s)` of which one has a point, and each that has one has s digits behind it. 38 digits
    /// leave room for greater numbers in later records. Else such numbers are `f64`, as those with an exponent are.
    pub decimals: bool,
}

impl Default for Guessing<'_> {
    fn default() -> Self {
        Guessing {
            records: 1_000,
            said: &[],
            skips: false,
            nested: false,
            decimals: false,
        }
    }
}
