// What is wrong with the quotes of a CSV record.
ghost use Rattle.std.specs.Prelude.{◌≡◌};
ghost use Rattle.vx_data.specs.Quotes.{has_quote, is_behind, left_open, misquoted, place_after};

/// What is wrong with the quotes of a record.
#[derive(Clone, Copy, Debug, PartialEq, Eq)]
pub enum WrongQuotes {
    /// That byte opens a cell that no quote closes.
    Open(usize),
    /// That byte stands behind the quote that closes a cell, and doesn't end the cell.
    Behind(usize),
}

/// Where a byte of a record stands.
#[derive(Clone, Copy, Debug, PartialEq, Eq)]
pub enum Place {
    /// At the beginning of a cell.
    Start,
    /// In a cell that doesn't begin with a quote.
    Bare,
    /// In a cell that the quote at that byte opens.
    Quoted(usize),
    /// Behind a quote in such a cell: it closes the cell, or another one behind it makes both stand for one.
    Closed(usize),
}

/// What is wrong first with the quotes of a record, if something is.
pub(crate) fn misquoted(text: &[u8], delimiter: u8) -> Option<WrongQuotes>
    ensures { result ≡ misquoted delimiter text.now }
{
    if !has_quote(text) {
        return None;
    }
    let mut place = Place::Start;
    for i in 0..text.len() {
        if place.is_behind(text[i], delimiter) {
            return Some(WrongQuotes::Behind(i));
        }
        place = place.after(i, text[i], delimiter);
    }
    place.left_open()
}

// Whether a quote stands in the text. Goes over all of it, so that compilers make vector code of it.
fn has_quote(text: &[u8]) -> bool
    ensures { result ≡ has_quote text.now }
{
    let mut found = false;
    for i in 0..text.len() {
        found |= text[i] == b'"';
    }
    found
}

impl Place {
    // Whether the byte there stands behind a cell's closing quote, and neither doubles that quote nor ends the cell.
    fn is_behind(self, byte: u8, delimiter: u8) -> bool
        ensures { result ≡ is_behind delimiter self byte }
    {
        matches!(self, Place::Closed(_)) && byte != b'"' && byte != delimiter
    }

    // Where the next byte stands behind this one, the `i`th of the record.
    fn after(self, i: usize, byte: u8, delimiter: u8) -> Place
        ensures { result ≡ place_after delimiter self i byte }
    {
        match self {
            Place::Start if byte == b'"' => Place::Quoted(i),
            Place::Start | Place::Bare if byte == delimiter => Place::Start,
            Place::Start | Place::Bare => Place::Bare,
            Place::Quoted(from) if byte == b'"' => Place::Closed(from),
            Place::Quoted(from) => Place::Quoted(from),
            Place::Closed(from) if byte == b'"' => Place::Quoted(from),
            Place::Closed(_) => Place::Start,
        }
    }

    // The quote that is left open where a record ends there.
    fn left_open(self) -> Option<WrongQuotes>
        ensures { result ≡ left_open self }
    {
        match self {
            Place::Quoted(from) => Some(WrongQuotes::Open(from)),
            Place::Start | Place::Bare | Place::Closed(_) => None,
        }
    }
}
