// Lines and columns.
ghost use Rattle.std.specs.Prelude.{◌≡◌, ◌+◌, ◌≤◌, take, length};
ghost use Rattle.std.specs.List.{count_by};
ghost use Rattle.vx_command_pages.specs.Positions.{is_newline, begins_character};

/// Where a byte stands in a text, as editors count.
#[derive(Clone, Copy, Debug, PartialEq, Eq)]
pub struct Position {
    /// The number of its line, from 1 on.
    pub line: usize,
    /// The number of its character within the line, from 1 on.
    pub column: usize,
}

impl Position {
    /// Where the byte stands; one behind the text stands where the text ends. Takes no memory, and
    /// time in the bytes before it.
    pub fn of(text: &str, at: usize) -> Position
        ensures { result.line ≡ 1 + count_by is_newline (take at text.now) }
    {
        let bytes = text.as_bytes();
        let before = &bytes[..at.min(bytes.len())];
        Position {
            line: 1 + newlines(before),
            column: 1 + characters(&before[line_start(before)..]),
        }
    }
}

// How many lines end in the bytes.
fn newlines(bytes: &[u8]) -> usize
    ensures count { result ≡ count_by is_newline bytes.now }
    ensures within { result ≤ length bytes.now }
{
    bytes.iter().filter(|b| is_newline(**b)).count()
}

fn is_newline(b: u8) -> bool
    ensures { result ≡ is_newline b }
{
    b == b'\n'
}

// How many characters begin in the bytes.
pub(crate) fn characters(bytes: &[u8]) -> usize
    ensures count { result ≡ count_by begins_character bytes.now }
    ensures within { result ≤ length bytes.now }
{
    bytes.iter().filter(|b| begins_character(**b)).count()
}

// Whether a character of UTF-8 begins with the byte.
fn begins_character(b: u8) -> bool
    ensures { result ≡ begins_character b }
{
    b < 0x80 || b >= 0xc0
}

// Where the last line of the bytes begins.
pub(crate) fn line_start(bytes: &[u8]) -> usize
    ensures { result ≤ length bytes.now }
{
    match bytes.iter().rposition(|b| *b == b'\n') {
        Some(newline) => newline + 1,
        None => 0,
    }
}
