// Blanks and comments.
ghost use Rattle.std.specs.Prelude.{◌≡◌, ◌≤◌, ◌+◌, length, drop, MatchOption, not, ◌==◌};
ghost use Rattle.std.specs.List.{prefix_len};
ghost use Rattle.vx_source_types.specs.Characters.{is_blank};
ghost use Rattle.vx_source_types.specs.Tokens.{next};
ghost use Rattle.vx_sql_parser.specs.SqlTokens.{closing, ends_comment, line_len, opens_comment};

// The first byte, 0 of none.
pub(crate) fn next(bytes: &[u8]) -> u8
    ensures { result ≡ next bytes.now }
{
    match bytes {
        [] => 0,
        [first, ..] => *first,
    }
}

// Whether the byte is a space, a tab or the end of a line.
pub(crate) fn is_blank(b: u8) -> bool
    ensures { result ≡ is_blank b }
{
    b == b' ' || (b == b'\n' || (b == b'\t' || b == b'\r'))
}

// How many bytes stand before the end of the line.
pub(crate) fn line_len(bytes: &[u8]) -> usize
    ensures len { result ≡ line_len bytes.now }
    ensures within { result ≤ length bytes.now }
{
    let mut at = 0;
    while at < bytes.len() && bytes[at] != b'\n' {
        at += 1;
    }
    at
}

// How many bytes the inside of a comment takes with the `*/` behind it; none without such an end, or
// with another comment inside.
pub(crate) fn closing(bytes: &[u8]) -> Option<usize>
    ensures len { result ≡ closing 0 bytes.now }
    ensures within { MatchOption result (Unit {0}) (λ n. n ≤ length bytes.now) }
{
    let mut before = 0;
    let mut at = 0;
    while at < bytes.len() {
        let b = bytes[at];
        if ends_comment(before, b) {
            return Some(at + 1);
        }
        if opens_comment(before, b) {
            return None;
        }
        before = b;
        at += 1;
    }
    None
}

fn ends_comment(before: u8, b: u8) -> bool
    ensures { result ≡ ends_comment before b }
{
    before == b'*' && b == b'/'
}

fn opens_comment(before: u8, b: u8) -> bool
    ensures { result ≡ opens_comment before b }
{
    before == b'/' && b == b'*'
}
