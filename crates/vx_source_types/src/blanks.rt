// Blanks and comments.
ghost use Rattle.std.specs.Prelude.{◌≡◌, ◌≤◌, length, drop, false};
ghost use Rattle.vx_source_types.specs.Characters.{is_blank};
ghost use Rattle.vx_source_types.specs.Tokens.{skip, next, begins_comment};

// The first byte, 0 of none.
pub(crate) fn next(bytes: &[u8]) -> u8
    ensures { result ≡ next bytes.now }
{
    match bytes {
        [] => 0,
        [first, ..] => *first,
    }
}

fn is_blank(b: u8) -> bool
    ensures { result ≡ is_blank b }
{
    b == b' ' || (b == b'\n' || (b == b'\t' || b == b'\r'))
}

// How many bytes the blanks and comments at the front take.
pub(crate) fn blank_len(bytes: &[u8]) -> usize
    ensures rest { drop result bytes.now ≡ skip false bytes.now }
    ensures within { result ≤ length bytes.now }
{
    let mut comment = false;
    let mut at = 0;
    while at < bytes.len() {
        let b = bytes[at];
        if comment {
            comment = b != b'\n';
        } else if !is_blank(b) {
            if b != b'-' || next(&bytes[at + 1..]) != b'-' {
                break;
            }
            comment = true;
        }
        at += 1;
    }
    at
}
