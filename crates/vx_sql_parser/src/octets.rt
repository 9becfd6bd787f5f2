// DuckDB's bytes.
ghost use Rattle.std.specs.Prelude.{◌≡◌, ◌<◌, IfOk, MatchOption, codes, length, option_map};
ghost use Rattle.vx_sql_parser.specs.Patterns.{behind};
ghost use Rattle.vx_sql_parser.specs.Values as values;
ghost use Rattle.vx_sql_parser.specs.Views.{items_in};

use crate::names::is_word;
use std::alloc::{AllocError, Global};

// The digits of bytes that are each spelled by `\x` and two of them, behind `0x`.
#[tactic(auto, using(crate::proofs::PatternsSpelled::behind_behind))]
pub(crate) fn escape_digits(alloc: Global, text: &[u8]) -> Result<Option<Vec<u8>>, AllocError>
    ensures { IfOk result (λ p. option_map items_in p ≡ behind (codes "0x") (values.escape_digits text.now)) }
{
    let mut made = Vec::from_slice(alloc, b"0x")?;
    let mut rest = text;
    while !rest.is_empty() {
        let Some((high, low, behind)) = first_escape(rest) else {
            return Ok(None);
        };
        made.extend_from_slice(&[high, low])?;
        rest = behind;
    }
    Ok(Some(made))
}

// The digits of the first byte, and what follows.
#[tactic(auto, using(crate::proofs::ByteEscapes::escape_short, crate::proofs::ByteEscapes::escape_long))]
fn first_escape(text: &[u8]) -> Option<(u8, u8, &[u8])>
    requires { 0 < length text.now }
    ensures part { values.escape_digits text.now ≡ values.escaped_digits (option_map (λ p. (p.0, p.1, p.2.now)) result) }
    ensures shorter { MatchOption result (Unit {0}) (λ p. length p.2.now < length text.now) }
{
    let [first, second, high, low, rest @ ..] = text else {
        return None;
    };
    if (*first == b'\\' && *second == b'x') && (is_word(*high) && is_word(*low)) {
        Some((*high, *low, rest))
    } else {
        None
    }
}
