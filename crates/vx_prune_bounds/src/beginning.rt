// The bytes that each text like a pattern begins with.
ghost use Rattle.std.specs.Prelude.{◌≡◌, ◌∷◌, ◌<◌, [], false, length, Some, IfSome, MatchOption};
ghost use Rattle.vx_value.specs.Types.{utf8};
ghost use Rattle.vx_fn.specs.Values.{parts};
ghost use Rattle.vx_prune_bounds.specs.Beginnings.{fixed_characters, beginning, beginning_cmp, is_before, is_past};

use std::cmp::Ordering;

// Whether the text comes before all those that begin as the pattern does.
pub(crate) fn is_before_beginning(text: &str, pattern: &str) -> bool
    ensures { result ≡ is_before (beginning false pattern.now) (Some (utf8 text.now)) }
{
    compare_beginning(pattern, text).is_gt()
}

// Whether the text comes behind all those that begin as the pattern does.
pub(crate) fn is_past_beginning(text: &str, pattern: &str) -> bool
    ensures { result ≡ is_past (beginning false pattern.now) (Some (utf8 text.now)) }
{
    compare_beginning(pattern, text).is_lt()
}

// How the bytes that each text like the pattern begins with compare with as many of the text.
fn compare_beginning(pattern: &str, text: &str) -> Ordering
    ensures { result ≡ beginning_cmp (beginning false pattern.now) text.now }
{
    // No byte of a longer character is a backslash, `%` or `_`, so bytes tell what characters do.
    let mut wanted = pattern.as_bytes();
    let mut found = text.as_bytes();
    while let Some((byte, after)) = split_first_fixed(wanted) {
        let Some((other, rest)) = found.split_first() else {
            return Ordering::Greater;
        };
        let order = byte.cmp(other);
        if order.is_ne() {
            return order;
        }
        wanted = after;
        found = rest;
    }
    Ordering::Equal
}

// The first byte that each text like the pattern begins with, and the pattern after it.
fn split_first_fixed(pattern: &[u8]) -> Option<(u8, &[u8])>
    ensures first { MatchOption result (fixed_characters (parts false pattern.now) ≡ [])
        (λ p. fixed_characters (parts false pattern.now) ≡ p.0 ∷ fixed_characters (parts false p.1.now)) }
    ensures shorter { IfSome result (λ p. length p.1.now < length pattern.now) }
{
    match pattern {
        [] | [b'%', ..] | [b'_', ..] => None,
        [b'\\', quoted, rest @ ..] => Some((*quoted, rest)),
        // A backslash at the end stands for itself.
        [byte, rest @ ..] => Some((*byte, rest)),
    }
}
