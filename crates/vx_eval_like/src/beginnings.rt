// What texts begin with.
ghost use Rattle.std.specs.Prelude.{◌≡◌, option_map};
ghost use Rattle.vx_fn.specs.Values.{starts_with_text};
ghost use Rattle.vx_eval_like.specs.Beginnings.{beginning_of, before_percent, is_plain_text, stands_for_itself};

use crate::characters::split_first;

/// Whether the text begins with the other one. It does by its characters exactly where it does by its bytes.
pub fn begins_with(text: &str, prefix: &str) -> bool
    ensures { result ≡ starts_with_text text.now prefix.now }
{
    text.starts_with(prefix)
}

/// What each text begins with that is like the pattern, and no other text: what stands before a `%` at the
/// pattern's end, where no other `%`, no `_` and no backslash stands in it. None of any other pattern.
pub fn beginning_of(pattern: &str) -> Option<&str>
    ensures { option_map (λ s. s.now) result ≡ beginning_of pattern.now }
{
    match before_percent(pattern) {
        Some(before) if is_plain_text(before) => Some(before),
        _ => None,
    }
}

// What stands before a `%` at the end.
fn before_percent(pattern: &str) -> Option<&str>
    ensures { option_map (λ s. s.now) result ≡ before_percent pattern.now }
{
    pattern.strip_suffix('%')
}

// Whether each character of the text stands for itself in a pattern.
fn is_plain_text(text: &str) -> bool
    ensures { result ≡ is_plain_text text.now }
{
    let mut rest = text;
    while let Some((c, after)) = split_first(rest, false) {
        if !stands_for_itself(c) {
            return false;
        }
        rest = after;
    }
    true
}

fn stands_for_itself(c: char) -> bool
    ensures { result ≡ stands_for_itself c }
{
    !matches!(c, '%' | '_' | '\\')
}
