// A text, one character after another.
ghost use Rattle.std.specs.Prelude.{◌≡◌, ◌∷◌, [], MatchOption, if◌then◌else◌};
ghost use Rattle.std.specs.Char.{to_ascii_lowercase};
ghost use Rattle.vx_eval_like.specs.Patterns.{characters};

/// The first character, an ASCII capital made small where the case is ignored, and what is left.
pub fn split_first(text: &str, ignore_case: bool) -> Option<(char, &str)>
    ensures { MatchOption result (characters ignore_case text.now ≡ [])
        (λ p. characters ignore_case text.now ≡ p.0 ∷ characters ignore_case p.1.now) }
{
    let mut rest = text.chars();
    let first = rest.next()?;
    Some((folded(first, ignore_case), rest.as_str()))
}

fn folded(c: char, ignore_case: bool) -> char
    ensures { result ≡ (if ignore_case then to_ascii_lowercase c else c) }
{
    if ignore_case {
        c.to_ascii_lowercase()
    } else {
        c
    }
}
