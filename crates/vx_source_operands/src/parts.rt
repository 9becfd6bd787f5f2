// Parts of options, read from the front.
ghost use Rattle.std.specs.Prelude.{◌≡◌, option_map};
ghost use Rattle.vx_source_grammar.specs.OptionReading.{is_keyword};
ghost use Rattle.vx_source_operands.specs.OperandViews.{lexeme_in, lexemes_of};
ghost use Rattle.vx_source_operands.specs.Parts.{assigned, behind_comma, behind_word, labelled, labelled_last};

use vx_source_types::{Found, Sign, Token, is_word};

// Whether the token is that word, in either case.
pub(crate) fn is_keyword(found: &Found, word: &str) -> bool
    ensures { result ≡ is_keyword word.now (lexeme_in found.now) }
{
    match &found.token {
        Token::Word(name) => is_word(name, word),
        _ => false,
    }
}

// The two tokens behind that word, and what is left behind them.
fn behind_word<'a>(tokens: &'a [Found], word: &str) -> Option<(&'a Found, &'a Found, &'a [Found])>
    ensures { option_map (λ p. (lexeme_in p.0.now, lexeme_in p.1.now, lexemes_of p.2.now)) result ≡ behind_word word.now (lexemes_of tokens.now) }
{
    match tokens {
        [label, sign, value, rest @ ..] => {
            if is_keyword(label, word) {
                Some((sign, value, rest))
            } else {
                None
            }
        }
        _ => None,
    }
}

// The token behind that word and a colon, and what is left behind it.
#[tactic(auto, using(crate::proofs::Marks::labelled_is))]
pub(crate) fn labelled<'a>(tokens: &'a [Found], word: &str) -> Option<(&'a Found, &'a [Found])>
    ensures { option_map (λ p. (lexeme_in p.0.now, lexemes_of p.1.now)) result ≡ labelled word.now (lexemes_of tokens.now) }
{
    let (sign, value, rest) = behind_word(tokens, word)?;
    match &sign.token {
        Token::Sign(Sign::Colon) => Some((value, rest)),
        _ => None,
    }
}

// The same, where nothing is left.
#[tactic(auto, using(crate::proofs::Marks::labelled_last_is))]
pub(crate) fn labelled_last<'a>(tokens: &'a [Found], word: &str) -> Option<&'a Found>
    ensures { option_map (λ value. lexeme_in value.now) result ≡ labelled_last word.now (lexemes_of tokens.now) }
{
    match labelled(tokens, word)? {
        (value, []) => Some(value),
        _ => None,
    }
}

// The token behind that word and an equals sign, and what is left behind it.
#[tactic(auto, using(crate::proofs::Marks::assigned_is))]
pub(crate) fn assigned<'a>(tokens: &'a [Found], word: &str) -> Option<(&'a Found, &'a [Found])>
    ensures { option_map (λ p. (lexeme_in p.0.now, lexemes_of p.1.now)) result ≡ assigned word.now (lexemes_of tokens.now) }
{
    let (sign, value, rest) = behind_word(tokens, word)?;
    match &sign.token {
        Token::Sign(Sign::Equal) => Some((value, rest)),
        _ => None,
    }
}

// What is left behind a comma.
pub(crate) fn behind_comma(tokens: &[Found]) -> Option<&[Found]>
    ensures { option_map (λ rest. lexemes_of rest.now) result ≡ behind_comma (lexemes_of tokens.now) }
{
    let [
        Found {
            token: Token::Sign(Sign::Comma),
            ..
        },
        rest @ ..,
    ] = tokens
    else {
        return None;
    };
    Some(rest)
}
