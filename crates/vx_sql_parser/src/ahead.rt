// What stands behind a token.
ghost use Rattle.std.specs.Prelude.{◌≡◌, option_map, slice_get};
ghost use Rattle.vx_source_types.specs.Views.{lexeme_of};
ghost use Rattle.vx_sql_parser.specs.Ahead as ahead;
ghost use Rattle.vx_sql_parser.specs.Matches as matches;
ghost use Rattle.vx_sql_parser.specs.Views.{lexemes_of, sql_of};

use crate::keywords::{is, is_name};
use crate::lexed::Lexed;
use crate::reason::Unread;
use vx_source_types::{Sign, Token};

// The token at that place, or why there is none, if the text goes so far.
#[tactic(auto, using(crate::proofs::TokensAhead::lexeme_found))]
fn found_at(tokens: &[Lexed], i: usize) -> Option<&Result<Token, Unread>>
    ensures { option_map (λ t. sql_of t.now) result ≡ slice_get (lexemes_of tokens.now) i }
{
    match tokens.get(i) {
        Some(found) => Some(&found.token),
        None => None,
    }
}

// The token at that place.
pub(crate) fn token_at(tokens: &[Lexed], i: usize) -> Option<&Token>
    ensures { option_map (λ t. lexeme_of t.now) result ≡ ahead.lexeme_at (lexemes_of tokens.now) i }
{
    match found_at(tokens, i) {
        Some(Ok(token)) => Some(token),
        _ => None,
    }
}

pub(crate) fn word_at(tokens: &[Lexed], i: usize) -> Option<&str>
    ensures { option_map (λ s. s.now) result ≡ ahead.word_at (lexemes_of tokens.now) i }
{
    match token_at(tokens, i) {
        Some(Token::Word(word)) => Some(word.as_str()),
        _ => None,
    }
}

pub(crate) fn text_at(tokens: &[Lexed], i: usize) -> Option<&str>
    ensures { option_map (λ s. s.now) result ≡ ahead.text_at (lexemes_of tokens.now) i }
{
    match token_at(tokens, i) {
        Some(Token::Text(text)) => Some(text.as_str()),
        _ => None,
    }
}

fn sign_at(tokens: &[Lexed], i: usize) -> Option<Sign>
    ensures { result ≡ ahead.sign_at (lexemes_of tokens.now) i }
{
    match token_at(tokens, i) {
        Some(Token::Sign(sign)) => Some(*sign),
        _ => None,
    }
}

// Whether that word stands there, in either case.
pub(crate) fn is_word_at(tokens: &[Lexed], i: usize, word: &str) -> bool
    ensures { result ≡ ahead.is_word_at (lexemes_of tokens.now) i word.now }
{
    match word_at(tokens, i) {
        Some(found) => is(found, word),
        None => false,
    }
}

// The name that stands there, no word of SQL.
pub(crate) fn name_at(tokens: &[Lexed], i: usize) -> Option<&str>
    ensures { option_map (λ s. s.now) result ≡ ahead.name_in (ahead.lexeme_at (lexemes_of tokens.now) i) }
{
    match token_at(tokens, i) {
        Some(Token::Quoted(name)) => Some(name.as_str()),
        Some(Token::Word(word)) if is_name(word.as_str()) => Some(word.as_str()),
        _ => None,
    }
}

pub(crate) fn is_text_at(tokens: &[Lexed], i: usize) -> bool
    ensures { result ≡ ahead.is_text (ahead.lexeme_at (lexemes_of tokens.now) i) }
{
    matches!(token_at(tokens, i), Some(Token::Text(_)))
}

// Whether that text stands there.
pub(crate) fn is_this_text(tokens: &[Lexed], i: usize, text: &str) -> bool
    ensures { result ≡ matches.is_this_text (lexemes_of tokens.now) i text.now }
{
    match text_at(tokens, i) {
        Some(found) => found == text,
        None => false,
    }
}

pub(crate) fn opens_at(tokens: &[Lexed], i: usize) -> bool
    ensures { result ≡ ahead.opens (ahead.sign_at (lexemes_of tokens.now) i) }
{
    matches!(sign_at(tokens, i), Some(Sign::OpenParen))
}

pub(crate) fn closes_at(tokens: &[Lexed], i: usize) -> bool
    ensures { result ≡ ahead.closes (ahead.sign_at (lexemes_of tokens.now) i) }
{
    matches!(sign_at(tokens, i), Some(Sign::CloseParen))
}

pub(crate) fn is_comma_at(tokens: &[Lexed], i: usize) -> bool
    ensures { result ≡ ahead.is_comma (ahead.sign_at (lexemes_of tokens.now) i) }
{
    matches!(sign_at(tokens, i), Some(Sign::Comma))
}

pub(crate) fn is_slash_at(tokens: &[Lexed], i: usize) -> bool
    ensures { result ≡ ahead.is_slash (ahead.sign_at (lexemes_of tokens.now) i) }
{
    matches!(sign_at(tokens, i), Some(Sign::Slash))
}

pub(crate) fn is_dot_at(tokens: &[Lexed], i: usize) -> bool
    ensures { result ≡ ahead.is_dot (ahead.sign_at (lexemes_of tokens.now) i) }
{
    matches!(sign_at(tokens, i), Some(Sign::Dot))
}
