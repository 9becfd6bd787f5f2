// Where options stop being a function's.
ghost use Rattle.std.specs.Prelude.{◌≡◌, ◌≤◌, ℕ};
ghost use Rattle.vx_source_types.specs.declared.error.ParseError.TheVariants.{Unexpected};
ghost use Rattle.vx_source_types.specs.declared.expectation.Expected.TheVariants.{Options};

use crate::operators::{operator_at, strict, truth};
use crate::parts::is_keyword;
use crate::state::begun_at;
use vx_dtype::FieldName;
use vx_source_types::{
    Expected, Found, ParseError, Sign, Token, expected, field_name, is_word, length_of,
};

// A part of options: a token, or names up to the sign that ends them.
#[derive(Clone, Copy)]
enum Part<'w> {
    Word(&'w str),
    OneOf(&'w str, &'w str),
    Sign(Sign),
    Name,
    Names(Sign),
    Operator,
    Bound,
    Truth,
    Length,
}

/// The refusal of options that are none of that function's, at the first token that none of its options have there, or at
/// the bracket that ends them.
pub(crate) fn misfit(name: &FieldName, options: &[Found], end: &Found) -> ParseError
    ensures { (place : ℕ) × (place ≤ end.now.at) × (result ≡ Unexpected place Options) }
{
    match first_misfit(name, options) {
        Some(found) => begun_at(found.at, end, Expected::Options),
        None => expected(end, Expected::Options),
    }
}

// The first token that none of the function's options have there. None where more of them are due.
fn first_misfit<'a>(name: &FieldName, options: &'a [Found]) -> Option<&'a Found> {
    if is_word(name, "get_item") {
        behind(options, &[Part::Name])
    } else if is_word(name, "binary") {
        behind(options, &[Part::Operator])
    } else if is_word(name, "like") {
        let last = Part::OneOf("like", "ilike");
        match options {
            [not, rest @ ..] if is_keyword(not, "not") => behind(rest, &[last]),
            _ => behind(options, &[last]),
        }
    } else if is_word(name, "between") {
        let comma = Part::Sign(Sign::Comma);
        let colon = Part::Sign(Sign::Colon);
        let lower = Part::Word("lower_strict");
        let upper = Part::Word("upper_strict");
        behind(
            options,
            &[lower, colon, Part::Bound, comma, upper, colon, Part::Bound],
        )
    } else if is_word(name, "case_when") {
        case_misfit(options)
    } else if is_word(name, "select") {
        let parts = [Part::Sign(Sign::OpenBrace), Part::Names(Sign::CloseBrace)];
        match options {
            [tilde, rest @ ..] if is_sign(tilde, Sign::Tilde) => behind(rest, &parts),
            _ => behind(options, &parts),
        }
    } else {
        pack_misfit(options)
    }
}

// The same of a CASE.
fn case_misfit(options: &[Found]) -> Option<&Found> {
    let equal = Part::Sign(Sign::Equal);
    behind(
        options,
        &[
            Part::Word("case_when"),
            Part::Sign(Sign::OpenParen),
            Part::Word("pairs"),
            equal,
            Part::Length,
            Part::Sign(Sign::Comma),
            Part::Word("else"),
            equal,
            Part::Truth,
            Part::Sign(Sign::CloseParen),
        ],
    )
}

// The same of a struct.
fn pack_misfit(options: &[Found]) -> Option<&Found> {
    let colon = Part::Sign(Sign::Colon);
    behind(
        options,
        &[
            Part::Word("names"),
            colon,
            Part::Sign(Sign::OpenBracket),
            Part::Names(Sign::CloseBracket),
            Part::Sign(Sign::Comma),
            Part::Word("nullability"),
            colon,
            Part::OneOf("nullable", "nonnullable"),
        ],
    )
}

// The first of the tokens that isn't as the parts say, or stands behind them all.
fn behind<'a>(options: &'a [Found], parts: &[Part]) -> Option<&'a Found> {
    let mut left = options;
    for part in parts {
        match part_len(left, *part) {
            Ok(len) => left = left.get(len..)?,
            Err(index) => return left.get(index),
        }
    }
    left.first()
}

// How many tokens the part has that stands first, or the index of the first that is none of it.
fn part_len(tokens: &[Found], part: Part) -> Result<usize, usize> {
    match (part, tokens) {
        (Part::Names(closing), _) => names_len(tokens, closing),
        (_, [first, ..]) if fits(first, part) => Ok(1),
        _ => Err(0),
    }
}

// The same of names with commas between them, and of the sign behind them.
fn names_len(tokens: &[Found], closing: Sign) -> Result<usize, usize> {
    for i in 0..tokens.len() {
        let found = &tokens[i];
        let name_due = i % 2 == 0;
        if is_sign(found, closing) && (i == 0 || !name_due) {
            return Ok(i + 1);
        }
        let fits = if name_due {
            field_name(&found.token).is_some()
        } else {
            is_sign(found, Sign::Comma)
        };
        if !fits {
            return Err(i);
        }
    }
    Err(tokens.len())
}

// Whether the token is that part.
fn fits(found: &Found, part: Part) -> bool {
    match part {
        Part::Word(word) => is_keyword(found, word),
        Part::OneOf(word, other) => is_keyword(found, word) || is_keyword(found, other),
        Part::Sign(sign) => is_sign(found, sign),
        Part::Name => field_name(&found.token).is_some(),
        Part::Names(_) => false,
        Part::Operator => operator_at(found).is_some(),
        Part::Bound => strict(found).is_some(),
        Part::Truth => truth(found).is_some(),
        Part::Length => length_of(&found.token).is_some(),
    }
}

// Whether the token is that sign.
fn is_sign(found: &Found, wanted: Sign) -> bool {
    match &found.token {
        Token::Sign(sign) => *sign == wanted,
        _ => false,
    }
}
