// The options that name fields.
ghost use Rattle.std.specs.Prelude.{◌≡◌, List, MatchResult, option_map};
ghost use Rattle.vx_fn.specs.Functions.{get_item, pack, select};
ghost use Rattle.vx_value.specs.Types.{Name};
ghost use Rattle.vx_value.specs.Views.{admits_null};
ghost use Rattle.vx_source_types.specs.Reading.{Gives};
ghost use Rattle.vx_source_grammar.specs.OptionReading.{braced, item_read, names_read, nullability_at, pack_read, packed, select_read};
ghost use Rattle.vx_source_operands.specs.OperandViews.{lexeme_in, lexemes_of};
ghost use Rattle.vx_source_operands.specs.NameParts.{behind_bracket, is_closed, selected};
ghost use Rattle.vx_source_operands.specs.Parts.{first_name, next_name};
ghost use Rattle.vx_source_operands.specs.OptionViews.{pack_of, selecting};
ghost use Rattle.vx_source_types.specs.declared.error.ParseError.TheVariants.{OutOfMemory};

use crate::parts::{behind_comma, is_keyword, labelled_last};
use std::alloc::Global;
use vx_dtype::{FieldName, FieldNames, Nullability};
use vx_fn::{FieldSelection, PackOptions};
use vx_source_types::{Found, ParseError, Sign, Token, field_name, is_word};

// The name that the options are.
pub(crate) fn item(options: &[Found]) -> Option<&FieldName>
    ensures { option_map (λ name. get_item name.now) result ≡ item_read (lexemes_of options.now) }
{
    let [only] = options else {
        return None;
    };
    field_name(&only.token)
}

// The names between braces, which are kept, or left out behind a tilde.
#[tactic(auto, using(crate::proofs::Selections::select_is))]
pub(crate) fn select(alloc: Global, options: &[Found]) -> Result<Option<FieldSelection>, ParseError>
    ensures { Gives (option_map select) result (select_read (lexemes_of options.now)) }
{
    match selected(options) {
        Some((excludes, list)) => selection(alloc, list, excludes),
        None => Ok(None),
    }
}

// Whether a tilde leaves the names out, and what stands behind the opening brace.
fn selected(options: &[Found]) -> Option<(bool, &[Found])>
    ensures { option_map (λ p. (p.0, lexemes_of p.1.now)) result ≡ selected (lexemes_of options.now) }
{
    match options {
        [
            Found {
                token: Token::Sign(Sign::Tilde),
                ..
            },
            Found {
                token: Token::Sign(Sign::OpenBrace),
                ..
            },
            list @ ..,
        ] => Some((true, list)),
        [
            Found {
                token: Token::Sign(Sign::OpenBrace),
                ..
            },
            list @ ..,
        ] => Some((false, list)),
        _ => None,
    }
}

// The names before the closing brace, which are left out or kept.
#[tactic(auto, using(crate::proofs::Selections::braced_is))]
fn selection(
    alloc: Global,
    list: &[Found],
    excludes: bool,
) -> Result<Option<FieldSelection>, ParseError>
    ensures { Gives (option_map select) result (braced (selecting excludes) (names_read (lexemes_of list.now))) }
{
    let (names, rest) = names(alloc, list)?;
    if !is_closed(rest) {
        return Ok(None);
    }
    let names = field_names(alloc, names)?;
    Ok(Some(if excludes {
        FieldSelection::Exclude(names)
    } else {
        FieldSelection::Include(names)
    }))
}

// Whether the closing brace is all that is left.
fn is_closed(tokens: &[Found]) -> bool
    ensures { result ≡ is_closed (lexemes_of tokens.now) }
{
    matches!(
        tokens,
        [Found {
            token: Token::Sign(Sign::CloseBrace),
            ..
        },]
    )
}

// The names of the fields of a struct, and whether it is nullable.
pub(crate) fn pack(alloc: Global, options: &[Found]) -> Result<Option<PackOptions>, ParseError>
    ensures { Gives (option_map pack_of) result (pack_read (lexemes_of options.now)) }
{
    let [
        label,
        Found {
            token: Token::Sign(Sign::Colon),
            ..
        },
        Found {
            token: Token::Sign(Sign::OpenBracket),
            ..
        },
        list @ ..,
    ] = options
    else {
        return Ok(None);
    };
    if !is_keyword(label, "names") {
        return Ok(None);
    }
    let (names, rest) = names(alloc, list)?;
    let Some(nullability) = nullability(rest) else {
        return Ok(None);
    };
    let names = field_names(alloc, names)?;
    Ok(Some(PackOptions { names, nullability }))
}

// The nullability behind the bracket that ends the names.
#[tactic(auto, using(crate::proofs::Packs::packed_is))]
fn nullability(tokens: &[Found]) -> Option<Nullability>
    ensures { (names : List Name) → option_map (λ n. pack names (admits_null n)) result ≡ packed (names, lexemes_of tokens.now) }
{
    let rest = behind_comma(behind_bracket(tokens)?)?;
    nullability_at(labelled_last(rest, "nullability")?)
}

// What is left behind a closing bracket.
fn behind_bracket(tokens: &[Found]) -> Option<&[Found]>
    ensures { option_map (λ rest. lexemes_of rest.now) result ≡ behind_bracket (lexemes_of tokens.now) }
{
    let [
        Found {
            token: Token::Sign(Sign::CloseBracket),
            ..
        },
        rest @ ..,
    ] = tokens
    else {
        return None;
    };
    Some(rest)
}

fn nullability_at(found: &Found) -> Option<Nullability>
    ensures { option_map admits_null result ≡ nullability_at (lexeme_in found.now) }
{
    let Token::Word(name) = &found.token else {
        return None;
    };
    if is_word(name, "nullable") {
        Some(Nullability::Nullable)
    } else if is_word(name, "nonnullable") {
        Some(Nullability::NonNullable)
    } else {
        None
    }
}

// The names with commas between them, and what is left behind them.
#[tactic(auto, using(crate::proofs::NameLists::next_onto))]
fn names(alloc: Global, tokens: &[Found]) -> Result<(Vec<FieldName>, &[Found]), ParseError>
    ensures { Gives (λ read. (read.0.items, lexemes_of read.1.now)) result (names_read (lexemes_of tokens.now)) }
{
    let mut names = Vec::new(alloc);
    let Some((first, mut left)) = first_name(tokens) else {
        return Ok((names, tokens));
    };
    names.push(first.clone()?)?;
    while let Some((name, rest)) = next_name(left) {
        names.push(name.clone()?)?;
        left = rest;
    }
    Ok((names, left))
}

// The name that stands behind a comma, and what is left behind it.
fn next_name(tokens: &[Found]) -> Option<(&FieldName, &[Found])>
    ensures { option_map (λ p. (p.0.now, lexemes_of p.1.now)) result ≡ next_name (lexemes_of tokens.now) }
{
    first_name(behind_comma(tokens)?)
}

// The name that stands first, and what is left behind it.
fn first_name(tokens: &[Found]) -> Option<(&FieldName, &[Found])>
    ensures { option_map (λ p. (p.0.now, lexemes_of p.1.now)) result ≡ first_name (lexemes_of tokens.now) }
{
    let [first, rest @ ..] = tokens else {
        return None;
    };
    Some((field_name(&first.token)?, rest))
}

// The names as one list.
fn field_names(alloc: Global, names: Vec<FieldName>) -> Result<FieldNames, ParseError>
    ensures { MatchResult result (λ all. all ≡ names.items) (λ e. e ≡ OutOfMemory) }
{
    match FieldNames::new(alloc, names) {
        Ok(all) => Ok(all),
        Err(_) => Err(ParseError::OutOfMemory),
    }
}
