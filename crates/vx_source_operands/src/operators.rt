// The options of operators and comparisons, and of a CASE.
ghost use Rattle.std.specs.Prelude.{◌≡◌, option_map};
ghost use Rattle.vx_fn.specs.Functions.{compares};
ghost use Rattle.vx_fn.specs.Views.{operation_of, is_strict};
ghost use Rattle.vx_source_grammar.specs.Following.{comparison_of};
ghost use Rattle.vx_source_grammar.specs.OptionReading.{between_read, case_read, like_at, like_read, operation_at, operator_read, strict_at, truth_at};
ghost use Rattle.vx_source_operands.specs.OperandViews.{lexeme_in, lexemes_of};
ghost use Rattle.vx_source_operands.specs.Parts.{case_else, case_inside, is_closing};
ghost use Rattle.vx_source_operands.specs.OptionViews.{binary_of, like_of, between_of, case_of};

use crate::parts::{assigned, behind_comma, is_keyword, labelled, labelled_last};
use vx_fn::{BetweenOptions, CaseWhenOptions, LikeOptions, Operator, StrictComparison};
use vx_source_types::{Found, Sign, Token, is_word, length_of};

// The operator that the options are.
pub(crate) fn operator(options: &[Found]) -> Option<Operator>
    ensures { option_map binary_of result ≡ operator_read (lexemes_of options.now) }
{
    let [only] = options else {
        return None;
    };
    operator_at(only)
}

/// The comparison of a sign.
pub fn comparison(sign: Sign) -> Option<Operator>
    ensures { option_map operation_of result ≡ option_map compares (comparison_of sign) }
{
    match sign {
        Sign::Equal | Sign::DoubleEqual => Some(Operator::Eq),
        Sign::NotEqual => Some(Operator::NotEq),
        Sign::Less => Some(Operator::Lt),
        Sign::LessEqual => Some(Operator::Lte),
        Sign::Greater => Some(Operator::Gt),
        Sign::GreaterEqual => Some(Operator::Gte),
        Sign::OpenParen
        | Sign::CloseParen
        | Sign::OpenBracket
        | Sign::CloseBracket
        | Sign::OpenBrace
        | Sign::CloseBrace
        | Sign::Comma
        | Sign::Colon
        | Sign::DoubleColon
        | Sign::Dot
        | Sign::Question
        | Sign::Tilde
        | Sign::Plus
        | Sign::Minus
        | Sign::Star
        | Sign::Slash
        | Sign::Percent
        | Sign::Dollar => None,
    }
}

pub(crate) fn operator_at(found: &Found) -> Option<Operator>
    ensures { option_map operation_of result ≡ operation_at (lexeme_in found.now) }
{
    match &found.token {
        Token::Sign(Sign::Plus) => Some(Operator::Add),
        Token::Sign(Sign::Minus) => Some(Operator::Sub),
        Token::Sign(Sign::Star) => Some(Operator::Mul),
        Token::Sign(Sign::Slash) => Some(Operator::Div),
        Token::Sign(Sign::Percent) => Some(Operator::Rem),
        Token::Sign(sign) => comparison(*sign),
        Token::Word(name) => {
            if is_word(name, "and") {
                Some(Operator::And)
            } else if is_word(name, "or") {
                Some(Operator::Or)
            } else {
                None
            }
        }
        _ => None,
    }
}

// `like` or `ilike`, behind `not` or alone.
pub(crate) fn like(options: &[Found]) -> Option<LikeOptions>
    ensures { option_map like_of result ≡ like_read (lexemes_of options.now) }
{
    match options {
        [word] => like_at(false, word),
        [not, word] => {
            if is_keyword(not, "not") {
                like_at(true, word)
            } else {
                None
            }
        }
        _ => None,
    }
}

fn like_at(negated: bool, found: &Found) -> Option<LikeOptions>
    ensures { option_map like_of result ≡ like_at negated (lexeme_in found.now) }
{
    let Token::Word(name) = &found.token else {
        return None;
    };
    if is_word(name, "ilike") {
        Some(LikeOptions {
            negated,
            case_insensitive: true,
        })
    } else if is_word(name, "like") {
        Some(LikeOptions {
            negated,
            case_insensitive: false,
        })
    } else {
        None
    }
}

// The signs of the lower and of the upper bound.
#[tactic(auto, using(crate::proofs::Betweens::between_is))]
pub(crate) fn between(options: &[Found]) -> Option<BetweenOptions>
    ensures { option_map between_of result ≡ between_read (lexemes_of options.now) }
{
    let (lower, rest) = labelled(options, "lower_strict")?;
    let upper = labelled_last(behind_comma(rest)?, "upper_strict")?;
    Some(BetweenOptions {
        lower_strict: strict(lower)?,
        upper_strict: strict(upper)?,
    })
}

pub(crate) fn strict(found: &Found) -> Option<StrictComparison>
    ensures { option_map is_strict result ≡ strict_at (lexeme_in found.now) }
{
    match &found.token {
        Token::Sign(Sign::Less) => Some(StrictComparison::Strict),
        Token::Sign(Sign::LessEqual) => Some(StrictComparison::NonStrict),
        _ => None,
    }
}

// The number of pairs of a CASE, and whether it has an ELSE value.
#[tactic(auto, using(crate::proofs::Cases::case_is))]
pub(crate) fn case_when(options: &[Found]) -> Option<CaseWhenOptions>
    ensures { option_map case_of result ≡ case_read (lexemes_of options.now) }
{
    let (pairs, rest) = assigned(case_inside(options)?, "pairs")?;
    let has_else = case_else(behind_comma(rest)?)?;
    Some(CaseWhenOptions {
        num_when_then_pairs: length_of(&pairs.token)?,
        has_else: truth(has_else)?,
    })
}

// What is left behind the word `case_when` and an opening parenthesis.
fn case_inside(options: &[Found]) -> Option<&[Found]>
    ensures { option_map (λ rest. lexemes_of rest.now) result ≡ case_inside (lexemes_of options.now) }
{
    let [
        word,
        Found {
            token: Token::Sign(Sign::OpenParen),
            ..
        },
        rest @ ..,
    ] = options
    else {
        return None;
    };
    if is_keyword(word, "case_when") {
        Some(rest)
    } else {
        None
    }
}

// The token behind the word `else` and an equals sign, where the closing parenthesis is all that is left behind it.
#[tactic(auto, using(crate::proofs::Marks::case_else_is))]
fn case_else(tokens: &[Found]) -> Option<&Found>
    ensures { option_map (λ value. lexeme_in value.now) result ≡ case_else (lexemes_of tokens.now) }
{
    let (value, rest) = assigned(tokens, "else")?;
    if is_closing(rest) { Some(value) } else { None }
}

// Whether the closing parenthesis is all that is left.
fn is_closing(tokens: &[Found]) -> bool
    ensures { result ≡ is_closing (lexemes_of tokens.now) }
{
    let [only] = tokens else {
        return false;
    };
    matches!(only.token, Token::Sign(Sign::CloseParen))
}

pub(crate) fn truth(found: &Found) -> Option<bool>
    ensures { result ≡ truth_at (lexeme_in found.now) }
{
    let Token::Word(name) = &found.token else {
        return None;
    };
    if is_word(name, "true") {
        Some(true)
    } else if is_word(name, "false") {
        Some(false)
    } else {
        None
    }
}
