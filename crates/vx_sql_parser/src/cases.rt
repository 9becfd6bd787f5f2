// CASE, over a column or not.
ghost use Rattle.std.specs.Prelude.{◌≡◌, IfOk, option_map, string_bytes};
ghost use Rattle.vx_sql_parser.specs.Ahead as ahead;
ghost use Rattle.vx_sql_parser.specs.Rules as rules;
ghost use Rattle.vx_sql_parser.specs.RuleViews.{Answers};
ghost use Rattle.vx_sql_parser.specs.Views.{lexemes_of};

use crate::ahead::{is_word_at, name_at};
use crate::lexed::Lexed;
use crate::quotes::QuotedName;
use crate::reason::Unread;
use crate::step::{Bracket, Change, Step, Stop, says};
use std::alloc::{AllocError, Global};
use vx_dtype::FieldName;

// The beginning of a CASE.
pub(crate) fn case_begins(alloc: Global, tokens: &[Lexed]) -> Result<Step, Stop>
    ensures { Answers result (rules.case_begins (lexemes_of tokens.now)) }
{
    if is_word_at(tokens, 0, "when") {
        return says(alloc, "case", Change::Opens(Bracket::Case), 0);
    }
    case_over(alloc, tokens)
}

// The same over a column.
fn case_over(alloc: Global, tokens: &[Lexed]) -> Result<Step, Stop>
    ensures { Answers result (rules.case_over (lexemes_of tokens.now) (ahead.name_in (ahead.lexeme_at (lexemes_of tokens.now) 0))) }
{
    let Some(name) = name_at(tokens, 0) else {
        return Err(Stop::Unread(Unread::Operand));
    };
    if !is_word_at(tokens, 1, "when") {
        return Err(Stop::Unread(Unread::Operand));
    }
    match FieldName::new(alloc, name) {
        Ok(name) => says(alloc, "case", Change::Opens(Bracket::CaseOf(name)), 1),
        Err(_) => Err(Stop::OutOfMemory),
    }
}

// What `when` is written as: over a column its condition is that the column is what stands there.
pub(crate) fn when_said(alloc: Global, top: Option<&Bracket>) -> Result<String, AllocError>
    ensures { IfOk result (λ t. string_bytes t ≡ rules.when_said (option_map (λ b. b.now) top.entry)) }
{
    match top {
        Some(Bracket::CaseOf(name)) => {
            let name = QuotedName(name.as_str());
            Ok(format!(in alloc; "when {name} = (")?)
        }
        _ => String::from_str(alloc, "when"),
    }
}

// What `then` is written as.
pub(crate) fn then_said(top: Option<&Bracket>) -> &'static str
    ensures { result.now ≡ rules.then_said (option_map (λ b. b.now) top.entry) }
{
    match top {
        Some(Bracket::CaseOf(_)) => ") then",
        _ => "then",
    }
}
