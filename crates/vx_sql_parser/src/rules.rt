// What tokens of SQL are written as.
ghost use Rattle.std.specs.Prelude.{◌≡◌, ◌<◌};
ghost use Rattle.vx_source_types.specs.Views.{lexeme_of};
ghost use Rattle.vx_sql_parser.specs.Steps as steps;
ghost use Rattle.vx_sql_parser.specs.Rules as rules;
ghost use Rattle.vx_sql_parser.specs.RuleViews.{Answers};
ghost use Rattle.vx_sql_parser.specs.Views.{lexeme_in, lexemes_of};

use crate::ahead::{is_slash_at, is_text_at, is_word_at, opens_at};
use crate::calls::{comma, valued};
use crate::cases::{case_begins, then_said, when_said};
use crate::casts::as_rule;
use crate::folds::{closing, collate_rule};
use crate::keywords::{is, is_divider, is_plain_word, is_reserved};
use crate::lexed::Lexed;
use crate::likes::{glob, ilike, like};
use crate::names::{name_rule, number_rule, point_rule};
use crate::patterns::ignores_case;
use crate::quotes::QuotedText;
use crate::reason::Unread;
use crate::step::{Bracket, Change, Step, Stop, says, stepped};
use crate::translation::Translation;
use std::alloc::Global;
use vx_source_types::{Sign, Token};
use vx_sql::Dialect;

impl Translation {
    // What the token is written as, before those behind it.
    pub(crate) fn step(&self, alloc: Global, token: &Lexed, behind: &[Lexed]) -> Result<Step, Stop>
        ensures { Answers result (rules.rule self.now.dialect (steps.innermost self.now.state.brackets.items) self.now.state.chained (lexeme_in token.now) (lexemes_of behind.now)) }
    {
        match &token.token {
            Ok(token) => self.token_rule(alloc, token, behind),
            Err(reason) => Err(Stop::Unread(*reason)),
        }
    }

    fn token_rule(&self, alloc: Global, token: &Token, behind: &[Lexed]) -> Result<Step, Stop>
        ensures { Answers result (rules.token_rule self.now.dialect (steps.innermost self.now.state.brackets.items) self.now.state.chained (lexeme_of token.now) (lexemes_of behind.now)) }
    {
        match token {
            Token::Word(word) => self.word_rule(alloc, word.as_str(), behind),
            Token::Quoted(name) => name_rule(alloc, name.as_str(), behind),
            Token::Text(text) => {
                let text = QuotedText(text.as_str());
                Ok(stepped(format!(in alloc; "{text}")?, Change::Stays, 0))
            }
            Token::Number {
                negative,
                magnitude: Some(n),
                ..
            } => number_rule(alloc, *negative, *n, behind),
            Token::Point(digits) => point_rule(alloc, self.dialect, digits.as_str(), behind),
            Token::Sign(Sign::CloseParen) => {
                closing(alloc, self.dialect, self.state.innermost(), behind)
            }
            Token::Sign(Sign::Comma) => comma(alloc, self.dialect, self.state.innermost(), behind),
            Token::Sign(Sign::Slash) => slash_rule(alloc, self.dialect, behind),
            Token::Sign(sign) => self.sign_rule(alloc, *sign),
            _ => Err(Stop::Unread(Unread::Sign)),
        }
    }

    fn word_rule(&self, alloc: Global, word: &str, behind: &[Lexed]) -> Result<Step, Stop>
        ensures { Answers result (rules.word_rule self.now.dialect (steps.innermost self.now.state.brackets.items) word.now (lexemes_of behind.now)) }
    {
        if is_divider(word) {
            says(alloc, word, Change::Divides, 0)
        } else if is_plain_word(word) {
            says(alloc, word, Change::Stays, 0)
        } else {
            self.keyword_rule(alloc, word, behind)
        }
    }

    // `is`, `like`, `ilike`, `glob` and `as`.
    fn keyword_rule(&self, alloc: Global, word: &str, behind: &[Lexed]) -> Result<Step, Stop>
        ensures { Answers result (rules.keyword_rule self.now.dialect (steps.innermost self.now.state.brackets.items) word.now (lexemes_of behind.now)) }
    {
        if is(word, "is") {
            is_rule(alloc, behind)
        } else if is(word, "like") {
            like(alloc, self.dialect, ignores_case(self.dialect), behind, 0)
        } else if is(word, "ilike") {
            ilike(alloc, self.dialect, behind)
        } else if is(word, "glob") {
            glob(alloc, self.dialect, behind)
        } else if is(word, "as") {
            as_rule(alloc, self.dialect, self.state.innermost(), behind)
        } else {
            self.case_rule(alloc, word, behind)
        }
    }

    // The words of a CASE.
    fn case_rule(&self, alloc: Global, word: &str, behind: &[Lexed]) -> Result<Step, Stop>
        ensures { Answers result (rules.case_rule self.now.dialect (steps.innermost self.now.state.brackets.items) word.now (lexemes_of behind.now)) }
    {
        if is(word, "case") {
            case_begins(alloc, behind)
        } else if is(word, "when") {
            let when = when_said(alloc, self.state.innermost())?;
            Ok(stepped(when, Change::Divides, 0))
        } else if is(word, "then") {
            says(alloc, then_said(self.state.innermost()), Change::Divides, 0)
        } else if is(word, "end") {
            says(alloc, "end", Change::Closes, 0)
        } else {
            self.other_rule(alloc, word, behind)
        }
    }

    // A name, a function, or a word that isn't read.
    fn other_rule(&self, alloc: Global, word: &str, behind: &[Lexed]) -> Result<Step, Stop>
        ensures { Answers result (rules.other_rule self.now.dialect (steps.innermost self.now.state.brackets.items) word.now (lexemes_of behind.now)) }
    {
        if is_reserved(word) {
            reserved_rule(alloc, self.dialect, word, behind)
        } else if opens_at(behind, 0) || is_text_at(behind, 0) {
            valued(alloc, self.dialect, word, behind)
        } else if is(word, "collate") {
            collate_rule(alloc, self.dialect, self.state.innermost(), behind)
        } else {
            name_rule(alloc, word, behind)
        }
    }

    // A sign, no comma, no `/` and no closing bracket.
    fn sign_rule(&self, alloc: Global, sign: Sign) -> Result<Step, Stop>
        ensures { Answers result (rules.sign_rule self.now.state.chained sign) }
    {
        match sign {
            Sign::OpenParen => says(alloc, "(", Change::Opens(Bracket::Paren), 0),
            Sign::Dot => says(alloc, ".", Change::Stays, 0),
            Sign::Equal | Sign::DoubleEqual => says(alloc, "=", Change::Stays, 0),
            Sign::NotEqual => says(alloc, "<>", Change::Stays, 0),
            Sign::Less => chain_rule(alloc, self.state.chained, "<"),
            Sign::LessEqual => chain_rule(alloc, self.state.chained, "<="),
            Sign::Greater => says(alloc, ">", Change::Stays, 0),
            Sign::GreaterEqual => says(alloc, ">=", Change::Stays, 0),
            Sign::Plus => says(alloc, "+", Change::Stays, 0),
            Sign::Minus => says(alloc, "-", Change::Stays, 0),
            Sign::Star => says(alloc, "*", Change::Stays, 0),
            Sign::Percent => says(alloc, "%", Change::Stays, 0),
            _ => Err(Stop::Unread(Unread::Sign)),
        }
    }
}

// A word of queries or operators: `div` divides whole numbers, in PostgreSQL as a function, and in Spark as an operator.
fn reserved_rule(
    alloc: Global,
    dialect: Dialect,
    word: &str,
    behind: &[Lexed],
) -> Result<Step, Stop>
    ensures { Answers result (rules.reserved_rule dialect word.now (lexemes_of behind.now)) }
{
    match dialect {
        Dialect::Postgres if is(word, "div") && opens_at(behind, 0) => {
            says(alloc, "((", Change::Opens(Bracket::Divided), 1)
        }
        Dialect::Spark if is(word, "div") => says(alloc, "/", Change::Stays, 0),
        _ => Err(Stop::Unread(Unread::Word)),
    }
}

// A `/`: the quotient of whole numbers is one in PostgreSQL and SQLite, and that by `//` in DuckDB; the others have a
// fraction.
fn slash_rule(alloc: Global, dialect: Dialect, behind: &[Lexed]) -> Result<Step, Stop>
    ensures { Answers result (rules.slash_rule dialect (lexemes_of behind.now)) }
{
    match dialect {
        Dialect::Postgres | Dialect::Sqlite => says(alloc, "/", Change::Stays, 0),
        Dialect::DuckDb if is_slash_at(behind, 0) => says(alloc, "/", Change::Stays, 1),
        Dialect::DuckDb | Dialect::Spark | Dialect::ClickHouse => {
            Err(Stop::Unread(Unread::Quotient))
        }
    }
}

// `is`, and the tests for null that PostgreSQL has for structs.
fn is_rule(alloc: Global, behind: &[Lexed]) -> Result<Step, Stop>
    ensures { Answers result (rules.is_rule (lexemes_of behind.now)) }
{
    if is_distinct(behind, 0) {
        says(alloc, "is not null", Change::Stays, 3)
    } else if is_word_at(behind, 0, "not") && is_distinct(behind, 1) {
        says(alloc, "is null", Change::Stays, 4)
    } else {
        says(alloc, "is", Change::Stays, 0)
    }
}

// Whether `distinct from null` stands from that place on.
fn is_distinct(behind: &[Lexed], i: usize) -> bool
    requires { i < 2 }
    ensures { result ≡ rules.is_distinct (lexemes_of behind.now) i }
{
    is_word_at(behind, i, "distinct")
        && (is_word_at(behind, i + 1, "from") && is_word_at(behind, i + 2, "null"))
}

// A `<` or `<=`, of which none stands before it: source text reads two as a range.
fn chain_rule(alloc: Global, chained: bool, sign: &str) -> Result<Step, Stop>
    ensures { Answers result (rules.chain_rule chained sign.now) }
{
    if chained {
        Err(Stop::Unread(Unread::Chain))
    } else {
        says(alloc, sign, Change::Chains, 0)
    }
}
