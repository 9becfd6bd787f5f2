// A text of SQL as source text.
ghost use Rattle.std.specs.Prelude.{◌≡◌, ◌∷◌, ◌++◌, [], IfErr, List, OnOk, string_bytes};
ghost use Rattle.vx_sql_parser.specs.Steps as steps;
ghost use Rattle.vx_sql_parser.specs.Rules as rules;
ghost use Rattle.vx_sql_parser.specs.RuleViews.{IsStop, state_of, with_tokens};
ghost use Rattle.vx_sql_parser.specs.SqlTokens.{SqlLexeme};
ghost use Rattle.vx_sql_parser.specs.Views.{lexeme_in, lexemes_of};

use crate::lexed::Lexed;
use crate::state::State;
use crate::step::{Step, Stop};
use std::alloc::{AllocError, Global};
use vx_sql::Dialect;

/// Where a piece of source text comes from.
#[derive(Clone, Copy, Debug, PartialEq, Eq)]
pub struct Place {
    /// The piece's first byte in the source text.
    pub start: usize,
    /// The first byte of the token of SQL that it was written of.
    pub at: usize,
}

/// How far a text of SQL is written as source text.
#[derive(Drop)]
pub(crate) struct Translation {
    pub dialect: Dialect,
    /// What is open.
    pub state: State,
    /// How many tokens to come are written already.
    pub more: usize,
    /// The source text.
    pub source: String,
    /// Where its pieces come from.
    pub places: Vec<Place>,
}

impl Translation {
    // Nothing is written yet.
    pub(crate) fn new(alloc: Global, dialect: Dialect) -> Translation
        ensures dialect { result.dialect ≡ dialect }
        ensures start { (xs : List SqlLexeme) → with_tokens result xs ≡ rules.written dialect rules.at_start 0 xs }
    {
        Translation {
            dialect,
            state: State::new(alloc),
            more: 0,
            source: String::new(alloc),
            places: Vec::new(alloc),
        }
    }

    // Writes the token, before those behind it.
    pub(crate) fn take(
        &mut self,
        alloc: Global,
        token: &Lexed,
        behind: &[Lexed],
    ) -> Result<(), Stop>
        ensures goes { OnOk result (with_tokens self.new (lexemes_of behind.now) ≡ with_tokens self.old (lexeme_in token.now ∷ lexemes_of behind.now)) }
        ensures stops { IfErr result (λ e. IsStop e (with_tokens self.old (lexeme_in token.now ∷ lexemes_of behind.now))) }
    {
        if self.more > 0 {
            self.more -= 1;
            return Ok(());
        }
        let step = self.step(alloc, token, behind)?;
        self.put(step, token.at)?;
        Ok(())
    }

    // Writes what the token at that byte is written as.
    fn put(&mut self, step: Step, at: usize) -> Result<(), AllocError>
        ensures dialect { OnOk result (self.new.dialect ≡ self.old.dialect) }
        ensures source { OnOk result (string_bytes self.new.source ≡ string_bytes self.old.source ++ (string_bytes step.text ++ 32 ∷ [])) }
        ensures state { OnOk result (state_of self.new.state ≡ steps.changed step.change (state_of self.old.state)) }
        ensures more { OnOk result (self.new.more ≡ step.more) }
    {
        let Step { text, change, more } = step;
        let start = self.source.len();
        self.places.push(Place { start, at })?;
        self.source.push_str(text.as_str())?;
        self.source.push(' ')?;
        self.state.change(change)?;
        self.more = more;
        Ok(())
    }
}
