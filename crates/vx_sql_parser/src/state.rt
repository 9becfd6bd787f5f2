// What is open.
ghost use Rattle.std.specs.Prelude.{◌≡◌, [], false, OnOk, option_map};
ghost use Rattle.vx_sql_parser.specs.Steps as steps;
ghost use Rattle.vx_sql_parser.specs.Rules as rules;
ghost use Rattle.vx_sql_parser.specs.RuleViews.{state_of};

use crate::step::{Bracket, Change};
use std::alloc::{AllocError, Global};

/// A bracket that is open, and whether a `<` or `<=` stands before it outside.
#[derive(Drop)]
pub(crate) struct Open {
    pub bracket: Bracket,
    pub outside: bool,
}

/// What is open, the innermost last, and whether a `<` or `<=` stands in it.
#[derive(Drop)]
pub(crate) struct State {
    pub brackets: Vec<Open>,
    pub chained: bool,
}

impl State {
    // Nothing is open.
    pub(crate) fn new(alloc: Global) -> State
        ensures { state_of result ≡ rules.at_start }
    {
        State {
            brackets: Vec::new(alloc),
            chained: false,
        }
    }

    // The innermost bracket.
    pub(crate) fn innermost(&self) -> Option<&Bracket>
        ensures { option_map (λ b. b.now) result ≡ steps.innermost self.now.brackets.items }
    {
        match self.brackets.as_slice().last() {
            Some(open) => Some(&open.bracket),
            None => None,
        }
    }

    // Makes of it what a token does.
    pub(crate) fn change(&mut self, change: Change) -> Result<(), AllocError>
        ensures { OnOk result (state_of self.new ≡ steps.changed change (state_of self.old)) }
    {
        match change {
            Change::Stays => {}
            Change::Chains => self.chained = true,
            Change::Divides => self.chained = false,
            Change::Opens(bracket) => {
                let outside = self.chained;
                self.brackets.push(Open { bracket, outside })?;
                self.chained = false;
            }
            Change::Closes => {
                if let Some(open) = self.brackets.pop() {
                    self.chained = open.outside;
                }
            }
        }
        Ok(())
    }
}
