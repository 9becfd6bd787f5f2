// The source text that a text of SQL is read as.
ghost use Rattle.std.specs.Prelude.{◌≡◌, IfErr, IfOk, Ok, string_bytes};
ghost use Rattle.vx_sql_parser.specs.Rules.{sql_source};
ghost use Rattle.vx_sql_parser.specs.RuleViews.{IsStop};

use crate::lexed::sql_tokens;
use crate::step::Stop;
use crate::translation::{Place, Translation};
use std::alloc::Global;
use vx_sql::Dialect;

/// The source text of a text of SQL.
#[derive(Drop)]
pub struct SqlSource {
    /// The source text.
    pub text: String,
    /// Where its pieces come from, in order.
    pub places: Vec<Place>,
}

/// Why there is none.
#[derive(Clone, Copy)]
pub(crate) struct Refusal {
    pub stop: Stop,
    /// The first byte of the token that isn't read.
    pub at: usize,
}

// The source text that the text is read as. Time is linear in the text, but for a column's name before `when`, which is
// copied for each.
#[tactic(auto, using(crate::proofs::TokensFound::tokens_at))]
pub(crate) fn source_of(alloc: Global, dialect: Dialect, text: &str) -> Result<SqlSource, Refusal>
    ensures source { IfOk result (λ s. sql_source dialect text.now ≡ Ok (string_bytes s.text)) }
    ensures refusal { IfErr result (λ r. IsStop r.stop (sql_source dialect text.now)) }
{
    let Ok(tokens) = sql_tokens(alloc, dialect, text) else {
        return Err(Refusal {
            stop: Stop::OutOfMemory,
            at: 0,
        });
    };
    let tokens = tokens.as_slice();
    let mut translation = Translation::new(alloc, dialect);
    let mut i = 0;
    while i < tokens.len() {
        let token = &tokens[i];
        if let Err(stop) = translation.take(alloc, token, &tokens[i + 1..]) {
            return Err(Refusal { stop, at: token.at });
        }
        i += 1;
    }
    let Translation { source, places, .. } = translation;
    Ok(SqlSource {
        text: source,
        places,
    })
}
