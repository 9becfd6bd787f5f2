// All tokens of a text of SQL.
ghost use Rattle.std.specs.Prelude.{◌≡◌, IfOk};
ghost use Rattle.vx_sql_parser.specs.SqlTokens.{sql_tokens};
ghost use Rattle.vx_sql_parser.specs.Views.{lexemes_of};

use crate::first::taken_at;
use crate::reason::Unread;
use std::alloc::{AllocError, Global};
use vx_source_types::Token;
use vx_sql::Dialect;

/// A token, or why there is none, and its first byte.
#[derive(Drop)]
pub(crate) struct Lexed {
    pub token: Result<Token, Unread>,
    pub at: usize,
}

// The tokens of the text, each with its first byte.
pub(crate) fn sql_tokens(
    alloc: Global,
    dialect: Dialect,
    text: &str,
) -> Result<Vec<Lexed>, AllocError>
    ensures { IfOk result (λ tokens. lexemes_of tokens.items ≡ sql_tokens dialect 0 text.now) }
{
    let mut tokens = Vec::new(alloc);
    let mut at = 0;
    while at < text.len() {
        let (token, len) = taken_at(alloc, dialect, text, at)?;
        if let Some(token) = token {
            tokens.push(Lexed { token, at })?;
        }
        at += len;
    }
    Ok(tokens)
}
