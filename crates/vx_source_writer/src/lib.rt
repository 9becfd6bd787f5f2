// Expressions as source text.
#![tactic(auto)]

mod laws;
mod options;
mod source_text;

pub use laws::plain_is_sql;
pub use source_text::SourceText;
