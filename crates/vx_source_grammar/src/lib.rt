// How expressions are read from source text, token by token, as a definition, and the keywords of source text.
#![tactic(auto)]

mod words;

pub use words::{Keyword, as_keyword};
