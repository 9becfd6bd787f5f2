//! Trees as texts: on one line, and as a tree of lines.
pub use vx_tree::{DisplayFormat, DisplayTreeExpr, ExprDisplay};
