// The operands of source text: literals, names, and functions with their options.
#![tactic(auto)]

mod context;
mod frame;
mod functions;
mod joining;
mod listing;
mod members;
mod misfits;
mod names;
mod nodes;
mod operand;
mod operators;
mod options;
mod parts;
mod plain;
mod refusals;
mod repeated;
mod scalars;
mod state;
mod types;

pub use context::Context;
pub use frame::{Bracket, Callee, CasePart, Frame, Level, OpenRange};
pub use functions::{names_function, plain_function, takes_options};
pub use joining::reduce;
pub use listing::{listed, scalar_at};
pub use members::among;
pub use nodes::{enclosed, node, node_between, node_over, root};
pub use operand::{Operand, Places};
pub use operators::comparison;
pub use options::function_of;
pub use plain::PlainValues;
pub use state::{
    ExpressionReader, ExpressionStep, Mode, OptionsSoFar, SelectionSoFar, TypeFor, begun_at, more,
    tight, type_due,
};
