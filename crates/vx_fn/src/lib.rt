// The functions of expressions: options, markers, typing and texts.
#![tactic(auto)]

mod child_names;
mod equality;
mod function;
mod laws;
mod markers;
mod options;
mod selection;
mod texts;
mod typed;
mod typing;

pub use child_names::ChildName;
pub use function::ScalarFnRef;
pub use laws::{
    matches_is_decided, swapped_over_exchanged_operands, typing_is_monotone, typing_is_the_relation,
};
pub use markers::{
    Between, Binary, ByteLength, CaseWhen, Cast, FillNull, GetItem, IsNotNull, IsNull, Like,
    ListContains, Literal, Mask, Not, Pack, ScalarFnVTable, Select, StartsWith, Zip,
};
pub use options::{
    BetweenOptions, CaseWhenOptions, EmptyOptions, FieldSelection, LikeOptions, Operator,
    PackOptions, StrictComparison,
};
pub use texts::write_names;
pub use typed::Typed;
pub use typing::dtypes_of;
