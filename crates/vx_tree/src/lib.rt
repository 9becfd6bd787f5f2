// Expressions, bound and not.
#![tactic(auto)]

mod accessors;
mod bind;
mod bound;
mod bound_accessors;
mod checked;
mod contains;
mod depth;
mod digest;
mod display;
mod display_tree;
mod equality;
mod exact;
mod expression;
mod hashed;
mod laws;
mod node;
mod notation;
mod scope;
mod sql;
pub mod test_harness;
mod tree_text;
mod typing;
mod validity;
mod worked;

pub use bound::{BoundExpression, dtypes_of};
pub use display::ExprDisplay;
pub use display_tree::{DisplayFormat, DisplayTreeExpr};
pub use exact::ExactBoundExpr;
pub use expression::Expression;
pub use laws::{
    binding_is_unique, bound_means_its_source, equal_trees_are_alike, equality_is_exact,
    types_are_sound,
};
pub use node::TreeNode;
pub use notation::{Notation, write_tree};
pub use scope::Scope;
pub use typing::push_type_over;
pub use vx_dtype::{
    DType, FieldName, FieldNames, Nullability, PType, StructFields, VortexError, VortexResult,
};
pub use vx_fn::{
    Between, BetweenOptions, Binary, ByteLength, CaseWhen, CaseWhenOptions, Cast, ChildName,
    EmptyOptions, FieldSelection, FillNull, GetItem, IsNotNull, IsNull, Like, LikeOptions,
    ListContains, Literal, Mask, Not, Operator, Pack, PackOptions, ScalarFnRef, ScalarFnVTable,
    Select, StartsWith, StrictComparison, Zip, matches_is_decided, swapped_over_exchanged_operands,
    typing_is_monotone, typing_is_the_relation, write_names,
};
pub use vx_value::{Column, Field, FieldPath, FieldPathSet, Scalar, Value};
pub use worked::worked_rows;
