//! The functions of nodes: their options, and the markers that ask for one.
pub use vx_tree::{
    Between, BetweenOptions, Binary, ByteLength, CaseWhen, CaseWhenOptions, Cast, ChildName,
    EmptyOptions, FieldSelection, FillNull, GetItem, IsNotNull, IsNull, Like, LikeOptions,
    ListContains, Literal, Mask, Not, Operator, Pack, PackOptions, ScalarFnRef, ScalarFnVTable,
    Select, StartsWith, StrictComparison, Zip,
};
