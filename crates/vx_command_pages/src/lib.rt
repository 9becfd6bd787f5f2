// What commands are given and the pages that they make: messages, types, trees, plans.
#![tactic(auto)]

mod beside;
mod conjuncts;
mod error;
mod excerpt;
mod explanation;
mod fields;
mod graph;
mod help;
mod input;
mod json;
mod message;
mod passes;
mod paths;
mod planned;
mod position;
mod refused;
mod remedy;
mod report;
mod shown;
mod source;
mod sources;
mod spans;
mod sql;
mod tasks;
mod types;
mod unfit;

pub use conjuncts::joins_conjuncts;
pub use error::{CommandError, FieldBeside, Status, UnfitLiteral};
pub use explanation::{explanation_of, explanation_page};
pub use fields::nearest_field;
pub use graph::graph_page;
pub use input::{
    ReadQuery, bind, read_expression, read_over, read_query, read_schema, read_written,
};
pub use message::{Input, Message};
pub use planned::{paths_page, plan_of, plan_page};
pub use position::Position;
pub use remedy::{Help, Part, Remedy, Role};
pub use report::{Report, Span};
pub use shown::Shown;
pub use source::source_page;
pub use spans::span_at;
pub use sql::{SqlError, SqlQuery, sql_explanation_page, sql_page};
pub use tasks::{ChunkTask, chunk_tasks, planned_tasks_page, tasks_page};
pub use types::type_page;
