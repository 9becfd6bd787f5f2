//! SQL: trees and plans as an engine's text, and the condition of a WHERE as an expression.
pub use vx_sql::{Dialect, Reason, Unsupported, first_unsupported, to_sql};
pub use vx_sql_parser::{
    Place, SqlError, SqlSource, Unread, parse_sql, parse_sql_over, sql_source,
};
pub use vx_sql_plan::{NoStatement, SqlPlan, sql_plan};
