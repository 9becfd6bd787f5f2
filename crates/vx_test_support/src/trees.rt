// Trees by their source texts, and columns.
ghost use Rattle.std.specs.Prelude.{IfOk};
ghost use Rattle.vx_tree.specs.Trees.{WellTyped};
ghost use Rattle.vx_tree.specs.Views.{bound_of};

use crate::literals::values;
use crate::times::repeated;
use crate::types::dtype;
use crate::unread::Unread;
use std::alloc::Global;
use vx_source::parse_with;
use vx_tree::{BoundExpression, Column, DType, Expression};

// More nesting than a table or a test has.
pub const NESTING: usize = 1_000_000;

/// The tree of the source text, in which `times(7) .. end` says what is between seven times.
pub fn expression(alloc: Global, text: &str) -> Result<Expression, Unread> {
    if !text.contains("times(") {
        return Ok(parse_with(alloc, text, NESTING)?);
    }
    let text = repeated(alloc, text)?;
    Ok(parse_with(alloc, text.as_str(), NESTING)?)
}

/// The tree of the source text, bound to the scope.
pub fn bound(alloc: Global, text: &str, scope: &DType) -> Result<BoundExpression, Unread>
    ensures { IfOk result (λ b. WellTyped (bound_of b)) }
{
    Ok(expression(alloc, text)?.bind(alloc, scope)?)
}

/// The column of that type with these rows, which stand one space apart.
pub fn column(alloc: Global, kind: &str, rows: &str) -> Result<Column, Unread> {
    let rows = values(alloc, rows)?;
    Ok(Column::try_new(dtype(alloc, kind)?, rows)?)
}
