// Whole texts of expressions over a scope.
ghost use Rattle.std.specs.Prelude.{◌≡◌, IfOk, IfErr, MatchResult};
ghost use Rattle.vx_value.specs.Views.{type_of};
ghost use Rattle.vx_tree.specs.Trees.{Tree};
ghost use Rattle.vx_tree.specs.Views.{tree_of};
ghost use Rattle.vx_source_parser.specs.Placed.{tree_in};
ghost use Rattle.vx_source_over.specs.Reading.{ReadsOver, GivesOver, RefusesOver};

use crate::OverError;
use crate::written::{over, read_open};
use std::alloc::Global;
use vx_dtype::DType;
use vx_source_parser::Placed;
use vx_source_types::DEFAULT_NESTING;
use vx_tree::Expression;

/// The expression that the text says over a scope of that type, nested at most 200 deep: as `parse` reads it, if that has a
/// type; and else each number, text or null that was written without a type takes that of what it stands beside, as
/// [`over`] says, which also says what is refused. A text that is no expression is refused as `parse` refuses it. Time is
/// linear in the text.
pub fn parse_over(alloc: Global, text: &str, scope: &DType) -> Result<Expression, OverError>
    ensures reads { IfOk result (λ e. ReadsOver 200 text.now (type_of scope.now) (tree_of e)) }
    ensures refuses { IfErr result (RefusesOver 200 text.now (type_of scope.now)) }
    ensures complete { (e : Tree) → ReadsOver 200 text.now (type_of scope.now) e → GivesOver tree_of result e }
{
    let placed = parse_over_with_places(alloc, text, DEFAULT_NESTING, scope)?;
    Ok(placed.expression)
}

/// The same, nested at most as deep as said, and beside it the bytes that each node was read from.
pub fn parse_over_with_places(
    alloc: Global,
    text: &str,
    limit: usize,
    scope: &DType,
) -> Result<Placed, OverError>
    ensures reads { IfOk result (λ p. ReadsOver limit text.now (type_of scope.now) (tree_in p)) }
    ensures refuses { IfErr result (RefusesOver limit text.now (type_of scope.now)) }
    ensures complete { (e : Tree) → ReadsOver limit text.now (type_of scope.now) e → GivesOver tree_in result e }
{
    let written = read_open(alloc, text, limit)?;
    over(alloc, written, scope)
}
