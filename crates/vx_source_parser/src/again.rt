// Expressions, written as source text and read again.
ghost use Rattle.std.specs.Prelude.{◌≤◌};
ghost use Rattle.vx_tree.specs.Views.{tree_of};
ghost use Rattle.vx_source_types.specs.Reading.{Gives};
ghost use Rattle.vx_source_laws.specs.Nesting.{nesting};

use crate::whole::parse_with;
use std::alloc::Global;
use vx_source_laws::expression_is_spelled;
use vx_source_types::ParseError;
use vx_source_writer::SourceText;
use vx_tree::Expression;

/// What the expression's source text is read as, where so much nesting is allowed. That is the same expression, of which
/// nothing else is asked; where it is nested deeper, this may refuse as `parse_with` does. Time is linear in the text.
pub fn read_again(
    alloc: Global,
    expression: &Expression,
    limit: usize,
) -> Result<Expression, ParseError>
    ensures again { nesting (tree_of expression.now) ≤ limit → Gives tree_of result (tree_of expression.now) }
{
    expression_is_spelled(expression);
    let text = format!(in alloc; "{}", SourceText(expression))?;
    parse_with(alloc, text.as_str(), limit)
}
