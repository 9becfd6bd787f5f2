// Functions and expressions of the program are ones that a text can say.
ghost use Rattle.std.specs.Prelude.{◌<◌, ◌^◌};
ghost use Rattle.vx_fn.specs.Views.{function_of};
ghost use Rattle.vx_tree.specs.Views.{tree_of, trees_of};
ghost use Rattle.vx_source_laws.specs.SpelledTrees.{IsSpelledFunction, IsSpelledTree, AreSpelledTrees};

use crate::spelled::{name_is_text, names_are_texts, scalar_is_spelled, type_is_spelled};
use vx_fn::ScalarFnRef;
use vx_tree::Expression;

/// Shows that a text can say the expression, as it can each of its functions: what a reader asks of a tree beside its
/// nesting is known of every expression that is at hand. Time is linear in the expression.
#[cycle(trees)]
pub fn expression_is_spelled(expression: &Expression)
    ensures { IsSpelledTree (tree_of expression.now) }
{
    match expression {
        Expression::Scalar {
            scalar_fn,
            children,
        } => {
            function_is_spelled(scalar_fn);
            expressions_are_spelled(children.as_slice());
        }
        Expression::Root => {}
    }
}

// The same of expressions one after another.
#[cycle(trees)]
fn expressions_are_spelled(expressions: &[Expression])
    ensures { AreSpelledTrees (trees_of expressions.now) }
{
    for i in 0..expressions.len() {
        expression_is_spelled(&expressions[i]);
    }
}

/// Shows that a text can say the function: its names are UTF-8, a literal is one of its type, and pairs and lengths fit 32
/// bits.
pub fn function_is_spelled(scalar_fn: &ScalarFnRef)
    ensures { IsSpelledFunction (function_of scalar_fn.now) }
{
    match scalar_fn {
        ScalarFnRef::CaseWhen(options) => pairs_fit(options.num_when_then_pairs),
        ScalarFnRef::GetItem(name) => name_is_text(name),
        ScalarFnRef::Literal(scalar) => scalar_is_spelled(scalar),
        ScalarFnRef::Pack(options) => names_are_texts(options.names.as_slice()),
        ScalarFnRef::Select(selection) => names_are_texts(selection.field_names().as_slice()),
        ScalarFnRef::Cast(target) => type_is_spelled(target),
        ScalarFnRef::FillNull(_)
        | ScalarFnRef::Zip(_)
        | ScalarFnRef::Binary(_)
        | ScalarFnRef::Not(_)
        | ScalarFnRef::Between(_)
        | ScalarFnRef::Like(_)
        | ScalarFnRef::IsNull(_)
        | ScalarFnRef::IsNotNull(_)
        | ScalarFnRef::Mask(_)
        | ScalarFnRef::StartsWith(_)
        | ScalarFnRef::ByteLength(_)
        | ScalarFnRef::ListContains(_) => {}
    }
}

// The number fits 32 bits.
fn pairs_fit(pairs: u32)
    ensures { pairs < 2 ^ 32 }
{}
