// Matches with the pattern of a beginning.
ghost use Rattle.std.specs.Prelude.{◌≡◌, Ok};
ghost use Rattle.std.specs.Option.{option_map};
ghost use Rattle.vx_value.specs.Fits.{Fits};
ghost use Rattle.vx_value.specs.Returns.{ReturnsOrOom};
ghost use Rattle.vx_value.specs.Types.{utf8};
ghost use Rattle.vx_value.specs.Views.{type_of};
ghost use Rattle.vx_fn.specs.Functions.{like};
ghost use Rattle.vx_rewrite_core.specs.Nodes.{literal_node};
ghost use Rattle.vx_rewrite_folding.specs.Known.{test_of, tree_of};
ghost use Rattle.vx_rewrite_rule_laws.specs.Folding.{known_given};
ghost use Rattle.vx_tree.specs.Trees.{node};
ghost use Rattle.vx_tree.specs.Views.{bound_of, bounds_of};

use crate::constants::literal;
use crate::known::{BeginningTest, Known};
use std::alloc::Global;
use vx_dtype::DType;
use vx_eval_like::beginning_of;
use vx_fn::{EmptyOptions, LikeOptions, ScalarFnRef};
use vx_rewrite_core::{literal_value, pair};
use vx_tree::{BoundExpression, VortexResult};
use vx_value::{Scalar, Value};

// What is known of a match of the type: with the literal pattern of a beginning it is a test of that.
pub(crate) fn known_of_like<'a>(
    dtype: &'a DType,
    options: LikeOptions,
    children: &'a [BoundExpression],
) -> Option<Known<'a>>
    ensures { option_map tree_of result ≡ known_given (node (type_of dtype.now) (like options.negated options.case_insensitive) (bounds_of children.now)) }
{
    if options.negated || options.case_insensitive {
        return None;
    }
    let (input, pattern) = pair(children)?;
    let Value::Utf8(text) = literal_value(pattern)?.value() else {
        return None;
    };
    let prefix = beginning_of(text.as_str())?;
    Some(Known::Beginning(BeginningTest {
        dtype,
        input,
        prefix_dtype: pattern.dtype(),
        prefix,
    }))
}

// The test. Asks that the text is one of its type.
pub(crate) fn beginning_tree(alloc: Global, test: BeginningTest) -> VortexResult<BoundExpression>
    requires { Fits (utf8 test.prefix.now) (type_of test.prefix_dtype.now) }
    ensures { ReturnsOrOom bound_of result (Ok (test_of test.entry)) }
{
    let prefix = text_literal(alloc, test.prefix_dtype, test.prefix)?;
    let children = vec![in alloc; test.input.clone()?, prefix]?;
    let function = ScalarFnRef::StartsWith(EmptyOptions);
    BoundExpression::new_typed(alloc, test.dtype.clone()?, function, children)
}

// The literal of the text. Asks one of the type.
fn text_literal(alloc: Global, dtype: &DType, text: &str) -> VortexResult<BoundExpression>
    requires { Fits (utf8 text.now) (type_of dtype.now) }
    ensures { ReturnsOrOom bound_of result (Ok (literal_node (type_of dtype.now) (utf8 text.now))) }
{
    let value = Value::Utf8(text.to_string(alloc)?);
    literal(alloc, Scalar::try_new(dtype.clone()?, value)?)
}
