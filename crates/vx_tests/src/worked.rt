// A worked tree and its scope.
ghost use Rattle.std.specs.Prelude.{IfOk};
ghost use Rattle.vx_tree.specs.Trees.{WellTyped};
ghost use Rattle.vx_tree.specs.Views.{bound_of};

use std::alloc::Global;
use std::test::Fail;
use vx_test_support::{bound, dtype};
use vx_tree::BoundExpression;

/// Two conditions, of a field each.
pub const CONDITIONS: &str = "a.x >= 1 and b < 5";

const SCOPE: &str = "{a={x=i32,y=i32},b=i32,c=i32}";

/// The tree of the text over that scope.
pub fn tree(alloc: Global, text: &str) -> Result<BoundExpression, Fail>
    ensures { IfOk result (λ b. WellTyped (bound_of b)) }
{
    Ok(bound(alloc, text, &dtype(alloc, SCOPE)?)?)
}
