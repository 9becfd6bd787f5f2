// A CASE without the pairs that never choose.
ghost use Rattle.std.specs.Prelude.{◌≡◌, ◌≤◌, ◌-◌, Bool, IfOk, IsFalse, IsOk, None, Ok, Some, map, nat_lt, ℕ};
ghost use Rattle.std.specs.Option.{option_map};
ghost use Rattle.std.specs.Result.{result_ok};
ghost use Rattle.vx_value.specs.Returns.{ReturnsOrOom};
ghost use Rattle.vx_value.specs.Types.{LogicalType};
ghost use Rattle.vx_fn.specs.Functions.{case_when};
ghost use Rattle.vx_rewrite_folding.specs.Behind.{behind_all};
ghost use Rattle.vx_rewrite_rule_laws.specs.Folding.{case_given, idle_pairs, is_idle, known_given, without_idle};
ghost use Rattle.vx_tree.specs.Binding.{node_over};
ghost use Rattle.vx_tree.specs.Trees.{bound, node, WellTyped};
ghost use Rattle.vx_tree.specs.Views.{bound_of, bounds_of};

use std::alloc::{AllocError, Global};
use vx_fn::{CaseWhenOptions, ScalarFnRef};
use vx_rewrite_core::{first_two, literal_value};
use vx_tree::{BoundExpression, VortexResult};
use vx_value::Value;

// Whether a CASE over the children has an idle pair behind the first.
pub(crate) fn has_idle_pair(children: &[BoundExpression]) -> bool
    ensures { IsFalse result → (t : LogicalType) (pairs : ℕ) (has_else : Bool) → known_given (node t (case_when pairs has_else) (bounds_of children.now)) ≡ None }
{
    match first_two(children) {
        Some((_, _, rest)) => is_one_idle(rest),
        None => false,
    }
}

// Whether one of the pairs is idle.
fn is_one_idle(trees: &[BoundExpression]) -> bool
    ensures { result ≡ nat_lt 0 (idle_pairs (bounds_of trees.now)) }
{
    let mut rest = trees;
    while let [condition, _, behind @ ..] = rest {
        if is_idle(condition) {
            return true;
        }
        rest = behind;
    }
    false
}

// What is given at a CASE of a first pair and the rest: the same without those pairs of the rest whose
// condition never holds, if there are any. Its type is its own, which may be narrower.
pub(crate) fn case_given(
    alloc: Global,
    options: CaseWhenOptions,
    condition: &BoundExpression,
    then: &BoundExpression,
    rest: &[BoundExpression],
) -> VortexResult<Option<BoundExpression>>
    requires { (t : LogicalType) × WellTyped (node t (case_when options.num_when_then_pairs options.has_else) (bound (bound_of condition.now) (bound (bound_of then.now) (bounds_of rest.now)))) }
    ensures { ReturnsOrOom (option_map bound_of) result (Ok (case_given options.num_when_then_pairs options.has_else (bound_of condition.now) (bound_of then.now) (bounds_of rest.now))) }
{
    let left = pairs_left(options.num_when_then_pairs, rest);
    if left == options.num_when_then_pairs {
        return Ok(None);
    }
    let options = CaseWhenOptions {
        num_when_then_pairs: left,
        has_else: options.has_else,
    };
    let children = without_idle(vec![in alloc; condition.clone()?, then.clone()?]?, rest)?;
    Ok(Some(case_over(alloc, options, children)?))
}

// The CASE over the children. Asks children over which it has a type.
fn case_over(
    alloc: Global,
    options: CaseWhenOptions,
    children: Vec<BoundExpression>,
) -> VortexResult<BoundExpression>
    requires { IsOk (node_over (case_when options.num_when_then_pairs options.has_else) (bounds_of children.items)) }
    ensures { ReturnsOrOom (λ b. Some (bound_of b)) result (Ok (result_ok (node_over (case_when options.num_when_then_pairs options.has_else) (bounds_of children.items)))) }
{
    BoundExpression::try_new(alloc, ScalarFnRef::CaseWhen(options), children)
}

// How many of so many pairs are left without those of the trees whose condition never holds.
fn pairs_left(pairs: u32, trees: &[BoundExpression]) -> u32
    requires { idle_pairs (bounds_of trees.now) ≤ pairs }
    ensures { result ≡ pairs - idle_pairs (bounds_of trees.now) }
{
    let mut left = pairs;
    let mut rest = trees;
    while let [condition, _, behind @ ..] = rest {
        if is_idle(condition) {
            left -= 1;
        }
        rest = behind;
    }
    left
}

// The first trees, and behind them the pairs whose condition may hold, and ELSE.
fn without_idle(
    first: Vec<BoundExpression>,
    trees: &[BoundExpression],
) -> Result<Vec<BoundExpression>, AllocError>
    ensures { IfOk result (λ v. bounds_of v.items ≡ behind_all (map bound_of first.items) (without_idle (bounds_of trees.now))) }
{
    let mut kept = first;
    let mut rest = trees;
    while let [condition, then, behind @ ..] = rest {
        if !is_idle(condition) {
            kept.push(condition.clone()?)?;
            kept.push(then.clone()?)?;
        }
        rest = behind;
    }
    if let [otherwise, ..] = rest {
        kept.push(otherwise.clone()?)?;
    }
    Ok(kept)
}

// Whether the condition is the literal false or null, which never holds.
fn is_idle(condition: &BoundExpression) -> bool
    ensures { result ≡ is_idle (bound_of condition.now) }
{
    match literal_value(condition) {
        Some(scalar) => !matches!(scalar.value(), Value::Bool(true)),
        None => false,
    }
}
