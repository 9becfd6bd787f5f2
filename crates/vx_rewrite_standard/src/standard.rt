// The standard rules: which functions have one, each in a function of its own.
ghost use Rattle.std.specs.Prelude.{◌≡◌, IsFalse, None, Ok};
ghost use Rattle.std.specs.Option.{option_map};
ghost use Rattle.vx_value.specs.Returns.{ReturnsOrOom};
ghost use Rattle.vx_rewrite_rule_laws.specs.StandardGiven.{given_at, fill_given, is_pack};
ghost use Rattle.vx_tree.specs.Views.{bound_of};

use crate::cases::coalesce;
use crate::packs::{item_of_pack, selection};
use crate::zips::zip_by_literal;
use std::alloc::Global;
use vx_fn::ScalarFnRef;
use vx_rewrite_core::{Rule, only, pair, triple};
use vx_tree::{BoundExpression, VortexResult};

/// The standard rules, at most one of which fits a node:
///
/// | At | Where | Gives |
/// |---|---|---|
/// | `FillNull` | the input's type isn't nullable | the input |
/// | `CaseWhen`, one pair and ELSE | `is_null(x)`, THEN a literal `c`, ELSE `x`; or `is_not_null(x)`, THEN `x`, ELSE a literal `c`; `c` is null | `x` |
/// | `CaseWhen`, one pair and ELSE | one of the same two shapes, but `c` isn't null and `FillNull` supports the type of `x` | `fill_null(x, c)` |
/// | `GetItem` of a `Pack` | the pack isn't nullable | the first field of that name |
/// | `GetItem` of a `Pack` | the pack is nullable | `mask(field, true)` |
/// | `Zip` | the mask is a literal that isn't null | the chosen branch, cast to the node's type where its own is another |
/// | `Select` | nothing is included, and the child isn't nullable or is a `Pack` | an empty `Pack` of the child's nullability |
/// | `Select` of a `Pack` | something is included, and the pack isn't nullable or the type of every included field is | the `Pack` of the included names, each with its first child, of the same nullability |
///
/// Where `x` stands twice, both are equal trees, types included.
pub struct StandardRules;

impl Rule for StandardRules {
    ghost use Rattle.vx_rewrite_rule_laws.specs.Rules.{RuleAt};
    ghost use Rattle.vx_rewrite_rule_laws.proofs.StandardLawfulness.{rules_lawful};

    ghost gives = { λ _. RuleAt };

    ghost lawful = { λ _. rules_lawful };

    fn may_fit(&self, node: &BoundExpression) -> bool {
        may_give(node)
    }

    fn apply_at(
        &self,
        alloc: Global,
        node: &BoundExpression,
    ) -> VortexResult<Option<BoundExpression>> {
        given_at(alloc, node)
    }
}

// Whether something may be given at the node: by its function, and of an item by its child's.
fn may_give(node: &BoundExpression) -> bool
    ensures { IsFalse result → given_at (bound_of node.now) ≡ None }
{
    let BoundExpression::Scalar {
        scalar_fn,
        children,
        ..
    } = node
    else {
        return false;
    };
    match scalar_fn {
        ScalarFnRef::FillNull(_)
        | ScalarFnRef::CaseWhen(_)
        | ScalarFnRef::Zip(_)
        | ScalarFnRef::Select(_) => true,
        ScalarFnRef::GetItem(_) => match only(children.as_slice()) {
            Some(input) => is_pack(input),
            None => false,
        },
        _ => false,
    }
}

// Whether the tree is a pack.
fn is_pack(tree: &BoundExpression) -> bool
    ensures { result ≡ is_pack (bound_of tree.now) }
{
    matches!(
        tree,
        BoundExpression::Scalar {
            scalar_fn: ScalarFnRef::Pack(_),
            ..
        }
    )
}

fn given_at(alloc: Global, node: &BoundExpression) -> VortexResult<Option<BoundExpression>>
    ensures { ReturnsOrOom (option_map bound_of) result (Ok (given_at (bound_of node.now))) }
{
    let BoundExpression::Scalar {
        dtype,
        scalar_fn,
        children,
    } = node
    else {
        return Ok(None);
    };
    let children = children.as_slice();
    match scalar_fn {
        ScalarFnRef::FillNull(_) => match pair(children) {
            Some((input, _)) => fill_of_not_null(input),
            None => Ok(None),
        },
        ScalarFnRef::CaseWhen(options) => match triple(children) {
            Some((when, then, otherwise)) => coalesce(alloc, *options, when, then, otherwise),
            None => Ok(None),
        },
        ScalarFnRef::GetItem(name) => match only(children) {
            Some(input) => item_of_pack(alloc, name, input),
            None => Ok(None),
        },
        ScalarFnRef::Zip(_) => match triple(children) {
            Some((if_true, if_false, mask)) => zip_by_literal(
                alloc, dtype, if_true, if_false, mask,
            ),
            None => Ok(None),
        },
        ScalarFnRef::Select(names) => match only(children) {
            Some(child) => selection(alloc, dtype, names, child),
            None => Ok(None),
        },
        _ => Ok(None),
    }
}

// A fill of what is never null is its input.
#[inline(never)]
fn fill_of_not_null(input: &BoundExpression) -> VortexResult<Option<BoundExpression>>
    ensures { ReturnsOrOom (option_map bound_of) result (Ok (fill_given (bound_of input.now))) }
{
    if input.dtype().is_nullable() {
        return Ok(None);
    }
    Ok(Some(input.clone()?))
}
