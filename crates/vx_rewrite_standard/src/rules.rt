// The standard rules, and those of a CASE by its first condition.
use crate::branches::{branch_given, may_give};
use crate::standard::StandardRules;
use std::alloc::Global;
use vx_rewrite_core::Rule;
use vx_tree::{BoundExpression, VortexResult};

/// The [`StandardRules`], and four rules of a `CaseWhen` whose first condition is a literal:
///
/// | First condition | Where | Gives |
/// |---|---|---|
/// | `true` | always | the first THEN, cast to the node's type where its own is another |
/// | `false` or null | at least two pairs | the `CaseWhen` of the other pairs with the same ELSE; its own type, which may be narrower |
/// | `false` or null | one pair and ELSE | ELSE, cast to the node's type where its own is another |
/// | `false` or null | one pair, no ELSE | the null literal of the node's type |
///
/// At most one of all these rules fits a node. Nothing is allocated where none does.
pub struct BranchRules;

impl Rule for BranchRules {
    ghost use Rattle.vx_rewrite_rule_laws.specs.Branches.{BranchRuleAt};
    ghost use Rattle.vx_rewrite_rule_laws.proofs.BranchLawfulness.{branch_rules_lawful};

    ghost gives = { λ _. BranchRuleAt };

    ghost lawful = { λ _. branch_rules_lawful };

    fn may_fit(&self, node: &BoundExpression) -> bool {
        StandardRules.may_fit(node) || may_give(node)
    }

    fn apply_at(
        &self,
        alloc: Global,
        node: &BoundExpression,
    ) -> VortexResult<Option<BoundExpression>> {
        match StandardRules.apply_at(alloc, node)? {
            Some(given) => Ok(Some(given)),
            None => branch_given(alloc, node),
        }
    }
}
