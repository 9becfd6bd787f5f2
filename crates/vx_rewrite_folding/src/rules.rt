// The branch rules, and where none of them fits, folding.
use crate::given::{fold_given, may_give};
use std::alloc::Global;
use vx_rewrite_core::Rule;
use vx_rewrite_standard::BranchRules;
use vx_tree::{BoundExpression, VortexResult};

/// The [`BranchRules`], and where none of them fits a node, folding: what is known of the node before
/// any row is read.
///
/// | At | Where | Gives |
/// |---|---|---|
/// | any function but `Literal`, `GetItem`, `Pack`, `Select`, `CaseWhen` and `Zip` | all children are literals, and it doesn't fault over them | the literal of its value and type |
/// | `And` | a side is the literal `true`, or both are equal | the other side |
/// | `And` | a side is the literal `false` | `false` |
/// | `Or` | a side is the literal `false`, or both are equal | the other side |
/// | `Or` | a side is the literal `true` | `true` |
/// | `Add` | an operand is the whole number or decimal 0 | the other operand |
/// | `Sub` | the right operand is the whole number or decimal 0 | the left operand |
/// | `Mul` | an operand is the whole number 1 | the other operand |
/// | `Div` | the right operand is the whole number 1 | the left operand |
/// | a comparison, `ListContains` | an operand is a null literal | the null literal of the node's type |
/// | `ListContains` | the list is a literal without elements, and the value's type isn't nullable | `false` |
/// | `Between` | the value is a null literal, or both bounds are | the null literal of the node's type |
/// | `Not` of a `Not` | always | what that negates |
/// | `Not` of an `IsNull` or `IsNotNull` | always | the other of the two, of the same child |
/// | `Cast` | the child is of the node's type | the child |
/// | `Mask` | the mask is the literal `true` | the input |
/// | `Like`, neither negated nor blind to case | the pattern is a literal: a text without `%`, `_` and backslash, and a `%` behind it | `StartsWith` of that text |
/// | `IsNull` | the child's type isn't nullable | `false` |
/// | `IsNotNull` | the child's type isn't nullable | `true` |
/// | `CaseWhen` | the condition of a pair behind the first is the literal `false` or null | the `CaseWhen` without all such pairs; its own type, which may be narrower |
///
/// The first of these that fits is taken; `true` and `false` are given of the type without null. Equal
/// sides are equal trees, types included. A null beside `And` or `Or`, and one null bound of a
/// `Between`, are left alone, since the other operand may decide.
///
/// What a node doesn't evaluate any more can't fault any more. Nothing is allocated where nothing fits,
/// but at a node over literals that faults.
pub struct FoldingRules;

impl Rule for FoldingRules {
    ghost use Rattle.vx_rewrite_rule_laws.specs.Folding.{FoldingRuleAt};
    ghost use Rattle.vx_rewrite_rule_laws.proofs.FoldingLawfulness.{folding_lawful};

    ghost gives = { λ _. FoldingRuleAt };

    ghost lawful = { λ _. folding_lawful };

    fn may_fit(&self, node: &BoundExpression) -> bool {
        BranchRules.may_fit(node) || may_give(node)
    }

    fn apply_at(
        &self,
        alloc: Global,
        node: &BoundExpression,
    ) -> VortexResult<Option<BoundExpression>> {
        match BranchRules.apply_at(alloc, node)? {
            Some(given) => Ok(Some(given)),
            None => fold_given(alloc, node),
        }
    }
}
