// The optimizer by rules of a test's own.
use crate::looks::refuses;
use crate::worked::tree;
use std::alloc::Global;
use std::test::Fail;
use vx_example_double_negation::DoubleNegation;
use vx_rewrite::{Rule, StandardRules, optimize_with};
use vx_test_support::reads;
use vx_tree::{BoundExpression, Literal, VortexError, VortexResult};

/// The standard rules, to which memory is refused at each literal.
struct Refused;

impl Rule for Refused {
    ghost use Rattle.vx_rewrite_rule_laws.specs.Rules.{RuleAt};
    ghost use Rattle.vx_rewrite_rule_laws.proofs.StandardLawfulness.{rules_lawful};

    ghost gives = { λ _. RuleAt };

    ghost lawful = { λ _. rules_lawful };

    fn apply_at(
        &self,
        alloc: Global,
        node: &BoundExpression,
    ) -> VortexResult<Option<BoundExpression>> {
        if node.is::<Literal>() {
            return Err(VortexError::OutOfMemory);
        }
        StandardRules.apply_at(alloc, node)
    }
}

#[test]
fn a_rule_of_our_own_is_applied(rt: HostRuntime) -> Result<(), Fail> {
    let alloc = rt.alloc();
    let e = tree(alloc, "not not not b < 5")?;
    let left = optimize_with(alloc, &DoubleNegation, &e).expect(&rt, "a tree");
    assert!(rt; matches!(&left, Some(left) if reads(left, "vortex.not(($.b < 5i32))")));
    let e = tree(alloc, "not b < 5")?;
    let left = optimize_with(alloc, &DoubleNegation, &e).expect(&rt, "a tree");
    assert!(rt; left.is_none());
    Ok(())
}

// At the second child, behind one that is changed.
#[test]
fn a_refusal_of_a_rule_is_passed_on(rt: HostRuntime) -> Result<(), Fail> {
    let alloc = rt.alloc();
    let e = tree(alloc, "pack(p: b).p < 5")?;
    refuses(&rt, optimize_with(alloc, &Refused, &e), "out of memory");
    assert!(rt; reads(&e, "(pack(p: $.b).p < 5i32)"));
    Ok(())
}
