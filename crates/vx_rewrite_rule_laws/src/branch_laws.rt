// Laws of the rules, as functions without a body.
ghost use Rattle.vx_rewrite_rule_laws.specs.BranchLaws.{BranchRulesKeep, BranchRulesLighten, BranchRulesStayNormal, BranchRulesAreModest, BranchRulesAreFunctional, BranchesAreDecided, BranchNormalIsNormal, BranchNormalFormIsOne};

/// What a rule gives keeps the tree at which it is given: it is well typed, over the same scopes, of
/// a type that is no wider, and where the tree doesn't fault it doesn't either and means the same.
pub fn branch_rules_keep()
    ensures { BranchRulesKeep }
{}

/// What a rule gives is lighter than the tree at which it is given.
pub fn branch_rules_lighten()
    ensures { BranchRulesLighten }
{}

/// A rule makes nothing below the root that a rule fits.
pub fn branch_rules_stay_normal()
    ensures { BranchRulesStayNormal }
{}

/// Each child of what a rule gives stood below the root of the tree at which it is given, or is a
/// literal, and no rule fits a literal.
pub fn branch_rules_are_modest()
    ensures { BranchRulesAreModest }
{}

/// At most one tree is given at a node.
pub fn branch_rules_are_functional()
    ensures { BranchRulesAreFunctional }
{}

/// At a well-typed tree the rules of a CASE by its first condition give just what their table as a
/// function says.
pub fn branches_are_decided()
    ensures { BranchesAreDecided }
{}

/// A tree at no node of which one of these rules fits is one at no node of which a standard rule
/// does.
pub fn branch_normal_is_normal()
    ensures { BranchNormalIsNormal }
{}

/// A tree that is normal below its root has one normal form: whatever steps are taken until no rule
/// fits, they end alike.
pub fn branch_normal_form_is_one()
    ensures { BranchNormalFormIsOne }
{}
