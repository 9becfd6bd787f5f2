// Laws of folding, as functions without a body.
ghost use Rattle.vx_rewrite_rule_laws.specs.FoldingLaws.{FoldsKeep, FoldingRulesKeep, FoldingRulesLighten, FoldingRulesStayNormal, FoldingRulesAreModest, FoldingRulesAreFunctional, FoldingNormalIsNormal, FoldingNormalFormIsOne};

/// What folding gives, also where a branch rule fits, keeps the tree at which it is given.
pub fn folds_keep()
    ensures { FoldsKeep }
{}

/// What a rule gives keeps the tree at which it is given: it is well typed, over the same scopes, of
/// a type that is no wider, and where the tree doesn't fault it doesn't either and means the same.
pub fn folding_rules_keep()
    ensures { FoldingRulesKeep }
{}

/// What a rule gives is lighter than the tree at which it is given.
pub fn folding_rules_lighten()
    ensures { FoldingRulesLighten }
{}

/// A rule makes nothing below the root that a rule fits.
pub fn folding_rules_stay_normal()
    ensures { FoldingRulesStayNormal }
{}

/// Each child of what a rule gives stood below the root of the tree at which it is given, or is a
/// literal, and no rule fits a literal.
pub fn folding_rules_are_modest()
    ensures { FoldingRulesAreModest }
{}

/// At most one tree is given at a node.
pub fn folding_rules_are_functional()
    ensures { FoldingRulesAreFunctional }
{}

/// A tree at no node of which one of these rules fits is one at no node of which a branch rule does,
/// nor a standard rule.
pub fn folding_normal_is_normal()
    ensures { FoldingNormalIsNormal }
{}

/// A tree that is normal below its root has one normal form: whatever steps are taken until no rule
/// fits, they end alike.
pub fn folding_normal_form_is_one()
    ensures { FoldingNormalFormIsOne }
{}
