// Laws of the rules, as functions without a body.
ghost use Rattle.vx_rewrite_rule_laws.specs.StandardLaws.{RulesKeep, RulesLighten, RulesStayNormal, RulesAreModest, RulesAreFunctional, RulesAreDecided};

/// What a rule gives keeps the tree at which it is given: it is well typed, over the same scopes, of
/// a type that is no wider, and where the tree doesn't fault it doesn't either and means the same.
pub fn rules_keep()
    ensures { RulesKeep }
{}

/// What a rule gives is lighter than the tree at which it is given.
pub fn rules_lighten()
    ensures { RulesLighten }
{}

/// A rule makes nothing below the root that a rule fits.
pub fn rules_stay_normal()
    ensures { RulesStayNormal }
{}

/// Each child of what a rule gives stood below the root of the tree at which it is given, or is a
/// literal, and no rule fits a literal.
pub fn rules_are_modest()
    ensures { RulesAreModest }
{}

/// At most one tree is given at a node.
pub fn rules_are_functional()
    ensures { RulesAreFunctional }
{}

/// At a well-typed tree the rules give just what their table as a function says.
pub fn rules_are_decided()
    ensures { RulesAreDecided }
{}
