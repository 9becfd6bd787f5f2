// Laws of what is pushed and what is left, as functions without a body.
ghost use Rattle.vx_sql_plan.specs.Laws.{OthersAreLeft, SelectsAlike, MeansAlike, NoOtherFault, StaysTyped, StaysOver};

/// What is left of a tree are the conjuncts that aren't pushed, in their order.
pub fn others_are_left()
    ensures { OthersAreLeft }
{}

/// The pushed conjuncts and what is left, joined by And, mean the tree: they select the rows that it
/// selects, and where it is a truth value or null they are that.
pub fn pushdown_keeps_the_meaning()
    ensures selects { SelectsAlike }
    ensures means { MeansAlike }
{}

/// Where the tree doesn't fault on a batch, no pushed conjunct does, nor what is left.
pub fn no_other_fault()
    ensures { NoOtherFault }
{}

/// What is left of a well-typed tree is well typed, over the same scope.
pub fn pushdown_keeps_types()
    ensures typed { StaysTyped }
    ensures over { StaysOver }
{}
