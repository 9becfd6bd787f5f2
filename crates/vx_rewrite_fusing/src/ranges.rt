// Range comparisons: an item that a literal bounds from one side.
ghost use Rattle.std.specs.Prelude.{◌≡◌, ◌≢◌, IfErr, IfOk, Some, option_map};
ghost use Rattle.vx_dtype.specs.declared.error.VortexError.TheVariants.{OutOfMemory};
ghost use Rattle.vx_fn.specs.Views.{is_strict, operation_of};
ghost use Rattle.vx_tree.specs.Trees.{BoundTree};
ghost use Rattle.vx_tree.specs.Views.{bound_of};
ghost use Rattle.vx_rewrite_fusing.specs.Conjuncts.{between_node, range_of, Mergeable, MergeTo};
ghost use Rattle.vx_rewrite_fusing.specs.Finding.{Finds, range_by, range_seen};
ghost use Rattle.vx_rewrite_fusing.specs.Places.{opposite};

use crate::nodes::{as_binary, truth_node};
use std::alloc::Global;
use vx_tree::{
    BetweenOptions, BoundExpression, GetItem, Literal, Operator, ScalarFnRef, StrictComparison,
    VortexResult,
};

// The side from which a literal bounds an item.
#[derive(Clone, Copy, PartialEq)]
pub(crate) enum Side {
    Below,
    Above,
}

impl Side {
    // The other side.
    pub(crate) fn opposite(self) -> Side
        ensures { result ≡ opposite self }
    {
        match self {
            Side::Below => Side::Above,
            Side::Above => Side::Below,
        }
    }
}

// An item that is bounded from one side.
#[derive(Clone, Copy)]
pub(crate) struct RangeComparison<'a> {
    pub side: Side,
    pub strict: StrictComparison,
    pub item: &'a BoundExpression,
    pub bound: &'a BoundExpression,
}

// What the operator between an item and a literal says of the item.
fn range<'a>(
    op: Operator,
    item: &'a BoundExpression,
    bound: &'a BoundExpression,
) -> Option<RangeComparison<'a>>
    ensures { option_map range_seen result ≡ range_by (operation_of op) (bound_of item.now) (bound_of bound.now) }
{
    let (side, strict) = match op {
        Operator::Gt => (Side::Below, StrictComparison::Strict),
        Operator::Gte => (Side::Below, StrictComparison::NonStrict),
        Operator::Lt => (Side::Above, StrictComparison::Strict),
        Operator::Lte => (Side::Above, StrictComparison::NonStrict),
        Operator::Eq
        | Operator::NotEq
        | Operator::And
        | Operator::Or
        | Operator::Add
        | Operator::Sub
        | Operator::Mul
        | Operator::Div
        | Operator::Rem => return None,
    };
    Some(RangeComparison {
        side,
        strict,
        item,
        bound,
    })
}

// The range of a comparison between an item and a literal, on either side.
pub(crate) fn range_of(b: &BoundExpression) -> Option<RangeComparison<'_>>
    ensures { option_map range_seen result ≡ range_of (bound_of b.now) }
{
    let (op, x, y) = as_binary(b)?;
    if x.is::<GetItem>() && y.is::<Literal>() {
        return range(op, x, y);
    }
    if x.is::<Literal>() && y.is::<GetItem>() {
        return range(op.swap()?, y, x);
    }
    None
}

// The Between of two ranges of one item, which bound it from below and from above.
#[inline(never)]
fn between(
    alloc: Global,
    lower: RangeComparison<'_>,
    upper: RangeComparison<'_>,
) -> VortexResult<Box<BoundExpression>>
    ensures node { IfOk result (λ b. bound_of b.value ≡ between_node (is_strict lower.entry.strict) (is_strict upper.entry.strict) (bound_of lower.entry.item.now) (bound_of lower.entry.bound.now) (bound_of upper.entry.bound.now)) }
    ensures memory { IfErr result (λ e. e ≡ OutOfMemory) }
{
    let item = lower.item;
    let nullable = item.dtype().is_nullable()
        || lower.bound.dtype().is_nullable()
        || upper.bound.dtype().is_nullable();
    let options = BetweenOptions {
        lower_strict: lower.strict,
        upper_strict: upper.strict,
    };
    let mut children = Vec::with_capacity(alloc, 3)?;
    children.push(item.clone()?)?;
    children.push(lower.bound.clone()?)?;
    children.push(upper.bound.clone()?)?;
    truth_node(alloc, ScalarFnRef::Between(options), nullable, children)
}

// The same, if the items are equal; to find out takes no memory. Items are compared by their names
// before their trees.
fn between_of_one_item(
    alloc: Global,
    lower: RangeComparison<'_>,
    upper: RangeComparison<'_>,
) -> VortexResult<Option<Box<BoundExpression>>>
    ensures { Finds (bound_of lower.entry.item.now ≢ bound_of upper.entry.item.now)
        (λ b. (bound_of lower.entry.item.now ≡ bound_of upper.entry.item.now)
        × (bound_of b.value ≡ between_node (is_strict lower.entry.strict) (is_strict upper.entry.strict) (bound_of lower.entry.item.now) (bound_of lower.entry.bound.now) (bound_of upper.entry.bound.now))) result }
{
    if lower.item == upper.item {
        return Ok(Some(between(alloc, lower, upper)?));
    }
    Ok(None)
}

// The Between of two ranges of one item, from opposite sides.
pub(crate) fn between_of(
    alloc: Global,
    c: RangeComparison<'_>,
    d: RangeComparison<'_>,
) -> VortexResult<Box<BoundExpression>>
    requires sides { c.side ≡ opposite d.side }
    requires item { bound_of c.item.now ≡ bound_of d.item.now }
    ensures merged { (x y : BoundTree) → range_of x ≡ Some (range_seen c.entry) → range_of y ≡ Some (range_seen d.entry) →
        IfOk result (λ m. MergeTo x y (bound_of m.value)) }
    ensures memory { IfErr result (λ e. e ≡ OutOfMemory) }
{
    match c.side {
        Side::Below => between(alloc, c, d),
        Side::Above => between(alloc, d, c),
    }
}

// The Between of two conjuncts with these ranges, None where they aren't mergeable, which is found
// by their sides first.
pub(crate) fn merged(
    alloc: Global,
    c: RangeComparison<'_>,
    d: RangeComparison<'_>,
) -> VortexResult<Option<Box<BoundExpression>>>
    ensures { (x y : BoundTree) → range_of x ≡ Some (range_seen c.entry) → range_of y ≡ Some (range_seen d.entry) →
        Finds (Mergeable x y → ⊥) (λ m. MergeTo x y (bound_of m.value)) result }
{
    match (c.side, d.side) {
        (Side::Below, Side::Above) => between_of_one_item(alloc, c, d),
        (Side::Above, Side::Below) => between_of_one_item(alloc, d, c),
        (Side::Below, Side::Below) | (Side::Above, Side::Above) => Ok(None),
    }
}
