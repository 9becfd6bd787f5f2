// `==` of trees: they are equal exactly where they stand for one and the same tree.
ghost use Rattle.std.specs.Prelude.{◌≡◌, ℕ};
ghost use Rattle.std.specs.Cmp.{on_equiv, on_per, partial_equiv_from_equiv};
ghost use Rattle.vx_tree.specs.Equality.{equal_tree, equal_trees, equal_tree_equiv, equal_bound, equal_bounds, equal_bound_equiv};
ghost use Rattle.vx_tree.specs.Views.{tree_of, trees_of, bound_of, bounds_of};

use crate::{BoundExpression, Expression};

impl PartialEq for Expression {
    ghost eq = { λ d e. equal_tree (tree_of d) (tree_of e) };

    ghost laws = { on_per tree_of (partial_equiv_from_equiv equal_tree_equiv) };

    fn eq(&self, other: &Expression) -> bool {
        equal(self, other)
    }
}

impl Eq for Expression {
    ghost laws = { on_equiv tree_of equal_tree_equiv };
}

#[cycle(equal)]
fn equal(d: &Expression, e: &Expression) -> bool
    ensures { result ≡ equal_tree (tree_of d.now) (tree_of e.now) }
{
    match (d, e) {
        (Expression::Root, Expression::Root) => true,
        (
            Expression::Scalar {
                scalar_fn: f,
                children: ds,
            },
            Expression::Scalar {
                scalar_fn: g,
                children: es,
            },
        ) => f == g && equal_all(ds.as_slice(), es.as_slice()),
        _ => false,
    }
}

#[cycle(equal)]
fn equal_all(ds: &[Expression], es: &[Expression]) -> bool
    ensures { result ≡ equal_trees (trees_of ds.now) (trees_of es.now) }
{
    if ds.len() != es.len() {
        return false;
    }
    for i in 0..ds.len() {
        if !equal(&ds[i], &es[i]) {
            return false;
        }
    }
    true
}

impl PartialEq for BoundExpression {
    ghost eq = { λ b c. equal_bound (bound_of b) (bound_of c) };

    ghost laws = { on_per bound_of (partial_equiv_from_equiv equal_bound_equiv) };

    fn eq(&self, other: &BoundExpression) -> bool {
        equal_bound(self, other)
    }
}

impl Eq for BoundExpression {
    ghost laws = { on_equiv bound_of equal_bound_equiv };
}

#[cycle(equal_bound)]
fn equal_bound(b: &BoundExpression, c: &BoundExpression) -> bool
    ensures { result ≡ equal_bound (bound_of b.now) (bound_of c.now) }
{
    match (b, c) {
        (BoundExpression::Root { dtype: t }, BoundExpression::Root { dtype: u }) => t == u,
        (
            BoundExpression::Scalar {
                dtype: t,
                scalar_fn: f,
                children: bs,
            },
            BoundExpression::Scalar {
                dtype: u,
                scalar_fn: g,
                children: cs,
            },
        ) => t == u && f == g && equal_bounds(bs.as_slice(), cs.as_slice()),
        _ => false,
    }
}

#[cycle(equal_bound)]
fn equal_bounds(bs: &[BoundExpression], cs: &[BoundExpression]) -> bool
    ensures { result ≡ equal_bounds (bounds_of bs.now) (bounds_of cs.now) }
{
    if bs.len() != cs.len() {
        return false;
    }
    for i in 0..bs.len() {
        if !equal_bound(&bs[i], &cs[i]) {
            return false;
        }
    }
    true
}
