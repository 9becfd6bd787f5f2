// Bound expressions as keys of maps.
ghost use Rattle.std.specs.Prelude.{◌≡◌, ℕ};
ghost use Rattle.std.specs.Cmp.{on_equiv, on_per, partial_equiv_from_equiv};
ghost use Rattle.std.specs.Hash as fed;
ghost use Rattle.vx_tree.specs.Digests.{digest_of, digests_of};
ghost use Rattle.vx_tree.specs.Equality.{equal_bound, equal_bound_equiv};
ghost use Rattle.vx_tree.specs.Nodes.{bound_children_of};
ghost use Rattle.vx_tree.specs.Views.{bound_of};

use crate::BoundExpression;
use crate::digest::{digest_of, digest_over};
use std::alloc::AllocError;
use std::hash::{Hash, Hasher};

/// A bound expression as the key of a map: two that were bound apart are one key where they are
/// equal, types included.
///
/// It keeps a digest of the tree, which is all that is hashed and the first that is compared. So a
/// look-up visits the nodes of a tree only where it finds an equal one.
#[derive(Debug, Drop)]
pub struct ExactBoundExpr {
    expr: BoundExpression,
    digest: u64,
    pub ghost kept: { digest ≡ digest_of (bound_of expr) },
}

impl ExactBoundExpr {
    ghost use Rattle.vx_tree.specs.Exact.{keyed};

    /// The expression as a key. Visits each of its nodes once.
    pub fn new(expr: BoundExpression) -> ExactBoundExpr
        ensures { keyed result ≡ bound_of expr }
    {
        let digest = digest_of(&expr);
        ExactBoundExpr { expr, digest }
    }

    /// The expression as a key, from the digests of its children's keys. Visits the first node
    /// alone, in time linear in the number of its children.
    pub fn over(expr: BoundExpression, digests: &[u64]) -> ExactBoundExpr
        requires { digests.now ≡ digests_of (bound_children_of (bound_of expr)) }
        ensures { keyed result ≡ bound_of expr }
    {
        let digest = digest_over(&expr, digests);
        ExactBoundExpr { expr, digest }
    }

    /// The expression.
    pub fn expr(&self) -> &BoundExpression
        ensures { bound_of result.now ≡ keyed self.now }
    {
        &self.expr
    }

    /// The expression, given back.
    pub fn into_inner(self) -> BoundExpression
        ensures { bound_of result ≡ keyed self }
    {
        self.expr
    }

    /// The number that is hashed: equal keys have the same.
    pub fn digest(&self) -> u64
        ensures { result ≡ digest_of (keyed self.now) }
    {
        self.digest
    }
}

impl Clone for ExactBoundExpr {
    ghost is_clone = { λ k copy. bound_of copy.expr ≡ bound_of k.expr };

    fn clone(&self) -> Result<ExactBoundExpr, AllocError> {
        Ok(ExactBoundExpr {
            expr: self.expr.clone()?,
            digest: self.digest,
        })
    }
}

impl PartialEq for ExactBoundExpr {
    ghost eq = { λ j k. equal_bound (bound_of j.expr) (bound_of k.expr) };

    ghost laws = { on_per (λ k. bound_of k.expr) (partial_equiv_from_equiv equal_bound_equiv) };

    fn eq(&self, other: &ExactBoundExpr) -> bool {
        self.digest == other.digest && self.expr == other.expr
    }
}

impl Eq for ExactBoundExpr {
    ghost laws = { on_equiv (λ k. bound_of k.expr) equal_bound_equiv };
}

impl Hash for ExactBoundExpr {
    ghost use Rattle.vx_tree.specs.Exact.{equal_keys_alike};

    ghost hash_input = { λ k. fed.u64 k.digest };

    ghost respects_eq = { equal_keys_alike };

    fn hash<H: Hasher>(&self, state: &mut H) {
        state.write_u64(self.digest);
    }
}
