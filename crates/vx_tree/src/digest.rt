// The digest of a bound tree, which equal trees share.
ghost use Rattle.std.specs.Prelude.{◌≡◌, ℕ, fold};
ghost use Rattle.vx_fn.specs.Views.{function_of};
ghost use Rattle.vx_tree.specs.Digests.{begun, digest_of, digest_over, digests_of, with_digest};
ghost use Rattle.vx_tree.specs.Nodes.{bound_children_of};
ghost use Rattle.vx_tree.specs.Views.{bound_of, bounds_of};

use crate::BoundExpression;
use std::hash::{FoldHasher, Hash, Hasher};
use vx_fn::ScalarFnRef;

const ROOT: u64 = 0;

// The digest of the tree; each node is visited once.
pub(crate) fn digest_of(b: &BoundExpression) -> u64
    ensures { result ≡ digest_of (bound_of b.now) }
{
    match b {
        BoundExpression::Root { .. } => ROOT,
        BoundExpression::Scalar {
            scalar_fn,
            children,
            ..
        } => {
            let mut hasher = begun(scalar_fn);
            for child in children.as_slice() {
                add(&mut hasher, digest_of(child));
            }
            hasher.finish()
        }
    }
}

// The digest of the node, whose children have those digests. Only the node itself is visited.
pub(crate) fn digest_over(b: &BoundExpression, digests: &[u64]) -> u64
    requires { digests.now ≡ digests_of (bound_children_of (bound_of b.now)) }
    ensures { result ≡ digest_of (bound_of b.now) }
{
    match b {
        BoundExpression::Root { .. } => ROOT,
        BoundExpression::Scalar { scalar_fn, .. } => {
            let mut hasher = begun(scalar_fn);
            for digest in digests {
                add(&mut hasher, *digest);
            }
            hasher.finish()
        }
    }
}

// A hasher that the function is fed to.
fn begun(scalar_fn: &ScalarFnRef) -> FoldHasher
    ensures { result ≡ begun (function_of scalar_fn.now) }
{
    let mut hasher = FoldHasher::default();
    scalar_fn.hash(&mut hasher);
    hasher
}

// Feeds a child's digest to the hasher.
fn add(hasher: &mut FoldHasher, digest: u64)
    ensures { hasher.new ≡ with_digest hasher.old digest }
{
    hasher.write_u64(digest);
}
