// What is pushed to an engine of a tree, and what is left of it.
ghost use Rattle.std.specs.Prelude.{◌≡◌, ◌++◌, IsFalse, IfOk, OnOk, Some, map, option_map, string_bytes};
ghost use Rattle.vx_value.specs.Views.{type_of};
ghost use Rattle.vx_fn.specs.Functions.{is_truth};
ghost use Rattle.vx_tree.specs.Views.{bound_of};
ghost use Rattle.vx_rewrite_fusing.specs.Conjuncts.{is_and, tree_in};
ghost use Rattle.vx_sql.specs.SqlTexts.{sql};
ghost use Rattle.vx_sql_plan.specs.Pushdown.{pushed, residual};

use std::alloc::{AllocError, Global};
use vx_rewrite_fusing::{as_and, conjoined};
use vx_sql::{Dialect, Unsupported, to_sql};
use vx_tree::{BoundExpression, DType};

/// What is pushed to an engine of a tree, and what is left.
#[derive(Drop)]
pub struct Pushdown {
    /// The SQL texts of the conjuncts that the engine takes, in the tree's order.
    pub pushed: Vec<String>,
    /// The tree without them, none where it takes all.
    pub residual: Option<Box<BoundExpression>>,
}

/// The conjuncts of the tree that the engine takes, those truth values that have an SQL text, and what is
/// left of the tree. A tree that is no truth value is left as it is. Fails for want of memory alone.
pub fn push_down(
    alloc: Global,
    tree: &BoundExpression,
    dialect: Dialect,
) -> Result<Pushdown, AllocError>
    ensures pushed { IfOk result (λ p. map string_bytes p.pushed.items ≡ map (sql dialect) (pushed dialect (bound_of tree.now))) }
    ensures residual { IfOk result (λ p. option_map tree_in p.residual ≡ residual dialect (bound_of tree.now)) }
{
    let mut pushed = Vec::new(alloc);
    let residual = left_of(alloc, tree, dialect, &mut pushed)?;
    Ok(Pushdown { pushed, residual })
}

// What is left of the tree. The texts of the conjuncts that the engine takes are put behind the others.
fn left_of(
    alloc: Global,
    tree: &BoundExpression,
    dialect: Dialect,
    texts: &mut Vec<String>,
) -> Result<Option<Box<BoundExpression>>, AllocError>
    ensures texts { OnOk result (map string_bytes texts.new.items ≡ map string_bytes texts.old.items ++ map (sql dialect) (pushed dialect (bound_of tree.now))) }
    ensures left { IfOk result (λ left. option_map tree_in left ≡ residual dialect (bound_of tree.now)) }
{
    let Some((l, r)) = as_and(tree) else {
        return left_alone(alloc, tree, dialect, texts);
    };
    let left = left_of(alloc, l, dialect, texts)?;
    let right = left_of(alloc, r, dialect, texts)?;
    match conjoined(alloc, left, right) {
        Ok(left) => Ok(left),
        Err(_) => Err(AllocError),
    }
}

// The same of a tree that is no And.
fn left_alone(
    alloc: Global,
    tree: &BoundExpression,
    dialect: Dialect,
    texts: &mut Vec<String>,
) -> Result<Option<Box<BoundExpression>>, AllocError>
    requires { IsFalse (is_and (bound_of tree.now)) }
    ensures texts { OnOk result (map string_bytes texts.new.items ≡ map string_bytes texts.old.items ++ map (sql dialect) (pushed dialect (bound_of tree.now))) }
    ensures left { IfOk result (λ left. option_map tree_in left ≡ residual dialect (bound_of tree.now)) }
{
    if !is_truth(tree.dtype()) {
        return whole(alloc, tree);
    }
    match to_sql(alloc, tree, dialect) {
        Ok(text) => {
            texts.push(text)?;
            Ok(None)
        }
        Err(Unsupported::Node { .. }) => whole(alloc, tree),
        Err(Unsupported::OutOfMemory) => Err(AllocError),
    }
}

// The tree as it is.
fn whole(alloc: Global, tree: &BoundExpression) -> Result<Option<Box<BoundExpression>>, AllocError>
    ensures { IfOk result (λ left. option_map tree_in left ≡ Some (bound_of tree.now)) }
{
    Ok(Some(Box::new(alloc, tree.clone()?)?))
}

fn is_truth(dtype: &DType) -> bool
    ensures { result ≡ is_truth (type_of dtype.now) }
{
    matches!(dtype, DType::Bool(_))
}
