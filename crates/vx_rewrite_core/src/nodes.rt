// What rules look at in a node, and the nodes that they make.
ghost use Rattle.std.specs.Prelude.{◌≡◌, Ok, IfOk, IsTrue, map};
ghost use Rattle.std.specs.Option.{option_map};
ghost use Rattle.vx_value.specs.Returns.{ReturnsOrOom};
ghost use Rattle.vx_value.specs.Types.{is_nullable, null};
ghost use Rattle.vx_value.specs.Views.{type_of};
ghost use Rattle.vx_rewrite_core.specs.Nodes.{as_type, first_two, literal_node, literal_value, only_one, three_of, two_of};
ghost use Rattle.vx_tree.specs.Views.{bound_of, bounds_of};

use std::alloc::{AllocError, Global};
use vx_dtype::DType;
use vx_fn::ScalarFnRef;
use vx_tree::{BoundExpression, VortexResult};
use vx_value::Scalar;

/// The value of a literal, with its type; None for any other tree.
pub fn literal_value(node: &BoundExpression) -> Option<&Scalar>
    ensures { option_map (λ s. s.now.value) result ≡ literal_value (bound_of node.now) }
{
    match node.as_scalar() {
        Some(ScalarFnRef::Literal(scalar)) => Some(scalar),
        _ => None,
    }
}

/// The only one of the trees; None where there are none or more.
pub fn only(trees: &[BoundExpression]) -> Option<&BoundExpression>
    ensures { option_map (λ b. bound_of b.now) result ≡ only_one (bounds_of trees.now) }
{
    if trees.len() != 1 {
        return None;
    }
    Some(&trees[0])
}

/// The two trees; None where there are fewer or more.
pub fn pair(trees: &[BoundExpression]) -> Option<(&BoundExpression, &BoundExpression)>
    ensures { option_map (λ p. (bound_of p.0.now, bound_of p.1.now)) result ≡ two_of (bounds_of trees.now) }
{
    if trees.len() != 2 {
        return None;
    }
    Some((&trees[0], &trees[1]))
}

/// The three trees; None where there are fewer or more.
pub fn triple(
    trees: &[BoundExpression],
) -> Option<(&BoundExpression, &BoundExpression, &BoundExpression)>
    ensures { option_map (λ p. (bound_of p.0.now, bound_of p.1.now, bound_of p.2.now)) result ≡ three_of (bounds_of trees.now) }
{
    if trees.len() != 3 {
        return None;
    }
    Some((&trees[0], &trees[1], &trees[2]))
}

/// The first two of the trees, and the rest; None where there are fewer. Of the children of a CASE:
/// its first pair, and what is behind it.
pub fn first_two(
    trees: &[BoundExpression],
) -> Option<(&BoundExpression, &BoundExpression, &[BoundExpression])>
    ensures { option_map (λ p. (bound_of p.0.now, bound_of p.1.now, bounds_of p.2.now)) result ≡ first_two (bounds_of trees.now) }
{
    if trees.len() < 2 {
        return None;
    }
    Some((&trees[0], &trees[1], &trees[2..]))
}

/// The tree as one of the type: itself, or a cast of it where its type is another.
///
/// Refuses with `OutOfMemory` (1) alone.
pub fn as_type(
    alloc: Global,
    dtype: &DType,
    tree: &BoundExpression,
) -> VortexResult<BoundExpression>
    ensures { ReturnsOrOom bound_of result (Ok (as_type (type_of dtype.now) (bound_of tree.now))) }
{
    if tree.dtype() == dtype {
        return Ok(tree.clone()?);
    }
    let children = vec![in alloc; tree.clone()?]?;
    BoundExpression::new_typed(
        alloc,
        dtype.clone()?,
        ScalarFnRef::Cast(dtype.clone()?),
        children,
    )
}

/// The null of the type, as a literal. Asks a nullable type.
///
/// Refuses with `OutOfMemory` (1) alone.
pub fn null_of(alloc: Global, dtype: &DType) -> VortexResult<BoundExpression>
    requires { IsTrue (is_nullable (type_of dtype.now)) }
    ensures { ReturnsOrOom bound_of result (Ok (literal_node (type_of dtype.now) null)) }
{
    BoundExpression::new_typed(
        alloc,
        dtype.clone()?,
        ScalarFnRef::Literal(Scalar::null(dtype.clone()?)),
        Vec::new(alloc),
    )
}

/// The same trees, in a list of their own: the children of each are shared with it, not copied.
pub fn copies(alloc: Global, trees: &[BoundExpression]) -> Result<Vec<BoundExpression>, AllocError>
    ensures { IfOk result (λ v. map bound_of v.items ≡ map bound_of trees.now) }
{
    let mut copied = Vec::with_capacity(alloc, trees.len())?;
    for b in trees {
        copied.push(b.clone()?)?;
    }
    Ok(copied)
}
