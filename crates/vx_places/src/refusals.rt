// The first refusal of binding, and the node that it is of.
ghost use Rattle.std.specs.Prelude.{◌≡◌, ◌↔◌, ℕ, map, Ok, Err, IfOk, IfErr, IfSome, IsSome, IsErr, OnOk};
ghost use Rattle.vx_dtype.specs.declared.error.VortexError.TheVariants.{OutOfMemory};
ghost use Rattle.vx_value.specs.Views.{type_of};
ghost use Rattle.vx_tree.specs.Trees.{typed, each_typed};
ghost use Rattle.vx_tree.specs.Views.{tree_of, trees_of};
ghost use Rattle.vx_places.specs.Nodes.{node_at};
ghost use Rattle.vx_places.specs.Refusals.{IsFirstRefusal, IsFirstRefusalIn};
ghost use Rattle.vx_places.specs.Walked.{Adds, LeadsToNode, LeadsBelow};

use crate::place::{Place, placed};
use std::alloc::Global;
use vx_dtype::{DType, VortexResult};
use vx_tree::{Expression, push_type_over};

/// The place of the first refusal of binding the tree to that type, None exactly where
/// [`Expression::bind`] gives a bound tree. Its cost is linear in the nodes, and no bound tree is
/// built.
///
/// The first refusal is the children's from left to right, then the node's. So the node at the place
/// refuses over children that all have a type, and each child to the left of the way down to it has
/// one. Refuses with `OutOfMemory` (1) alone.
pub fn first_refusal_at(alloc: Global, e: &Expression, scope: &DType) -> VortexResult<Option<Place>>
    ensures found { IfOk result (λ place. IsSome place ↔ IsErr (typed (tree_of e.now) (type_of scope.now))) }
    ensures refusal { IfOk result (λ place. IfSome place (λ p. typed (tree_of e.now) (type_of scope.now) ≡ Err p.refusal)) }
    ensures first { IfOk result (λ place. IfSome place (λ p. IsFirstRefusal (type_of scope.now) (tree_of e.now) p.path.items p.refusal)) }
    ensures node { IfOk result (λ place. IfSome place (λ p. IsSome (node_at p.path.items (tree_of e.now)))) }
    ensures memory { IfErr result (λ refusal. refusal ≡ OutOfMemory) }
{
    let mut path = Vec::new(alloc);
    let mut types = Vec::new(alloc);
    match push_type(alloc, e, scope, &mut path, &mut types) {
        Ok(()) => Ok(None),
        Err(refusal) => placed(path, refusal),
    }
}

// The types of the trees, or the first refusal, and then the path leads to its node.
#[cycle(refusal)]
fn type_all(
    alloc: Global,
    es: &[Expression],
    scope: &DType,
    path: &mut Vec<usize>,
) -> VortexResult<Vec<DType>>
    ensures types { IfOk result (λ types. each_typed (trees_of es.now) (type_of scope.now) ≡ Ok (map type_of types.items)) }
    ensures place { LeadsBelow (IsFirstRefusalIn (type_of scope.now) (trees_of es.now)) path.old.items result path.new.items }
{
    let mut types = Vec::with_capacity(alloc, es.len())?;
    for i in 0..es.len() {
        path.push(i)?;
        push_type(alloc, &es[i], scope, path, &mut types)?;
        path.pop();
    }
    Ok(types)
}

// Adds the tree's type.
#[cycle(refusal)]
fn push_type(
    alloc: Global,
    e: &Expression,
    scope: &DType,
    path: &mut Vec<usize>,
    types: &mut Vec<DType>,
) -> VortexResult<()>
    ensures types { OnOk result (Adds type_of types.old.items (typed (tree_of e.now) (type_of scope.now)) types.new.items) }
    ensures place { LeadsToNode (IsFirstRefusal (type_of scope.now) (tree_of e.now)) path.old.items result path.new.items }
{
    let below = type_all(alloc, e.children(), scope, path)?;
    push_type_over(alloc, e, scope, below.as_slice(), types)
}
