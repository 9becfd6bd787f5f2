// The type of an expression over a scope, with no bound tree built.
ghost use Rattle.std.specs.Prelude.{◌≡◌, ℕ, map, Ok};
ghost use Rattle.vx_value.specs.Returns.{ReturnsOrOom};
ghost use Rattle.vx_value.specs.Views.{type_of};
ghost use Rattle.vx_tree.specs.Nodes.{children_of};
ghost use Rattle.vx_tree.specs.Pushed.{Pushes};
ghost use Rattle.vx_tree.specs.Trees.{typed, each_typed};
ghost use Rattle.vx_tree.specs.Views.{tree_of, trees_of};

use crate::Expression;
use std::alloc::Global;
use vx_dtype::{DType, VortexResult};

impl Expression {
    /// The type of the tree over a scope of that type, with no bound tree built. Its cost is linear
    /// in the nodes.
    ///
    /// There is one exactly where typing gives the tree a type. Else the first refusal is answered,
    /// the children's from left to right, then the node's: `ArityMismatch` (2) before those of the
    /// function (4 to 11).
    pub fn return_dtype(&self, alloc: Global, scope: &DType) -> VortexResult<DType>
        ensures { ReturnsOrOom type_of result (typed (tree_of self.now) (type_of scope.now)) }
    {
        let below = type_all(alloc, self.children(), scope)?;
        type_over(alloc, self, scope, below.as_slice())
    }
}

// The recursion. What makes a type stands in a function that isn't inlined, so that it has no place
// in the frame of each level.
#[cycle(typing)]
fn type_all(alloc: Global, es: &[Expression], scope: &DType) -> VortexResult<Vec<DType>>
    ensures { ReturnsOrOom (λ types. map type_of types.items) result (each_typed (trees_of es.now) (type_of scope.now)) }
{
    let mut types = Vec::with_capacity(alloc, es.len())?;
    for i in 0..es.len() {
        push_type(alloc, &es[i], scope, &mut types)?;
    }
    Ok(types)
}

// Adds the tree's type.
#[cycle(typing)]
fn push_type(
    alloc: Global,
    e: &Expression,
    scope: &DType,
    types: &mut Vec<DType>,
) -> VortexResult<()>
    ensures { Pushes type_of types.old.items result (typed (tree_of e.now) (type_of scope.now)) types.new.items }
{
    let below = type_all(alloc, e.children(), scope)?;
    push_type_over(alloc, e, scope, below.as_slice(), types)
}

/// Adds the type of the tree over a scope of that type behind the others. Asks for the types of its
/// children, none at a scope root, and types the node alone.
///
/// Where the node's function gives no type, its refusal is answered and nothing is added:
/// `ArityMismatch` (2) before those of the function (4 to 11).
#[inline(never)]
pub fn push_type_over(
    alloc: Global,
    e: &Expression,
    scope: &DType,
    below: &[DType],
    types: &mut Vec<DType>,
) -> VortexResult<()>
    requires { each_typed (children_of (tree_of e.now)) (type_of scope.now) ≡ Ok (map type_of below.now) }
    ensures { Pushes type_of types.old.items result (typed (tree_of e.now) (type_of scope.now)) types.new.items }
{
    types.push(type_over(alloc, e, scope, below)?)?;
    Ok(())
}

// The type of the tree over its children's types.
fn type_over(alloc: Global, e: &Expression, scope: &DType, below: &[DType]) -> VortexResult<DType>
    requires { each_typed (children_of (tree_of e.now)) (type_of scope.now) ≡ Ok (map type_of below.now) }
    ensures { ReturnsOrOom type_of result (typed (tree_of e.now) (type_of scope.now)) }
{
    match e.as_scalar() {
        None => Ok(scope.clone()?),
        Some(scalar_fn) => scalar_fn.return_dtype(alloc, below),
    }
}
