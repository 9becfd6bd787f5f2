// Binding: a tree over a scope, with the type of each node.
ghost use Rattle.std.specs.Prelude.{◌≡◌, ◌↔◌, Err, IfOk, IsTrue, OnOk, map};
ghost use Rattle.vx_value.specs.Returns.{ReturnsOrOom};
ghost use Rattle.vx_value.specs.Views.{type_of};
ghost use Rattle.vx_fn.specs.Views.{function_of};
ghost use Rattle.vx_tree.specs.Binding.{binding, each_binding, node_over};
ghost use Rattle.vx_tree.specs.Nodes.{is_over};
ghost use Rattle.vx_tree.specs.Pushed.{Pushes};
ghost use Rattle.vx_tree.specs.Trees.{WellTyped, EachWellTyped, Over, root, unbound, typed, node_type};
ghost use Rattle.vx_tree.specs.Views.{tree_of, trees_from, bound_of, bounds_of};

use crate::{BoundExpression, Expression, Scope, TreeNode};
use std::alloc::Global;
use vx_dtype::{DType, VortexError, VortexResult};
use vx_fn::ScalarFnRef;

impl Expression {
    /// The tree with the type of each node, over a scope of that type. Its cost is linear in the
    /// nodes.
    ///
    /// There is one exactly where typing gives the tree a type. Else the first refusal is answered,
    /// the children's from left to right, then the node's: `ArityMismatch` (2) before those of the
    /// function (4 to 11).
    pub fn bind(&self, alloc: Global, scope: &DType) -> VortexResult<BoundExpression>
        ensures typed { ReturnsOrOom (λ b. node_type (bound_of b)) result (typed (tree_of self.now) (type_of scope.now)) }
        ensures well_typed { IfOk result (λ b. WellTyped (bound_of b)) }
        ensures over { IfOk result (λ b. Over (bound_of b) (type_of scope.now) × (unbound (bound_of b) ≡ tree_of self.now)) }
    {
        bind_tree(alloc, self, scope)
    }

    /// The tree bound to the type of the scope, as [`Expression::bind`] gives and refuses it.
    pub fn bind_scope(&self, alloc: Global, scope: &Scope) -> VortexResult<BoundExpression>
        ensures typed { ReturnsOrOom (λ b. node_type (bound_of b)) result (typed (tree_of self.now) scope.now) }
        ensures well_typed { IfOk result (λ b. WellTyped (bound_of b)) }
        ensures over { IfOk result (λ b. Over (bound_of b) scope.now × (unbound (bound_of b) ≡ tree_of self.now)) }
    {
        self.bind(alloc, scope.root())
    }
}

fn bind_tree<T: TreeNode>(alloc: Global, tree: &T, scope: &DType) -> VortexResult<BoundExpression>
    ensures bound { ReturnsOrOom bound_of result (binding (T.tree tree.now) (type_of scope.now)) }
    ensures typed { IfOk result (λ b. WellTyped (bound_of b)) }
{
    let Some(scalar_fn) = tree.node_function() else {
        return Ok(BoundExpression::Root {
            dtype: scope.clone()?,
        });
    };
    let children = bind_all(alloc, tree.node_children(), scope)?;
    BoundExpression::try_new(alloc, scalar_fn.clone()?, children)
}

// The recursion, which handles no node: its frame has a place for each that a function handles. So
// what makes, stores or lets go of nodes stands in functions that aren't inlined.
#[cycle(bind)]
fn bind_all<T: TreeNode>(
    alloc: Global,
    trees: &[T],
    scope: &DType,
) -> VortexResult<Vec<BoundExpression>>
    ensures bound { ReturnsOrOom (λ nodes. bounds_of nodes.items) result (each_binding (trees_from (map T.tree trees.now)) (type_of scope.now)) }
    ensures typed { IfOk result (λ nodes. EachWellTyped (bounds_of nodes.items)) }
{
    let mut nodes = Vec::with_capacity(alloc, trees.len())?;
    for i in 0..trees.len() {
        if let Err(refusal) = push_bound(alloc, &trees[i], scope, &mut nodes) {
            return refused(nodes, refusal);
        }
    }
    Ok(nodes)
}

// Adds the tree, bound, to the nodes.
#[cycle(bind)]
fn push_bound<T: TreeNode>(
    alloc: Global,
    tree: &T,
    scope: &DType,
    nodes: &mut Vec<BoundExpression>,
) -> VortexResult<()>
    ensures bound { Pushes bound_of nodes.old.items result (binding (T.tree tree.now) (type_of scope.now)) nodes.new.items }
    ensures typed { OnOk result (EachWellTyped (bounds_of nodes.old.items) → EachWellTyped (bounds_of nodes.new.items)) }
{
    let Some(scalar_fn) = tree.node_function() else {
        return push_root(scope, nodes);
    };
    let children = tree.node_children();
    let below = bind_all(alloc, children, scope)?;
    push_node(alloc, scalar_fn, below, nodes)
}

// Adds the scope root.
#[inline(never)]
fn push_root(scope: &DType, nodes: &mut Vec<BoundExpression>) -> VortexResult<()>
    ensures bound { Pushes bound_of nodes.old.items result (binding root (type_of scope.now)) nodes.new.items }
    ensures typed { OnOk result (EachWellTyped (bounds_of nodes.old.items) → EachWellTyped (bounds_of nodes.new.items)) }
{
    nodes.push(BoundExpression::Root {
        dtype: scope.clone()?,
    })?;
    Ok(())
}

// Adds the node of the function over the children.
#[inline(never)]
fn push_node(
    alloc: Global,
    scalar_fn: &ScalarFnRef,
    children: Vec<BoundExpression>,
    nodes: &mut Vec<BoundExpression>,
) -> VortexResult<()>
    ensures bound { Pushes bound_of nodes.old.items result (node_over (function_of scalar_fn.now) (bounds_of children.items)) nodes.new.items }
    ensures typed { EachWellTyped (bounds_of children.items) → OnOk result (EachWellTyped (bounds_of nodes.old.items) → EachWellTyped (bounds_of nodes.new.items)) }
{
    nodes.push(BoundExpression::try_new(alloc, scalar_fn.clone()?, children)?)?;
    Ok(())
}

// The refusal, after the nodes so far are let go.
#[inline(never)]
fn refused(nodes: Vec<BoundExpression>, refusal: VortexError) -> VortexResult<Vec<BoundExpression>>
    ensures { result ≡ Err refusal }
{
    drop(nodes);
    Err(refusal)
}

impl BoundExpression {
    /// The tree without its types, bound to a scope of that type. Its cost is linear in the nodes.
    ///
    /// There is one exactly where typing gives the tree a type over that scope. Else the first
    /// refusal is answered, the children's from left to right, then the node's: `ArityMismatch` (2)
    /// before those of the function (4 to 11).
    pub fn rebind(&self, alloc: Global, scope: &DType) -> VortexResult<BoundExpression>
        ensures typed { ReturnsOrOom (λ b. node_type (bound_of b)) result (typed (unbound (bound_of self.now)) (type_of scope.now)) }
        ensures well_typed { IfOk result (λ b. WellTyped (bound_of b)) }
        ensures over { IfOk result (λ b. Over (bound_of b) (type_of scope.now) × (unbound (bound_of b) ≡ unbound (bound_of self.now))) }
    {
        bind_tree(alloc, self, scope)
    }

    /// Whether every scope root of the tree has that type, true where there is none. Takes no memory.
    pub fn is_root_bound_to(&self, dtype: &DType) -> bool
        ensures { IsTrue result ↔ Over (bound_of self.now) (type_of dtype.now) }
    {
        is_over(self, dtype)
    }
}

fn is_over(b: &BoundExpression, dtype: &DType) -> bool
    ensures { result ≡ is_over (bound_of b.now) (type_of dtype.now) }
{
    match b {
        BoundExpression::Root { dtype: own } => own == dtype,
        BoundExpression::Scalar { children, .. } => {
            for child in children.as_slice() {
                if !is_over(child, dtype) {
                    return false;
                }
            }
            true
        }
    }
}
