// What the passes run over.
ghost use Rattle.std.specs.Prelude.{◌<◌, IfOk};
ghost use Rattle.vx_tree.specs.Trees.{WellTyped};
ghost use Rattle.vx_tree.specs.Views.{bound_of};

use crate::family::Family;
use std::alloc::Global;
use vx_dtype::{DType, Nullability, StructFields, VortexResult};
use vx_tree::{BoundExpression, Expression};

/// A tree, its scope, and the tree bound to it.
#[derive(Debug)]
pub struct Subject {
    /// The tree.
    pub tree: Expression,
    /// The fields of its scope.
    pub fields: StructFields,
    /// The type of its scope.
    pub scope: DType,
    /// The tree, bound.
    pub bound: BoundExpression,
}

impl Drop for Subject {
    fn drop(self) {
        let Subject {
            tree,
            fields,
            scope,
            bound,
        } = self;
        drop(tree);
        drop(fields);
        drop(scope);
        drop(bound);
    }
}

impl Subject {
    /// The family's tree of that size.
    pub fn new(alloc: Global, family: Family, size: usize) -> VortexResult<Subject>
        ensures { IfOk result (λ s. WellTyped (bound_of s.bound)) }
    {
        let tree = family.tree(alloc, size)?;
        let fields = family.fields(alloc, size)?;
        let scope = scope(&fields)?;
        let bound = tree.bind(alloc, &scope)?;
        Ok(Subject {
            tree,
            fields,
            scope,
            bound,
        })
    }
}

// The struct of the fields that is never null.
fn scope(fields: &StructFields) -> VortexResult<DType> {
    Ok(DType::Struct(fields.clone()?, Nullability::NonNullable))
}

/// How many nodes a walk of the tree visits: one that is shared counts each time it is met.
pub fn visited(tree: &Expression) -> u64
    ensures { 0 < result }
{
    let mut nodes: u64 = 1;
    if let Expression::Scalar { children, .. } = tree {
        for child in children.as_slice() {
            nodes = nodes.saturating_add(visited(child));
        }
    }
    nodes
}
