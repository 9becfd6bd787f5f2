// A line that asks of a bound tree, with what it stands over.
use crate::scene::Scene;
use std::alloc::Global;
use vx_tree::{BoundExpression, Expression, VortexResult};

/// The source of a line, what it is bound to, and the scene.
#[derive(Clone, Copy)]
pub struct BoundLine<'a> {
    pub scene: &'a Scene,
    pub source: &'a Expression,
    pub bound: &'a BoundExpression,
}

impl BoundLine<'_> {
    /// The source, bound once more.
    pub fn again(&self, alloc: Global) -> VortexResult<BoundExpression> {
        self.scene.bind(alloc, self.source)
    }
}
