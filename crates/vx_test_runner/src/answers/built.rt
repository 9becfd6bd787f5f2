// Trees put together by their constructors.
mod bound;
mod chains;
mod children;
mod constructors;
mod plain;
mod walk;

use crate::scene::Scene;
use crate::told::{refused, typed};
use bound::OfBound;
pub use chains::collected;
use plain::OfSources;
use std::alloc::Global;
use vx_tree::{Expression, VortexResult};
use walk::built_by;

/// The text of the source's tree by its constructors, which has to be the source.
pub fn built(alloc: Global, source: &Expression) -> VortexResult<String> {
    compared(alloc, &built_by(alloc, &OfSources, source)?, source)
}

fn compared(alloc: Global, built: &Expression, source: &Expression) -> VortexResult<String> {
    if *built != *source {
        return Ok(format!(in alloc; "{built}, another tree")?);
    }
    Ok(format!(in alloc; "{built}")?)
}

/// The text and the type of the tree by the constructors over bound children, or what they refuse.
pub fn built_bound(alloc: Global, scene: &Scene, source: &Expression) -> VortexResult<String> {
    let by = OfBound {
        scope: &scene.scope,
    };
    match built_by(alloc, &by, source) {
        Ok(tree) => typed(alloc, &tree),
        Err(refusal) => refused(alloc, &refusal),
    }
}
