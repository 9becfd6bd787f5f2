// What nodes are annotated with.
ghost use Rattle.std.specs.Prelude.{◌≡◌, IsTrue, MatchResult};
ghost use Rattle.vx_dtype.specs.declared.error.VortexError.TheVariants.{OutOfMemory};

use std::alloc::Global;
use std::hash::Hash;
use vx_tree::{FieldName, VortexResult};

/// What a node of a bound tree may be annotated with.
pub trait Annotation: Hash + Eq {
    /// An equal annotation. Refuses with `OutOfMemory` (1) alone.
    fn copy(&self, alloc: Global) -> VortexResult<Self>
    where
        Self: Sized,
        ensures { MatchResult result (λ a. IsTrue (Self.eq self.now a)) (λ e. e ≡ OutOfMemory) };
}

impl Annotation for FieldName {
    fn copy(&self, _alloc: Global) -> VortexResult<FieldName> {
        Ok(self.clone()?)
    }
}
