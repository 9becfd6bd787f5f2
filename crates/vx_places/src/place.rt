// The place of a refusal.
ghost use Rattle.std.specs.Prelude.{◌≡◌};
ghost use Rattle.vx_places.specs.Nodes.{row_of};
ghost use Rattle.vx_places.specs.Walked.{IsPlaced};

use vx_dtype::{VortexError, VortexResult};

/// What a node of a tree refused with, and where in the tree it stands.
#[derive(Debug, Drop)]
pub struct Place {
    /// The child indices from the first node down to that node, none where it is the first.
    pub path: Vec<usize>,
    /// What the node refused with.
    pub refusal: VortexError,
}

impl Place {
    /// The row that the refusal names: of a fault the lowest in which the node faults. None of a
    /// `BadFill` (15), which is of all rows, and of a refusal of binding.
    pub fn row(&self) -> Option<usize>
        ensures { result ≡ row_of self.now.refusal }
    {
        match &self.refusal {
            VortexError::AddOverflow { row }
            | VortexError::CastNull { row }
            | VortexError::RowMisfit { row }
            | VortexError::DivisionByZero { row } => Some(*row),
            _ => None,
        }
    }
}

/// The place of the refusal, unless it is want of memory, which is no node's.
pub(crate) fn placed(path: Vec<usize>, refusal: VortexError) -> VortexResult<Option<Place>>
    ensures { IsPlaced path.items refusal result }
{
    match refusal {
        VortexError::OutOfMemory => Err(VortexError::OutOfMemory),
        refusal => Ok(Some(Place { path, refusal })),
    }
}
