// Pieces by their annotations, in the order in which these first appear.
ghost use Rattle.std.specs.Prelude.{◌≡◌, ◌++◌, ◌∷◌, [], List, IfOk, IfErr};
ghost use Rattle.vx_dtype.specs.declared.error.VortexError.TheVariants.{OutOfMemory};
ghost use Rattle.vx_partition_laws.specs.Pieces.{Piece};
ghost use Rattle.vx_tree.specs.Views.{bound_of};
ghost use Rattle.vx_partition.specs.Collecting.{groups_in, collected, SameGroups, hole_mark};

use crate::mark::Mark;
use indexmap::IndexMap;
use std::alloc::Global;
use vx_rewrite_analysis::Annotation;
use vx_tree::{BoundExpression, VortexResult};

pub(crate) type Groups<A> = IndexMap<A, Vec<BoundExpression>>;

// One more piece: the last of its annotation's, or the first of an annotation that comes last.
// Answers the mark of its hole.
pub(crate) fn add_piece<A: Annotation + Drop>(
    alloc: Global,
    groups: &mut Groups<A>,
    annotation: &A,
    piece: BoundExpression,
) -> VortexResult<Mark>
    ensures added { IfOk result (λ mark. (before : List (Piece _)) → SameGroups A.eq (groups_in groups.old) (collected A.eq before) →
        (mark ≡ hole_mark A.eq before annotation.now) × SameGroups A.eq (groups_in groups.new) (collected A.eq (before ++ (annotation.now, bound_of piece) ∷ []))) }
    ensures memory { IfErr result (λ y. y ≡ OutOfMemory) }
{
    let group = groups.len();
    match groups.get_index_of(annotation) {
        Some(group) => {
            let pieces = &mut groups[group];
            let index = pieces.len();
            pieces.push(piece)?;
            Ok(Mark::Hole { group, index })
        }
        None => {
            let mut pieces = Vec::new(alloc);
            pieces.push(piece)?;
            groups.insert(annotation.copy(alloc)?, pieces)?;
            Ok(Mark::Hole { group, index: 0 })
        }
    }
}
