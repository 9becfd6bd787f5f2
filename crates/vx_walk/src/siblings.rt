// The children of a node as they are handed over and back. One may be handed back as another node
// and unchanged, which counts where a later one is changed: so each is kept until the last is known.
ghost use Rattle.std.specs.Prelude.{◌≡◌, ◌+◌, ◌<◌, ◌≤◌, List, [], ◌∷◌, ◌++◌, map, false, Ok, Err, IfOk, IfErr, vec_len, vec_capacity};
ghost use Rattle.vx_walk.specs.Handed.{seen};
ghost use Rattle.vx_walk.specs.Mapping.{AtOwned, MappedAll, RebuiltAs};
ghost use Rattle.vx_walk.specs.Siblings.{Pushed, seen_siblings, StepAt};
ghost use Rattle.vx_walk.specs.declared.order.TraversalOrder.TheVariants.{Continue};

use crate::{ElementMapper, Node, Transformed, TraversalOrder};
use std::alloc::{AllocError, Global};
use vx_tree::VortexResult;

// Siblings that were handed back, from left to right.
#[derive(Drop)]
pub(crate) struct Siblings<T> {
    pub handed_back: Vec<T>,
    pub order: TraversalOrder,
    pub changed: bool,
}

impl<T> Siblings<T> {
    // None so far, with room for that many.
    pub fn with_capacity(alloc: Global, capacity: usize) -> Result<Siblings<T>, AllocError>
        ensures items { IfOk result (λ s. s.handed_back.items ≡ []) }
        ensures len { IfOk result (λ s. vec_len s.handed_back ≡ 0) }
        ensures capacity { IfOk result (λ s. capacity ≤ vec_capacity s.handed_back) }
        ensures order { IfOk result (λ s. s.order ≡ Continue) }
        ensures changed { IfOk result (λ s. s.changed ≡ false) }
    {
        Ok(Siblings {
            handed_back: Vec::with_capacity(alloc, capacity)?,
            order: TraversalOrder::Continue,
            changed: false,
        })
    }

    // Puts one that was handed back behind the others.
    pub fn push(&mut self, handed: Transformed<T>)
        requires { vec_len self.old.handed_back < vec_capacity self.old.handed_back }
        ensures pushed { Pushed self.old.handed_back.items self.old.changed handed self.new }
        ensures len { vec_len self.new.handed_back ≡ vec_len self.old.handed_back + 1 }
        ensures capacity { vec_capacity self.new.handed_back ≡ vec_capacity self.old.handed_back }
    {
        self.handed_back.push_reserved(handed.value);
        self.order = handed.order;
        self.changed = self.changed | handed.changed;
    }

    // The last one.
    pub fn last(&self) -> &T
        requires { 0 < vec_len self.now.handed_back }
        ensures { (others : List T) × (self.now.handed_back.items ≡ others ++ result.now ∷ []) }
    {
        &self.handed_back[self.handed_back.len() - 1]
    }
}

// Hands the siblings to the mapper, from left to right, until it answers Stop; later ones stay.
pub(crate) fn map_siblings<N: Node, V: ElementMapper<N>>(
    alloc: Global,
    siblings: &[N],
    mapper: &mut V,
) -> VortexResult<Siblings<N>>
    requires { V.ready mapper.old }
    ensures mapped { MappedAll (AtOwned N.mirror V.gives) Continue mapper.old (map N.mirror siblings.now) (seen_siblings N.mirror result) mapper.new }
    ensures ready { V.ready mapper.new }
{
    let mut mapped = Siblings::with_capacity(alloc, siblings.len())?;
    for sibling in siblings {
        let handed = map_sibling(sibling, mapped.order, mapper)?;
        mapped.push(handed);
    }
    Ok(mapped)
}

// Hands a clone of the sibling to the mapper; after Stop it stays.
fn map_sibling<N: Node, V: ElementMapper<N>>(
    sibling: &N,
    order: TraversalOrder,
    mapper: &mut V,
) -> VortexResult<Transformed<N>>
    requires { V.ready mapper.old }
    ensures step { StepAt (AtOwned N.mirror V.gives) order mapper.old (N.mirror sibling.now) (seen N.mirror result) mapper.new }
    ensures ready { V.ready mapper.new }
{
    let value = sibling.clone()?;
    match order {
        TraversalOrder::Stop => Ok(Transformed {
            value,
            order,
            changed: false,
        }),
        TraversalOrder::Skip | TraversalOrder::Continue => mapper.map(value),
    }
}

// The node over its siblings that were handed back; it stays where none was changed.
#[inline(never)]
pub(crate) fn rebuild<N: Node>(
    alloc: Global,
    node: N,
    siblings: Siblings<N>,
) -> VortexResult<Transformed<N>>
    ensures ok { IfOk result (λ t. (t.order ≡ siblings.order) × (t.changed ≡ siblings.changed) × RebuiltAs N.rebuild_gives (N.mirror node) (map N.mirror siblings.handed_back.items) siblings.changed (Ok (N.mirror t.value))) }
    ensures err { IfErr result (λ e. RebuiltAs N.rebuild_gives (N.mirror node) (map N.mirror siblings.handed_back.items) siblings.changed (Err e)) }
{
    let Siblings {
        handed_back,
        order,
        changed,
    } = siblings;
    if !changed {
        return Ok(Transformed {
            value: node,
            order,
            changed,
        });
    }
    let value = node.with_children(alloc, handed_back)?;
    Ok(Transformed {
        value,
        order,
        changed,
    })
}
