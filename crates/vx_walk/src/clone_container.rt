// Containers whose clones hold equal elements.
ghost use Rattle.std.proofs.Common.{ap};
ghost use Rattle.vx_walk.specs.Clones.{ClonesAreAlike, pairs_alike, parts_alike};
ghost use Rattle.vx_walk.specs.Shapes.{box, element, inside, rc, row, shape_seen, vector};

use crate::NodeContainer;
use std::rc::Rc;
use vx_tree::Expression;

/// A container whose clones hold equal elements in the same places. An `Rc` asks it of what it holds,
/// since it hands over a clone where it is shared.
pub trait CloneContainer<T>: NodeContainer<T> + Clone {
    /// A clone's elements are seen as those of what it is a clone of, and lie in the same places.
    ghost clones_are_alike: { ClonesAreAlike Self.mirror Self.shape Self.is_clone };
}

impl CloneContainer<Expression> for Expression {
    ghost clones_are_alike = { λ c d same. ap (λ e. element e) same };
}

impl<T, C: CloneContainer<T> + Drop> CloneContainer<T> for Box<C> {
    ghost clones_are_alike = { λ c d same. ap (λ s. inside box s) (C.clones_are_alike c.value d.value same) };
}

impl<T, C: CloneContainer<T> + Drop> CloneContainer<T> for Rc<C> {
    ghost clones_are_alike = { λ c d same. ap (λ x. inside rc (shape_seen C.mirror (C.shape x))) same };
}

impl<T, C: CloneContainer<T> + Drop> CloneContainer<T> for (C, C) {
    ghost clones_are_alike = { pairs_alike C.mirror C.shape C.is_clone C.clones_are_alike };
}

impl<T, C: CloneContainer<T> + Drop> CloneContainer<T> for Vec<C> {
    ghost clones_are_alike = { λ c d same. ap (λ r. inside vector (row r)) (parts_alike C.mirror C.shape C.is_clone C.clones_are_alike c.items d.items same.0) };
}
