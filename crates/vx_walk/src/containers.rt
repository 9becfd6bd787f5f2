// The containers.
ghost use Rattle.std.specs.Prelude.{◌≡◌};
ghost use Rattle.vx_tree.specs.Trees.{Tree};
ghost use Rattle.vx_tree.specs.Views.{tree_of};
ghost use Rattle.vx_walk.specs.Shapes.{box, element, inside, no_part, part, parts, rc, row, vector};

use crate::container::apply_ref_elements_with;
use crate::{
    CloneContainer, ElementMapper, ElementVisitor, NodeContainer, Transformed, TraversalOrder,
};
use std::alloc::Global;
use std::rc::Rc;
use vx_tree::{Expression, VortexResult};

/// An expression is one element.
impl NodeContainer<Expression> for Expression {
    ghost Mirror = { Tree };

    ghost mirror = { tree_of };

    ghost shape = { λ e. element e };

    fn apply_with<V: ElementVisitor<Expression>>(
        &self,
        visitor: &mut V,
    ) -> VortexResult<TraversalOrder> {
        visitor.visit(self)
    }

    fn map_with<V: ElementMapper<Expression>>(
        self,
        _alloc: Global,
        mapper: &mut V,
    ) -> VortexResult<Transformed<Expression>> {
        mapper.map(self)
    }
}

/// The elements of what the box holds.
impl<T, C: NodeContainer<T> + Drop> NodeContainer<T> for Box<C> {
    ghost Mirror = { C.Mirror };

    ghost mirror = { C.mirror };

    ghost shape = { λ b. inside box (C.shape b.value) };

    fn apply_with<V: ElementVisitor<T>>(&self, visitor: &mut V) -> VortexResult<TraversalOrder> {
        (**self).apply_with(visitor)
    }

    fn map_with<V: ElementMapper<T>>(
        self,
        alloc: Global,
        mapper: &mut V,
    ) -> VortexResult<Transformed<Box<C>>> {
        let Transformed {
            value,
            order,
            changed,
        } = Box::into_inner(self).map_with(alloc, mapper)?;
        Ok(Transformed {
            value: Box::new(alloc, value)?,
            order,
            changed,
        })
    }
}

/// The elements of what the `Rc` holds; where it is shared, of a clone of that.
impl<T, C: CloneContainer<T>> NodeContainer<T> for Rc<C> {
    ghost Mirror = { C.Mirror };

    ghost mirror = { C.mirror };

    ghost shape = { λ c. inside rc (C.shape c.value) };

    fn apply_with<V: ElementVisitor<T>>(&self, visitor: &mut V) -> VortexResult<TraversalOrder> {
        (**self).apply_with(visitor)
    }

    fn map_with<V: ElementMapper<T>>(
        self,
        alloc: Global,
        mapper: &mut V,
    ) -> VortexResult<Transformed<Rc<C>>> {
        let held = Rc::unwrap_or_clone(self)?;
        let Transformed {
            value,
            order,
            changed,
        } = held.map_with(alloc, mapper)?;
        Ok(Transformed {
            value: Rc::new(alloc, value)?,
            order,
            changed,
        })
    }
}

/// The elements of the first, then of the second.
impl<T, C: NodeContainer<T> + Drop> NodeContainer<T> for (C, C) {
    ghost Mirror = { C.Mirror };

    ghost mirror = { C.mirror };

    ghost shape = { λ p. row (part (C.shape p.0) (part (C.shape p.1) no_part)) };

    fn apply_with<V: ElementVisitor<T>>(&self, visitor: &mut V) -> VortexResult<TraversalOrder> {
        match self.0.apply_with(visitor)? {
            TraversalOrder::Stop => Ok(TraversalOrder::Stop),
            TraversalOrder::Skip | TraversalOrder::Continue => self.1.apply_with(visitor),
        }
    }

    fn map_with<V: ElementMapper<T>>(
        self,
        alloc: Global,
        mapper: &mut V,
    ) -> VortexResult<Transformed<(C, C)>> {
        let (left, right) = self;
        let first = left.map_with(alloc, mapper)?;
        let second = match first.order {
            TraversalOrder::Stop => Transformed {
                value: right,
                order: TraversalOrder::Stop,
                changed: false,
            },
            TraversalOrder::Skip | TraversalOrder::Continue => right.map_with(alloc, mapper)?,
        };
        Ok(Transformed {
            value: (first.value, second.value),
            order: second.order,
            changed: first.changed | second.changed,
        })
    }
}

/// The elements of each, from left to right.
impl<T, C: NodeContainer<T> + Drop> NodeContainer<T> for Vec<C> {
    ghost Mirror = { C.Mirror };

    ghost mirror = { C.mirror };

    ghost shape = { λ v. inside vector (row (parts C.shape v.items)) };

    fn apply_with<V: ElementVisitor<T>>(&self, visitor: &mut V) -> VortexResult<TraversalOrder> {
        apply_ref_elements_with(self.as_slice(), visitor)
    }

    fn map_with<V: ElementMapper<T>>(
        self,
        alloc: Global,
        mapper: &mut V,
    ) -> VortexResult<Transformed<Vec<C>>> {
        let mut values = Vec::with_capacity(alloc, self.len())?;
        let mut order = TraversalOrder::Continue;
        let mut changed = false;
        for container in self {
            let handed = match order {
                TraversalOrder::Stop => Transformed {
                    value: container,
                    order: TraversalOrder::Stop,
                    changed: false,
                },
                TraversalOrder::Skip | TraversalOrder::Continue => {
                    container.map_with(alloc, mapper)?
                }
            };
            values.push_reserved(handed.value);
            order = handed.order;
            changed = changed | handed.changed;
        }
        Ok(Transformed {
            value: values,
            order,
            changed,
        })
    }
}
