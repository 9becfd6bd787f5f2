// Trees split by keys that all have one field name.
ghost use Rattle.std.specs.Prelude.{◌≡◌, Some, codes, refl};
ghost use Rattle.vx_partition.specs.Keys.{same_bytes};
ghost use Rattle.vx_tree.specs.Trees.{WellTyped};
ghost use Rattle.vx_tree.specs.Views.{bound_of};

use crate::looks::{answers, refuses};
use crate::worked::tree;
use std::alloc::Global;
use std::fmt;
use std::fmt::{Display, Formatter, Write};
use std::test::Fail;
use vx_rewrite::{
    Annotation, BoundPartitionedExpr, PartitionKey, direct_bound_annotations, partition_bound,
    partition_bound_annotations,
};
use vx_test_support::reads;
use vx_tree::{BoundExpression, FieldName, VortexResult};

/// A key with a text of its own, and the field name that all keys have.
#[derive(Clone, Debug, PartialEq, Eq, Hash, Drop)]
struct Key(FieldName);

impl Display for Key {
    ghost output = { λ key. Some key.0 };

    fn fmt<W: Write>(&self, f: &mut Formatter<W>) -> fmt::Result {
        self.0.fmt(f)
    }
}

impl Annotation for Key {
    fn copy(&self, _alloc: Global) -> VortexResult<Key> {
        Ok(Key(self.0.clone()?))
    }
}

impl PartitionKey for Key {
    ghost text = { λ key. key.0 };

    ghost name = { λ key. codes "p" };

    ghost shows = { λ key. refl };

    ghost same_text = { λ a b e. same_bytes a.0 b.0 e };

    ghost same_name = { λ a b e. refl };

    fn field_name(&self, alloc: Global) -> VortexResult<FieldName> {
        FieldName::new(alloc, "p")
    }
}

/// `t1` of the condition on b, `t2` of that on c, nothing of another node.
fn key_of(alloc: Global, e: &BoundExpression) -> VortexResult<Vec<Key>> {
    let mut keys = Vec::new(alloc);
    if reads(e, "($.b < 5i32)") {
        keys.push(Key(FieldName::new(alloc, "t1")?))?;
    }
    if reads(e, "($.c < 5i32)") {
        keys.push(Key(FieldName::new(alloc, "t2")?))?;
    }
    Ok(keys)
}

/// The tree split by its own annotations.
fn split_by_own(alloc: Global, e: BoundExpression) -> VortexResult<BoundPartitionedExpr<Key>>
    requires { WellTyped (bound_of e) }
{
    let keys = |node: &BoundExpression| key_of(alloc, node);
    let annotations = direct_bound_annotations(alloc, &e, keys)?;
    partition_bound_annotations(alloc, e, annotations)
}

#[test]
fn equal_pieces_are_two(rt: HostRuntime) -> Result<(), Fail> {
    let alloc = rt.alloc();
    let e = tree(alloc, "b < 5 and b < 5")?;
    let text = "root: ($.p.t1_0 and $.p.t1_1) \
                {p: pack(t1_0: ($.b < 5i32), t1_1: ($.b < 5i32))}";
    answers(&rt, split_by_own(alloc, e), text);
    Ok(())
}

#[test]
fn a_name_is_taken_once(rt: HostRuntime) -> Result<(), Fail> {
    let alloc = rt.alloc();
    let e = tree(alloc, "b < 5 and c < 5")?;
    let keys = |node: &BoundExpression| key_of(alloc, node);
    let split = partition_bound(alloc, e, keys);
    refuses(&rt, split, "two annotations with the field name p");
    Ok(())
}
