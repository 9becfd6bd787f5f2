// Answers of a bound tree by the fields that its nodes read: annotations, and the split by them.
ghost use Rattle.vx_tree.specs.Trees.{WellTyped};
ghost use Rattle.vx_tree.specs.Views.{bound_of};

use crate::answers::bound_line::BoundLine;
use crate::answers::distinct::{Analysis, told_of_all};
use crate::answers::split::{Divided, divided, joined_rows, replaced_by_optimized, shown};
use crate::kind::{FieldsKind, Told};
use crate::scene::Scene;
use crate::told::agreed;
use std::alloc::Global;
use vx_rewrite::{
    BoundAnnotations, covers, descendent_bound_annotations, direct_bound_annotations, free_fields,
    partition_bound,
};
use vx_tree::{
    BoundExpression, ExactBoundExpr, FieldName, StructFields, VortexError, VortexResult,
};

/// The answer to a line that asks of the annotations or the split of the source, which is bound to
/// the scope, a struct.
pub fn answer(alloc: Global, kind: FieldsKind, line: &BoundLine<'_>) -> VortexResult<String>
    requires { WellTyped (bound_of line.now.bound.now) }
{
    let bound = line.bound;
    let fields = line
        .scene
        .scope
        .as_struct_fields_opt()
        .ok_or(VortexError::NotAStruct)?;
    match kind {
        FieldsKind::Split(told) => split(alloc, told, line, fields),
        FieldsKind::Replaced(told) => {
            told_of(alloc, told, line.scene, &replaced(alloc, bound, fields)?)
        }
        FieldsKind::Covers => {
            let covered = covers(alloc, bound, &fields_read(alloc, bound, fields)?)?;
            Ok(format!(in alloc; "{covered}")?)
        }
        FieldsKind::OwnFields => {
            let own = direct_bound_annotations(alloc, bound, |node: &BoundExpression| {
                free_fields(alloc, node, fields)
            })?;
            told_of_all(alloc, &own, &line.again(alloc)?)
        }
        FieldsKind::OwnAnnotations => {
            let own = direct_bound_annotations(alloc, bound, |node: &BoundExpression| {
                free_fields(alloc, node, fields)
            })?;
            fields_in(alloc, &own)
        }
        FieldsKind::Fields => {
            let read = fields_read(alloc, bound, fields)?;
            told_of_all(alloc, &read, &line.again(alloc)?)
        }
        FieldsKind::Annotations => {
            let read = fields_read(alloc, bound, fields)?;
            read.told_at(alloc, &line.again(alloc)?)
        }
    }
}

/// The fields of the scope that each reached node reads.
pub fn fields_read(
    alloc: Global,
    bound: &BoundExpression,
    fields: &StructFields,
) -> VortexResult<BoundAnnotations<FieldName>> {
    descendent_bound_annotations(alloc, bound, |node: &BoundExpression| {
        free_fields(alloc, node, fields)
    })
}

// The tree split, on which a split by a closure has to agree.
fn split(
    alloc: Global,
    told: Told,
    line: &BoundLine<'_>,
    fields: &StructFields,
) -> VortexResult<String>
    requires { WellTyped (bound_of line.now.bound.now) }
{
    let BoundLine { scene, bound, .. } = *line;
    let whole = divided(alloc, bound, fields_read(alloc, bound, fields)?)?;
    let by_closure = split_by_closure(alloc, fields, bound)?;
    let own = told_of(alloc, told, scene, &whole)?;
    agreed(alloc, own, told_of(alloc, told, scene, &by_closure)?)
}

// The tree split, with its partitions replaced by optimized ones.
fn replaced(alloc: Global, bound: &BoundExpression, fields: &StructFields) -> VortexResult<Divided>
    requires { WellTyped (bound_of bound.now) }
{
    let mut whole = divided(alloc, bound, fields_read(alloc, bound, fields)?)?;
    replaced_by_optimized(alloc, &mut whole)?;
    Ok(whole)
}

// The split as a text, or what it gives once joined.
fn told_of(alloc: Global, told: Told, scene: &Scene, split: &Divided) -> VortexResult<String> {
    match told {
        Told::Text => shown(alloc, split),
        Told::Rows => joined_rows(alloc, scene, split),
    }
}

// The tree split by a closure that tells the fields of the scope that a node reads.
fn split_by_closure(
    alloc: Global,
    fields: &StructFields,
    bound: &BoundExpression,
) -> VortexResult<Divided>
    requires { WellTyped (bound_of bound.now) }
{
    partition_bound(alloc, bound.clone()?, |node: &BoundExpression| {
        free_fields(alloc, node, fields)
    })
}

impl Analysis for BoundAnnotations<FieldName> {
    // The set at the node, its names in their order: `[a, b]`.
    fn told_at(&self, alloc: Global, node: &BoundExpression) -> VortexResult<String> {
        let key = ExactBoundExpr::new(node.clone()?);
        let Some(set) = self.get(&key) else {
            return Ok(String::from_str(alloc, "-")?);
        };
        let mut names: Vec<&str> = Vec::new(alloc);
        for name in set.iter() {
            names.push(name.as_str())?;
        }
        listed(alloc, names)
    }

    fn count(&self) -> usize {
        self.len()
    }
}

// The names of all sets, and how many sets there are: `[a, b] (2)`.
fn fields_in(alloc: Global, found: &BoundAnnotations<FieldName>) -> VortexResult<String> {
    let mut names: Vec<&str> = Vec::new(alloc);
    for set in found.values() {
        for name in set.iter() {
            names.push(name.as_str())?;
        }
    }
    let all = listed(alloc, names)?;
    let count = found.len();
    Ok(format!(in alloc; "{all} ({count})")?)
}

// The names in their order, each once: `[a, b]`.
fn listed(alloc: Global, names: Vec<&str>) -> VortexResult<String> {
    let mut names = names;
    names.sort()?;
    names.dedup();
    let mut text = String::from_str(alloc, "[")?;
    for (i, name) in names.iter().enumerate() {
        if i > 0 {
            text.push_str(", ")?;
        }
        text.push_str(name)?;
    }
    text.push(']')?;
    Ok(text)
}
