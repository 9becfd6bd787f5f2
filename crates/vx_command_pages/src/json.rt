// Plans as JSON.
ghost use Rattle.std.specs.Prelude.{◌≡◌, IfOk, option_map};
ghost use Rattle.serde_json.specs.View.{items_view, view};
ghost use Rattle.vx_value.specs.Paths.{minimal_paths};
ghost use Rattle.vx_value.specs.Views.{type_of};
ghost use Rattle.vx_tree.specs.Views.{bound_of, bounds_of};
ghost use Rattle.vx_query_split.specs.Division.{parts_of};
ghost use Rattle.vx_command_pages.specs.PlanData.{partition_data, partition_items, partitions_data, path_data, paths_data, plan_data, root_data};

use crate::sources::{source_text, type_text};
use serde_json::{Value, json};
use std::alloc::{AllocError, Global};
use vx_rewrite::BoundPartitionedExpr;
use vx_scan::ScanPlan;
use vx_tree::{BoundExpression, FieldName};
use vx_value::{Field, FieldPath, FieldPathSet};

/// The plan: its scope, its tree and the tree's type, the paths that it reads, and, where it is split,
/// the root and each partition with its name and type.
pub(crate) fn plan_value(alloc: Global, plan: &ScanPlan) -> Result<Value, AllocError>
    ensures { IfOk result (λ v. view v ≡ plan_data (type_of plan.now.scope) (bound_of plan.now.tree) (minimal_paths plan.now.paths) (parts_of plan.now.split)) }
{
    let scope = type_text(alloc, plan.scope())?;
    let dtype = type_text(alloc, plan.tree().dtype())?;
    let tree = source_text(alloc, plan.tree())?;
    let paths = paths_value(alloc, plan.paths())?;
    let root = root_value(alloc, plan.split())?;
    let partitions = partitions_value(alloc, plan.split())?;
    json!(in alloc; {
        "scope": scope,
        "tree": tree,
        "type": dtype,
        "paths": paths,
        "root": root,
        "partitions": partitions,
    })
}

/// The paths, each as its names.
pub(crate) fn paths_value(alloc: Global, paths: &FieldPathSet) -> Result<Value, AllocError>
    ensures { IfOk result (λ v. view v ≡ paths_data (minimal_paths paths.now)) }
{
    let mut values = Vec::new(alloc);
    for path in paths.iter() {
        values.push(path_value(alloc, path)?)?;
    }
    Ok(Value::Array(values))
}

fn path_value(alloc: Global, path: &FieldPath) -> Result<Value, AllocError>
    ensures { IfOk result (λ v. view v ≡ path_data path.now) }
{
    let parts = path.parts();
    let mut names = Vec::with_capacity(alloc, parts.len())?;
    for part in parts {
        let Field::Name(name) = part;
        names.push(Value::String(String::from_str(alloc, name.as_str())?))?;
    }
    Ok(Value::Array(names))
}

// The source text of the root, null where the tree isn't split.
fn root_value(
    alloc: Global,
    split: Option<&BoundPartitionedExpr<FieldName>>,
) -> Result<Value, AllocError>
    ensures { IfOk result (λ v. view v ≡ root_data (parts_of (option_map (λ p. p.now) split.entry))) }
{
    match split {
        Some(split) => Ok(Value::String(source_text(alloc, &split.root)?)),
        None => Ok(Value::Null),
    }
}

// The partitions, none where the tree isn't split.
fn partitions_value(
    alloc: Global,
    split: Option<&BoundPartitionedExpr<FieldName>>,
) -> Result<Value, AllocError>
    ensures { IfOk result (λ v. view v ≡ partitions_data (parts_of (option_map (λ p. p.now) split.entry))) }
{
    match split {
        Some(split) => {
            let names = split.partition_names.as_slice();
            let values = partition_values(alloc, names, split.partitions.as_slice())?;
            Ok(Value::Array(values))
        }
        None => Ok(Value::Array(Vec::new(alloc))),
    }
}

// A partition for each name and its tree.
fn partition_values(
    alloc: Global,
    names: &[FieldName],
    trees: &[BoundExpression],
) -> Result<Vec<Value>, AllocError>
    ensures { IfOk result (λ values. items_view values.items ≡ partition_items names.now (bounds_of trees.now)) }
{
    let mut values = Vec::new(alloc);
    for (name, tree) in names.iter().zip(trees) {
        values.push(partition_value(alloc, name, tree)?)?;
    }
    Ok(values)
}

fn partition_value(
    alloc: Global,
    name: &FieldName,
    tree: &BoundExpression,
) -> Result<Value, AllocError>
    ensures { IfOk result (λ v. view v ≡ partition_data name.now (bound_of tree.now)) }
{
    let dtype = type_text(alloc, tree.dtype())?;
    let tree = source_text(alloc, tree)?;
    json!(in alloc; {"name": name.as_str(), "tree": tree, "type": dtype})
}
