// Answers that are of a tree by something else: passes, a partition, other trees.
use crate::answers::partitions::fields_read;
use crate::answers::queries::{Plan, query_rows, read_plan};
use crate::answers::scans::scan_over;
use crate::answers::split::{divided, replace, shown};
use crate::answers::values::typed_column;
use crate::kind::PairKind;
use crate::scene::Scene;
use crate::told::{refused, told, typed};
use std::alloc::Global;
use std::hash::{DefaultHasher, Hash, Hasher};
use vx_query::run_query;
use vx_rewrite::{find_between, run_passes};
use vx_test_support::Unread;
use vx_tree::{BoundExpression, Expression, FieldName, VortexError, VortexResult};

/// The answer to a line that asks of the source of that text by what stands in the column before.
pub fn answer(
    alloc: Global,
    kind: PairKind,
    scene: &Scene,
    by: &str,
    tree: &str,
) -> Result<String, Unread> {
    let source = scene.source(alloc, tree)?;
    match kind {
        PairKind::Passes => text_of(alloc, passed(alloc, scene, &source, &read_plan(alloc, by)?)),
        PairKind::Query => text_of(
            alloc,
            query_rows(alloc, scene, &source, &read_plan(alloc, by)?),
        ),
        PairKind::QueryType => text_of(
            alloc,
            query_type(alloc, scene, &source, &read_plan(alloc, by)?),
        ),
        PairKind::ScanOver => {
            let column = typed_column(alloc, by)?;
            text_of(alloc, scan_over(alloc, scene, &source, &column))
        }
        PairKind::Equal => {
            let first = scene.source(alloc, by)?;
            text_of(alloc, compared(alloc, scene, &first, &source))
        }
        PairKind::FusedAs => {
            let first = scene.source(alloc, by)?;
            text_of(alloc, fused_as(alloc, scene, &first, &source))
        }
        PairKind::Partition => text_of(alloc, found(alloc, scene, &source, by)),
        PairKind::ReplacedBy => replaced_by(alloc, scene, &source, by),
    }
}

fn text_of(alloc: Global, answer: VortexResult<String>) -> Result<String, Unread> {
    match answer {
        Ok(text) => Ok(text),
        Err(refusal) => Ok(refused(alloc, &refusal)?),
    }
}

fn passed(alloc: Global, scene: &Scene, source: &Expression, plan: &Plan) -> VortexResult<String> {
    let bound = scene.bind(alloc, source)?;
    typed(alloc, &run_passes(alloc, bound, plan.passes.as_slice())?)
}

// The type of what the query gives over the first batch.
fn query_type(
    alloc: Global,
    scene: &Scene,
    source: &Expression,
    plan: &Plan,
) -> VortexResult<String> {
    let batch = scene.batches.first().ok_or(VortexError::LengthMismatch)?;
    let column = run_query(alloc, source, batch, plan.passes.as_slice(), plan.split)?;
    let dtype = column.dtype();
    Ok(format!(in alloc; "{dtype}")?)
}

// Whether the sources are equal, and so are the trees that both are bound to; equal ones hash alike.
fn compared(
    alloc: Global,
    scene: &Scene,
    first: &Expression,
    second: &Expression,
) -> VortexResult<String> {
    let sources = equality(first, second);
    let bound = match (scene.bind(alloc, first), scene.bind(alloc, second)) {
        (Ok(first), Ok(second)) => equality(&first, &second),
        _ => sources,
    };
    if sources == bound {
        return Ok(String::from_str(alloc, sources)?);
    }
    Ok(format!(in alloc; "{sources}, and bound {bound}")?)
}

// Whether the first source, bound, is fused to what the second is bound to.
fn fused_as(
    alloc: Global,
    scene: &Scene,
    first: &Expression,
    second: &Expression,
) -> VortexResult<String> {
    let fused = find_between(alloc, scene.bind(alloc, first)?)?;
    let second = scene.bind(alloc, second)?;
    Ok(String::from_str(alloc, equality(&fused, &second))?)
}

fn equality<T: PartialEq + Hash>(first: &T, second: &T) -> &'static str {
    if *first != *second {
        return "different";
    }
    if hash_of(first) != hash_of(second) {
        return "equal, with two hashes";
    }
    "equal"
}

fn hash_of<T: Hash>(value: &T) -> u64 {
    let mut hasher = DefaultHasher::new();
    value.hash(&mut hasher);
    hasher.finish()
}

// The text of the partition of that field; none where there is none.
fn found(alloc: Global, scene: &Scene, source: &Expression, name: &str) -> VortexResult<String> {
    let fields = scene
        .scope
        .as_struct_fields_opt()
        .ok_or(VortexError::NotAStruct)?;
    let bound = scene.bind(alloc, source)?;
    let whole = divided(alloc, &bound, fields_read(alloc, &bound, fields)?)?;
    let name = FieldName::new(alloc, name)?;
    match whole.find_partition(alloc, &name)? {
        Some(partition) => told(alloc, Ok(partition)),
        None => Ok(String::from_str(alloc, "none")?),
    }
}

// The split of the source after its partitions are replaced by those trees, of which `;` ends one;
// what refuses that stands before it.
fn replaced_by(
    alloc: Global,
    scene: &Scene,
    source: &Expression,
    trees: &str,
) -> Result<String, Unread> {
    let mut partitions = Vec::new(alloc);
    for tree in trees.split(';') {
        let tree = scene.source(alloc, tree.trim())?;
        partitions.push(scene.bind(alloc, &tree)?)?;
    }
    text_of(alloc, replaced(alloc, scene, source, partitions))
}

fn replaced(
    alloc: Global,
    scene: &Scene,
    source: &Expression,
    partitions: Vec<BoundExpression>,
) -> VortexResult<String> {
    let fields = scene
        .scope
        .as_struct_fields_opt()
        .ok_or(VortexError::NotAStruct)?;
    let bound = scene.bind(alloc, source)?;
    let mut whole = divided(alloc, &bound, fields_read(alloc, &bound, fields)?)?;
    match replace(alloc, &mut whole, partitions) {
        Ok(()) => shown(alloc, &whole),
        Err(refusal) => {
            let refusal = refused(alloc, &refusal)?;
            let whole = shown(alloc, &whole)?;
            Ok(format!(in alloc; "{refusal}, {whole}")?)
        }
    }
}
