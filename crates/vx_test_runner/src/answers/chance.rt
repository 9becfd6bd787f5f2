// Trees made by chance, written and read, evaluated as they are, over arrays, as queries and by scans:
// the rows stay, and are what statistics tell of them. And texts made by chance.
ghost use Rattle.vx_tree.specs.Trees.{WellTyped};
ghost use Rattle.vx_tree.specs.Views.{bound_of};

mod loosened;
mod parts;
mod texts;

use crate::answers::arrays::arrays_agree;
use crate::answers::pruned::is_told_true;
use crate::answers::scans::scan_column;
use crate::answers::source_texts::read_otherwise;
use loosened::loosened;
use std::alloc::Global;
pub use texts::texts_by_chance;
use vx_eval::apply_bound;
use vx_query::run_query;
use vx_rewrite::Pass;
use vx_scan::plan;
use vx_test_support::{Maker, Seeds, Unread, column, expression};
use vx_tree::{BoundExpression, Column, Expression, VortexError, VortexResult};

const SCOPE: &str =
    "{a={x=i32?,y=i32}?,b=i32?,m=bool?,s=utf8,f=f64?,g=f64,h=f32?,p=decimal(6, 2)?,w=decimal(38, 10)?,d=date?,t=timestamp(us, \"UTC\")?}";

// With null in each field that may be null.
const ROWS: &str =
    "{null,1,true,'ab,f64(0.2),f64(nan),f32(0.1),999,99999999999999999999999999999999999999,null,1706696130250000} \
    {{null,2},null,false,',null,f64(-0.0),null,null,-1,19782,null} \
    {{3,-1},3,null,'abab,f64(-inf),f64(0.0),f32(-inf),-1,null,-1,-1}";

/// What arrays, queries and scans of so many trees answer beside their evaluation, from a seed on:
/// `SEED COUNT`. Of the trees that are answered otherwise the one of the shortest text is told, and
/// before it one whose source text reads back as another. More than a quarter of the trees have to
/// fault nowhere.
pub fn by_chance(alloc: Global, words: &str) -> Result<String, Unread> {
    let (seed, count) = seed_and_count(words)?;
    let batch = column(alloc, SCOPE, ROWS)?;
    let mut maker = Maker::new(alloc, seed);
    let mut seeds = Seeds::new(seed);
    let mut without_fault: usize = 0;
    let mut shortest = None;
    for _ in 0..count {
        let text = maker.tree()?;
        let tree = expression(alloc, text.as_str())?;
        if let Some(other) = read_otherwise(alloc, &tree)? {
            return Ok(other);
        }
        match agrees(alloc, &tree, &batch, &mut seeds)? {
            Some(true) => without_fault = without_fault.saturating_add(1),
            Some(false) => {}
            None => shortest = Some(shorter(shortest, text)),
        }
    }
    if let Some(text) = shortest {
        return Ok(format!(in alloc; "another answer to {text}")?);
    }
    if without_fault <= count / 4 {
        return Ok(format!(in alloc; "only {without_fault} are without a fault")?);
    }
    Ok(String::from_str(alloc, "all agree")?)
}

// A seed, and how many are made from it on.
fn seed_and_count(words: &str) -> Result<(u64, usize), Unread> {
    let (seed, count) = words.split_once(' ').ok_or("no count")?;
    let seed = seed.parse().map_err(|_| Unread::Word("no seed"))?;
    let count = count.parse().map_err(|_| Unread::Word("no count"))?;
    Ok((seed, count))
}

// The shorter of the texts, the earlier of equally long ones.
fn shorter(earlier: Option<String>, text: String) -> String {
    match earlier {
        Some(earlier) if earlier.len() <= text.len() => earlier,
        _ => text,
    }
}

// Whether the source faults nowhere on the batch; None where arrays, a query or a scan answer otherwise,
// or statistics of the batch, loosened by chance, tell of a row what isn't so.
fn agrees(
    alloc: Global,
    source: &Expression,
    batch: &Column,
    seeds: &mut Seeds,
) -> VortexResult<Option<bool>> {
    let bound = source.bind(alloc, batch.dtype())?;
    let plain = apply_bound(alloc, batch, &bound);
    agrees_with(alloc, source, &bound, batch, &plain, seeds)
}

// The same of the source that is bound so, beside what plain evaluation answers.
fn agrees_with(
    alloc: Global,
    source: &Expression,
    bound: &BoundExpression,
    batch: &Column,
    plain: &VortexResult<Column>,
    seeds: &mut Seeds,
) -> VortexResult<Option<bool>>
    requires { WellTyped (bound_of bound.now) }
{
    if !arrays_agree(alloc, batch, bound, plain)?
        || !queries_agree(alloc, source, batch, plain)
        || !scan_agrees(alloc, source, batch, plain)?
    {
        return Ok(None);
    }
    let stats = loosened(alloc, batch, seeds)?;
    Ok(match plain {
        Ok(values) if !is_told_true(bound, &stats, values.rows()) => None,
        _ => Some(plain.is_ok()),
    })
}

// Whether the source as a query, by each pass and by all, split and not, agrees with plain evaluation.
fn queries_agree(
    alloc: Global,
    source: &Expression,
    batch: &Column,
    plain: &VortexResult<Column>,
) -> bool {
    let all = [
        Pass::FindBetween,
        Pass::OptimizeRecursive,
        Pass::Branches,
        Pass::Optimize,
        Pass::Fold,
    ];
    let queries: [(&[Pass], bool); 8] = [
        (&[], false),
        (&[Pass::Optimize], false),
        (&[Pass::OptimizeRecursive], false),
        (&[Pass::FindBetween], false),
        (&[Pass::Branches], false),
        (&[Pass::Fold], false),
        (&[], true),
        (&all, true),
    ];
    for (passes, split) in queries {
        if !is_allowed(plain, run_query(alloc, source, batch, passes, split)) {
            return false;
        }
    }
    true
}

// Whether a scan of the source agrees with plain evaluation.
fn scan_agrees(
    alloc: Global,
    source: &Expression,
    batch: &Column,
    plain: &VortexResult<Column>,
) -> VortexResult<bool> {
    let plan = plan(alloc, source, batch.dtype())?;
    Ok(is_allowed(plain, scan_column(alloc, &plan, batch)))
}

// Whether the answer may stand beside that of plain evaluation: the same rows, or where that faults,
// any rows or a fault.
fn is_allowed(plain: &VortexResult<Column>, answer: VortexResult<Column>) -> bool {
    match (plain, &answer) {
        (Ok(rows), Ok(answer)) => rows.rows() == answer.rows(),
        (Ok(_), Err(_)) => false,
        (Err(_), Ok(_)) => true,
        (Err(_), Err(refusal)) => is_fault(refusal),
    }
}

fn is_fault(refusal: &VortexError) -> bool {
    matches!(
        refusal,
        VortexError::AddOverflow { .. }
            | VortexError::CastNull { .. }
            | VortexError::BadFill
            | VortexError::DivisionByZero { .. }
    )
}
