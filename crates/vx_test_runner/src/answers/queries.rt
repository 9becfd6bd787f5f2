// Answers of queries as one run.
use crate::answers::arrays::queries_agree;
use crate::scene::Scene;
use crate::told::push_rows;
use std::alloc::Global;
use vx_query::run_query;
use vx_rewrite::Pass;
use vx_test_support::Unread;
use vx_tree::{Expression, VortexResult};

/// What a query is run by.
#[derive(Drop)]
pub struct Plan {
    pub passes: Vec<Pass>,
    pub split: bool,
}

/// The plan of the words: `root`, `all`, `fuse`, `branches` and `fold` for passes, `none` for none,
/// and at last `split`.
pub fn read_plan(alloc: Global, words: &str) -> Result<Plan, Unread> {
    let mut passes = Vec::new(alloc);
    let mut split = false;
    for word in words.split_whitespace() {
        match word {
            "root" => passes.push(Pass::Optimize)?,
            "all" => passes.push(Pass::OptimizeRecursive)?,
            "fuse" => passes.push(Pass::FindBetween)?,
            "branches" => passes.push(Pass::Branches)?,
            "fold" => passes.push(Pass::Fold)?,
            "split" => split = true,
            "none" => {}
            _ => return Err(Unread::Word("no pass")),
        }
    }
    Ok(Plan { passes, split })
}

/// What the query gives over each batch, and a word before it where arrays of the batch give something else.
pub fn query_rows(
    alloc: Global,
    scene: &Scene,
    source: &Expression,
    plan: &Plan,
) -> VortexResult<String> {
    let mut rows = String::new(alloc);
    for batch in scene.batches.iter() {
        let answer = run_query(alloc, source, batch, plan.passes.as_slice(), plan.split);
        let answer = Box::new(alloc, answer)?;
        if !queries_agree(alloc, batch, source, plan, &answer)? {
            rows.push_str("arrays differ from ")?;
        }
        push_rows(alloc, &mut rows, Box::into_inner(answer))?;
    }
    Ok(rows)
}

/// What the query gives by each list of at most two passes, split and not.
pub fn any_query(alloc: Global, scene: &Scene, source: &Expression) -> VortexResult<String> {
    let passes = [
        Pass::Optimize,
        Pass::OptimizeRecursive,
        Pass::FindBetween,
        Pass::Branches,
        Pass::Fold,
    ];
    let none = split_or_not(alloc, scene, source, Vec::new(alloc))?;
    let mut told = String::from_str(alloc, none.as_str())?;
    for first in passes {
        let rows = split_or_not(alloc, scene, source, vec![in alloc; first]?)?;
        push_other(alloc, &mut told, none.as_str(), rows.as_str(), &[first])?;
        for second in passes {
            let rows = split_or_not(alloc, scene, source, vec![in alloc; first, second]?)?;
            push_other(
                alloc,
                &mut told,
                none.as_str(),
                rows.as_str(),
                &[first, second],
            )?;
        }
    }
    Ok(told)
}

// What the query gives by the passes; both answers where it is another one when it is split.
fn split_or_not(
    alloc: Global,
    scene: &Scene,
    source: &Expression,
    passes: Vec<Pass>,
) -> VortexResult<String> {
    let mut plan = Plan {
        passes,
        split: false,
    };
    let whole = query_rows(alloc, scene, source, &plan)?;
    plan.split = true;
    let split = query_rows(alloc, scene, source, &plan)?;
    if whole.as_str() == split.as_str() {
        return Ok(whole);
    }
    Ok(format!(in alloc; "{whole}, and split {split}")?)
}

// Adds rows that are others than those without a pass.
fn push_other(
    alloc: Global,
    told: &mut String,
    none: &str,
    rows: &str,
    passes: &[Pass],
) -> VortexResult<()> {
    if rows == none {
        return Ok(());
    }
    let other = format!(in alloc; ", and {rows} by {passes:?}")?;
    Ok(told.push_str(other.as_str())?)
}
