// Answers as texts.
use crate::refusals::Named;
use std::alloc::{AllocError, Global};
use std::fmt::Display;
use vx_tree::{BoundExpression, VortexError, VortexResult};

/// What is answered, or `! ` and the refusal's name.
pub fn told<T: Display + Drop>(alloc: Global, answer: VortexResult<T>) -> VortexResult<String> {
    match answer {
        Ok(answer) => Ok(format!(in alloc; "{answer}")?),
        Err(refusal) => refused(alloc, &refusal),
    }
}

/// `! ` and the refusal's name.
pub fn refused(alloc: Global, refusal: &VortexError) -> VortexResult<String> {
    let named = Named(refusal);
    Ok(format!(in alloc; "! {named}")?)
}

/// The tree's text and its type.
pub fn typed(alloc: Global, tree: &BoundExpression) -> VortexResult<String> {
    let dtype = tree.dtype();
    Ok(format!(in alloc; "{tree} : {dtype}")?)
}

/// Adds what is answered over one more batch.
pub fn push_rows<T: Display + Drop>(
    alloc: Global,
    rows: &mut String,
    answer: VortexResult<T>,
) -> VortexResult<()> {
    if !rows.is_empty() {
        rows.push_str(" / ")?;
    }
    let told = told(alloc, answer)?;
    Ok(rows.push_str(told.as_str())?)
}

/// The lines of the text, with bars between them.
pub fn barred(alloc: Global, text: &str) -> Result<String, AllocError> {
    text.replace(alloc, '\n', "|")
}

/// The same text twice, or both where they differ.
pub fn agreed(alloc: Global, one: String, other: String) -> VortexResult<String> {
    if one.as_str() == other.as_str() {
        return Ok(one);
    }
    Ok(format!(in alloc; "{one}, and another way {other}")?)
}
