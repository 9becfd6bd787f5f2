// Answers of source text.
use std::alloc::Global;
use vx_source::{
    DEFAULT_NESTING, OverError, ParseError, Places, ScalarText, SourceText, TypeText, parse,
    parse_over, parse_scalar, parse_type, parse_with_places,
};
use vx_test_support::{Unread, expression, reads};
use vx_tree::{Expression, VortexError};

/// The source text of the expression that is read of the text, or where reading stops and what would
/// have stood right there. The source text reads back to an equal expression, or else that is told.
pub fn parsed(alloc: Global, text: &str) -> Result<String, Unread> {
    match parse(alloc, text) {
        Ok(expression) => match read_otherwise(alloc, &expression)? {
            Some(other) => Ok(other),
            None => Ok(format!(in alloc; "{}", SourceText(&expression))?),
        },
        Err(refusal) => refused(alloc, refusal),
    }
}

/// What is wrong where the tree's source text doesn't read back to an equal one, of the same
/// text; none where it does.
pub fn read_otherwise(alloc: Global, tree: &Expression) -> Result<Option<String>, Unread> {
    let source = format!(in alloc; "{}", SourceText(tree))?;
    let again = expression(alloc, source.as_str())?;
    if again != *tree || !reads(&SourceText(&again), source.as_str()) {
        return Ok(Some(format!(in alloc; "{source} reads back otherwise")?));
    }
    Ok(None)
}

/// The source text of the expression that is read of the text over a scope of that type, or why it
/// isn't; of a literal that is none of its type also where it ends.
pub fn parsed_over(alloc: Global, dtype: &str, text: &str) -> Result<String, Unread> {
    let dtype = parse_type(alloc, dtype)?;
    match parse_over(alloc, text, &dtype) {
        Ok(expression) => Ok(format!(in alloc; "{}", SourceText(&expression))?),
        Err(OverError::OutOfMemory) => Err(Unread::Refused(VortexError::OutOfMemory)),
        Err(refusal) => match &refusal {
            OverError::Misfit { end, .. } => Ok(format!(in alloc; "{refusal}, to {end}")?),
            _ => Ok(format!(in alloc; "{refusal}")?),
        },
    }
}

/// The source text of the type that is read of the text, or where reading stops and what would have
/// stood right there.
pub fn parsed_type(alloc: Global, text: &str) -> Result<String, Unread> {
    match parse_type(alloc, text) {
        Ok(dtype) => Ok(format!(in alloc; "{}", TypeText(&dtype))?),
        Err(refusal) => refused(alloc, refusal),
    }
}

/// The same of a scalar.
pub fn parsed_scalar(alloc: Global, text: &str) -> Result<String, Unread> {
    match parse_scalar(alloc, text) {
        Ok(scalar) => Ok(format!(in alloc; "{}", ScalarText(&scalar))?),
        Err(refusal) => refused(alloc, refusal),
    }
}

/// The bytes that each node was read from, a node before its children: `1-8 1-4 1-2 1-1 7-8`.
pub fn places(alloc: Global, text: &str) -> Result<String, Unread> {
    let placed = parse_with_places(alloc, text, DEFAULT_NESTING)?;
    let mut waiting = Vec::new(alloc);
    waiting.push(&placed.places)?;
    let mut all = String::new(alloc);
    for _ in 0..usize::MAX {
        let Some(node) = waiting.pop() else {
            break;
        };
        let before = if all.is_empty() { "" } else { " " };
        let told = format!(in alloc; "{before}{}-{}", node.start, node.end)?;
        all.push_str(told.as_str())?;
        for child in node.children.iter().rev() {
            waiting.push(child)?;
        }
    }
    Ok(all)
}

fn refused(alloc: Global, refusal: ParseError) -> Result<String, Unread> {
    match refusal {
        ParseError::OutOfMemory => Err(Unread::Refused(VortexError::OutOfMemory)),
        ParseError::Unexpected { .. } => Ok(format!(in alloc; "{refusal}")?),
    }
}
