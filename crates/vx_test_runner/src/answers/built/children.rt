// Children as what a constructor takes.
use std::alloc::Global;
use vx_tree::{FieldName, FieldNames, VortexError, VortexResult};

// What a constructor is refused with that is given another number of children.
fn lacking(expected: usize, got: usize) -> VortexError {
    VortexError::ArityMismatch { expected, got }
}

/// The only child.
pub fn one<T: Drop>(children: Vec<T>) -> VortexResult<T> {
    let got = children.len();
    let mut children = children;
    match (children.pop(), got) {
        (Some(first), 1) => Ok(first),
        _ => Err(lacking(1, got)),
    }
}

/// Both children.
pub fn two<T: Drop>(children: Vec<T>) -> VortexResult<(T, T)> {
    let got = children.len();
    let mut children = children;
    match (children.pop(), children.pop(), got) {
        (Some(second), Some(first), 2) => Ok((first, second)),
        _ => Err(lacking(2, got)),
    }
}

/// The three children.
pub fn three<T: Drop>(children: Vec<T>) -> VortexResult<(T, T, T)> {
    let got = children.len();
    let mut children = children;
    match (children.pop(), children.pop(), children.pop(), got) {
        (Some(third), Some(second), Some(first), 3) => Ok((first, second, third)),
        _ => Err(lacking(3, got)),
    }
}

/// Each child beside its name.
pub fn named<T: Drop>(
    alloc: Global,
    names: &FieldNames,
    children: Vec<T>,
) -> VortexResult<Vec<(FieldName, T)>> {
    let mut elements = Vec::new(alloc);
    for (name, child) in names.iter().zip(children) {
        elements.push((name.clone()?, child))?;
    }
    Ok(elements)
}

/// Each condition beside its value, and the ELSE value where there is one.
pub fn cases<T: Drop>(
    alloc: Global,
    has_else: bool,
    children: Vec<T>,
) -> VortexResult<(Vec<(T, T)>, Option<T>)> {
    let mut children = children;
    let otherwise = if has_else { children.pop() } else { None };
    let mut pairs = Vec::new(alloc);
    let mut condition = None;
    for child in children {
        condition = match condition.take() {
            None => Some(child),
            Some(condition) => {
                pairs.push((condition, child))?;
                None
            }
        };
    }
    Ok((pairs, otherwise))
}
