// Answers of functions: their texts, children and types.
use crate::told::told;
use std::alloc::Global;
use vx_test_support::{Unread, dtype, expression};
use vx_tree::{Expression, ScalarFnRef, VortexResult};

// The function at the top of the tree.
fn function_of(alloc: Global, tree: &str) -> Result<ScalarFnRef, Unread> {
    match &expression(alloc, tree)? {
        Expression::Scalar { scalar_fn, .. } => Ok(scalar_fn.clone()?),
        Expression::Root => Err(Unread::Word("no function")),
    }
}

/// The function's text, which its id begins, and how many children it takes; its clone is equal.
pub fn shown_function(alloc: Global, tree: &str) -> Result<String, Unread> {
    let scalar_fn = function_of(alloc, tree)?;
    Ok(shown(alloc, &scalar_fn)?)
}

fn shown(alloc: Global, scalar_fn: &ScalarFnRef) -> VortexResult<String> {
    let text = format!(in alloc; "{scalar_fn}")?;
    let clone = scalar_fn.clone()?;
    if !text.as_str().starts_with(scalar_fn.id()) || clone != *scalar_fn {
        return Ok(format!(in alloc; "{text}, without its id or with another clone")?);
    }
    let arity = scalar_fn.arity();
    if let ScalarFnRef::CaseWhen(options) = scalar_fn {
        let count = options.num_children();
        if count != arity {
            return Ok(format!(in alloc; "{text}, {arity} or {count} children")?);
        }
    }
    Ok(format!(in alloc; "{text}, {arity} children")?)
}

/// What the function's children are called.
pub fn child_names(alloc: Global, tree: &str) -> Result<String, Unread> {
    let scalar_fn = function_of(alloc, tree)?;
    Ok(names_of(alloc, &scalar_fn)?)
}

fn names_of(alloc: Global, scalar_fn: &ScalarFnRef) -> VortexResult<String> {
    let mut text = String::new(alloc);
    for index in 0..scalar_fn.arity() {
        let name = scalar_fn.child_name(alloc, index)?;
        push_word(&mut text, name.as_str())?;
    }
    Ok(text)
}

fn push_word(text: &mut String, word: &str) -> VortexResult<()> {
    if !text.is_empty() {
        text.push(' ')?;
    }
    Ok(text.push_str(word)?)
}

/// The type of a node of the function over children of these types.
pub fn node_type(alloc: Global, tree: &str, types: &str) -> Result<String, Unread> {
    let scalar_fn = function_of(alloc, tree)?;
    let mut given = Vec::new(alloc);
    for text in types.split_whitespace() {
        given.push(dtype(alloc, text)?)?;
    }
    Ok(told(alloc, scalar_fn.return_dtype(alloc, given.as_slice()))?)
}

/// The names that the selection at the top of the tree keeps of those that are there.
pub fn kept(alloc: Global, tree: &str, names: &str) -> Result<String, Unread> {
    let scalar_fn = function_of(alloc, tree)?;
    let ScalarFnRef::Select(selection) = &scalar_fn else {
        return Err(Unread::Word("no selection"));
    };
    let there = vx_test_support::names(alloc, names, ' ')?;
    match selection.normalize_to_included_fields(alloc, &there) {
        Ok(kept) => {
            let mut text = String::new(alloc);
            for name in kept.iter() {
                push_word(&mut text, name.as_str())?;
            }
            Ok(text)
        }
        Err(refusal) => Ok(crate::told::refused(alloc, &refusal)?),
    }
}

/// The operator for exchanged operands.
pub fn swapped(alloc: Global, sign: &str) -> Result<String, Unread> {
    let compared = format!(in alloc; "$ {sign} $")?;
    let scalar_fn = function_of(alloc, compared.as_str())?;
    let ScalarFnRef::Binary(operator) = &scalar_fn else {
        return Err(Unread::Word("no operator"));
    };
    match operator.swap() {
        Some(swapped) => Ok(format!(in alloc; "{swapped}")?),
        None => Ok(String::from_str(alloc, "none")?),
    }
}
