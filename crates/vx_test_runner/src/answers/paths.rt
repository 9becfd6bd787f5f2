// Paths as texts.
use std::alloc::Global;
use vx_test_support::Unread;
use vx_tree::{FieldName, VortexResult};
use vx_value::{Field, FieldPath, FieldPathSet};

/// The paths that the set gives: `$.a.x $.b`, the root path as `$`.
pub fn shown_paths(alloc: Global, set: &FieldPathSet) -> VortexResult<String> {
    let mut text = String::new(alloc);
    for path in set.iter() {
        if !text.is_empty() {
            text.push(' ')?;
        }
        push_path(&mut text, path)?;
    }
    Ok(text)
}

/// Adds the path: `$.a.x`, the root path as `$`.
pub fn push_path(text: &mut String, path: &FieldPath) -> VortexResult<()> {
    text.push('$')?;
    for Field::Name(name) in path.parts() {
        text.push('.')?;
        text.push_str(name.as_str())?;
    }
    Ok(())
}

/// A set extended by the paths of each group, of which `;` ends one: `a.x b ; $`.
pub fn path_set(alloc: Global, groups: &str) -> Result<String, Unread> {
    let mut set = FieldPathSet::new(alloc);
    for group in groups.split(';') {
        set.extend(paths_of(alloc, group)?)?;
    }
    Ok(shown_paths(alloc, &set)?)
}

/// The paths of the words: `a.x b`, the root path as `$`.
pub fn paths_of(alloc: Global, words: &str) -> VortexResult<Vec<FieldPath>> {
    let mut paths = Vec::new(alloc);
    for text in words.split_whitespace() {
        paths.push(path(alloc, text)?)?;
    }
    Ok(paths)
}

/// The path of the word: `a.x`, or `$`.
pub fn path(alloc: Global, text: &str) -> VortexResult<FieldPath> {
    let mut path = FieldPath::root(alloc)?;
    if text == "$" {
        return Ok(path);
    }
    for name in text.split('.') {
        path = path.push(alloc, FieldName::new(alloc, name)?)?;
    }
    Ok(path)
}
