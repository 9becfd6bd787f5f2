// Paths that are lent, and what is left of them behind a name.
ghost use Rattle.std.specs.Prelude.{◌≡◌, [], IfOk, option_map};
ghost use Rattle.vx_value.specs.Paths.{is_member, minimal_paths, path_of};
ghost use Rattle.vx_projection.specs.Kept.{others, rest_behind, rests};
ghost use Rattle.vx_projection.specs.Wanted.{lent_paths};

use std::alloc::{AllocError, Global};
use vx_dtype::FieldName;
use vx_value::{Field, FieldPathSet};

/// The paths of the set of which no other is a beginning, in their order, lent.
pub fn lent<'a>(alloc: Global, paths: &'a FieldPathSet) -> Result<Vec<&'a [Field]>, AllocError>
    ensures { IfOk result (λ lent. lent_paths lent.items ≡ minimal_paths paths.now) }
{
    let mut lent = Vec::new(alloc);
    for path in paths.iter() {
        lent.push(path.parts())?;
    }
    Ok(lent)
}

/// Whether the root path, which has no part, is one of these.
pub fn has_root(paths: &[&[Field]]) -> bool
    ensures { result ≡ is_member (lent_paths paths.now) [] }
{
    for i in 0..paths.len() {
        if paths[i].is_empty() {
            return true;
        }
    }
    false
}

/// The rests of the paths that begin with the name, and the paths that begin otherwise, both in their order.
pub fn parted<'a>(
    alloc: Global,
    name: &FieldName,
    paths: &[&'a [Field]],
) -> Result<(Vec<&'a [Field]>, Vec<&'a [Field]>), AllocError>
    ensures rests { IfOk result (λ parts. lent_paths parts.0.items ≡ rests name.now (lent_paths paths.now)) }
    ensures others { IfOk result (λ parts. lent_paths parts.1.items ≡ others name.now (lent_paths paths.now)) }
{
    let mut inside = Vec::new(alloc);
    let mut left = Vec::new(alloc);
    for i in 0..paths.len() {
        let path = paths[i];
        match rest_behind(name, path) {
            Some(rest) => inside.push(rest)?,
            None => left.push(path)?,
        }
    }
    Ok((inside, left))
}

// The rest of the path behind the name, if it begins with it.
fn rest_behind<'a>(name: &FieldName, path: &'a [Field]) -> Option<&'a [Field]>
    ensures { option_map (λ rest. path_of rest.now) result ≡ rest_behind name.now (path_of path.now) }
{
    let [Field::Name(first), rest @ ..] = path else {
        return None;
    };
    if *name == *first { Some(rest) } else { None }
}
