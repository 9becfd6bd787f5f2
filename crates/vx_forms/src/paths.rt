// Fields of the scope's row, and fields of these.
ghost use Rattle.std.specs.Prelude.{◌≡◌, Ok, IfOk, map};
ghost use Rattle.vx_dtype.specs.Returns.{ReturnsOrOom};
ghost use Rattle.vx_tree.specs.Trees.{root};
ghost use Rattle.vx_tree.specs.Views.{tree_of};
ghost use Rattle.vx_forms.specs.Fields.{field_below, names_in};

use std::alloc::{AllocError, Global};
use vx_build::{get_item, root};
use vx_tree::{Expression, FieldName, VortexResult};

/// The scope's field at the end of the names between the dots, as `field(alloc, "a.x")` for `$.a.x`.
/// A name is what stands between two dots, also nothing; one that has a dot is got by `get_item`.
/// Refuses with `OutOfMemory` (1) alone.
pub fn field(alloc: Global, path: &str) -> VortexResult<Expression>
    ensures { ReturnsOrOom tree_of result (Ok (field_below root (names_in path.now))) }
{
    let names = names_in(alloc, path)?;
    field_of(alloc, names)
}

// What stands between the dots.
fn names_in<'a>(alloc: Global, path: &'a str) -> Result<Vec<&'a str>, AllocError>
    ensures { IfOk result (λ names. map (λ name. name.now) names.items ≡ names_in path.now) }
{
    path.split('.').collect(alloc)
}

// The field that is reached by these names, each one that of a field of the last.
fn field_of(alloc: Global, names: Vec<&str>) -> VortexResult<Expression>
    ensures { ReturnsOrOom tree_of result (Ok (field_below root (map (λ name. name.now) names.entry.items))) }
{
    let mut reached = root();
    for name in names {
        reached = get_item(alloc, FieldName::new(alloc, name)?, reached)?;
    }
    Ok(reached)
}
