// Paths that lead nowhere in a type.
ghost use Rattle.std.specs.Prelude.{◌≡◌, Ok};
ghost use Rattle.vx_value.specs.Returns.{ReturnsOrOom};
ghost use Rattle.vx_value.specs.Paths.{minimal_paths, path_of};
ghost use Rattle.vx_value.specs.Views.{type_of};
ghost use Rattle.vx_projection.specs.Lost.{first_lost, lost, unless_lost};

use vx_dtype::{DType, VortexError, VortexResult};
use vx_value::{Field, FieldPathSet};

// Refuses the first path of the set that leads nowhere in the type.
pub(crate) fn check_paths(dtype: &DType, paths: &FieldPathSet) -> VortexResult<()>
    ensures { ReturnsOrOom (λ done. done) result (unless_lost (first_lost (minimal_paths paths.now) (type_of dtype.now)) tt) }
{
    for path in paths.iter() {
        check_path(dtype, path.parts())?;
    }
    Ok(())
}

// Refuses a path that leads nowhere in the type.
fn check_path(dtype: &DType, path: &[Field]) -> VortexResult<()>
    ensures { ReturnsOrOom (λ done. done) result (unless_lost (lost (path_of path.now) (type_of dtype.now)) tt) }
{
    let [Field::Name(name), rest @ ..] = path else {
        return Ok(());
    };
    let Some(fields) = dtype.as_struct_fields_opt() else {
        return Err(VortexError::NotAStruct);
    };
    match fields.field(name) {
        Some(inside) => check_path(inside, rest),
        None => Err(VortexError::NoSuchField(name.clone()?)),
    }
}
