// Which rows aren't null, where that is given.
ghost use Rattle.std.specs.Prelude.{◌≡◌, List, is_some};
ghost use Rattle.vx_value.specs.Types.{Datum};
ghost use Rattle.vx_value.specs.Views.{admits_null};
ghost use Rattle.vx_array.specs.Shown.{shown};
ghost use Rattle.vx_array_build.specs.Built.{shown_by};

use vx_array::Validity;
use vx_dtype::Nullability;

// Nullable where there is a validity.
pub(crate) fn nullability(validity: &Option<Validity>) -> Nullability
    ensures { admits_null result ≡ is_some validity.now }
{
    Nullability::of(validity.is_some())
}

// The validity, and where there is none that of rows that are all valid.
pub(crate) fn or_all(validity: Option<Validity>) -> Validity
    ensures { (ds : List Datum) → shown result ds ≡ shown_by validity ds }
{
    match validity {
        Some(validity) => validity,
        None => Validity::All,
    }
}
