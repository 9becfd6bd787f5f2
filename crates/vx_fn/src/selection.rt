// Which of the available names a selection keeps.
ghost use Rattle.std.specs.Prelude.{◌≡◌, Ok, option_map};
ghost use Rattle.vx_value.specs.Returns.{ReturnsOrOom};
ghost use Rattle.vx_value.specs.Fields.{first_missing};
ghost use Rattle.vx_fn.specs.Selections.{kept_names, normalized};

use crate::FieldSelection;
use std::alloc::Global;
use vx_dtype::{FieldName, FieldNames, VortexError, VortexResult, names_without};

impl FieldSelection {
    /// The names of the fields that are kept: those of an inclusion as they are given, or the
    /// available names that an exclusion doesn't leave out, in their order. Refuses with
    /// `NoSuchField` (5) and the first name of the selection that isn't available.
    pub fn normalize_to_included_fields(
        &self,
        alloc: Global,
        available: &FieldNames,
    ) -> VortexResult<FieldNames>
        ensures { ReturnsOrOom (λ names. names) result (normalized self.now available.now) }
    {
        if let Some(missing) = first_missing(available, self.field_names()) {
            return Err(VortexError::NoSuchField(missing.clone()?));
        }
        self.kept(alloc, available.as_slice())
    }

    /// The same of names that are known to be available: what isn't is passed over. Refuses with
    /// `OutOfMemory` (1) alone.
    pub fn kept(&self, alloc: Global, available: &[FieldName]) -> VortexResult<FieldNames>
        ensures { ReturnsOrOom (λ names. names) result (Ok (kept_names self.now available.now)) }
    {
        match self {
            FieldSelection::Include(names) => Ok(names.clone()?),
            FieldSelection::Exclude(names) => {
                FieldNames::new(alloc, names_without(alloc, available, names)?)
            }
        }
    }
}

// The first of the names that isn't available.
fn first_missing<'a>(available: &FieldNames, names: &'a FieldNames) -> Option<&'a FieldName>
    ensures { option_map (λ a. a.now) result ≡ first_missing available.now names.now }
{
    names.iter().find(|name| !available.contains(name))
}
