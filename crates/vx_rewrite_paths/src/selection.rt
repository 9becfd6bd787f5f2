// What a selection of fields asks its child for.
ghost use Rattle.std.specs.Prelude.{◌≡◌, Ok, filter};
ghost use Rattle.vx_value.specs.Returns.{ReturnsOrOom};
ghost use Rattle.vx_value.specs.Fields.{field_names, is_among};
ghost use Rattle.vx_value.specs.Views.{type_of, fields_of};
ghost use Rattle.vx_rewrite_paths.specs.Asked.{select_paths};
ghost use Rattle.vx_rewrite_paths.specs.Requests.{requested, selected_of};

use crate::request::{Front, Request};
use std::alloc::Global;
use vx_dtype::{DType, FieldName, FieldNames, StructFields, VortexResult};
use vx_fn::FieldSelection;

// What a selection asks its child for.
#[derive(Drop)]
pub(crate) enum Selected {
    // No path.
    Nothing,
    // The root path.
    Whole,
    // What the selection itself is asked for.
    Same,
    // A path for each of these names, of it alone.
    Each(FieldNames),
}

impl Selected {
    // As a request, where the selection itself is asked for that one.
    pub(crate) fn request<'a>(&'a self, asked: Request<'a>) -> Request<'a>
        ensures { requested result ≡ selected_of self.now (requested asked.entry) }
    {
        match self {
            Selected::Nothing => Request {
                front: Front::Empty,
                ends: Some(&[]),
            },
            Selected::Whole => Request::whole(),
            Selected::Same => asked,
            Selected::Each(names) => Request {
                front: Front::Empty,
                ends: Some(names.as_slice()),
            },
        }
    }
}

// What the selection asks a child of that type for, where it is asked for those paths.
pub(crate) fn asked_by(
    alloc: Global,
    selection: &FieldSelection,
    dtype: &DType,
    asked: &Request<'_>,
) -> VortexResult<Selected>
    ensures { ReturnsOrOom (λ s. selected_of s (requested asked.now)) result (Ok (select_paths selection.now (type_of dtype.now) (requested asked.now))) }
{
    let DType::Struct(fields, nullability) = dtype else {
        return Ok(Selected::Whole);
    };
    let names = selection.kept(alloc, own_names(fields))?;
    if names.is_empty() {
        if nullability.admits_null() {
            return Ok(Selected::Whole);
        }
        return Ok(Selected::Nothing);
    }
    match asked.front {
        Front::Item(first, _) => {
            if names.contains(first) {
                return Ok(Selected::Same);
            }
            Ok(Selected::Nothing)
        }
        Front::Empty => match asked.ends {
            None => Ok(Selected::Each(names)),
            Some(ends) => Ok(Selected::Each(among(alloc, &names, ends)?)),
        },
    }
}

// The names of the fields.
fn own_names(fields: &StructFields) -> &[FieldName]
    ensures { result.now ≡ field_names (fields_of fields.now) }
{
    &fields.names().as_slice()[..fields.nfields()]
}

// Those of the names that are among the included ones.
fn among(alloc: Global, included: &FieldNames, names: &[FieldName]) -> VortexResult<FieldNames>
    ensures { ReturnsOrOom (λ kept. kept) result (Ok (filter (is_among included.now) names.now)) }
{
    let mut kept = Vec::new(alloc);
    for name in names {
        if included.contains(name) {
            kept.push(name.clone()?)?;
        }
    }
    FieldNames::new(alloc, kept)
}
