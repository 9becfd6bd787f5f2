// The places in the rows of a type.
use std::alloc::{AllocError, Global};
use vx_dtype::{DType, FieldName, StructFields, VortexResult};
use vx_source_types::NameText;
use vx_value::{Field, FieldPath};

/// A place in the rows of a type: what a record calls it, the path that leads there, and the type of
/// what stands there.
#[derive(Drop)]
pub struct Place<'a> {
    pub name: FieldName,
    pub path: FieldPath,
    pub dtype: &'a DType,
}

/// The places in the rows of the type: the whole row, and behind each struct its fields.
pub fn places_in<'a>(alloc: Global, dtype: &'a DType) -> VortexResult<Vec<Place<'a>>> {
    let mut places = Vec::new(alloc);
    push_places(alloc, FieldPath::root(alloc)?, dtype, &mut places)?;
    Ok(places)
}

#[cycle(places)]
fn push_places<'a>(
    alloc: Global,
    path: FieldPath,
    dtype: &'a DType,
    places: &mut Vec<Place<'a>>,
) -> VortexResult<()> {
    let here = Place {
        name: FieldName::new(alloc, place_text(alloc, &path)?.as_str())?,
        path: path.clone()?,
        dtype,
    };
    places.push(here)?;
    match dtype {
        DType::Struct(fields, _) => push_fields(alloc, &path, fields, places),
        _ => Ok(()),
    }
}

#[cycle(places)]
fn push_fields<'a>(
    alloc: Global,
    path: &FieldPath,
    fields: &'a StructFields,
    places: &mut Vec<Place<'a>>,
) -> VortexResult<()> {
    let names = fields.names().as_slice();
    let types = fields.types();
    for i in 0..fields.nfields() {
        let inside = path.clone()?.push(alloc, names[i].clone()?)?;
        push_places(alloc, inside, &types[i], places)?;
    }
    Ok(())
}

// The path as source text has it: the names with dots between them, and `$` for the whole row.
fn place_text(alloc: Global, path: &FieldPath) -> Result<String, AllocError> {
    let mut text = String::new(alloc);
    for Field::Name(name) in path.parts() {
        let before = if text.is_empty() { "" } else { "." };
        text.push_str(format!(in alloc; "{before}{}", NameText(name))?.as_str())?;
    }
    if text.is_empty() {
        text.push('$')?;
    }
    Ok(text)
}
