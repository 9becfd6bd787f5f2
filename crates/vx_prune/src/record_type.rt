// The type of a record of statistics.
use crate::places::Place;
use std::alloc::Global;
use vx_dtype::{
    DType, FieldName, FieldNames, Nullability, PType, StructFields, VortexError, VortexResult,
};

/// The type of a record of statistics of rows with these places: how many rows there are, and for
/// each place that is said something of, what.
pub fn record_type(alloc: Global, places: &[Place<'_>]) -> VortexResult<DType> {
    let mut names = Vec::with_capacity(alloc, places.len())?;
    let mut types = Vec::with_capacity(alloc, places.len())?;
    for place in places {
        names.push(place.name.clone()?)?;
        types.push(known_type(alloc, place.dtype)?)?;
    }
    let fields = struct_type(alloc, names, types, Nullability::Nullable)?;
    let names = names_of(alloc, &["rows", "fields"])?;
    let types = vec![in alloc;
        DType::Primitive(PType::U64, Nullability::NonNullable),
        fields,
    ]?;
    struct_type(alloc, names, types, Nullability::NonNullable)
}

// What may be said of values of the type: how many are null, and of those that can be compared also
// the ends.
fn known_type(alloc: Global, dtype: &DType) -> VortexResult<DType> {
    let count = DType::Primitive(PType::U64, Nullability::Nullable);
    match dtype {
        DType::List(..) | DType::FixedSizeList(..) | DType::Struct(..) => {
            let names = names_of(alloc, &["nulls"])?;
            let types = vec![in alloc; count]?;
            struct_type(alloc, names, types, Nullability::Nullable)
        }
        _ => {
            let least = dtype.clone()?.as_nullable();
            let greatest = dtype.clone()?.as_nullable();
            let names = names_of(alloc, &["nulls", "least", "greatest"])?;
            let types = vec![in alloc; count, least, greatest]?;
            struct_type(alloc, names, types, Nullability::Nullable)
        }
    }
}

fn names_of(alloc: Global, texts: &[&str]) -> VortexResult<Vec<FieldName>> {
    let mut names = Vec::with_capacity(alloc, texts.len())?;
    for text in texts {
        names.push(FieldName::new(alloc, text)?)?;
    }
    Ok(names)
}

// The struct of these fields, of which there is a type for each name.
fn struct_type(
    alloc: Global,
    names: Vec<FieldName>,
    types: Vec<DType>,
    nullability: Nullability,
) -> VortexResult<DType> {
    if names.len() != types.len() {
        return Err(VortexError::LengthMismatch);
    }
    let names = FieldNames::new(alloc, names)?;
    Ok(DType::Struct(StructFields::new(alloc, names, types)?, nullability))
}
