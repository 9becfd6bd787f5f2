// Names and fields of scopes.
use std::alloc::Global;
use vx_dtype::{
    DType, FieldName, FieldNames, Nullability, PType, StructFields, VortexError, VortexResult,
};

/// The names of these texts.
pub fn names(alloc: Global, texts: &[&str]) -> VortexResult<FieldNames> {
    let mut names = Vec::with_capacity(alloc, texts.len())?;
    for text in texts {
        names.push(FieldName::new(alloc, text)?)?;
    }
    FieldNames::new(alloc, names)
}

/// So many names: `f0`, `f1`, ..
pub fn numbered_names(alloc: Global, count: usize) -> VortexResult<FieldNames> {
    let mut names = Vec::with_capacity(alloc, count)?;
    for i in 0..count {
        names.push(numbered(alloc, i)?)?;
    }
    FieldNames::new(alloc, names)
}

/// `f` and the number.
pub fn numbered(alloc: Global, i: usize) -> VortexResult<FieldName> {
    let text = format!(in alloc; "f{i}")?;
    FieldName::new(alloc, text.as_str())
}

/// Fields of 32-bit numbers, one for each name.
pub fn numbers(
    alloc: Global,
    names: FieldNames,
    nullability: Nullability,
) -> VortexResult<StructFields> {
    let mut types = Vec::with_capacity(alloc, names.len())?;
    for _ in 0..names.len() {
        types.push(DType::Primitive(PType::I32, nullability))?;
    }
    fields(alloc, names, types)
}

/// The fields of these names and types; `LengthMismatch` where there are more of one.
pub fn fields(alloc: Global, names: FieldNames, types: Vec<DType>) -> VortexResult<StructFields> {
    if names.len() != types.len() {
        return Err(VortexError::LengthMismatch);
    }
    StructFields::new(alloc, names, types)
}
