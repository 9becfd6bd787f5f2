// Types in whose structs no two fields have one name.
use crate::expected::Expected;
use crate::fault::Fault;
use std::alloc::Global;
use vx_dtype::{DType, StructFields};

/// Refuses a type with a struct, at any depth, of which two fields have one name, with the path of the first field whose
/// name stands before it. Time is linear in the type.
#[cycle(distinct)]
pub(crate) fn check_names(alloc: Global, dtype: &DType) -> Result<(), Fault> {
    match dtype {
        DType::List(element, _) => check_names(alloc, element.as_ref()),
        DType::FixedSizeList(element, _, _) => check_names(alloc, element.as_ref()),
        DType::Struct(fields, _) => check_fields(alloc, fields),
        _ => Ok(()),
    }
}

#[cycle(distinct)]
fn check_fields(alloc: Global, fields: &StructFields) -> Result<(), Fault> {
    let names = fields.names().as_slice();
    let types = fields.types();
    for i in 0..fields.nfields() {
        if fields.names().find(&names[i]) != Some(i) {
            return Err(Fault::new(alloc, Expected::DistinctNames).within(&names[i]));
        }
        if let Err(fault) = check_names(alloc, &types[i]) {
            return Err(fault.within(&names[i]));
        }
    }
    Ok(())
}
