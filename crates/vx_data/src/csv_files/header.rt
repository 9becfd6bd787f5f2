// The names of cells.
use crate::expected::Expected;
use crate::fault::Fault;
use csv::ByteRecord;
use std::alloc::Global;
use std::str;
use vx_dtype::FieldName;

/// The names of the cells of a file that begins with that record: as they stand in it where it is the header, else
/// `column1`, `column2`, and so on.
pub(crate) fn cell_names(
    alloc: Global,
    first: &ByteRecord,
    has_header: bool,
) -> Result<Vec<FieldName>, Fault> {
    if has_header {
        header_names(alloc, first)
    } else {
        numbered_names(alloc, first.len())
    }
}

fn header_names(alloc: Global, header: &ByteRecord) -> Result<Vec<FieldName>, Fault> {
    let mut names = Vec::new(alloc);
    for cell in header.iter() {
        let Ok(name) = str::from_utf8(cell) else {
            return Err(Fault::new(alloc, Expected::Utf8));
        };
        names.push(named(alloc, name)?)?;
    }
    Ok(names)
}

fn numbered_names(alloc: Global, count: usize) -> Result<Vec<FieldName>, Fault> {
    let mut names = Vec::with_capacity(alloc, count)?;
    for i in 0..count {
        let name = format!(in alloc; "column{}", i.saturating_add(1))?;
        names.push(named(alloc, name.as_str())?)?;
    }
    Ok(names)
}

/// The name of that text.
pub(crate) fn named(alloc: Global, name: &str) -> Result<FieldName, Fault> {
    match FieldName::new(alloc, name) {
        Ok(name) => Ok(name),
        Err(_) => Err(Fault::OutOfMemory),
    }
}

/// The fault at the path whose names the dotted one has.
pub(crate) fn fault_at(alloc: Global, expected: Expected, dotted: &str) -> Fault {
    let mut fault = Fault::new(alloc, expected);
    for part in dotted.rsplit('.') {
        fault = match named(alloc, part) {
            Ok(name) => fault.within(&name),
            Err(fault) => fault,
        };
    }
    fault
}
