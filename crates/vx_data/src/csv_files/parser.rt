// Records read as values of a type.
use crate::csv_files::cells::{Found, is_ascii, read_value};
use crate::csv_files::format::CsvFormat;
use crate::csv_files::header::{cell_names, fault_at};
use crate::csv_files::plan::{Cells, FieldPlan, Plan, first_repeated, listed};
use crate::error::DataError;
use crate::expected::Expected;
use crate::fault::Fault;
use crate::other_fields::OtherFields;
use csv::ByteRecord;
use std::alloc::{AllocError, Global};
use vx_dtype::{DType, FieldName, FieldNames};
use vx_value::{FieldPathSet, Value};

/// Reads the records behind a header as values of a type.
#[derive(Debug, Drop)]
pub struct CsvParser {
    alloc: Global,
    plan: Plan,
    // For each cell of the type, where it stands in a record.
    places: Vec<Option<usize>>,
    // For each cell of the type, whether its value is asked for.
    asked: Vec<bool>,
    // The text of a cell that is null where an empty one would be.
    null: Option<String>,
}

/// The first record of a file, which names the cells where the file has a header, and the line that it stands on.
#[derive(Clone, Copy)]
pub struct FirstRecord<'a> {
    /// The line.
    pub line: u64,
    /// The record.
    pub cells: &'a ByteRecord,
}

impl CsvParser {
    /// A parser of the records behind that header, which stands on that line. The header has the names of the type's
    /// cells in any order: of a field of a field with a dot between the names, and `value` where the type is no struct. A
    /// cell that is nullable may be missing, and so may all cells of a struct that is. Refuses a name that is none of the
    /// type or stands there twice, and a missing cell, with the line and the path; a list with its type; two cells of one
    /// name; a type without a cell; and with `OutOfMemory`.
    pub fn new(
        alloc: Global,
        dtype: &DType,
        line: u64,
        header: &ByteRecord,
    ) -> Result<CsvParser, DataError> {
        CsvParser::with_format(alloc, dtype, line, header, CsvFormat::default())
    }

    /// The same of a file of that format. Where it has no header the record is the first row, and the names are the
    /// format's. The format's text for null is null wherever an empty cell is.
    pub fn with_format(
        alloc: Global,
        dtype: &DType,
        line: u64,
        first: &ByteRecord,
        format: CsvFormat<'_>,
    ) -> Result<CsvParser, DataError> {
        let first = FirstRecord { line, cells: first };
        CsvParser::with_others(alloc, dtype, first, format, OtherFields::Refused)
    }

    /// The same, where that becomes of cells whose names are none of the type.
    pub fn with_others(
        alloc: Global,
        dtype: &DType,
        first: FirstRecord<'_>,
        format: CsvFormat<'_>,
        others: OtherFields,
    ) -> Result<CsvParser, DataError> {
        match parser_of(alloc, dtype, first.cells, format, others) {
            Ok(parser) => Ok(parser),
            Err(fault) => Err(fault.on_line(alloc, first.line)),
        }
    }

    /// The same parser of values of its type, of which nothing is asked for but what stands at those paths: what stands
    /// elsewhere may be read as another value of its type. What is refused stays the same. Takes no memory. Time is linear in
    /// the cells and in the names of the paths.
    pub fn along(self, dtype: &DType, paths: &FieldPathSet) -> CsvParser {
        let CsvParser {
            alloc,
            plan,
            places,
            mut asked,
            null,
        } = self;
        asked.fill(false);
        for path in paths.iter() {
            let (start, end) = plan.cells_at(dtype, path.parts());
            ask(&mut asked, start, end);
        }
        CsvParser {
            alloc,
            plan,
            places,
            asked,
            null,
        }
    }

    /// The value that the record on that line is: a cell that is empty, or that the record lacks at its end, is null where its
    /// type is nullable, and a struct all of whose cells are so where that is; else `true`, `false`, a whole number of the
    /// type's range, a floating-point number (the nearest of the format, `nan`, `inf`, `-inf`, or `0x` and the digits of its
    /// bits), a decimal without an exponent, a day (`2024-01-31`) or an instant (`2024-01-31T10:15:30.25Z`, without the
    /// `Z` where the type has no zone) or such as a whole number of days or units since 1970, a text, or bytes as `0x` and two
    /// digits each. Digits of a decimal beyond its scale, and of a second beyond the unit, are zeros. Refuses with the line, the path of the field, and what is
    /// expected there, and with `OutOfMemory`.
    pub fn parse(&self, line: u64, record: &ByteRecord) -> Result<Value, DataError> {
        let found = Found {
            record,
            places: self.places.as_slice(),
            asked: self.asked.as_slice(),
            is_ascii: is_ascii(record.as_slice()),
            null: self.null.as_ref().map(String::as_bytes),
        };
        match read_value(&self.plan, self.alloc, &found) {
            Ok(value) => Ok(value),
            Err(fault) => Err(fault.on_line(self.alloc, line)),
        }
    }
}

fn parser_of(
    alloc: Global,
    dtype: &DType,
    first: &ByteRecord,
    format: CsvFormat<'_>,
    others: OtherFields,
) -> Result<CsvParser, Fault> {
    let Cells { plan, names } = Cells::of(alloc, dtype)?;
    let header = listed(alloc, cell_names(alloc, first, format.has_header)?)?;
    check_header(alloc, &header, &names, others)?;
    let places = places_of(alloc, &names, &header)?;
    check_present(&plan, alloc, places.as_slice())?;
    let mut asked = Vec::new(alloc);
    asked.resize(names.len(), true)?;
    let null = match format.null {
        Some(text) => Some(String::from_str(alloc, text)?),
        None => None,
    };
    Ok(CsvParser {
        alloc,
        plan,
        places,
        asked,
        null,
    })
}

// The cells from one number up to another are asked for.
fn ask(asked: &mut Vec<bool>, start: usize, end: usize) {
    for cell in start..end {
        if let Some(is_asked) = asked.get_mut(cell) {
            *is_asked = true;
        }
    }
}

// Refuses the first name of the header that stands there twice, or is none of the type's. Where such may stand there, the
// first of the type's is refused that the header lacks beside them.
fn check_header(
    alloc: Global,
    header: &FieldNames,
    names: &FieldNames,
    others: OtherFields,
) -> Result<(), Fault> {
    if let Some(name) = first_repeated(header) {
        return Err(fault_at(alloc, Expected::Once, name.as_str()));
    }
    let Some(other) = first_lacked(header, names) else {
        return Ok(());
    };
    match (others, first_lacked(names, header)) {
        (OtherFields::Refused, _) => Err(fault_at(alloc, Expected::Field, other.as_str())),
        (OtherFields::PassedOver, Some(name)) => {
            Err(fault_at(alloc, Expected::InHeader, name.as_str()))
        }
        (OtherFields::PassedOver, None) => Ok(()),
    }
}

// The first of the names that isn't among the others.
fn first_lacked<'a>(names: &'a FieldNames, others: &FieldNames) -> Option<&'a FieldName> {
    names.iter().find(|name| !others.contains(name))
}

// For each name where it stands in the header.
fn places_of(
    alloc: Global,
    names: &FieldNames,
    header: &FieldNames,
) -> Result<Vec<Option<usize>>, AllocError> {
    let mut places = Vec::with_capacity(alloc, names.len())?;
    for name in names.iter() {
        places.push(header.find(name))?;
    }
    Ok(places)
}

// Refuses the first cell that is missing and isn't nullable, nor in a nullable struct that has none.
#[cycle(present)]
fn check_present(plan: &Plan, alloc: Global, places: &[Option<usize>]) -> Result<(), Fault> {
    match plan {
        Plan::Cell { dtype, cell } => {
            if dtype.is_nullable() || is_among(places, *cell) {
                Ok(())
            } else {
                Err(Fault::new(alloc, Expected::Present))
            }
        }
        Plan::Struct(plan) => {
            let mut cells = plan.start..plan.end;
            if plan.nullable && !cells.any(|cell| is_among(places, cell)) {
                return Ok(());
            }
            check_each(&plan.fields, alloc, places)
        }
    }
}

#[cycle(present)]
fn check_each(
    fields: &Vec<FieldPlan>,
    alloc: Global,
    places: &[Option<usize>],
) -> Result<(), Fault> {
    for field in fields {
        if let Err(fault) = check_present(&field.plan, alloc, places) {
            return Err(fault.within(&field.name));
        }
    }
    Ok(())
}

fn is_among(places: &[Option<usize>], cell: usize) -> bool {
    matches!(places.get(cell), Some(Some(_)))
}
