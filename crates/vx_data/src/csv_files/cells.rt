// Values of cells.
use crate::cells::{bytes_of, text_of, whole_of};
use crate::csv_files::plan::{FieldPlan, Plan};
use crate::expected::Expected;
use crate::fault::Fault;
use crate::numbers::{float_value, number_counted, number_said, number_value};
use csv::ByteRecord;
use std::alloc::Global;
use std::str;
use vx_dtype::{DType, FloatType, PType};
use vx_floats::Float;
use vx_value::Value;

/// The cells that a record has of a type.
#[derive(Clone, Copy)]
pub(crate) struct Found<'a> {
    pub(crate) record: &'a ByteRecord,
    pub(crate) places: &'a [Option<usize>],
    /// Of each cell whether its value is asked for.
    pub(crate) asked: &'a [bool],
    /// Whether all bytes of the cells are ASCII, so that each of these is a text.
    pub(crate) is_ascii: bool,
    /// The text of a cell that is null where an empty one would be.
    pub(crate) null: Option<&'a [u8]>,
}

impl<'a> Found<'a> {
    // Whether nothing is asked for that the cells make, and they plainly make a value: then what they make is passed over.
    #[cycle(passes)]
    fn passes(&self, plan: &Plan) -> bool {
        match plan {
            Plan::Cell { dtype, cell } => {
                !self.is_asked(*cell) && self.is_plain(dtype, self.cell(*cell))
            }
            Plan::Struct(plan) => plan.nullable && self.passes_each(&plan.fields),
        }
    }

    #[cycle(passes)]
    fn passes_each(&self, fields: &Vec<FieldPlan>) -> bool {
        for field in fields {
            if !self.passes(&field.plan) {
                return false;
            }
        }
        true
    }

    fn is_asked(&self, cell: usize) -> bool {
        matches!(self.asked.get(cell), Some(true))
    }

    // Whether a cell is plainly a value of the type: one that isn't found to be may still be some.
    fn is_plain(&self, dtype: &DType, text: Option<&[u8]>) -> bool {
        if dtype.is_nullable() && self.is_null(text) {
            return true;
        }
        match (dtype, text) {
            (DType::Bool(_), Some(b"true" | b"false")) => true,
            (DType::Primitive(ptype, _), Some(text)) => are_few_digits(text, *ptype),
            (DType::Float(_, _), Some(text)) => is_short_decimal(text),
            (DType::Utf8(_), Some(_)) => self.is_ascii,
            _ => false,
        }
    }

    // The cell of that number, if the record has one.
    fn cell(&self, cell: usize) -> Option<&'a [u8]> {
        match self.places.get(cell) {
            Some(Some(place)) => self.record.get(*place),
            _ => None,
        }
    }

    // Whether a cell is null where it may be: of that text, or one that the record lacks.
    fn is_null(&self, text: Option<&[u8]>) -> bool {
        match text {
            Some(text) => text.is_empty() || self.null == Some(text),
            None => true,
        }
    }

    // Whether the cells from one number up to another are all null where they may be.
    fn are_null(&self, start: usize, end: usize) -> bool {
        for cell in start..end {
            if !self.is_null(self.cell(cell)) {
                return false;
            }
        }
        true
    }
}

/// The value that the cells make.
#[cycle(read)]
pub(crate) fn read_value(plan: &Plan, alloc: Global, found: &Found<'_>) -> Result<Value, Fault> {
    match plan {
        Plan::Cell { dtype, cell } => cell_value(alloc, dtype, found, *cell),
        Plan::Struct(plan) => {
            if plan.nullable && found.are_null(plan.start, plan.end) {
                return Ok(Value::Null);
            }
            Ok(Value::Struct(read_fields(&plan.fields, alloc, found)?))
        }
    }
}

#[cycle(read)]
fn read_fields(
    fields: &Vec<FieldPlan>,
    alloc: Global,
    found: &Found<'_>,
) -> Result<Vec<Value>, Fault> {
    let mut values = Vec::with_capacity(alloc, fields.len())?;
    for field in fields {
        if found.passes(&field.plan) {
            values.push(stand_in(alloc, &field.plan))?;
            continue;
        }
        match read_value(&field.plan, alloc, found) {
            Ok(value) => values.push(value)?,
            Err(fault) => return Err(fault.within(&field.name)),
        }
    }
    Ok(values)
}

// A value in place of one that is passed over: null where that may be.
fn stand_in(alloc: Global, plan: &Plan) -> Value {
    match plan {
        Plan::Cell { dtype, .. } if !dtype.is_nullable() => match dtype {
            DType::Bool(_) => Value::Bool(false),
            DType::Primitive(_, _)
            | DType::Decimal(_, _)
            | DType::Date(_)
            | DType::Timestamp(_, _) => Value::Int(0),
            DType::Float(FloatType::F32, _) => Value::Float(Float::F32(0)),
            DType::Float(FloatType::F64, _) => Value::Float(Float::F64(0)),
            DType::Utf8(_) => Value::Utf8(String::new(alloc)),
            _ => Value::Null,
        },
        _ => Value::Null,
    }
}

// Whether the text is of digits, as few as each number of that type may have.
fn are_few_digits(text: &[u8], ptype: PType) -> bool {
    let few = match ptype {
        PType::U8 | PType::I8 => 2,
        PType::U16 | PType::I16 => 4,
        PType::U32 | PType::I32 => 9,
        PType::U64 | PType::I64 => 18,
    };
    !text.is_empty() && text.len() <= few && text.iter().all(|byte| byte.is_ascii_digit())
}

// Whether the text is of digits, perhaps with a minus before them and a point between them, as few as a number of each format
// may have.
fn is_short_decimal(text: &[u8]) -> bool {
    let digits = match text {
        [b'-', digits @ ..] => digits,
        _ => text,
    };
    let (Some(first), Some(last)) = (digits.first(), digits.last()) else {
        return false;
    };
    first.is_ascii_digit() && last.is_ascii_digit() && digits.len() <= 18 && has_one_point(digits)
}

// Whether the bytes are digits, but for one point or none.
fn has_one_point(bytes: &[u8]) -> bool {
    let mut pointed = false;
    for byte in bytes {
        if *byte == b'.' && !pointed {
            pointed = true;
        } else if !byte.is_ascii_digit() {
            return false;
        }
    }
    true
}

/// Whether all bytes are ASCII.
pub(crate) fn is_ascii(bytes: &[u8]) -> bool {
    let mut joined = 0;
    for byte in bytes {
        joined |= *byte;
    }
    joined < 128
}

// The value of that type that the cell of that number is.
fn cell_value(
    alloc: Global,
    dtype: &DType,
    found: &Found<'_>,
    cell: usize,
) -> Result<Value, Fault> {
    let text = found.cell(cell);
    if dtype.is_nullable() && found.is_null(text) {
        return Ok(Value::Null);
    }
    let Some(text) = text else {
        return Err(Fault::new(alloc, Expected::Present));
    };
    match str::from_utf8(text) {
        Ok(text) => text_value(alloc, dtype, text),
        Err(_) => Err(Fault::new(alloc, Expected::Utf8)),
    }
}

fn text_value(alloc: Global, dtype: &DType, text: &str) -> Result<Value, Fault> {
    match dtype {
        DType::Bool(_) => truth_of(alloc, text),
        DType::Primitive(ptype, _) => match whole_of(text, *ptype) {
            Some(number) => Ok(Value::Int(number)),
            None => Err(Fault::new(alloc, Expected::Whole(*ptype))),
        },
        DType::Float(format, nullability) => float_value(alloc, text, *format, *nullability),
        DType::Utf8(_) => text_of(alloc, text),
        DType::Binary(_) => bytes_of(alloc, text),
        DType::Decimal(_, _) | DType::Date(_) | DType::Timestamp(_, _) => {
            let said = number_said(text, dtype);
            let number = said.or_else(|| number_counted(text, dtype));
            number_value(alloc, number, text, dtype)
        }
        DType::List(_, _) | DType::FixedSizeList(_, _, _) | DType::Struct(_, _) => Err(Fault::new(
            alloc,
            Expected::CellType(dtype.clone()?),
        )),
    }
}

fn truth_of(alloc: Global, text: &str) -> Result<Value, Fault> {
    match text {
        "true" => Ok(Value::Bool(true)),
        "false" => Ok(Value::Bool(false)),
        _ => Err(Fault::new(alloc, Expected::Truth)),
    }
}
