// Rows as buffers, one by one.
use crate::LayoutError;
use std::alloc::{AllocError, Global};
use vx_dtype::{DType, FloatType, PType, StructFields};
use vx_floats::Float;
use vx_value::Value;

// Adds the buffers of a column of the type with these rows. What stands below a null is null, too.
#[cycle(write)]
pub(crate) fn write_column<'a>(
    alloc: Global,
    t: &DType,
    rows: &[&'a Value],
    null: &'a Value,
    buffers: &mut Vec<Vec<u8>>,
) -> Result<(), LayoutError> {
    buffers.push(validity_of(alloc, t.is_nullable(), rows)?)?;
    match t {
        DType::Bool(_) => Ok(buffers.push(bits_of(alloc, rows, Bit::IsTrue)?)?),
        DType::Primitive(ptype, _) => Ok(buffers.push(numbers_of(alloc, *ptype, rows)?)?),
        DType::Float(format, _) => Ok(buffers.push(floats_of(alloc, *format, rows)?)?),
        DType::Decimal(_, _) => Ok(buffers.push(decimals_of(alloc, rows)?)?),
        DType::Date(_) => Ok(buffers.push(numbers_of(alloc, PType::I32, rows)?)?),
        DType::Timestamp(_, _) => Ok(buffers.push(numbers_of(alloc, PType::I64, rows)?)?),
        DType::Utf8(_) | DType::Binary(_) => {
            let (offsets, bytes) = spans_of(alloc, rows)?;
            buffers.push(offsets)?;
            buffers.push(bytes)?;
            Ok(())
        }
        DType::List(item, _) => {
            let (offsets, items) = items_of(alloc, rows)?;
            buffers.push(offsets)?;
            write_column(alloc, item.as_ref(), items.as_slice(), null, buffers)
        }
        DType::FixedSizeList(item, size, _) => {
            let items = fixed_items(alloc, *size, rows, null)?;
            write_column(alloc, item.as_ref(), items.as_slice(), null, buffers)
        }
        DType::Struct(fields, _) => write_fields(alloc, fields, rows, null, buffers),
    }
}

// Adds the buffers of each field of these structs.
#[cycle(write)]
fn write_fields<'a>(
    alloc: Global,
    fields: &StructFields,
    rows: &[&'a Value],
    null: &'a Value,
    buffers: &mut Vec<Vec<u8>>,
) -> Result<(), LayoutError> {
    let types = fields.types();
    for field in 0..fields.nfields() {
        let values = field_of(alloc, field, rows, null)?;
        write_column(alloc, &types[field], values.as_slice(), null, buffers)?;
    }
    Ok(())
}

// Which rows aren't null. No byte where all are not, or where the type has no null.
fn validity_of(alloc: Global, is_nullable: bool, rows: &[&Value]) -> Result<Vec<u8>, AllocError> {
    if !is_nullable || rows.iter().all(|row| !row.is_null()) {
        return Ok(Vec::new(alloc));
    }
    bits_of(alloc, rows, Bit::IsThere)
}

// What a bit says of a row.
#[derive(Clone, Copy)]
enum Bit {
    IsThere,
    IsTrue,
}

// A bit for each row, the least significant of a byte first.
fn bits_of(alloc: Global, rows: &[&Value], bit: Bit) -> Result<Vec<u8>, AllocError> {
    let mut bytes = vec![in alloc; 0u8; rows.len().div_ceil(8)]?;
    for i in 0..rows.len() {
        let is_set = match (bit, rows[i]) {
            (Bit::IsThere, row) => !row.is_null(),
            (Bit::IsTrue, Value::Bool(truth)) => *truth,
            (Bit::IsTrue, _) => false,
        };
        if is_set {
            if let Some(byte) = bytes.get_mut(i / 8) {
                *byte |= 1 << (i % 8);
            }
        }
    }
    Ok(bytes)
}

// The numbers in the width of the type, least byte first.
fn numbers_of(alloc: Global, ptype: PType, rows: &[&Value]) -> Result<Vec<u8>, AllocError> {
    let width = match ptype {
        PType::U8 | PType::I8 => 1,
        PType::U16 | PType::I16 => 2,
        PType::U32 | PType::I32 => 4,
        PType::U64 | PType::I64 => 8,
    };
    let mut bytes = Vec::new(alloc);
    for row in rows {
        bytes.extend_from_slice(&number_of(row).to_le_bytes()[..width])?;
    }
    Ok(bytes)
}

// The bits of floating-point numbers in the width of the format, least byte first.
fn floats_of(alloc: Global, format: FloatType, rows: &[&Value]) -> Result<Vec<u8>, AllocError> {
    let width = match format {
        FloatType::F32 => 4,
        FloatType::F64 => 8,
    };
    let mut bytes = Vec::new(alloc);
    for row in rows {
        bytes.extend_from_slice(&float_bits(row).to_le_bytes()[..width])?;
    }
    Ok(bytes)
}

// The bits of the row's floating-point number, 0 where it has none.
fn float_bits(row: &Value) -> u64 {
    match row {
        Value::Float(Float::F32(bits)) => u64::from(*bits),
        Value::Float(Float::F64(bits)) => *bits,
        _ => 0,
    }
}

// The units of decimals in sixteen bytes each, least byte first.
fn decimals_of(alloc: Global, rows: &[&Value]) -> Result<Vec<u8>, AllocError> {
    let mut bytes = Vec::new(alloc);
    for row in rows {
        bytes.extend_from_slice(&number_of(row).to_le_bytes())?;
    }
    Ok(bytes)
}

// The number of the row, 0 where it has none.
fn number_of(row: &Value) -> i128 {
    match row {
        Value::Int(number) => *number,
        _ => 0,
    }
}

// The offsets and bytes of texts, or of bytes.
fn spans_of(alloc: Global, rows: &[&Value]) -> Result<(Vec<u8>, Vec<u8>), LayoutError> {
    let mut offsets = Vec::new(alloc);
    let mut bytes = Vec::new(alloc);
    push_offset(&mut offsets, 0)?;
    for row in rows {
        match row {
            Value::Utf8(text) => bytes.extend_from_slice(text.as_bytes())?,
            Value::Binary(octets) => bytes.extend_from_slice(octets.as_slice())?,
            _ => {}
        }
        push_offset(&mut offsets, bytes.len())?;
    }
    Ok((offsets, bytes))
}

// The offsets and items of lists.
fn items_of<'a>(
    alloc: Global,
    rows: &[&'a Value],
) -> Result<(Vec<u8>, Vec<&'a Value>), LayoutError> {
    let mut offsets = Vec::new(alloc);
    let mut items = Vec::new(alloc);
    push_offset(&mut offsets, 0)?;
    for row in rows {
        if let Value::List(values) = row {
            for value in values {
                items.push(value)?;
            }
        }
        push_offset(&mut offsets, items.len())?;
    }
    Ok((offsets, items))
}

fn push_offset(offsets: &mut Vec<u8>, offset: usize) -> Result<(), LayoutError> {
    match i32::try_from(offset) {
        Ok(offset) => Ok(offsets.extend_from_slice(&offset.to_le_bytes())?),
        Err(_) => Err(LayoutError::TooLong),
    }
}

// The items of lists of one size, as many of a null as of any other.
fn fixed_items<'a>(
    alloc: Global,
    size: u32,
    rows: &[&'a Value],
    null: &'a Value,
) -> Result<Vec<&'a Value>, AllocError> {
    let mut items = Vec::new(alloc);
    for row in rows {
        match row {
            Value::List(values) => {
                for value in values {
                    items.push(value)?;
                }
            }
            _ => {
                for _ in 0..size {
                    items.push(null)?;
                }
            }
        }
    }
    Ok(items)
}

// The values of one field.
fn field_of<'a>(
    alloc: Global,
    field: usize,
    rows: &[&'a Value],
    null: &'a Value,
) -> Result<Vec<&'a Value>, AllocError> {
    let mut values = Vec::with_capacity(alloc, rows.len())?;
    for row in rows {
        values.push(match row {
            Value::Struct(fields) => match fields.get(field) {
                Some(value) => value,
                None => null,
            },
            _ => null,
        })?;
    }
    Ok(values)
}
