// The value that stands where nothing is kept.
ghost use Rattle.std.specs.Prelude.{◌≡◌, IfOk, map, replicate};
ghost use Rattle.vx_value.specs.Views.{data_view, fields_of, type_of, value_of};
ghost use Rattle.vx_projection.specs.Defaults.{default_of, field_defaults, zero_of};

use std::alloc::{AllocError, Global};
use vx_dtype::{DType, FloatType, StructFields};
use vx_floats::Float;
use vx_value::Value;

/// The default of the type: null where it is nullable, else false, 0, an empty text, no byte, no item,
/// so many defaults, or the default of each field.
#[cycle(default)]
pub fn default_value(alloc: Global, dtype: &DType) -> Result<Value, AllocError>
    ensures { IfOk result (λ v. value_of v ≡ default_of (type_of dtype.now)) }
{
    if dtype.is_nullable() {
        return Ok(Value::Null);
    }
    match dtype {
        DType::Bool(_) => Ok(Value::Bool(false)),
        DType::Primitive(_, _) | DType::Decimal(_, _) | DType::Date(_) | DType::Timestamp(_, _) =>
            Ok(Value::Int(0)),
        DType::Float(format, _) => Ok(Value::Float(zero(*format))),
        DType::Utf8(_) => Ok(Value::Utf8(String::new(alloc))),
        DType::Binary(_) => Ok(Value::Binary(Vec::new(alloc))),
        DType::List(_, _) => Ok(Value::List(Vec::new(alloc))),
        DType::FixedSizeList(element, size, _) => {
            let item = default_value(alloc, element.as_ref())?;
            Ok(Value::List(repeated(alloc, &item, *size)?))
        }
        DType::Struct(fields, _) => Ok(Value::Struct(default_of_each(alloc, fields)?)),
    }
}

// The zero of the format.
fn zero(format: FloatType) -> Float
    ensures { result ≡ zero_of format }
{
    match format {
        FloatType::F32 => Float::F32(0),
        FloatType::F64 => Float::F64(0),
    }
}

// The default of each field.
#[cycle(default)]
fn default_of_each(alloc: Global, fields: &StructFields) -> Result<Vec<Value>, AllocError>
    ensures { IfOk result (λ vs. data_view vs.items ≡ field_defaults (fields_of fields.now)) }
{
    let types = fields.types();
    let mut made = Vec::with_capacity(alloc, fields.nfields())?;
    for i in 0..fields.nfields() {
        made.push(default_value(alloc, &types[i])?)?;
    }
    Ok(made)
}

// So many copies of the value.
fn repeated(alloc: Global, value: &Value, count: u32) -> Result<Vec<Value>, AllocError>
    ensures { IfOk result (λ vs. map value_of vs.items ≡ replicate count (value_of value.now)) }
{
    let mut copies = Vec::with_capacity(alloc, count as usize)?;
    for i in 0..count {
        copies.push(value.clone()?)?;
    }
    Ok(copies)
}
