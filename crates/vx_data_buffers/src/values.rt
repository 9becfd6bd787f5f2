// Values of any type, with those inside them.
ghost use Rattle.std.specs.Prelude.{◌≡◌, ◌+◌, ◌-◌, ◌<◌, ◌≤◌, length};
ghost use Rattle.vx_data_buffers.specs.Results.{Reads, and_so, each_from};
ghost use Rattle.vx_data_buffers.specs.Bytes.{bytes_in};
ghost use Rattle.vx_data_buffers.specs.Layout.{buffer_count, field_buffer_count, fields_at, value_at};
ghost use Rattle.vx_value.specs.Fields.{data_of};
ghost use Rattle.vx_value.specs.Types.{list_of, struct_of};
ghost use Rattle.vx_value.specs.Views.{fields_of, type_of, value_of};

use crate::Buffer;
use crate::counts::buffer_count;
use crate::fault::Fault;
use crate::leaves::{decimal_at, is_valid, octets_of, real_at, text_of, truth_at, whole_at};
use crate::spans::{fixed_span, row_bytes, span};
use std::alloc::Global;
use vx_dtype::{DType, PType, StructFields};
use vx_value::Value;

// The value of row i of the type's column, whose first buffer has that index.
#[cycle(read)]
pub(crate) fn value_at(
    alloc: Global,
    buffers: &[Buffer<'_>],
    t: &DType,
    at: usize,
    i: usize,
) -> Result<Value, Fault>
    requires buffers { at + buffer_count (type_of t.now) ≤ length buffers.now }
    requires row { i < usize.MAX }
    ensures { Reads value_of result (value_at (bytes_in buffers.now) (type_of t.now) at i) }
{
    if !is_valid(buffers, at, i)? {
        return Ok(Value::Null);
    }
    let next = at + 1;
    match t {
        DType::Bool(_) => truth_at(buffers, next, i),
        DType::Primitive(ptype, _) => whole_at(buffers, *ptype, next, i),
        DType::Float(format, _) => real_at(buffers, *format, next, i),
        DType::Decimal(_, _) => decimal_at(buffers, next, i),
        DType::Date(_) => whole_at(buffers, PType::I32, next, i),
        DType::Timestamp(_, _) => whole_at(buffers, PType::I64, next, i),
        DType::Utf8(_) => text_of(alloc, next + 1, row_bytes(buffers, next, i)?),
        DType::Binary(_) => octets_of(alloc, row_bytes(buffers, next, i)?),
        DType::List(t, _) => {
            let rows = span(buffers, next, i)?;
            items(alloc, buffers, t.as_ref(), next + 1, rows)
        }
        DType::FixedSizeList(t, size, _) => {
            let rows = fixed_span(*size, i)?;
            items(alloc, buffers, t.as_ref(), next, rows)
        }
        DType::Struct(fields, _) => fields_at(alloc, buffers, fields, next, i),
    }
}

// The list of the items' rows from one up to another.
#[cycle(read)]
fn items(
    alloc: Global,
    buffers: &[Buffer<'_>],
    t: &DType,
    at: usize,
    rows: (usize, usize),
) -> Result<Value, Fault>
    requires buffers { at + buffer_count (type_of t.now) ≤ length buffers.now }
    requires order { rows.0 ≤ rows.1 }
    ensures { Reads value_of result (and_so (each_from (value_at (bytes_in buffers.now) (type_of t.now) at) rows.0 (rows.1 - rows.0)) (λ vs. list_of (data_of vs))) }
{
    let (from, to) = rows;
    let mut items = Vec::new(alloc);
    for i in from..to {
        items.push(value_at(alloc, buffers, t, at, i)?)?;
    }
    Ok(Value::List(items))
}

// The struct of the fields' values in row i, of whose columns the first buffer has that index.
#[cycle(read)]
fn fields_at(
    alloc: Global,
    buffers: &[Buffer<'_>],
    fields: &StructFields,
    first: usize,
    i: usize,
) -> Result<Value, Fault>
    requires buffers { first + field_buffer_count (fields_of fields.now) ≤ length buffers.now }
    requires row { i < usize.MAX }
    ensures { Reads value_of result (and_so (fields_at (bytes_in buffers.now) (fields_of fields.now) first i) (λ vs. struct_of (data_of vs))) }
{
    let types = fields.types();
    let mut values = Vec::with_capacity(alloc, fields.nfields())?;
    let mut at = first;
    for field in 0..fields.nfields() {
        let t = &types[field];
        values.push(value_at(alloc, buffers, t, at, i)?)?;
        at += buffer_count(t).ok_or(Fault::OutOfMemory)?;
    }
    Ok(Value::Struct(values))
}
