// How many buffers columns have.
ghost use Rattle.std.specs.Prelude.{◌≡◌, IfSome};
ghost use Rattle.vx_data_buffers.specs.Layout.{buffer_count, field_buffer_count};
ghost use Rattle.vx_value.specs.Views.{fields_of, type_of};

use vx_dtype::{DType, StructFields};

// How many buffers the column of the type has, if they can be counted.
#[cycle(count)]
pub(crate) fn buffer_count(t: &DType) -> Option<usize>
    ensures { IfSome result (λ n. n ≡ buffer_count (type_of t.now)) }
{
    match t {
        DType::Bool(_) => Some(2),
        DType::Primitive(_, _) => Some(2),
        DType::Float(_, _) => Some(2),
        DType::Decimal(_, _) | DType::Date(_) | DType::Timestamp(_, _) => Some(2),
        DType::Utf8(_) => Some(3),
        DType::Binary(_) => Some(3),
        DType::List(t, _) => buffer_count(t.as_ref())?.checked_add(2),
        DType::FixedSizeList(t, _, _) => buffer_count(t.as_ref())?.checked_add(1),
        DType::Struct(fields, _) => field_buffer_count(fields)?.checked_add(1),
    }
}

// How many the columns of the fields have.
#[cycle(count)]
fn field_buffer_count(fields: &StructFields) -> Option<usize>
    ensures { IfSome result (λ n. n ≡ field_buffer_count (fields_of fields.now)) }
{
    let types = fields.types();
    let mut count: usize = 0;
    for i in 0..fields.nfields() {
        count = count.checked_add(buffer_count(&types[i])?)?;
    }
    Some(count)
}
