// What is kept of lanes along paths.
ghost use Rattle.std.specs.Prelude.{◌≡◌, IfOk, IfSome, map};
ghost use Rattle.vx_value.specs.Views.{fields_of, type_of};
ghost use Rattle.vx_array.specs.Rows.{lanes_each, lanes_rows};
ghost use Rattle.vx_projection.specs.Kept.{kept};
ghost use Rattle.vx_projection.specs.Wanted.{lent_paths};
ghost use Rattle.vx_array_projection.specs.Columns.{are_long, columns_kept};

use crate::defaults::defaults;
use std::alloc::{AllocError, Global};
use std::sync::Arc;
use vx_array::Lanes;
use vx_dtype::{DType, StructFields};
use vx_projection::along::{has_root, parted};
use vx_value::Field;

// What is kept of the rows along the paths, in the same buffers, and one default in all rows of what no
// path leads to. There is an answer where the structs on the way are in buffers with all their rows.
#[cycle(keep)]
pub(crate) fn kept_along(
    alloc: Global,
    dtype: &DType,
    paths: Vec<&[Field]>,
    lanes: &Lanes,
) -> Result<Option<Lanes>, AllocError>
    ensures { IfOk result (λ found. IfSome found (λ l. lanes_rows l ≡ map (kept (lent_paths paths.entry.items) (type_of dtype.now)) (lanes_rows lanes.now))) }
{
    if has_root(paths.as_slice()) {
        return Ok(Some(lanes.clone()?));
    }
    if paths.is_empty() {
        return Ok(Some(defaults(alloc, dtype, lanes.len())?));
    }
    let Some(fields) = dtype.as_struct_fields_opt() else {
        return Ok(Some(defaults(alloc, dtype, lanes.len())?));
    };
    let Lanes::Structs(columns, stretch, validity) = lanes else {
        return Ok(None);
    };
    if !are_long(columns.as_slice(), stretch.end()) {
        return Ok(None);
    }
    match kept_of_each(alloc, fields, paths, columns.as_slice())? {
        Some(kept) => {
            let columns = Arc::new(alloc, kept)?;
            Ok(Some(Lanes::Structs(columns, *stretch, validity.clone()?)))
        }
        None => Ok(None),
    }
}

// So of each field.
#[cycle(keep)]
fn kept_of_each(
    alloc: Global,
    fields: &StructFields,
    paths: Vec<&[Field]>,
    columns: &[Lanes],
) -> Result<Option<Vec<Lanes>>, AllocError>
    ensures { IfOk result (λ found. IfSome found (λ ls. lanes_each ls.items ≡ columns_kept (lent_paths paths.entry.items) (fields_of fields.now) (lanes_each columns.now))) }
{
    let names = fields.names().as_slice();
    let types = fields.types();
    let count = fields.nfields().min(columns.len());
    let mut left = paths;
    let mut made = Vec::with_capacity(alloc, count)?;
    for i in 0..count {
        let (inside, others) = parted(alloc, &names[i], left.as_slice())?;
        left = others;
        match kept_along(alloc, &types[i], inside, &columns[i])? {
            Some(lanes) => made.push(lanes)?,
            None => return Ok(None),
        }
    }
    Ok(Some(made))
}

// Whether each column has so many rows.
fn are_long(columns: &[Lanes], rows: usize) -> bool
    ensures { result ≡ are_long rows columns.now }
{
    columns.iter().all(|column| rows <= column.len())
}
