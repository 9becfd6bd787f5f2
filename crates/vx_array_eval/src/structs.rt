// Structs of lanes.
ghost use Rattle.std.specs.Prelude.{◌≡◌, IfErr, IfOk, IfSome, IsOk, Ok, [], ◌∷◌, length};
ghost use Rattle.vx_dtype.specs.declared.error.VortexError.TheVariants.{OutOfMemory};
ghost use Rattle.vx_value.specs.StructColumns.{struct_rows};
ghost use Rattle.vx_value.specs.Views.{type_of};
ghost use Rattle.vx_fn.specs.Functions as functions;
ghost use Rattle.vx_fn.specs.Functions.{item_type, select_type};
ghost use Rattle.vx_array.specs.Rows.{lanes_rows, lanes_each};
ghost use Rattle.vx_eval.specs.Columns.{rows_of, node_answer};

use std::alloc::{AllocError, Global};
use std::sync::Arc;
use vx_array::{Lanes, Stretch, Validity};
use vx_dtype::{DType, FieldName, VortexResult};
use vx_eval::{place_of, places_of};
use vx_fn::FieldSelection;

/// The first field of that name of each struct of the type, where there is a fast way: the field's rows, in
/// the same buffers.
pub fn get_item(
    alloc: Global,
    count: usize,
    name: &FieldName,
    dtype: &DType,
    input: &Lanes,
) -> Result<Option<Lanes>, AllocError>
    requires typed { IsOk (item_type name.now (type_of dtype.now)) }
    requires long { length (lanes_rows input.now) ≡ count }
    ensures { IfOk result (λ found. IfSome found (λ out. node_answer (functions.get_item name.now) (type_of dtype.now ∷ []) (rows_of count (lanes_rows input.now ∷ [])) ≡ Ok (lanes_rows out))) }
{
    input.item(alloc, place_of(name, dtype))
}

/// The struct of the included fields of each struct of the type, where there is a fast way: the fields' rows,
/// in the same buffers. Refuses with `OutOfMemory` (1) alone.
pub fn select(
    alloc: Global,
    count: usize,
    selection: &FieldSelection,
    dtype: &DType,
    input: &Lanes,
) -> VortexResult<Option<Lanes>>
    requires typed { IsOk (select_type selection.now (type_of dtype.now)) }
    requires long { length (lanes_rows input.now) ≡ count }
    ensures answer { IfOk result (λ found. IfSome found (λ out. node_answer (functions.select selection.now) (type_of dtype.now ∷ []) (rows_of count (lanes_rows input.now ∷ [])) ≡ Ok (lanes_rows out))) }
    ensures memory { IfErr result (λ e. e ≡ OutOfMemory) }
{
    let places = places_of(alloc, selection, dtype)?;
    let found = input.items(alloc, places.as_slice())?;
    Ok(found)
}

/// The structs of so many rows of the lanes, which are shared.
pub fn pack(alloc: Global, count: usize, below: &[Lanes]) -> Result<Lanes, AllocError>
    ensures { IfOk result (λ out. lanes_rows out ≡ struct_rows count (lanes_each below.now)) }
{
    let fields = Arc::new(alloc, clone_each(alloc, below)?)?;
    Ok(Lanes::Structs(fields, Stretch::first(count), Validity::All))
}

// The same lanes.
fn clone_each(alloc: Global, lanes: &[Lanes]) -> Result<Vec<Lanes>, AllocError>
    ensures { IfOk result (λ copies. lanes_each copies.items ≡ lanes_each lanes.now) }
{
    let mut copies = Vec::with_capacity(alloc, lanes.len())?;
    for lane in lanes {
        copies.push(lane.clone()?)?;
    }
    Ok(copies)
}
