// What is wanted of the values of a type.
ghost use Rattle.std.specs.Prelude.{◌≡◌, IfOk};
ghost use Rattle.vx_value.specs.Views.{data_view, fields_of, type_of, value_of};
ghost use Rattle.vx_projection.specs.Wanted.{each_taken, fields_wanted, lent_paths, taken, wanted, wanted_of, wanted_view};

use crate::along::{has_root, parted};
use crate::defaults::default_value;
use std::alloc::{AllocError, Global};
use vx_dtype::{DType, StructFields};
use vx_value::{Field, Value};

// How much is wanted of a value.
#[derive(Drop)]
pub(crate) enum Wanted {
    // All of it.
    All,
    // Nothing of it, but this in its place.
    Default(Value),
    // Of a struct so much of each field; of a null struct that it is null.
    Fields(Vec<Wanted>),
}

// What is wanted of the values of the type along the paths.
#[cycle(along)]
pub(crate) fn wanted_along(
    alloc: Global,
    dtype: &DType,
    paths: Vec<&[Field]>,
) -> Result<Wanted, AllocError>
    ensures { IfOk result (λ w. wanted_of w ≡ wanted (lent_paths paths.entry.items) (type_of dtype.now)) }
{
    if has_root(paths.as_slice()) {
        return Ok(Wanted::All);
    }
    if paths.is_empty() {
        return Ok(Wanted::Default(default_value(alloc, dtype)?));
    }
    match dtype {
        DType::Struct(fields, _) => Ok(Wanted::Fields(wanted_of_each(alloc, fields, paths)?)),
        _ => Ok(Wanted::Default(default_value(alloc, dtype)?)),
    }
}

// So for each of the fields.
#[cycle(along)]
fn wanted_of_each(
    alloc: Global,
    fields: &StructFields,
    paths: Vec<&[Field]>,
) -> Result<Vec<Wanted>, AllocError>
    ensures { IfOk result (λ ws. wanted_view ws.items ≡ fields_wanted (lent_paths paths.entry.items) (fields_of fields.now)) }
{
    let names = fields.names().as_slice();
    let types = fields.types();
    let mut left = paths;
    let mut each = Vec::with_capacity(alloc, fields.nfields())?;
    for i in 0..fields.nfields() {
        let (inside, others) = parted(alloc, &names[i], left.as_slice())?;
        left = others;
        each.push(wanted_along(alloc, &types[i], inside)?)?;
    }
    Ok(each)
}

impl Wanted {
    // What is wanted of the value, and defaults in place of the rest.
    pub(crate) fn of(&self, alloc: Global, value: &Value) -> Result<Value, AllocError>
        ensures { IfOk result (λ v. value_of v ≡ taken (wanted_of self.now) (value_of value.now)) }
    {
        taken(alloc, self, value)
    }
}

// (in line, since of most fields nothing is wanted, and a copy of a number then takes no call)
#[cycle(taken)]
#[inline(always)]
fn taken(alloc: Global, wanted: &Wanted, value: &Value) -> Result<Value, AllocError>
    ensures { IfOk result (λ v. value_of v ≡ taken (wanted_of wanted.now) (value_of value.now)) }
{
    match wanted {
        Wanted::All => value.clone(),
        Wanted::Default(default) => copied(default),
        Wanted::Fields(each) => match value {
            Value::Struct(items) => Ok(Value::Struct(taken_of_each(
                alloc,
                each.as_slice(),
                items.as_slice(),
            )?)),
            _ => value.clone(),
        },
    }
}

// So of each value what is wanted of it.
#[cycle(taken)]
fn taken_of_each(
    alloc: Global,
    wanted: &[Wanted],
    values: &[Value],
) -> Result<Vec<Value>, AllocError>
    ensures { IfOk result (λ vs. data_view vs.items ≡ each_taken (wanted_view wanted.now) (data_view values.now)) }
{
    let count = wanted.len().min(values.len());
    let mut made = Vec::with_capacity(alloc, count)?;
    for i in 0..count {
        made.push(taken(alloc, &wanted[i], &values[i])?)?;
    }
    Ok(made)
}

// A copy of the value.
#[inline(always)]
fn copied(value: &Value) -> Result<Value, AllocError>
    ensures { IfOk result (λ copy. value_of copy ≡ value_of value.now) }
{
    match value {
        Value::Null => Ok(Value::Null),
        Value::Bool(truth) => Ok(Value::Bool(*truth)),
        Value::Int(number) => Ok(Value::Int(*number)),
        Value::Float(number) => Ok(Value::Float(*number)),
        _ => value.clone(),
    }
}
