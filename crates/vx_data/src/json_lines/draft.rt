// A struct whose fields come in any order.
use crate::expected::Expected;
use crate::fault::Fault;
use std::alloc::{AllocError, Global};
use vx_dtype::{FieldName, FieldNames, StructFields};
use vx_value::Value;

/// The fields of a struct that were read so far; those that weren't are null.
#[derive(Drop)]
pub(crate) struct Draft {
    values: Vec<Value>,
    is_read: Vec<bool>,
}

impl Draft {
    /// None of that many fields is read.
    pub(crate) fn new(alloc: Global, count: usize) -> Result<Draft, AllocError> {
        let mut values = Vec::with_capacity(alloc, count)?;
        for _ in 0..count {
            values.push(Value::Null)?;
        }
        let mut is_read = Vec::new(alloc);
        is_read.resize(count, false)?;
        Ok(Draft { values, is_read })
    }

    /// Whether the field of that index is read.
    pub(crate) fn has(&self, i: usize) -> bool {
        self.is_read.get(i).copied().unwrap_or(false)
    }

    /// The field of that index is read as that value.
    pub(crate) fn put(&mut self, i: usize, value: Value) {
        if i < self.values.len() && i < self.is_read.len() {
            self.values[i] = value;
            self.is_read[i] = true;
        }
    }

    /// The values of all fields. Refuses the first that isn't read and isn't nullable.
    pub(crate) fn finish(self, alloc: Global, fields: &StructFields) -> Result<Vec<Value>, Fault> {
        match self.first_missing(fields) {
            None => Ok(self.values),
            Some(name) => Err(Fault::new(alloc, Expected::Present).within(name)),
        }
    }

    fn first_missing<'a>(&self, fields: &'a StructFields) -> Option<&'a FieldName> {
        for (i, (name, dtype)) in fields.names().iter().zip(fields.types()).enumerate() {
            if !self.has(i) && !dtype.is_nullable() {
                return Some(name);
            }
        }
        None
    }
}

// Up to so many names are compared one after another.
pub(crate) const FEW: usize = 16;

/// The index of the first field of that name, if there is one. It may be the guessed one.
pub(crate) fn place_of(
    alloc: Global,
    names: &FieldNames,
    name: &str,
    guess: usize,
) -> Result<Option<usize>, Fault> {
    if names.get(guess).is_some_and(|found| found.as_str() == name) {
        return Ok(Some(guess));
    }
    if names.len() <= FEW {
        Ok(names.iter().position(|found| found.as_str() == name))
    } else {
        Ok(names.find(&named(alloc, name)?))
    }
}

/// The name of that text.
pub(crate) fn named(alloc: Global, name: &str) -> Result<FieldName, Fault> {
    match FieldName::new(alloc, name) {
        Ok(name) => Ok(name),
        Err(_) => Err(Fault::OutOfMemory),
    }
}
