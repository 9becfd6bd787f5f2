// The values of a column, which it holds by itself or shares.
ghost use Rattle.std.specs.Prelude.{◌≡◌, ⊤, IfOk, MatchOption, Ok, map};
ghost use Rattle.vx_value.specs.Returns.{ReturnsOrOom};
ghost use Rattle.vx_value.specs.Views.{rows_held, value_of};

use crate::Value;
use std::alloc::{AllocError, Global};
use std::sync::Arc;
use vx_dtype::VortexResult;

/// The values of a column, row by row.
#[derive(Debug)]
pub enum ColumnRows {
    /// Values that no other column has.
    Own(Vec<Value>),
    /// Values that other columns may share.
    Shared(Arc<Vec<Value>>),
}

impl Drop for ColumnRows {
    fn drop(self) {
        match self {
            ColumnRows::Own(values) => drop(values),
            ColumnRows::Shared(values) => drop(values),
        }
    }
}

impl ColumnRows {
    /// The values.
    pub fn as_slice(&self) -> &[Value]
        ensures { map value_of result.now ≡ rows_held self.now }
    {
        match self {
            ColumnRows::Own(values) => values.as_slice(),
            ColumnRows::Shared(values) => values.as_slice(),
        }
    }

    /// The values where others may share them.
    pub fn shared(&self) -> Option<&Arc<Vec<Value>>>
        ensures { MatchOption result ⊤ (λ values. map value_of values.now.value.items ≡ rows_held self.now) }
    {
        match self {
            ColumnRows::Own(_) => None,
            ColumnRows::Shared(values) => Some(values),
        }
    }

    /// The same values, which others may share from now on: in a block of their own, unless they
    /// are in one. Refuses with `OutOfMemory` (1) alone.
    pub fn into_shared(self, alloc: Global) -> VortexResult<Arc<Vec<Value>>>
        ensures { ReturnsOrOom (λ values. map value_of values.value.items) result (Ok (rows_held self)) }
    {
        match self {
            ColumnRows::Own(values) => Ok(Arc::new(alloc, values)?),
            ColumnRows::Shared(values) => Ok(values),
        }
    }

    /// The values themselves, copied where others share them.
    pub fn into_values(self) -> Result<Vec<Value>, AllocError>
        ensures { IfOk result (λ values. map value_of values.items ≡ rows_held self) }
    {
        match self {
            ColumnRows::Own(values) => Ok(values),
            ColumnRows::Shared(values) => unshared(values),
        }
    }
}

impl Clone for ColumnRows {
    ghost is_clone = { λ rows copy. rows_held copy ≡ rows_held rows };

    fn clone(&self) -> Result<ColumnRows, AllocError> {
        match self {
            ColumnRows::Own(values) => Ok(ColumnRows::Own(copies(values)?)),
            ColumnRows::Shared(values) => Ok(ColumnRows::Shared(values.clone()?)),
        }
    }
}

// The values themselves, copied where others share them.
fn unshared(values: Arc<Vec<Value>>) -> Result<Vec<Value>, AllocError>
    ensures { IfOk result (λ own. map value_of own.items ≡ map value_of values.value.items) }
{
    Arc::unwrap_or_clone(values)
}

// A copy of each value.
fn copies(values: &Vec<Value>) -> Result<Vec<Value>, AllocError>
    ensures { IfOk result (λ copies. map value_of copies.items ≡ map value_of values.now.items) }
{
    values.clone()
}
