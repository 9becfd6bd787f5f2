// Rows of lanes that are made null.
ghost use Rattle.std.specs.Prelude.{◌≡◌, IfOk, IfSome};
ghost use Rattle.std.proofs.Math.ListN.{replicate};
ghost use Rattle.vx_value.specs.Types.{null};
ghost use Rattle.vx_array.specs.Rows.{lanes_rows};
ghost use Rattle.vx_array.specs.Shown.{shown};

use crate::{Lanes, Validity};
use std::alloc::{AllocError, Global};
use std::sync::Arc;
use vx_value::Value;

impl Lanes {
    /// The same rows, null where they aren't valid, in the same buffers. There is an answer unless some
    /// rows are valid and others aren't, and these are one value or boxed ones.
    pub fn masked(&self, alloc: Global, validity: &Validity) -> Result<Option<Lanes>, AllocError>
        ensures { IfOk result (λ found. IfSome found (λ l. lanes_rows l ≡ shown validity.now (lanes_rows self.now))) }
    {
        match validity {
            Validity::All => Ok(Some(self.clone()?)),
            Validity::Nothing => Ok(Some(nulls(alloc, self.len())?)),
            Validity::Rows(_) => self.masked_further(alloc, validity),
        }
    }

    // The same, where a validity of these joins the other one.
    fn masked_further(
        &self,
        alloc: Global,
        validity: &Validity,
    ) -> Result<Option<Lanes>, AllocError>
        ensures { IfOk result (λ found. IfSome found (λ l. lanes_rows l ≡ shown validity.now (lanes_rows self.now))) }
    {
        match self {
            Lanes::Same(_, _) | Lanes::Values(_) => Ok(None),
            Lanes::Bools(values, own) => {
                let both = validity.and(alloc, own)?;
                Ok(Some(Lanes::Bools(values.clone()?, both)))
            }
            Lanes::Numbers(values, own) => {
                let both = validity.and(alloc, own)?;
                Ok(Some(Lanes::Numbers(values.clone()?, both)))
            }
            Lanes::Floats(values, own) => {
                let both = validity.and(alloc, own)?;
                Ok(Some(Lanes::Floats(values.clone()?, both)))
            }
            Lanes::Texts(values, own) => {
                let both = validity.and(alloc, own)?;
                Ok(Some(Lanes::Texts(values.clone()?, both)))
            }
            Lanes::Octets(values, own) => {
                let both = validity.and(alloc, own)?;
                Ok(Some(Lanes::Octets(values.clone()?, both)))
            }
            Lanes::Structs(fields, stretch, own) => {
                let both = validity.and(alloc, own)?;
                Ok(Some(Lanes::Structs(fields.clone()?, *stretch, both)))
            }
        }
    }
}

// So many rows that are null.
fn nulls(alloc: Global, count: usize) -> Result<Lanes, AllocError>
    ensures { IfOk result (λ l. lanes_rows l ≡ replicate count null) }
{
    Ok(Lanes::Same(Arc::new(alloc, Value::Null)?, count))
}
