// Columns of texts or of bytes, of which each row is taken from one.

use crate::blend::Blend;
use crate::byte_kind::ByteKind;
use crate::picked::gathered;
use std::alloc::{AllocError, Global};
use std::marker::{Model, PhantomData};
use vx_array::Lanes;
use vx_array_loops::{Bits, write_where};

/// Columns, and which of them each row is taken from. The bytes are copied once, when the lanes are made.
/// Contracts see them as the rows.
#[derive(Drop)]
pub struct ByteRows<K: ByteKind> {
    columns: Vec<Lanes>,
    choices: Vec<usize>,
    kind: PhantomData<K>,
}

impl<K: ByteKind> Model for ByteRows<K> {
    ghost use Rattle.std.specs.Prelude.{◌<◌, ℕ, List, get_or, length};
    ghost use Rattle.std.specs.Coded.{coded_list};
    ghost use Rattle.vx_value.specs.Codes.{datum_code};
    ghost use Rattle.vx_value.specs.Types.{Datum};
    ghost use Rattle.vx_array.specs.Rows.{lanes_each};
    ghost use Rattle.vx_array_kernels.specs.ByteRows.{picked_rows};

    ghost Value = { List Datum };

    ghost coded = { coded_list datum_code };

    ghost view = { λ r. picked_rows (lanes_each r.columns.items) r.choices.items };

    ghost invariant = { λ r. (k : ℕ) → get_or r.choices.items k 0 < length r.columns.items };
}

impl<K: ByteKind> Blend for ByteRows<K> {
    ghost rows = { λ r. r };

    fn of(alloc: Global, count: usize, lanes: &Lanes) -> Result<Option<ByteRows<K>>, AllocError> {
        let mut columns = Vec::new(alloc);
        columns.push(lanes.clone()?)?;
        let choices = vec![in alloc; 0usize; count]?;
        Ok(Some(ByteRows {
            columns,
            choices,
            kind: PhantomData,
        }))
    }

    fn put(&mut self, _alloc: Global, mask: &Bits, lanes: &Lanes) -> Result<bool, AllocError> {
        let last = self.columns.len();
        self.columns.push(lanes.clone()?)?;
        write_where(self.choices.as_mut_slice(), mask, |_| last);
        Ok(true)
    }

    fn into_lanes(self, alloc: Global) -> Result<Option<Lanes>, AllocError> {
        gathered::<K>(alloc, self.columns.as_slice(), self.choices.as_slice())
    }
}
