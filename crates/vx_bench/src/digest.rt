// What is told of a column.
use vx_value::{Column, Value};

/// Some numbers that tell columns apart, of the values in the rows and in the items of structs.
#[repr(C)]
#[derive(Clone, Copy, Debug, Default, PartialEq, Eq)]
pub struct Digest {
    /// How many values are null.
    pub nulls: u64,
    /// How many values are true.
    pub trues: u64,
    /// The sum of the numbers, modulo 2^64.
    pub sum: i64,
}

impl Digest {
    /// The digest of the column's rows.
    pub fn of(column: &Column) -> Digest {
        let mut digest = Digest::default();
        for i in 0..column.len() {
            digest.add(column.row(i));
        }
        digest
    }

    // Takes another value in, and of a struct its items.
    fn add(&mut self, value: &Value) {
        match value {
            Value::Null => self.nulls = self.nulls.wrapping_add(1),
            Value::Bool(true) => self.trues = self.trues.wrapping_add(1),
            Value::Int(n) => {
                let n = i64::try_from(*n).unwrap_or(0);
                self.sum = self.sum.wrapping_add(n);
            }
            Value::Struct(items) => {
                for item in items.as_slice() {
                    self.add(item);
                }
            }
            _ => {}
        }
    }
}
