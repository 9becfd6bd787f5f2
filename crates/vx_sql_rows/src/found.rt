// What the source says of an expression.
ghost use Rattle.vx_tree.specs.Trees.{WellTyped};
ghost use Rattle.vx_tree.specs.Views.{bound_of};

use crate::shown::is_shown;
use std::alloc::Global;
use vx_dtype::{DType, VortexError};
use vx_eval::apply_bound;
use vx_places::first_fault_at;
use vx_sql::Dialect;
use vx_test_support::Unread;
use vx_tree::BoundExpression;
use vx_value::{Column, Value};

/// Rows, all of them and each by itself.
#[derive(Drop)]
pub struct Batches {
    all: Column,
    each: Vec<Column>,
}

impl Batches {
    pub fn new(alloc: Global, scope: &DType, rows: Vec<Value>) -> Result<Batches, Unread> {
        let mut each = Vec::new(alloc);
        for row in rows.as_slice() {
            let mut alone = Vec::new(alloc);
            alone.push(row.clone()?)?;
            each.push(Column::try_new(scope.clone()?, alone)?)?;
        }
        let all = Column::try_new(scope.clone()?, rows)?;
        Ok(Batches { all, each })
    }
}

/// What is found of an expression.
#[derive(Drop)]
pub struct Found {
    /// The values of the rows where it doesn't fault.
    pub values: Vec<(usize, Value)>,
    /// Rows whose fault the engine has to show.
    pub shown: Vec<usize>,
}

// Whether the values are the same to the engine: to SQLite and ClickHouse truth values are 1 and 0.
fn is_same(dialect: Dialect, value: &Value, wanted: &Value) -> bool {
    match (dialect, value, wanted) {
        (Dialect::Sqlite | Dialect::ClickHouse, Value::Int(number), Value::Bool(truth)) => *number
            == i128::from(*truth),
        _ => value == wanted,
    }
}

// How many rows of one expression have to fail, at most.
const FAILURES: usize = 2;

impl Found {
    /// What all rows say of it, and where one faults, each by itself.
    pub fn of(alloc: Global, tree: &BoundExpression, batches: &Batches) -> Result<Found, Unread>
        requires { WellTyped (bound_of tree.now) }
    {
        let mut found = Found {
            values: Vec::new(alloc),
            shown: Vec::new(alloc),
        };
        match apply_bound(alloc, &batches.all, tree) {
            Ok(column) => found.add_values(0, &column)?,
            Err(_) => {
                for (row, batch) in batches.each.iter().enumerate() {
                    found.add(alloc, tree, row, batch)?;
                }
            }
        }
        Ok(found)
    }

    /// Whether each row where the other doesn't fault has a value here that is the same to the engine.
    pub fn has(&self, other: &Found, dialect: Dialect) -> bool {
        let mut here = self.values.iter();
        other.values.iter().all(|(row, wanted)| {
            here.any(|(at, value)| at == row && is_same(dialect, value, wanted))
        })
    }

    /// Whether no row of so many faults.
    pub fn is_whole(&self, batches: &Batches) -> bool {
        self.values.len() == batches.each.len()
    }

    // The values of rows from that one on.
    fn add_values(&mut self, row: usize, column: &Column) -> Result<(), Unread> {
        for (i, value) in column.rows().iter().enumerate() {
            self.values.push((row.saturating_add(i), value.clone()?))?;
        }
        Ok(())
    }

    fn add(
        &mut self,
        alloc: Global,
        tree: &BoundExpression,
        row: usize,
        batch: &Column,
    ) -> Result<(), Unread>
        requires { WellTyped (bound_of tree.now) }
    {
        match apply_bound(alloc, batch, tree) {
            Ok(column) => self.add_values(row, &column),
            Err(VortexError::AddOverflow { .. } | VortexError::DivisionByZero { .. }) => {
                if self.shown.len() < FAILURES
                    && let Some(place) = first_fault_at(alloc, tree, batch)?
                    && is_shown(tree, place.path.as_slice())
                {
                    self.shown.push(row)?;
                }
                Ok(())
            }
            Err(_) => Ok(()),
        }
    }
}
