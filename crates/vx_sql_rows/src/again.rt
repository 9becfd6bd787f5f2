// SQL texts of expressions by chance, read again.
ghost use Rattle.vx_tree.specs.Trees.{WellTyped};
ghost use Rattle.vx_tree.specs.Views.{bound_of};

use crate::found::{Batches, Found};
use std::alloc::Global;
use std::fmt;
use vx_dtype::DType;
use vx_sql::{Dialect, to_sql};
use vx_sql_chance::{Maker, push_shown, table_kinds, table_rows, table_scope};
use vx_sql_parser::{SqlError, parse_sql_over};
use vx_test_support::{Seeds, Unread, bound};
use vx_tree::{BoundExpression, Expression};

/// What was found of the texts.
#[derive(Drop)]
pub struct Readings {
    /// How many expressions have no text.
    untold: usize,
    /// How many texts aren't read.
    unread: usize,
    /// How many are read, but don't bind: numbers of the engine's types stand beside those of columns.
    unbound: usize,
    /// How many are read as the tree that was written.
    same: usize,
    /// How many are read as another tree with the same rows.
    alike: usize,
    /// Those that are read as something else.
    pub failures: usize,
    // The lines of those, and of the first that aren't read.
    lines: String,
}

// Of how many texts that aren't read the error is printed.
const UNREAD_LINES: usize = 20;

impl fmt::Display for Readings {
    fn fmt<W: fmt::Write>(&self, f: &mut fmt::Formatter<W>) -> fmt::Result {
        write!(
            f,
            "{}{} have no text, {} aren't read, {} don't bind, {} are read as the same tree, {} as one with the same rows, {} failed",
            self.lines, self.untold, self.unread, self.unbound, self.same, self.alike, self.failures
        )
    }
}

/// The SQL texts of so many expressions by chance, read as the dialect's over the table's rows.
pub fn read_again(
    alloc: Global,
    dialect: Dialect,
    seed: u64,
    count: usize,
) -> Result<Readings, Unread> {
    let kinds = table_kinds(alloc, dialect)?;
    let scope = table_scope(alloc, dialect, "", kinds.as_slice())?;
    let mut seeds = Seeds::new(seed.wrapping_add(1));
    let rows = table_rows(alloc, kinds.as_slice(), &mut seeds)?;
    let batches = Batches::new(alloc, &scope, rows)?;
    let table = Table {
        alloc,
        dialect,
        scope: &scope,
        batches: &batches,
    };
    let mut maker = Maker::new(alloc, dialect, seed);
    let mut readings = Readings {
        untold: 0,
        unread: 0,
        unbound: 0,
        same: 0,
        alike: 0,
        failures: 0,
        lines: String::new(alloc),
    };
    for _ in 0..count {
        let (source, _) = maker.expression()?;
        let tree = bound(alloc, source.as_str(), &scope)?;
        readings.add(table, &tree)?;
    }
    Ok(readings)
}

// The rows that texts are read over, and whose texts they are.
#[derive(Clone, Copy)]
struct Table<'a> {
    alloc: Global,
    dialect: Dialect,
    scope: &'a DType,
    batches: &'a Batches,
}

impl Readings {
    fn add(&mut self, table: Table, tree: &BoundExpression) -> Result<(), Unread>
        requires { WellTyped (bound_of tree.now) }
    {
        let Ok(sql) = to_sql(table.alloc, tree, table.dialect) else {
            self.untold = self.untold.wrapping_add(1);
            return Ok(());
        };
        let sql = sql.as_str();
        match parse_sql_over(table.alloc, sql, table.dialect, table.scope) {
            Ok(read) => self.add_read(table, tree, &read, sql),
            Err(error) => self.add_unread(table.alloc, &error, sql),
        }
    }

    // A tree that was read of the text.
    fn add_read(
        &mut self,
        table: Table,
        tree: &BoundExpression,
        read: &Expression,
        sql: &str,
    ) -> Result<(), Unread>
        requires { WellTyped (bound_of tree.now) }
    {
        let alloc = table.alloc;
        let Ok(read) = read.bind(alloc, table.scope) else {
            self.unbound = self.unbound.wrapping_add(1);
            return Ok(());
        };
        if *tree == read {
            self.same = self.same.wrapping_add(1);
            return Ok(());
        }
        let wanted = Found::of(alloc, tree, table.batches)?;
        let found = Found::of(alloc, &read, table.batches)?;
        if !found.has(&wanted, table.dialect) {
            self.failures = self.failures.wrapping_add(1);
            let line = format_args!("has other rows: {sql:?}\n");
            return Ok(push_shown(alloc, &line, &mut self.lines)?);
        }
        self.alike = self.alike.wrapping_add(1);
        Ok(())
    }

    fn add_unread(&mut self, alloc: Global, error: &SqlError, sql: &str) -> Result<(), Unread> {
        if self.unread < UNREAD_LINES {
            push_shown(alloc, &format_args!("{error}: {sql:?}\n"), &mut self.lines)?;
        }
        self.unread = self.unread.wrapping_add(1);
        Ok(())
    }
}
