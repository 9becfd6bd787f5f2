// Plans of expressions by chance, as a script for an engine whose rows stand on several machines, and
// what is to become of the rows that it prints.
ghost use Rattle.vx_tree.specs.Trees.{WellTyped};
ghost use Rattle.vx_tree.specs.Views.{bound_of};

use std::alloc::{AllocError, Global};
use vx_dtype::DType;
use vx_eval::apply_bound;
use vx_source::TypeText;
use vx_sql::Dialect;
use vx_sql_chance::{Maker, push_shown, push_table, table_kinds, table_rows, table_scope};
use vx_sql_plan::{NoStatement, SqlPlan, sql_plan};
use vx_test_support::{Seeds, Unread, bound};
use vx_tree::BoundExpression;
use vx_value::{Column, Value};

/// The table that has the rows, the plans' statements over a table `spread`, and what is wanted.
#[derive(Drop)]
pub struct Plans {
    /// The type of the rows, of which the first column is their number.
    pub schema: String,
    /// Each expression behind a line of the word `plan` and its number.
    pub sources: String,
    pub table: String,
    /// Before each statement one that prints the word `plan` and the expression's number. The first
    /// column of each row is its number.
    pub script: String,
    /// Of each expression the rows of which what is left is true.
    pub left: String,
    /// Of each expression the rows of which it is true.
    pub answers: String,
}

/// So many plans of truth values by chance that fault at no row, every second of which leaves a match
/// with a pattern from a column.
pub fn make_plans(
    alloc: Global,
    dialect: Dialect,
    seed: u64,
    count: usize,
) -> Result<Plans, Unread> {
    let kinds = table_kinds(alloc, dialect)?;
    let flat = table_scope(alloc, dialect, "", kinds.as_slice())?;
    let scope = table_scope(alloc, dialect, "row=i32?, ", kinds.as_slice())?;
    let mut seeds = Seeds::new(seed.wrapping_add(1));
    let rows = table_rows(alloc, kinds.as_slice(), &mut seeds)?;
    let mut plans = Plans {
        schema: format!(in alloc; "{}\n", TypeText(&scope))?,
        sources: String::new(alloc),
        table: String::new(alloc),
        script: String::new(alloc),
        left: String::new(alloc),
        answers: String::new(alloc),
    };
    if let DType::Struct(fields, _) = &flat {
        let names = fields.names().as_slice();
        push_table(
            alloc,
            dialect,
            kinds.as_slice(),
            names,
            rows.as_slice(),
            &mut plans.table,
        )?;
    }
    let batch = numbered(alloc, &scope, rows.as_slice())?;
    let mut maker = Maker::new(alloc, dialect, seed);
    let mut made = 0usize;
    for _ in 0..count.saturating_mul(ATTEMPTS) {
        if made >= count {
            break;
        }
        let expression = maker.truth()?;
        let left = if made % 2 == 0 { "" } else { LEFT };
        let source = format!(in alloc; "({expression}) and (row is not null{left})")?;
        let tree = bound(alloc, source.as_str(), &scope)?;
        if let Ok(column) = apply_bound(alloc, &batch, &tree) {
            push_true(alloc, made, &column, &mut plans.answers)?;
            push_shown(
                alloc,
                &format_args!("plan {made}\n{source}\n"),
                &mut plans.sources,
            )?;
            push_plan(alloc, dialect, made, &tree, &batch, &mut plans)?;
            made = made.saturating_add(1);
        }
    }
    Ok(plans)
}

// How many expressions are made for each that faults at no row, at most.
const ATTEMPTS: usize = 20;

// A match with a pattern that is no literal, which has no text.
const LEFT: &str = " and not (s like `it's \"t\"`)";

// The rows, each behind its number.
fn numbered(alloc: Global, scope: &DType, rows: &[Value]) -> Result<Column, Unread> {
    let mut numbered = Vec::new(alloc);
    for (i, row) in rows.iter().enumerate() {
        let mut values = Vec::new(alloc);
        values.push(Value::Int(i as i128))?;
        if let Value::Struct(fields) = row {
            for value in fields.as_slice() {
                values.push(value.clone()?)?;
            }
        }
        numbered.push(Value::Struct(values))?;
    }
    Ok(Column::try_new(scope.clone()?, numbered)?)
}

// The statement of the plan, and the rows of which what it leaves is true.
fn push_plan(
    alloc: Global,
    dialect: Dialect,
    number: usize,
    tree: &BoundExpression,
    batch: &Column,
    plans: &mut Plans,
) -> Result<(), Unread>
    requires { WellTyped (bound_of tree.now) }
{
    let plan = match sql_plan(alloc, tree, batch.dtype(), "spread", dialect) {
        Ok(plan) => plan,
        Err(NoStatement::OutOfMemory) => return Err(AllocError.into()),
        Err(_) => return Err(Unread::Word("no statement")),
    };
    let SqlPlan {
        statement,
        residual,
    } = plan;
    push_statement(
        alloc,
        dialect,
        number,
        statement.as_str(),
        &mut plans.script,
    )?;
    match residual {
        Some(residual) => push_left(alloc, number, &residual, batch, &mut plans.left),
        None => Ok(push_all(alloc, number, batch.len(), &mut plans.left)?),
    }
}

// The rows of which what is left is true.
fn push_left(
    alloc: Global,
    number: usize,
    residual: &BoundExpression,
    batch: &Column,
    left: &mut String,
) -> Result<(), Unread> {
    if !residual.is_well_typed(alloc)? {
        return Err(Unread::Word("what is left isn't well typed"));
    }
    let column = apply_bound(alloc, batch, residual)?;
    Ok(push_true(alloc, number, &column, left)?)
}

// All of so many rows.
fn push_all(
    alloc: Global,
    number: usize,
    count: usize,
    left: &mut String,
) -> Result<(), AllocError> {
    for i in 0..count {
        let line = format!(in alloc; "{number} {i}\n")?;
        left.push_str(line.as_str())?;
    }
    Ok(())
}

// The statement behind its number. PostgreSQL tells first what it hands on, and then each row on one line.
fn push_statement(
    alloc: Global,
    dialect: Dialect,
    number: usize,
    statement: &str,
    script: &mut String,
) -> Result<(), AllocError> {
    let lines = match dialect {
        Dialect::Postgres => format!(in alloc;
            "SELECT 'plan {number}';\nEXPLAIN (VERBOSE, COSTS OFF) {statement};\nCOPY ({statement}) TO STDOUT;\n"
        )?,
        Dialect::Sqlite | Dialect::DuckDb | Dialect::Spark | Dialect::ClickHouse => {
            format!(in alloc; "SELECT 'plan {number}';\n{statement};\n")?
        }
    };
    script.push_str(lines.as_str())
}

// The rows of which the truth value is true.
fn push_true(
    alloc: Global,
    number: usize,
    column: &Column,
    out: &mut String,
) -> Result<(), AllocError> {
    for (i, value) in column.rows().iter().enumerate() {
        if matches!(value, Value::Bool(true)) {
            let line = format!(in alloc; "{number} {i}\n")?;
            out.push_str(line.as_str())?;
        }
    }
    Ok(())
}
