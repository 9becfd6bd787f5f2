// Expressions by chance, as a script for an engine, and as what it should print.
ghost use Rattle.vx_tree.specs.Trees.{WellTyped};
ghost use Rattle.vx_tree.specs.Views.{bound_of};

use crate::found::{Batches, Found};
use crate::untold::is_untold;
use std::alloc::{AllocError, Global};
use vx_dtype::DType;
use vx_floats::Float;
use vx_sql::{Dialect, to_sql};
use vx_sql_chance::{
    Kind, Maker, push_digits, push_shown, push_table, shown, table_kinds, table_rows, table_scope,
};
use vx_sql_plan::{NoStatement, SqlPlan, sql_plan};
use vx_test_support::{Seeds, Unread, bound};
use vx_tree::BoundExpression;
use vx_value::Value;

/// The script for an engine, and what it should print.
#[derive(Drop)]
pub struct Cases {
    pub script: String,
    pub answers: String,
    /// Why expressions have no text, a line each.
    pub untold: String,
    /// How many statements should fail.
    pub failures: u64,
}

/// So many expressions by chance over the rows of a table.
pub fn make_cases(
    alloc: Global,
    dialect: Dialect,
    seed: u64,
    count: usize,
) -> Result<Cases, Unread> {
    let kinds = table_kinds(alloc, dialect)?;
    let scope = table_scope(alloc, dialect, "", kinds.as_slice())?;
    let mut seeds = Seeds::new(seed.wrapping_add(1));
    let rows = table_rows(alloc, kinds.as_slice(), &mut seeds)?;
    let mut told = Cases {
        script: String::new(alloc),
        answers: String::new(alloc),
        untold: String::new(alloc),
        failures: 0,
    };
    if let DType::Struct(fields, _) = &scope {
        let names = fields.names().as_slice();
        push_table(
            alloc,
            dialect,
            kinds.as_slice(),
            names,
            rows.as_slice(),
            &mut told.script,
        )?;
    }
    let batches = Batches::new(alloc, &scope, rows)?;
    let mut maker = Maker::new(alloc, dialect, seed);
    for number in 0..count {
        let (source, kind) = maker.expression()?;
        let case = Case {
            alloc,
            dialect,
            number,
            kind,
        };
        case.push(source.as_str(), &scope, &batches, &mut told)?;
    }
    Ok(told)
}

// An expression by its number, and what it gives.
#[derive(Clone, Copy)]
struct Case {
    alloc: Global,
    dialect: Dialect,
    number: usize,
    kind: Kind,
}

impl Case {
    // Its statements, and what they should print: the values of the rows where the source doesn't fault,
    // nothing of those where its fault is the engine's, and the rows of which a truth value is true. An expression
    // that has no text, though the engine has all that it takes, is told among the answers, which no engine gives.
    fn push(
        self,
        source: &str,
        scope: &DType,
        batches: &Batches,
        told: &mut Cases,
    ) -> Result<(), Unread> {
        let tree = bound(self.alloc, source, scope)?;
        let sql = match to_sql(self.alloc, &tree, self.dialect) {
            Ok(sql) => sql,
            Err(unsupported) if is_untold(self.dialect, &tree, &unsupported) => {
                let reason = format_args!("{unsupported}\n");
                return Ok(push_shown(self.alloc, &reason, &mut told.untold)?);
            }
            Err(unsupported) => {
                let refused = format_args!("{} {unsupported}: {source}\n", self.number);
                return Ok(push_shown(self.alloc, &refused, &mut told.answers)?);
            }
        };
        let sql = sql.as_str();
        let found = Found::of(self.alloc, &tree, batches)?;
        self.push_values(sql, &found, told)?;
        for row in found.shown.as_slice() {
            self.push_failure(sql, *row, told)?;
        }
        if matches!(self.kind, Kind::Truth) && found.is_whole(batches) {
            self.push_filter(sql, &found, told)?;
            self.push_plan(&tree, scope, &found, told)?;
        }
        Ok(())
    }

    fn push_values(self, sql: &str, found: &Found, told: &mut Cases) -> Result<(), AllocError> {
        if found.values.is_empty() {
            return Ok(());
        }
        let number = self.number;
        let shown = shown(self.dialect, self.kind);
        let head = format!(in self.alloc;
            "SELECT {number}, \"row\", {shown} FROM (SELECT \"row\", {sql} AS v FROM t WHERE \"row\" IN ("
        )?;
        told.script.push_str(head.as_str())?;
        for (i, (row, value)) in found.values.iter().enumerate() {
            let separator = if i == 0 { "" } else { ", " };
            push_shown(
                self.alloc,
                &format_args!("{separator}{row}"),
                &mut told.script,
            )?;
            push_shown(
                self.alloc,
                &format_args!("{number} {row} "),
                &mut told.answers,
            )?;
            self.push_value(value, &mut told.answers)?;
            told.answers.push('\n')?;
        }
        told.script.push_str(")) q ORDER BY \"row\";\n")
    }

    fn push_value(self, value: &Value, out: &mut String) -> Result<(), AllocError> {
        match value {
            Value::Bool(b) => out.push_str(if *b { "true" } else { "false" }),
            Value::Int(number) => push_shown(self.alloc, number, out),
            Value::Float(Float::F32(bits)) => {
                push_shown(self.alloc, &format_args!("{bits:08x}"), out)
            }
            Value::Float(Float::F64(bits)) => {
                push_shown(self.alloc, &format_args!("{bits:016x}"), out)
            }
            Value::Utf8(text) => push_digits(self.alloc, text.as_str().as_bytes(), out),
            Value::Binary(bytes) => push_digits(self.alloc, bytes.as_slice(), out),
            Value::Null | Value::List(_) | Value::Struct(_) => out.push_str("null"),
        }
    }

    // A statement over a row that should fail.
    fn push_failure(self, sql: &str, row: usize, told: &mut Cases) -> Result<(), AllocError> {
        let number = self.number;
        let shown = shown(self.dialect, self.kind);
        told.failures = told.failures.saturating_add(1);
        let statement = format!(in self.alloc;
            "SELECT {number}, {row}, 'no fault', {shown} FROM (SELECT {sql} AS v FROM t WHERE \"row\" = {row}) q;\n"
        )?;
        told.script.push_str(statement.as_str())
    }

    // The rows of which the truth value is true.
    fn push_filter(self, sql: &str, found: &Found, told: &mut Cases) -> Result<(), AllocError> {
        let number = self.number;
        let statement = format!(in self.alloc;
            "SELECT {number}, 'kept', \"row\" FROM t WHERE {sql} ORDER BY \"row\";\n"
        )?;
        told.script.push_str(statement.as_str())?;
        for (row, value) in found.values.as_slice() {
            if is_true(value) {
                push_shown(
                    self.alloc,
                    &format_args!("{number} kept {row}\n"),
                    &mut told.answers,
                )?;
            }
        }
        Ok(())
    }

    // How many rows the statement of the plan gives, where nothing is left of the tree.
    fn push_plan(
        self,
        tree: &BoundExpression,
        scope: &DType,
        found: &Found,
        told: &mut Cases,
    ) -> Result<(), Unread>
        requires { WellTyped (bound_of tree.now) }
    {
        let plan = match sql_plan(self.alloc, tree, scope, "t", self.dialect) {
            Ok(plan) => plan,
            Err(NoStatement::OutOfMemory) => return Err(AllocError.into()),
            Err(_) => return Err(Unread::Word("no statement")),
        };
        let SqlPlan {
            statement,
            residual: None,
        } = plan
        else {
            return Ok(());
        };
        let number = self.number;
        let line = format!(in self.alloc;
            "SELECT {number}, 'planned', count(*) FROM ({statement}) q;\n"
        )?;
        told.script.push_str(line.as_str())?;
        let kept = found.values.iter().filter(|(_, value)| is_true(value));
        let count = kept.count();
        let line = format!(in self.alloc; "{number} planned {count}\n")?;
        Ok(told.answers.push_str(line.as_str())?)
    }
}

fn is_true(value: &Value) -> bool {
    matches!(value, Value::Bool(true))
}
