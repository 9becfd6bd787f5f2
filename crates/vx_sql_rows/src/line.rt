// One line of a table.
use std::alloc::{AllocError, Global};
use vx_source::{SourceText, parse_type};
use vx_sql::{Dialect, Unsupported, to_sql};
use vx_sql_parser::{SqlError, parse_sql, parse_sql_over};
use vx_test_support::{Judge, Judged, Unread, bound};
use vx_tree::Expression;

/// Judges SQL texts of expressions, and expressions of SQL texts.
#[derive(Clone, Copy)]
pub struct Texts;

impl Judge for Texts {
    type Unread = Unread;

    /// What the line comes to: a call, its columns, and the text that is wanted or what is wrong, as
    /// `postgres | {x=i32} | x > 5 | ("x" > 5)`. Where a column has a `␀` a NUL is meant, which no line
    /// should hold.
    fn judge(&mut self, alloc: Global, line: &str) -> Result<Judged, Unread> {
        let line = line.replace(alloc, '␀', "\0")?;
        let call = Call::of(line.as_str());
        let mut columns = Vec::new(alloc);
        for column in line.as_str().splitn(call.columns(), '|').skip(call.words()) {
            columns.push(column.trim())?;
        }
        let [engine, columns @ .., wanted] = columns.as_slice() else {
            return Err(Unread::Word("another number of columns"));
        };
        let dialect = dialect_named(engine).ok_or("no such engine")?;
        let answer = call.answer(alloc, dialect, columns)?;
        if answer.as_str() == *wanted {
            Ok(Judged::Right)
        } else {
            Ok(Judged::Differs(answer))
        }
    }
}

// What a line calls.
#[derive(Clone, Copy)]
enum Call {
    // `postgres | TYPE | EXPRESSION | SQL`: the SQL text of the expression over rows of that type.
    Written,
    // `parsed sql | postgres | SQL | SOURCE`: the source text of the expression that the SQL text is read as.
    Parsed,
    // `parsed sql over | postgres | TYPE | SQL | SOURCE`: the same over rows of that type.
    ParsedOver,
    // `read back | postgres | TYPE | EXPRESSION | SOURCE`: the same of the SQL text of that expression.
    ReadBack,
}

impl Call {
    // The call of the line.
    fn of(line: &str) -> Call {
        let word = match line.split_once('|') {
            Some((word, _)) => word.trim(),
            None => line,
        };
        match word {
            "parsed sql" => Call::Parsed,
            "parsed sql over" => Call::ParsedOver,
            "read back" => Call::ReadBack,
            _ => Call::Written,
        }
    }

    // How many of a line's columns are the call's words.
    fn words(self) -> usize {
        match self {
            Call::Written => 0,
            Call::Parsed | Call::ParsedOver | Call::ReadBack => 1,
        }
    }

    // How many columns a line has, of which the last may have a `|`.
    fn columns(self) -> usize {
        match self {
            Call::Written | Call::Parsed => 4,
            Call::ParsedOver | Call::ReadBack => 5,
        }
    }

    // What it gives.
    fn answer(self, alloc: Global, dialect: Dialect, columns: &[&str]) -> Result<String, Unread> {
        match (self, columns) {
            (Call::Written, [scope, expression]) => match sql(alloc, dialect, scope, expression)? {
                Ok(text) => Ok(text),
                Err(unsupported) => Ok(told(alloc, &unsupported)?),
            },
            (Call::Parsed, [text]) => Ok(read(alloc, parse_sql(alloc, text, dialect))?),
            (Call::ParsedOver, [scope, text]) => over(alloc, dialect, scope, text),
            (Call::ReadBack, [scope, expression]) => match sql(alloc, dialect, scope, expression)? {
                Ok(text) => over(alloc, dialect, scope, text.as_str()),
                Err(unsupported) => Ok(told(alloc, &unsupported)?),
            },
            _ => Err(Unread::Word("another number of columns")),
        }
    }
}

const DIALECTS: [Dialect; 5] = [
    Dialect::Postgres,
    Dialect::Sqlite,
    Dialect::DuckDb,
    Dialect::Spark,
    Dialect::ClickHouse,
];

fn name_of(dialect: Dialect) -> &'static str {
    match dialect {
        Dialect::Postgres => "postgres",
        Dialect::Sqlite => "sqlite",
        Dialect::DuckDb => "duckdb",
        Dialect::Spark => "spark",
        Dialect::ClickHouse => "clickhouse",
    }
}

/// The engine of that name.
pub fn dialect_named(name: &str) -> Option<Dialect> {
    for dialect in DIALECTS {
        if name_of(dialect) == name {
            return Some(dialect);
        }
    }
    None
}

// The SQL text of the expression, or where it has none and why.
fn sql(
    alloc: Global,
    dialect: Dialect,
    scope: &str,
    expression: &str,
) -> Result<Result<String, Unsupported>, Unread> {
    let scope = parse_type(alloc, scope)?;
    let bound = bound(alloc, expression, &scope)?;
    Ok(to_sql(alloc, &bound, dialect))
}

fn told(alloc: Global, unsupported: &Unsupported) -> Result<String, AllocError> {
    match unsupported {
        Unsupported::OutOfMemory => String::from_str(alloc, "out of memory"),
        Unsupported::Node { path, reason } => format!(in alloc; "at {path:?}: {reason}"),
    }
}

// What the SQL text is read as over rows of that type.
fn over(alloc: Global, dialect: Dialect, scope: &str, text: &str) -> Result<String, Unread> {
    let scope = parse_type(alloc, scope)?;
    Ok(read(alloc, parse_sql_over(alloc, text, dialect, &scope))?)
}

// The source text of what is read, or the error.
fn read(alloc: Global, expression: Result<Expression, SqlError>) -> Result<String, AllocError> {
    match expression {
        Ok(expression) => format!(in alloc; "{}", SourceText(&expression)),
        Err(error) => format!(in alloc; "{error}"),
    }
}
