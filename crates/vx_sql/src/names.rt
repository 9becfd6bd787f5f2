// Names of columns, fields and tables.
ghost use Rattle.std.specs.Prelude.{◌≡◌, ◌<◌, Some};
ghost use Rattle.std.specs.Fmt.{WritesOnOk};
ghost use Rattle.vx_sql.specs.Quotes.{name_quote, name_sql};

use crate::Dialect;
use std::fmt;
use std::fmt::{Display, Formatter, Write};
use vx_dtype::{FieldName, write_quoted};

/// A name between the engine's quotes, a quote in it doubled. The engine takes it for that very name
/// where [`spelling_reason`](crate::spelling_reason) says nothing against it.
#[derive(Clone, Copy)]
pub struct SqlName<'a>(pub &'a str, pub Dialect);

impl Display for SqlName<'_> {
    ghost output = { λ n. Some (name_sql n.1 n.0.now) };

    fn fmt<W: Write>(&self, f: &mut Formatter<W>) -> fmt::Result {
        write_quoted(self.0, name_quote(self.1), f)
    }
}

/// Writes the name of a column or a field.
pub(crate) fn write_name<W: Write>(
    dialect: Dialect,
    name: &FieldName,
    f: &mut Formatter<W>,
) -> fmt::Result
    ensures { WritesOnOk W.write_str_gives f.old result (name_sql dialect name.now) f.new }
{
    write_quoted(name.as_str(), name_quote(dialect), f)
}

// The quote of names. SQLite reads a name between double quotes that no column has as a text.
fn name_quote(dialect: Dialect) -> char
    ensures quote { result ≡ name_quote dialect }
    ensures ascii { result < 128 }
{
    match dialect {
        Dialect::Postgres | Dialect::DuckDb => '"',
        Dialect::Sqlite | Dialect::Spark | Dialect::ClickHouse => '`',
    }
}
