// The engines.

/// An engine whose SQL is written.
#[derive(Clone, Copy, Debug, PartialEq, Eq, Hash)]
pub enum Dialect {
    /// PostgreSQL, with a database in UTF-8.
    Postgres,
    /// SQLite, with a database in UTF-8.
    Sqlite,
    /// DuckDB.
    DuckDb,
    /// Spark with `spark.sql.ansi.enabled`, as Spark 4 has it by default.
    Spark,
    /// ClickHouse, from version 18 on.
    ClickHouse,
}
