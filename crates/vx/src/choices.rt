// Words of the command line that choose one of a few things: each list of words beside what they name,
// in the same order.
use vx_commands::{CsvFormat, DataFormat, Dialect, OutputFormat};

/// The engines.
pub const ENGINES: &[&str] = &["postgres", "sqlite", "duckdb", "spark", "clickhouse"];

const DIALECTS: &[Dialect] = &[
    Dialect::Postgres,
    Dialect::Sqlite,
    Dialect::DuckDb,
    Dialect::Spark,
    Dialect::ClickHouse,
];

/// The forms of records.
pub const FORMATS: &[&str] = &["json", "csv"];

/// The forms of rows.
pub const OUTPUTS: &[&str] = &["json", "csv", "table"];

const OUTPUT_FORMATS: &[OutputFormat] = &[
    OutputFormat::JsonLines,
    OutputFormat::Csv,
    OutputFormat::Table,
];

/// The engine of that name.
pub fn dialect_named(word: &str) -> Option<Dialect> {
    named(word, ENGINES, DIALECTS)
}

/// The form of records of that name.
pub fn data_format_named(word: &str) -> Option<DataFormat<'static>> {
    match word {
        "json" => Some(DataFormat::Json),
        "csv" => Some(DataFormat::Csv(CsvFormat::default())),
        _ => None,
    }
}

/// The byte that may stand between cells or begin a comment: `tab`, or an ASCII character other than a double quote and
/// the ends of lines.
pub fn mark_named(word: &str) -> Option<u8> {
    match word.as_bytes() {
        b"tab" => Some(b'\t'),
        [b'"' | b'\n' | b'\r'] => None,
        [byte] => Some(*byte),
        _ => None,
    }
}

/// The form of rows of that name.
pub fn output_format_named(word: &str) -> Option<OutputFormat> {
    named(word, OUTPUTS, OUTPUT_FORMATS)
}

// What stands at the place of the word among the words.
fn named<T: Copy>(word: &str, words: &[&str], values: &[T]) -> Option<T> {
    let place = words.iter().position(|named| *named == word)?;
    values.get(place).copied()
}
