// Words, and names that are taken for words.
ghost use Rattle.std.specs.Prelude.{◌≡◌, map};
ghost use Rattle.vx_source_types.specs.Names.{same_word};
ghost use Rattle.vx_sql.specs.Words as words;

use crate::Dialect;

/// Whether the word is the given one, in either case.
pub fn is_word(word: &str, other: &str) -> bool
    ensures { result ≡ same_word word.now other.now }
{
    word.as_bytes().eq_ignore_ascii_case(other.as_bytes())
}

/// Whether the word is one of those, in either case.
pub fn is_one_of(word: &str, others: &[&str]) -> bool
    ensures { result ≡ words.is_one_of (map (λ w. w.now) others.now) word.now }
{
    for other in others {
        if is_word(word, other) {
            return true;
        }
    }
    false
}

/// Whether the engine takes the name for something else though it stands between quotes. ClickHouse, to
/// version 18, hands names on to its shards without them.
pub(crate) fn is_misread(dialect: Dialect, name: &str) -> bool
    ensures { result ≡ words.is_misread dialect name.now }
{
    match dialect {
        Dialect::ClickHouse => is_one_of(
            name,
            &[
                "distinct", "inf", "infinity", "interval", "nan", "not", "null", "select",
            ],
        ),
        Dialect::Postgres | Dialect::Sqlite | Dialect::DuckDb | Dialect::Spark => false,
    }
}
