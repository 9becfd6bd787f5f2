// The engines' words for types.
ghost use Rattle.std.specs.Prelude.{◌≡◌, map, option_map};
ghost use Rattle.vx_sql_parser.specs.Types as types;

use crate::keywords::is;
use vx_sql::Dialect;

// What the first of these words that is the given one stands for.
fn called(word: &str, words: &[(&str, &'static str)]) -> Option<&'static str>
    ensures { option_map (λ t. t.now) result ≡ types.called (map (λ p. (p.0.now, p.1.now)) words.now) word.now }
{
    for (other, dtype) in words {
        if is(word, other) {
            return Some(*dtype);
        }
    }
    None
}

// The type that the word is, as source text has it.
pub(crate) fn type_named(dialect: Dialect, word: &str) -> Option<&'static str>
    ensures { option_map (λ t. t.now) result ≡ types.type_named dialect word.now }
{
    match dialect {
        Dialect::Postgres => called(
            word,
            &[
                ("smallint", "i16"),
                ("int2", "i16"),
                ("integer", "i32"),
                ("int", "i32"),
                ("int4", "i32"),
                ("bigint", "i64"),
                ("int8", "i64"),
                ("numeric", "u64"),
                ("real", "f32"),
                ("float4", "f32"),
                ("float", "f64"),
                ("float8", "f64"),
                ("text", "utf8"),
                ("varchar", "utf8"),
                ("bytea", "binary"),
                ("boolean", "bool"),
                ("date", "date"),
            ],
        ),
        Dialect::Sqlite => called(
            word,
            &[
                ("integer", "i64"),
                ("int", "i64"),
                ("real", "f64"),
                ("float", "f64"),
                ("double", "f64"),
                ("text", "utf8"),
                ("blob", "binary"),
                ("boolean", "bool"),
            ],
        ),
        Dialect::DuckDb => called(
            word,
            &[
                ("utinyint", "u8"),
                ("usmallint", "u16"),
                ("uinteger", "u32"),
                ("ubigint", "u64"),
                ("tinyint", "i8"),
                ("smallint", "i16"),
                ("integer", "i32"),
                ("int", "i32"),
                ("bigint", "i64"),
                ("float", "f32"),
                ("float4", "f32"),
                ("real", "f32"),
                ("double", "f64"),
                ("float8", "f64"),
                ("varchar", "utf8"),
                ("text", "utf8"),
                ("blob", "binary"),
                ("boolean", "bool"),
                ("date", "date"),
            ],
        ),
        Dialect::Spark => called(
            word,
            &[
                ("tinyint", "i8"),
                ("smallint", "i16"),
                ("int", "i32"),
                ("integer", "i32"),
                ("bigint", "i64"),
                ("float", "f32"),
                ("real", "f32"),
                ("double", "f64"),
                ("string", "utf8"),
                ("binary", "binary"),
                ("boolean", "bool"),
                ("date", "date"),
            ],
        ),
        Dialect::ClickHouse => called(
            word,
            &[
                ("uint8", "u8"),
                ("uint16", "u16"),
                ("uint32", "u32"),
                ("uint64", "u64"),
                ("int8", "i8"),
                ("int16", "i16"),
                ("int32", "i32"),
                ("int64", "i64"),
                ("float32", "f32"),
                ("float64", "f64"),
                ("string", "utf8"),
            ],
        ),
    }
}
