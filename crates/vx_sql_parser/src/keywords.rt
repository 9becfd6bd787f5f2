// Words of SQL.
ghost use Rattle.std.specs.Prelude.{◌≡◌};
ghost use Rattle.vx_sql_parser.specs.Words as words;

pub(crate) use vx_sql::{is_one_of, is_word as is};

// Whether it divides conditions and the parts of a CASE.
pub(crate) fn is_divider(word: &str) -> bool
    ensures { result ≡ words.is_divider word.now }
{
    is_one_of(word, &["and", "or", "else"])
}

pub(crate) fn is_truth(word: &str) -> bool
    ensures { result ≡ words.is_truth word.now }
{
    is_one_of(word, &["true", "false"])
}

// Whether it means the same in source text.
pub(crate) fn is_plain_word(word: &str) -> bool
    ensures { result ≡ words.is_plain_word word.now }
{
    is_truth(word) || is_one_of(word, &["null", "not", "in", "between"])
}

// Whether it says something of what stands around it.
fn is_structural(word: &str) -> bool
    ensures { result ≡ words.is_structural word.now }
{
    is_one_of(
        word,
        &[
            "is", "like", "ilike", "as", "case", "when", "then", "end", "escape", "collate",
        ],
    )
}

// Whether it is a word of queries, an operator, or a value of the clock, which aren't read.
pub(crate) fn is_reserved(word: &str) -> bool
    ensures { result ≡ words.is_reserved word.now }
{
    is_one_of(
        word,
        &[
            "select",
            "from",
            "where",
            "exists",
            "any",
            "all",
            "some",
            "distinct",
            "order",
            "group",
            "limit",
            "union",
            "similar",
            "glob",
            "regexp",
            "rlike",
            "match",
            "isnull",
            "notnull",
            "div",
            "interval",
            "overlaps",
            "current_date",
            "current_time",
            "current_timestamp",
            "localtime",
            "localtimestamp",
            "current_user",
            "session_user",
            "user",
        ],
    )
}

// Whether it is a name.
pub(crate) fn is_name(word: &str) -> bool
    ensures { result ≡ words.is_name word.now }
{
    !(is_divider(word) || (is_plain_word(word) || (is_structural(word) || is_reserved(word))))
}
