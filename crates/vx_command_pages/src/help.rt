// What would do where an expression is refused.
use vx_source::Expected;
use vx_tree::VortexError;

/// What would do in place of what was refused, None where the refusal says it.
pub(crate) fn help_for(refusal: &VortexError) -> Option<&'static str> {
    match refusal {
        VortexError::NotAStruct => Some("only a struct has fields; `$` has those of the schema"),
        VortexError::NoSuchField(_) => Some("name one of the fields that the schema has there"),
        VortexError::BaseTypesDiffer => Some(
            "use values of one type; a literal without a suffix takes that of what it stands beside",
        ),
        VortexError::NotBool => Some(
            "write a comparison, as in x > 0, or a test, as in x is not null",
        ),
        VortexError::NotComparable => Some("compare the fields one by one"),
        VortexError::NotNumeric => Some(
            "compute with numbers of one type, as in x + 1: decimals have + and - alone",
        ),
        VortexError::NotText => Some("this takes texts of type utf8, as in s like \"a%\""),
        VortexError::NoPairs => Some("write at least one `when` with its `then`"),
        _ => None,
    }
}

/// What would do in place of what stands at that byte of an expression: a value without its type or of another one, or
/// what other languages have and this one hasn't.
pub(crate) fn help_for_unread(text: &str, at: usize, expected: &Expected) -> Option<&'static str> {
    match expected {
        Expected::ValueType => Some("write its type behind it, as in [1, 2]::list(i32)"),
        Expected::FittingType => Some(
            "the value has to be one of the type behind it: 300 is no i8, and null::i32 lacks a `?`",
        ),
        // The name of a function that there isn't stands before its bracket.
        Expected::Function => help_for_foreign(text, start_of_word(text, at)),
        _ => help_for_foreign(text, at),
    }
}

// Where the word begins that ends before that byte.
fn start_of_word(text: &str, at: usize) -> usize {
    let Some((before, _)) = text.split_at_checked(at) else {
        return at;
    };
    let before = before.trim_end();
    let letters = before.bytes().rev();
    let word = letters.take_while(|byte| is_within(Some(*byte))).count();
    before.len().saturating_sub(word)
}

// What would do in place of words or signs of other languages.
fn help_for_foreign(text: &str, at: usize) -> Option<&'static str> {
    let (before, behind) = text.split_at_checked(at)?;
    for (last, first, help) in FOREIGN {
        if ends_with_word(before.trim_end(), last) && begins_with_word(behind, first) {
            return Some(*help);
        }
    }
    None
}

// Words or signs that other languages have: one that stands before the byte at which reading stopped, or an empty text where
// that doesn't matter; one that begins there, or an empty text; and what to write in their place. The first that fits is told.
const FOREIGN: &[(&str, &str, &str)] = &[
    ("", "&", "write `and`, as in x > 1 and y > 2"),
    ("", "|", "write `or`, as in x > 1 or y > 2"),
    ("", "!", "write `not`, as in not (x > 1)"),
    ("", "~", LIKE),
    ("", ";", "leave the `;` out: a text is one expression"),
    (
        "",
        "[",
        "there are no subscripts: a field is named, as in x.y",
    ),
    ("", "^", POWER),
    ("*", "*", POWER),
    ("/", "/", "write `/`, as in x / 2, or for a comment `--`"),
    ("/", "*", COMMENT),
    ("", "/*", COMMENT),
    ("", "//", COMMENT),
    ("", "#", COMMENT),
    ("==", "=", "write `=`, as in x = 1"),
    ("!=", "=", "write `!=`, as in x != 1"),
    (
        "<=",
        ">",
        "write `=`, and for nulls `is null`, as in x = y or x is null and y is null",
    ),
    ("=", "<", "write `<=`, as in x <= 1"),
    ("=", ">", "write `>=`, as in x >= 1"),
    ("", "??", COALESCE),
    ("", "?:", COALESCE),
    ("", "?", "write `if`, as in if(x > 1, y, z)"),
    ("", "regexp", LIKE),
    ("", "rlike", LIKE),
    ("", "glob", LIKE),
    ("", "match", LIKE),
    ("", "similar", LIKE),
    ("", "contains", "write `like`, as in s like \"%a%\""),
    (
        "",
        "escape",
        "a backslash escapes what follows it in a pattern, as in s like \"5\\%\"",
    ),
    ("", "mod", "write `%`, as in x % 2"),
    ("", "div", "write `/`, as in x / 2"),
    (
        "",
        "xor",
        "write `!=` between two truth values, as in (x > 1) != (y > 2)",
    ),
    ("", "isnull", "write `is null`, as in x is null"),
    ("", "notnull", "write `is not null`, as in x is not null"),
    (
        "case",
        "",
        "write the whole condition behind `when`, as in case when x = 1 then y else z end",
    ),
    ("date", "\"", DAY),
    ("date", "'", DAY),
    ("timestamp", "\"", INSTANT),
    ("timestamp", "'", INSTANT),
    (
        "where",
        "",
        "leave `where` out: a text is the condition alone",
    ),
];

const LIKE: &str = "match a text by `like`, as in s like \"a%\"";

const POWER: &str = "there are no powers: write the product, as in x * x";

const COALESCE: &str = "write `coalesce`, as in coalesce(x, 0)";

const COMMENT: &str = "a comment begins with `--`, and ends with its line";

const DAY: &str = "write the type behind it, as in \"2024-01-31\"::date";

const INSTANT: &str = "write the type behind it, as in \"2024-01-31T10:15:00\"::timestamp(s)";

// Whether the text ends with the word, in either case, or with the sign.
fn ends_with_word(text: &str, word: &str) -> bool {
    let Some(at) = text.len().checked_sub(word.len()) else {
        return false;
    };
    match text.split_at_checked(at) {
        Some((before, end)) => {
            end.eq_ignore_ascii_case(word)
                && !(is_within(before.bytes().last()) && is_within(word.bytes().next()))
        }
        None => false,
    }
}

// Whether the text begins with the word, in either case, or with the sign.
fn begins_with_word(text: &str, word: &str) -> bool {
    match text.split_at_checked(word.len()) {
        Some((front, behind)) => {
            front.eq_ignore_ascii_case(word)
                && !(is_within(word.bytes().last()) && is_within(behind.bytes().next()))
        }
        None => false,
    }
}

// Whether the byte is one of a word.
fn is_within(byte: Option<u8>) -> bool {
    byte.is_some_and(|byte| byte.is_ascii_alphanumeric() || byte == b'_')
}
