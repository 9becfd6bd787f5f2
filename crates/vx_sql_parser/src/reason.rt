// Why a text of SQL isn't read.
use thiserror::Error;

/// What a text of SQL has that isn't read, where another text might be.
#[derive(Clone, Copy, Debug, PartialEq, Eq, Error)]
pub enum Unread {
    /// A character that begins no token, or a sign of an operator that there isn't.
    #[error("arithmetic, comparisons, `and`, `or` and `not` are read, and names of other letters between the engine's quotes")]
    Sign,
    /// A `/` where the quotient of whole numbers has a fraction.
    #[error("`/` of whole numbers has a fraction here; `//` in DuckDB, `div` in Spark and `intDiv` in ClickHouse have none")]
    Quotient,
    /// A quote that isn't closed, or a backslash that says something of another character.
    #[error("the closing quote is missing, or a backslash stands before another character than a quote or a backslash")]
    Unclosed,
    /// A comment that isn't closed, or has another one inside.
    #[error("a comment ends with `*/`, and has no other inside")]
    Comment,
    /// A quote that isn't the engine's for names.
    #[error("names don't stand between these quotes in this engine")]
    NameQuote,
    /// A number with a second point or a word behind it.
    #[error("numbers are read that have at most one point and an exponent, with no word behind")]
    Number,
    /// Bytes that aren't spelled by hexadecimal digits.
    #[error("bytes are spelled by hexadecimal digits")]
    Hexadecimal,
    /// Two of `<` and `<=` one after another.
    #[error("comparisons don't chain; `and` or parentheses are missing")]
    Chain,
    /// A function that there isn't.
    #[error("this isn't a function here; `cast` and `coalesce` are")]
    Function,
    /// A word of SQL that has no meaning here.
    #[error("this word of SQL isn't read; a name that is spelled so stands between the engine's quotes")]
    Word,
    /// A word before a text, as in `time '10:15:30'`.
    #[error("no value of this type is read; a text stands alone")]
    TypedText,
    /// A name with another in front.
    #[error("columns stand without their table; a field of a struct is `(column).field`")]
    Table,
    /// The type of a cast.
    #[error("no type that is known follows")]
    CastType,
    /// A pattern that isn't a text.
    #[error("a pattern has to be a text that is written here")]
    Pattern,
    /// The escape of a pattern.
    #[error("the escape is one ASCII character, no `%` and no `_`, and stands before one of these or itself")]
    Escape,
    /// Brackets in a pattern of `glob` that aren't read.
    #[error("between the brackets of `glob` stands one character or, as for all letters then, a small letter and its capital")]
    Glob,
    /// A pattern of `ilike` with other letters than those of ASCII.
    #[error("the case of ASCII letters alone is ignored, and the pattern has other characters")]
    Case,
    /// A fill that isn't a literal.
    #[error("`coalesce` is read of two operands, of which the second is a literal")]
    Fill,
    /// The operand of a CASE.
    #[error("`case` is followed by `when`, or by a column's name and `when`")]
    Operand,
    /// A collation by another order than that of bytes.
    #[error("texts are compared by bytes, in no other collation")]
    Collation,
}
