// Tokens.
use crate::expectation::Expected;
use vx_dtype::FieldName;

/// A sign of one or two characters.
#[derive(Clone, Copy, Debug, PartialEq, Eq)]
pub enum Sign {
    /// `(`
    OpenParen,
    /// `)`
    CloseParen,
    /// `[`
    OpenBracket,
    /// `]`
    CloseBracket,
    /// `{`
    OpenBrace,
    /// `}`
    CloseBrace,
    /// `,`
    Comma,
    /// `:`
    Colon,
    /// `::`
    DoubleColon,
    /// `.`
    Dot,
    /// `?`
    Question,
    /// `~`
    Tilde,
    /// `=`
    Equal,
    /// `==`
    DoubleEqual,
    /// `!=` or `<>`
    NotEqual,
    /// `<`
    Less,
    /// `<=`
    LessEqual,
    /// `>`
    Greater,
    /// `>=`
    GreaterEqual,
    /// `+`
    Plus,
    /// `-`, but before a digit, with which it is a number
    Minus,
    /// `*`
    Star,
    /// `/`
    Slash,
    /// `%`
    Percent,
    /// `$`
    Dollar,
}

/// What a text is made of.
#[derive(Debug, Drop)]
pub enum Token {
    /// A name of letters, digits and underscores that doesn't begin with a digit, or a keyword.
    Word(FieldName),
    /// A name between backquotes, of which two stand for one inside it.
    Quoted(FieldName),
    /// A whole number, single underscores between its digits left out, with the word that follows it at once, which may be
    /// empty.
    Number {
        /// Whether a minus stands before it.
        negative: bool,
        /// The number without its sign, if it is below 2^64.
        magnitude: Option<u64>,
        /// The word.
        suffix: FieldName,
    },
    /// A number with digits on both sides of a point, with an exponent, or with both, or a whole one from 2^64 on that no
    /// word follows: its text, single underscores between its digits left out.
    Point(String),
    /// A text between double or single quotes, of which two stand for one inside it.
    Text(String),
    /// Bytes, by two hexadecimal digits each behind `0x`.
    Octets(Vec<u8>),
    /// A sign.
    Sign(Sign),
    /// The end of the text.
    End,
    /// What is none of these, and what would have stood right.
    Invalid(Expected),
}
