// What would have stood right where reading stopped.
use thiserror::Error;

/// What a text lacks at the place where reading stopped.
#[derive(Clone, Copy, Debug, PartialEq, Eq, Error)]
pub enum Expected {
    /// What stands there is no part of any text.
    #[error("expected a word, a number, a text in quotes, a name in backquotes or a sign")]
    Token,
    /// A text between double quotes has no end.
    #[error("expected a closing double quote")]
    ClosingQuote,
    /// A text between single quotes has no end.
    #[error("expected a closing single quote")]
    ClosingSingleQuote,
    /// A name has no end.
    #[error("expected a closing backquote")]
    ClosingBackquote,
    /// Bytes aren't spelled by two digits each.
    #[error("expected two hexadecimal digits for each byte")]
    HexDigits,
    /// More is nested than the limit allows.
    #[error("expected less nesting")]
    LessNesting,
    /// No type begins there.
    #[error("expected a type: bool, u8 to u64, i8 to i64, f32, f64, decimal(..), date, timestamp(..), utf8, binary, list(..), fixed_size_list(..)[..] or {{..}}")]
    TypeName,
    /// A bracket isn't opened.
    #[error("expected `(`")]
    OpenParen,
    /// A bracket isn't closed.
    #[error("expected `)`")]
    CloseParen,
    /// A bracket isn't opened.
    #[error("expected `[`")]
    OpenBracket,
    /// A bracket isn't closed.
    #[error("expected `]`")]
    CloseBracket,
    /// The length of a list is no number below 2^32.
    #[error("expected a length below 4294967296")]
    Length,
    /// The precision of a decimal is no number from 1 to 38.
    #[error("expected a precision from 1 to 38")]
    Precision,
    /// The scale of a decimal is no number up to its precision.
    #[error("expected a scale of at most the precision")]
    Scale,
    /// The unit of a timestamp is missing.
    #[error("expected a unit: s, ms, us or ns")]
    Unit,
    /// The zone of a timestamp is no text.
    #[error("expected the name of a zone between quotes")]
    Zone,
    /// What a bracket holds neither goes on nor ends.
    #[error("expected `,` or `)`")]
    CommaOrParen,
    /// No name of a field.
    #[error("expected a name, between backquotes if it is not of letters, digits and underscores")]
    Name,
    /// A field isn't given its type.
    #[error("expected `=` and the field's type")]
    FieldType,
    /// The fields neither go on nor end.
    #[error("expected `,` or `}}`")]
    CommaOrCloseBrace,
    /// The items neither go on nor end.
    #[error("expected `,` or `]`")]
    CommaOrCloseBracket,
    /// A field isn't given its value.
    #[error("expected `:` and the field's value")]
    FieldValue,
    /// No value begins there.
    #[error("expected a value: null, true, false, a number, a text, bytes behind 0x, [..] or {{..}}")]
    Value,
    /// A value isn't given its type.
    #[error("expected `::` and the value's type")]
    ValueType,
    /// Nothing may follow.
    #[error("expected the end of the text")]
    End,
    /// A null isn't given its type.
    #[error("expected a type behind the null, as in null::i32?; `is null` tests for a null")]
    NullType,
    /// A number is out of its type's range, or its suffix names no type.
    #[error("expected a number in its type's range: i32, f64 with a point, or one with a suffix of i8, i16, i32, i64, u8, u16, u32, u64")]
    Number,
    /// The value is none of the type that follows it.
    #[error("expected a type that the value is one of")]
    FittingType,
    /// No operand begins there.
    #[error("expected an operand: `$`, a field, a value, a function or `(`")]
    Operand,
    /// A `not` is no operand of a comparison or of arithmetic without parentheses.
    #[error("expected parentheses around `not`")]
    OperandOrParens,
    /// A whole expression is there.
    #[error("expected an operator or the end of the text")]
    Operator,
    /// A bracket is open.
    #[error("expected an operator or `)`")]
    OperatorOrCloseParen,
    /// The children of a call neither go on nor end.
    #[error("expected an operator, `,` or `)`")]
    CommaOrCloseParen,
    /// Comparisons don't chain, but `lo < x <= hi`.
    #[error("expected `and`, `or`, or parentheses around the comparison")]
    Parens,
    /// What is negated behind an operand is none of the operators that may be.
    #[error("expected `like`, `ilike`, `between` or `in`")]
    Like,
    /// `is` is followed by something else.
    #[error("expected `null`, `true` or `false`, or one of them behind `not`")]
    Null,
    /// The upper bound is missing.
    #[error("expected `and` and the upper bound")]
    And,
    /// The type of a cast is missing.
    #[error("expected `as` and a type")]
    As,
    /// A CASE has no condition.
    #[error("expected `when`")]
    When,
    /// A condition has no value.
    #[error("expected `then`")]
    Then,
    /// A CASE neither goes on nor ends.
    #[error("expected `when`, `else` or `end`")]
    WhenElseEnd,
    /// A CASE doesn't end.
    #[error("expected `end`")]
    EndWord,
    /// A CASE has more pairs than can be counted.
    #[error("expected at most 4294967295 pairs of a CASE")]
    FewerPairs,
    /// No function has that name.
    #[error("expected a function: byte_length, cast, coalesce, fill_null, if, is_not_null, is_null, list_contains, mask, pack, starts_with, zip, or vortex. and a function's name")]
    Function,
    /// A function has another number of children.
    #[error("expected another number of children")]
    Arity,
    /// A function's options are missing, or are none of its.
    #[error("expected the function's options between square brackets")]
    Options,
}
