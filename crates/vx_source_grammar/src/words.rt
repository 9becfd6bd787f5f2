// Keywords.
ghost use Rattle.std.specs.Prelude.{◌≡◌};
ghost use Rattle.vx_source_grammar.specs.Keywords.{beside, operator_words, value_words, case_words, keyword_of};

use vx_dtype::FieldName;
use vx_source_types::is_word;

/// A word that is no name where an operand or an operator is due.
#[derive(Clone, Copy, PartialEq, Eq)]
pub enum Keyword {
    /// `and`
    And,
    /// `or`
    Or,
    /// `not`
    Not,
    /// `like`
    Like,
    /// `ilike`
    Ilike,
    /// `between`
    Between,
    /// `in`
    In,
    /// `is`
    Is,
    /// `null`
    Null,
    /// `true`
    True,
    /// `false`
    False,
    /// `as`
    As,
    /// `case`
    Case,
    /// `when`
    When,
    /// `then`
    Then,
    /// `else`
    Else,
    /// `end`
    End,
}

/// The keyword that the word is, in either case.
pub fn as_keyword(name: &FieldName) -> Option<Keyword>
    ensures { result ≡ keyword_of name.now }
{
    if let Some(word) = operator_word(name) {
        return Some(word);
    }
    match value_word(name) {
        Some(word) => Some(word),
        None => case_word(name),
    }
}

fn operator_word(name: &FieldName) -> Option<Keyword>
    ensures { result ≡ beside operator_words name.now }
{
    if is_word(name, "and") {
        Some(Keyword::And)
    } else if is_word(name, "or") {
        Some(Keyword::Or)
    } else if is_word(name, "not") {
        Some(Keyword::Not)
    } else if is_word(name, "like") {
        Some(Keyword::Like)
    } else if is_word(name, "ilike") {
        Some(Keyword::Ilike)
    } else if is_word(name, "between") {
        Some(Keyword::Between)
    } else if is_word(name, "in") {
        Some(Keyword::In)
    } else if is_word(name, "is") {
        Some(Keyword::Is)
    } else {
        None
    }
}

fn value_word(name: &FieldName) -> Option<Keyword>
    ensures { result ≡ beside value_words name.now }
{
    if is_word(name, "null") {
        Some(Keyword::Null)
    } else if is_word(name, "true") {
        Some(Keyword::True)
    } else if is_word(name, "false") {
        Some(Keyword::False)
    } else {
        None
    }
}

fn case_word(name: &FieldName) -> Option<Keyword>
    ensures { result ≡ beside case_words name.now }
{
    if is_word(name, "case") {
        Some(Keyword::Case)
    } else if is_word(name, "when") {
        Some(Keyword::When)
    } else if is_word(name, "then") {
        Some(Keyword::Then)
    } else if is_word(name, "else") {
        Some(Keyword::Else)
    } else if is_word(name, "end") {
        Some(Keyword::End)
    } else if is_word(name, "as") {
        Some(Keyword::As)
    } else {
        None
    }
}
