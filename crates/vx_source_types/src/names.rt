// Names of fields in source text.
ghost use Rattle.std.specs.Prelude.{◌≡◌, ◌<◌, Some, option_map};
ghost use Rattle.std.specs.Fmt.{WritesOnOk};
ghost use Rattle.vx_source_types.specs.Views.{lexeme_of};
ghost use Rattle.vx_source_types.specs.Names.{name_source, names_source, name_at, same_word};

use crate::token::Token;
use crate::words::is_plain;
use std::fmt;
use std::fmt::{Display, Formatter, Write};
use vx_dtype::{FieldName, separator, write_quoted};

/// The name as source text: as it is where it is a word, else between backquotes, a backquote in it doubled.
#[derive(Clone, Copy)]
pub struct NameText<'a>(pub &'a FieldName);

impl Display for NameText<'_> {
    ghost output = { λ t. Some (name_source t.0.now) };

    fn fmt<W: Write>(&self, f: &mut Formatter<W>) -> fmt::Result {
        write_name(self.0, f)
    }
}

/// Writes the name as source text.
pub fn write_name<W: Write>(name: &FieldName, f: &mut Formatter<W>) -> fmt::Result
    ensures { WritesOnOk W.write_str_gives f.old result (name_source name.now) f.new }
{
    let text = name.as_str();
    if is_plain(text) {
        f.write_str(text)
    } else {
        write_quoted(text, '`', f)
    }
}

/// Writes the names with a comma and a space between them.
pub fn write_names<W: Write>(names: &[FieldName], f: &mut Formatter<W>) -> fmt::Result
    ensures { WritesOnOk W.write_str_gives f.old result (names_source names.now) f.new }
{
    for i in 0..names.len() {
        f.write_str(separator(i))?;
        write_name(&names[i], f)?;
    }
    Ok(())
}

/// The name that the token is, a word or between backquotes.
pub fn field_name(token: &Token) -> Option<&FieldName>
    ensures { option_map (λ a. a.now) result ≡ name_at (lexeme_of token.now) }
{
    match token {
        Token::Word(name) => Some(name),
        Token::Quoted(name) => Some(name),
        _ => None,
    }
}

/// Whether the word is the given one, in either case.
pub fn is_word(name: &FieldName, word: &str) -> bool
    ensures { result ≡ same_word name.now word.now }
{
    name.as_str()
        .as_bytes()
        .eq_ignore_ascii_case(word.as_bytes())
}
