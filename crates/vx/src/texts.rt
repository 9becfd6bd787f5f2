// Texts of the command line: as they stand, of a file, or of standard input.
use crate::choices::dialect_named;
use anyhow::{Context, Result};
use clap::ArgMatches;
use std::alloc::Global;
use std::rt::Files;
use std::{fs, io};
use vx_commands::{Span, Status};
use vx_sql_parser::{SqlError, sql_source};

/// A text, and what messages call it.
#[derive(Drop)]
pub struct Text {
    name: String,
    text: String,
    // Whether it is rather the name of a file.
    names_file: bool,
}

impl Text {
    /// That text under that name.
    pub fn new(alloc: Global, name: &str, text: String) -> Result<Text> {
        Ok(Text {
            name: String::from_str(alloc, name)?,
            text,
            names_file: false,
        })
    }

    /// The text as a command takes it.
    pub fn input(&self) -> vx_commands::Input<'_> {
        vx_commands::Input {
            name: self.name.as_str(),
            text: self.text.as_str(),
            names_file: self.names_file,
        }
    }
}

/// The text that the argument says, an empty one where it isn't given.
pub fn text_at(rt: &HostRuntime, matches: &ArgMatches<'_>, id: &str) -> Result<Text> {
    read_text(rt, id, matches.get_str(id).unwrap_or(""))
}

/// The expression, as source text where the words say that it is SQL of an engine. Where that isn't read, that is told, and the
/// status with which the program ends.
pub fn expression_at(rt: &HostRuntime, matches: &ArgMatches<'_>) -> Result<Result<Text, Status>> {
    let text = text_at(rt, matches, "expression")?;
    let Some(dialect) = matches.get_str("sql").and_then(dialect_named) else {
        return Ok(Ok(text));
    };
    match sql_source(rt.alloc(), text.text.as_str(), dialect) {
        Ok(source) => Ok(Ok(Text::new(rt.alloc(), "SQL as source text", source.text)?)),
        Err(error) => Ok(Err(unread_sql(rt, &text, error)?)),
    }
}

// Tells what isn't read of the text, and answers how the program ends.
fn unread_sql(rt: &HostRuntime, text: &Text, error: SqlError) -> Result<Status> {
    let SqlError::Unread { at, reason } = error else {
        rt.eprintln(format_args!("error: {error}"))?;
        return Ok(Status::Failed);
    };
    let place = Span { start: at, end: at };
    rt.eprintln(format_args!("{}", text.input().report(reason, place, None)))?;
    Ok(Status::Wrong)
}

/// The type of the rows as the argument says it, an empty text where it isn't given. What ends in
/// `.schema` or is the name of a file rather names one.
pub fn schema_at(rt: &HostRuntime, matches: &ArgMatches<'_>) -> Result<Text> {
    let word = matches.get_str("schema").unwrap_or("");
    let mut text = read_text(rt, "schema", word)?;
    text.names_file = word == text.text.as_str()
        && (word.ends_with(".schema") || fs::metadata(rt, word).is_ok_and(|file| file.is_file()));
    Ok(text)
}

/// The text that the word says: standard input for `-`, the file of that name for `@NAME`, else the
/// word itself, which messages call by the argument's name.
pub fn read_text<R: Files + Input + AllocGlobal>(
    rt: &R,
    argument: &str,
    word: &str,
) -> Result<Text> {
    let alloc = rt.alloc();
    let (name, text) = match (word, word.strip_prefix('@')) {
        ("-", _) => (
            "standard input",
            io::read_to_string(alloc, rt.reader()).context("reading standard input")?,
        ),
        (_, Some(path)) => (
            path,
            fs::read_to_string(rt, path).context(format_args!("reading {path}"))?,
        ),
        _ => (argument, String::from_str(alloc, word)?),
    };
    Text::new(alloc, name, unmarked(alloc, text)?)
}

// The text without the byte order mark that a file may begin with.
fn unmarked(alloc: Global, text: String) -> Result<String> {
    match text.as_str().strip_prefix('\u{feff}') {
        Some(rest) => Ok(String::from_str(alloc, rest)?),
        None => Ok(text),
    }
}
