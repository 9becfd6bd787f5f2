// The type of the rows that a command without records is over.
use crate::guess::guess_told;
use crate::records::{Once, file_at, format_told, name_of};
use crate::texts::{Text, schema_at};
use anyhow::Result;
use clap::ArgMatches;
use std::result;
use vx_commands::{Status, UntypedRecords, guess_schema};

/// The type as the words say it, or else as the records are that they name, for that expression. What is
/// wrong with these, or with the expression over their type, is told, and then the status is how the command ends.
pub fn schema_of(
    rt: &HostRuntime,
    matches: &ArgMatches<'_>,
    expression: &Text,
) -> Result<result::Result<Text, Status>> {
    match (matches.get_str("schema"), matches.get_str("data")) {
        (None, Some(data)) => guessed(rt, matches, expression, data),
        _ => Ok(Ok(schema_at(rt, matches)?)),
    }
}

// The type of the records of that file, or of standard input, for the expression.
fn guessed<'a>(
    rt: &HostRuntime,
    matches: &ArgMatches<'a>,
    expression: &Text,
    data: &'a str,
) -> Result<result::Result<Text, Status>> {
    let alloc = rt.alloc();
    let Some(format) = format_told(rt, matches, data)? else {
        return Ok(Err(Status::Wrong));
    };
    let Some(guess) = guess_told(rt, matches)? else {
        return Ok(Err(Status::Wrong));
    };
    let records = UntypedRecords {
        name: name_of(data),
        format,
        guess: guess.guess(),
        skips: matches.get_flag("skip-errors"),
    };
    let (expression, mut err) = (expression.input(), rt.stderr());
    let guessed = if data == "-" {
        let mut input = Once(rt.reader());
        guess_schema(alloc, expression, records, &mut input, &mut err)
    } else {
        let mut file = file_at(rt, data)?;
        guess_schema(alloc, expression, records, &mut file, &mut err)
    };
    match guessed {
        Ok(text) => Ok(Ok(Text::new(alloc, "schema", text)?)),
        Err(status) => Ok(Err(status)),
    }
}
