// Commands that go over the records of a file.
use crate::choices::{data_format_named, mark_named, output_format_named};
use crate::guess::guess_told;
use crate::progress::Progress;
use crate::selection::selection_at;
use crate::texts::{Text, expression_at, schema_at};
use anyhow::{Context, Result};
use clap::ArgMatches;
use std::fs::File;
use std::io;
use std::io::Read;
use std::num::NonZeroUsize;
use vx_commands::{
    ChunksForm, CsvFormat, DataFormat, Guess, OutputFormat, RecordsTask, RowsCommand, Schema,
    Source, Status, run_rows,
};

/// The form in which rows are printed, as the words say.
pub fn output_of(matches: &ArgMatches<'_>) -> Option<OutputFormat> {
    output_format_named(matches.get_str("output")?)
}

/// What a filter does with records: it counts them, selects something of them, or goes by chunks where the words say so.
pub fn filter_of(matches: &ArgMatches<'_>) -> RecordsTask {
    if matches.get_flag("count") {
        return RecordsTask::Count;
    }
    if let Some(size) = matches.get_one::<NonZeroUsize>("chunk") {
        return RecordsTask::FilterByChunks(size);
    }
    match output_of(matches) {
        Some(format) => RecordsTask::Select(format),
        None if matches.contains_id("select") => RecordsTask::Select(OutputFormat::JsonLines),
        None => RecordsTask::Filter,
    }
}

/// The form in which chunks that have to be read are printed.
pub fn chunks_form_of(matches: &ArgMatches<'_>) -> ChunksForm {
    if matches.get_flag("json") {
        ChunksForm::Json
    } else {
        ChunksForm::Lines
    }
}

/// Does that work on the records of the file that the words name, on so many of them where they don't
/// say on how many.
pub fn over_records(
    rt: &HostRuntime,
    work: RecordsTask,
    limit: u64,
    matches: &ArgMatches<'_>,
) -> Result<Status> {
    let data = matches
        .get_str("data")
        .or_else(|| matches.get_str("stats"))
        .or_else(|| matches.get_str("chunks"))
        .unwrap_or("-");
    let Some(format) = format_told(rt, matches, data)? else {
        return Ok(Status::Wrong);
    };
    let Some(guess) = guess_told(rt, matches)? else {
        return Ok(Status::Wrong);
    };
    let texts = match Texts::of(rt, matches)? {
        Ok(texts) => texts,
        Err(status) => return Ok(status),
    };
    let command = RowsCommand {
        work,
        expression: texts.expression.input(),
        select: texts.select.input(),
        schema: texts.schema_or(guess.guess()),
        data: name_of(data),
        format,
        limit: matches.get_one("limit").unwrap_or(limit),
        skips: matches.get_flag("skip-errors"),
    };
    run_over(rt, &command, data)
}

// The texts of a command that goes over records.
#[derive(Drop)]
struct Texts {
    expression: Text,
    select: Text,
    schema: Option<Text>,
}

impl Texts {
    // The texts that the words say, or the status of those that are told to be wrong. Where they say nothing that is selected,
    // that is the record.
    fn of(rt: &HostRuntime, matches: &ArgMatches<'_>) -> Result<Result<Texts, Status>> {
        let expression = match expression_at(rt, matches)? {
            Ok(expression) => expression,
            Err(status) => return Ok(Err(status)),
        };
        let select = match selection_at(rt, matches)? {
            Ok(select) => select,
            Err(status) => return Ok(Err(status)),
        };
        Ok(Ok(Texts {
            expression,
            select,
            schema: schema_said(rt, matches)?,
        }))
    }

    // The type that the text says, or the one that is guessed so.
    fn schema_or<'a>(&'a self, guess: Guess<'a>) -> Schema<'a> {
        match &self.schema {
            Some(text) => Schema::Said(text.input()),
            None => Schema::Guessed(guess),
        }
    }
}

// Runs the command over that file, or standard input, which is opened once.
fn run_over(rt: &HostRuntime, command: &RowsCommand<'_>, data: &str) -> Result<Status> {
    let alloc = rt.alloc();
    let (mut out, mut err) = (rt.stdout(), rt.stderr());
    if data == "-" {
        let input = Once(rt.reader());
        return Ok(run_rows(alloc, command, input, &mut out, &mut err));
    }
    let reader = file_at(rt, data)?;
    Ok(run_rows(alloc, command, reader, &mut out, &mut err))
}

/// The file of that name.
pub fn file_at<'a>(rt: &'a HostRuntime, name: &str) -> Result<Progress<'a, File>> {
    let file = File::open(rt, name).context(format_args!("reading {name}"))?;
    Ok(Progress::new(rt, file))
}

/// What is read once, as standard input.
#[derive(Drop)]
pub struct Once<R>(pub R);

impl<R: Read> Read for Once<R> {
    fn read(&mut self, buf: &mut [u8]) -> io::Result<usize> {
        self.0.read(buf)
    }
}

impl<R: Read> Source for Once<R> {
    fn go_back(&mut self) -> io::Result<bool> {
        Ok(false)
    }
}

// The schema, if the words say one.
fn schema_said(rt: &HostRuntime, matches: &ArgMatches<'_>) -> Result<Option<Text>> {
    if !matches.contains_id("schema") {
        return Ok(None);
    }
    Ok(Some(schema_at(rt, matches)?))
}

/// What the file is called in messages.
pub fn name_of(data: &str) -> &str {
    if data == "-" { "standard input" } else { data }
}

/// The form of the records: the one that the words say, or else the one that the file's name tells. Where the words say
/// none, that is told, and there is none.
pub fn format_told<'a>(
    rt: &HostRuntime,
    matches: &ArgMatches<'a>,
    data: &str,
) -> Result<Option<DataFormat<'a>>> {
    match format_of(matches, data) {
        Ok(format) => Ok(Some(format)),
        Err(why) => {
            rt.eprintln(format_args!("error: {why}"))?;
            Ok(None)
        }
    }
}

// The form of the records, or why the words say none.
fn format_of<'a>(matches: &ArgMatches<'a>, data: &str) -> Result<DataFormat<'a>, &'static str> {
    let format = match matches.get_str("format").and_then(data_format_named) {
        Some(format) => format,
        None => DataFormat::of(data),
    };
    match format {
        DataFormat::Csv(format) => Ok(DataFormat::Csv(csv_format(matches, format)?)),
        DataFormat::Json if says_csv(matches) => {
            Err(
                "--delimiter, --no-header, --nested, --comment and --null are for CSV: add --format csv",
            )
        }
        DataFormat::Json => Ok(DataFormat::Json),
    }
}

// Whether the words say something of CSV.
fn says_csv(matches: &ArgMatches<'_>) -> bool {
    let flags = ["no-header", "nested"];
    let words = ["delimiter", "comment", "null"];
    flags.iter().any(|id| matches.get_flag(id)) || words.iter().any(|id| matches.contains_id(id))
}

// The format, but for what the words say; or why they say none.
fn csv_format<'a>(
    matches: &ArgMatches<'a>,
    format: CsvFormat<'a>,
) -> Result<CsvFormat<'a>, &'static str> {
    let delimiter = match matches.get_str("delimiter") {
        Some(word) => mark_named(word).ok_or(
            "--delimiter is an ASCII character other than a double quote, or the word tab",
        )?,
        None => format.delimiter,
    };
    let comment = match matches.get_str("comment") {
        Some(word) => Some(mark_named(word).ok_or(
            "--comment is an ASCII character other than a double quote",
        )?),
        None => None,
    };
    Ok(CsvFormat {
        delimiter,
        has_header: !matches.get_flag("no-header"),
        comment,
        null: matches.get_str("null"),
    })
}
