// What a person runs: `vx COMMAND EXPR --schema TYPE`.
#![tactic(auto)]

mod arguments;
mod choices;
mod guess;
mod line;
mod progress;
mod records;
mod schema;
mod selection;
mod texts;
mod written;

use anyhow::{Context, Result};
use arguments::is_dashed;
use choices::dialect_named;
use clap::ArgMatches;
use clap::error::ErrorKind;
use line::command_line;
use records::{chunks_form_of, filter_of, output_of, over_records};
use schema::schema_of;
use std::process::ExitCode;
use std::{env, io};
use texts::{Text, expression_at, text_at};
use vx_commands::{
    Command, Dialect, Query, RecordsTask, Shown, SqlCommand, SqlTask, Status, run_command, run_sql,
};
use written::Written;

fn main(rt: HostRuntime) -> ExitCode {
    match answer(&rt) {
        Ok(code) => code,
        Err(error) => {
            let _ = rt.eprintln(format_args!("error: {}", Shown(format_args!("{error:#}"))));
            ExitCode::from(Status::Failed as u8)
        }
    }
}

// Does what the words of the command line ask for.
fn answer(rt: &HostRuntime) -> Result<ExitCode> {
    let alloc = rt.alloc();
    let words: Vec<String> = env::args(rt)?.collect(alloc)?;
    let dashed = words.iter().any(|word| is_dashed(word.as_str()));
    let status = match command_line(alloc, dashed)?.try_get_matches_from(words.as_slice()) {
        Ok(matches) => asked(rt, &matches)?,
        Err(error) => {
            if let Err(failure) = print(rt, &error)
                && failure.kind() != io::ErrorKind::BrokenPipe
            {
                return Err(failure).context("writing");
            }
            match error.kind() {
                ErrorKind::DisplayHelp | ErrorKind::DisplayVersion => Status::Done,
                ErrorKind::OutOfMemory => Status::Failed,
                _ => Status::Wrong,
            }
        }
    };
    Ok(ExitCode::from(status as u8))
}

// Prints the text that is asked for, or what is wrong with the words, with their control characters escaped.
fn print(rt: &HostRuntime, error: &clap::Error) -> io::Result<()> {
    if !error.use_stderr() {
        return error.print(rt);
    }
    let Ok(text) = format!(in rt.alloc(); "{error}") else {
        return error.print(rt);
    };
    for line in text.as_str().lines() {
        rt.eprintln(format_args!("{}", Shown(line)))?;
    }
    Ok(())
}

// Runs the command of the words, of which no others are let through than those that are named here.
fn asked(rt: &HostRuntime, matches: &ArgMatches<'_>) -> Result<Status> {
    match matches.subcommand() {
        Some((_, matches)) if asks_input_twice(matches) => {
            rt.eprintln(format_args!(
                "error: standard input is read once, and two words ask for it: name a file instead"
            ))?;
            Ok(Status::Wrong)
        }
        Some(("eval", matches)) => {
            let Some(output) = output_of(matches) else {
                return Ok(Status::Wrong);
            };
            over_records(rt, RecordsTask::Evaluate(output), u64::MAX, matches)
        }
        Some(("filter", matches)) => over_records(rt, filter_of(matches), u64::MAX, matches),
        Some(("plan", matches)) if matches.contains_id("chunks") => {
            let work = RecordsTask::PlanChunks(chunks_form_of(matches));
            over_records(rt, work, u64::MAX, matches)
        }
        Some(("plan", matches)) if matches.contains_id("sql") => {
            over_engine(rt, SqlTask::Plan, matches)
        }
        Some(("explain", matches)) if matches.contains_id("sql") => {
            over_engine(rt, SqlTask::Explain, matches)
        }
        Some(("explain", matches)) if matches.contains_id("data") => {
            over_records(rt, RecordsTask::Explain, 10, matches)
        }
        Some(("explain", matches)) if matches.contains_id("stats") => {
            over_records(rt, RecordsTask::ExplainChunks, u64::MAX, matches)
        }
        Some((name, matches)) => over_texts(rt, name, matches),
        None => Ok(Status::Wrong),
    }
}

// Whether more than one word asks for standard input.
fn asks_input_twice(matches: &ArgMatches<'_>) -> bool {
    let words = ["expression", "select", "schema", "data", "stats", "chunks"];
    let inputs = words.iter().filter(|id| matches.get_str(id) == Some("-"));
    inputs.count() > 1
}

// Runs the command of that name, which reads no records.
fn over_texts(rt: &HostRuntime, name: &str, matches: &ArgMatches<'_>) -> Result<Status> {
    let expression = match expression_at(rt, matches)? {
        Ok(expression) => expression,
        Err(status) => return Ok(status),
    };
    let schema = match schema_of(rt, matches, &expression)? {
        Ok(schema) => schema,
        Err(status) => return Ok(status),
    };
    let query = Query {
        expression: expression.input(),
        schema: schema.input(),
    };
    let command = match name {
        "check" => Command::Check(query),
        "explain" => Command::Explain(query),
        "plan" => Command::Plan(query),
        "dot" => Command::Graph(query),
        "fmt" => Command::Format(query.expression),
        _ => return Ok(Status::Wrong),
    };
    let mut out = Written::new(rt.stdout());
    let status = run_command(rt.alloc(), &command, &mut out, &mut rt.stderr());
    out.ended(rt, status)
}

// Does that work for the engine that the words name.
fn over_engine(rt: &HostRuntime, work: SqlTask, matches: &ArgMatches<'_>) -> Result<Status> {
    let expression = text_at(rt, matches, "expression")?;
    let schema = match schema_of(rt, matches, &expression)? {
        Ok(schema) => schema,
        Err(status) => return Ok(status),
    };
    let Some(dialect) = matches.get_str("sql").and_then(dialect_named) else {
        return Ok(Status::Wrong);
    };
    let table = matches.get_str("table").unwrap_or("");
    let command = command_for(work, &expression, &schema, dialect, table);
    let mut out = Written::new(rt.stdout());
    let status = run_sql(rt.alloc(), &command, &mut out, &mut rt.stderr());
    out.ended(rt, status)
}

// The command that does that work for the engine.
fn command_for<'a>(
    work: SqlTask,
    expression: &'a Text,
    schema: &'a Text,
    dialect: Dialect,
    table: &'a str,
) -> SqlCommand<'a> {
    let query = Query {
        expression: expression.input(),
        schema: schema.input(),
    };
    SqlCommand {
        work,
        query,
        dialect,
        table,
    }
}
