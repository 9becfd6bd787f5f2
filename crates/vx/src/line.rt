// The command line.
use crate::arguments::{
    add, chunk, chunks, count, dialect, expression, json, output, over_given_records,
    over_records_or_statistics, select, sql, table, typed_expression, with_args,
};
use clap::Command;
use std::alloc::{AllocError, Global};

const VERSION: &str = "0.1.0";

/// The words that the program takes.
pub fn command_line<'a>(alloc: Global, dashed: bool) -> Result<Command<'a>, AllocError> {
    let mut line = Command::new(alloc, "vx")
        .version(VERSION)
        .about(
            "Says what an expression over rows is, what it means at the records of a file, and what is wrong with it.",
        )
        .after_help(TEXTS)
        .subcommand_required(true)
        .arg_required_else_help(true)
        .bin_name("vx")?;
    for command in commands(alloc, dashed)? {
        line = line.subcommand(command)?;
    }
    Ok(line)
}

const TEXTS: &str =
    "EXPR and TYPE are texts, or @FILE for the text of a file, or - for standard input.

The status is 0; 1 where a file or memory fails; 2 where what was given is wrong.

Without --schema the type of the records is that of the first 1,000 of them.

Examples:
  vx check 'x >= 1 and x <= 5' --schema '{x=i32}'
  vx filter 'cents > 5000 and ship.country = \"GB\"' --data orders.csv";

fn commands<'a>(alloc: Global, dashed: bool) -> Result<Vec<Command<'a>>, AllocError> {
    let mut commands = Vec::new(alloc);
    add(&mut commands, check(alloc, dashed))?;
    add(&mut commands, explain(alloc, dashed))?;
    add(&mut commands, evaluate(alloc, dashed))?;
    add(&mut commands, filter(alloc, dashed))?;
    add(&mut commands, format(alloc, dashed))?;
    add(&mut commands, plan(alloc, dashed))?;
    add(&mut commands, graph(alloc, dashed))?;
    Ok(commands)
}

const CHECK: &str = "Example:
  vx check 'x >= 1 and x <= 5' --schema '{x=i32}'
prints
  bool";

fn check<'a>(alloc: Global, dashed: bool) -> Result<Command<'a>, AllocError> {
    let mut args = typed_expression(alloc, dashed)?;
    args.push(dialect(alloc))?;
    let command = Command::new(alloc, "check")
        .about("Prints the type of the expression")
        .after_help(CHECK);
    with_args(command, args)
}

const EXPLAIN: &str = "Example:
  vx explain 'a.x >= 1 and b < 5' --schema '{a={x=i32, y=i32}?, b=i32, c=utf8}'
prints its text, type and tree, what each pass makes of it, and what a scan reads; with --data also
the type of the records, and what the expression means at the first 10 of them; with --sql a SELECT
for that engine, and what of the expression it takes; with --stats what is known of it in each chunk,
whose statistics are a line of JSON, as in
  {\"rows\": 3, \"fields\": {\"a.x\": {\"nulls\": 1, \"least\": 1, \"greatest\": 5}}}";

fn explain<'a>(alloc: Global, dashed: bool) -> Result<Command<'a>, AllocError> {
    let mut args = over_records_or_statistics(alloc, dashed)?;
    let sql = sql(alloc)?.conflicts_with("data")?.conflicts_with("stats");
    add(&mut args, sql)?;
    add(&mut args, table(alloc))?;
    let command = Command::new(alloc, "explain")
        .about("Prints what becomes of the expression")
        .after_help(EXPLAIN);
    with_args(command, args)
}

const EVALUATE: &str = "Example:
  vx eval 'cents + 100' --data orders.csv --limit 10
prints a line of JSON for each of the first 10 records";

fn evaluate<'a>(alloc: Global, dashed: bool) -> Result<Command<'a>, AllocError> {
    let mut args = over_given_records(alloc, dashed)?;
    args.push(output(alloc).default_value("json"))?;
    args.push(dialect(alloc))?;
    let command = Command::new(alloc, "eval")
        .about("Prints what the expression means at each record")
        .after_help(EVALUATE);
    with_args(command, args)
}

const FILTER: &str = "Example:
  vx filter 'cents > 5000' --data orders.csv > dear.csv
writes the header, and each record with more than 5000 cents as it stands; with --chunk also says, on
standard error, how many chunks weren't evaluated";

fn filter<'a>(alloc: Global, dashed: bool) -> Result<Command<'a>, AllocError> {
    let mut args = over_given_records(alloc, dashed)?;
    add(&mut args, chunk(alloc))?;
    add(&mut args, select(alloc, dashed))?;
    add(&mut args, output(alloc).conflicts_with("count"))?;
    args.push(count(alloc))?;
    args.push(dialect(alloc))?;
    let command = Command::new(alloc, "filter")
        .about("Prints the records of which the expression is true, as they stand")
        .after_help(FILTER);
    with_args(command, args)
}

const FORMAT: &str = "Example:
  vx fmt 'x between 1 and 3'
prints
  (1i32 <= $.x <= 3i32)";

fn format<'a>(alloc: Global, dashed: bool) -> Result<Command<'a>, AllocError> {
    Command::new(alloc, "fmt")
        .about("Prints the expression as its source text")
        .after_help(FORMAT)
        .arg(expression(alloc, dashed))?
        .arg(dialect(alloc))
}

const PLAN: &str = "Examples:
  vx plan 'x >= 1' --schema '{x=i32}' --json
prints an object of the plan's tree, its type and scope, the paths that are read, the root and the partitions
  vx plan 'x >= 1' --schema '{x=i32}' --sql postgres --table t
prints a SELECT for that engine, and behind it what the engine can't take of the expression
  vx plan 'x >= 1' --schema '{x=i32}' --chunks chunks.stats
prints the number of each chunk that has to be read, and whether the expression is true of every row";

fn plan<'a>(alloc: Global, dashed: bool) -> Result<Command<'a>, AllocError> {
    let mut args = typed_expression(alloc, dashed)?;
    args.push(json(alloc))?;
    add(&mut args, sql(alloc)?.conflicts_with("json"))?;
    add(&mut args, table(alloc))?;
    add(&mut args, chunks(alloc))?;
    let command = Command::new(alloc, "plan")
        .about("Prints the plan of a scan, as JSON or SQL")
        .after_help(PLAN);
    with_args(command, args)
}

const DOT: &str = "Example:
  vx dot 'x >= 1' --schema '{x=i32}' | dot -Tsvg > tree.svg";

fn graph<'a>(alloc: Global, dashed: bool) -> Result<Command<'a>, AllocError> {
    let args = typed_expression(alloc, dashed)?;
    let command = Command::new(alloc, "dot")
        .about("Prints the typed tree in Graphviz's language")
        .after_help(DOT);
    with_args(command, args)
}
