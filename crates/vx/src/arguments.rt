// The arguments of commands.
use crate::choices::{ENGINES, FORMATS, OUTPUTS};
use clap::{Arg, ArgAction, Command, value_parser};
use std::alloc::{AllocError, Global};

/// Adds what was made.
pub fn add<T: Drop>(list: &mut Vec<T>, made: Result<T, AllocError>) -> Result<(), AllocError> {
    Ok(list.push(made?)?)
}

/// The command with these arguments.
pub fn with_args<'a>(command: Command<'a>, args: Vec<Arg<'a>>) -> Result<Command<'a>, AllocError> {
    let mut command = command;
    for arg in args {
        command = command.arg(arg)?;
    }
    Ok(command)
}

/// An expression, and a schema or the records that tell it.
pub fn typed_expression<'a>(alloc: Global, dashed: bool) -> Result<Vec<Arg<'a>>, AllocError> {
    let mut args = Vec::new(alloc);
    add(&mut args, schema_or_data(alloc))?;
    args.push(data(alloc))?;
    add_form(alloc, &mut args)?;
    args.push(expression(alloc, dashed))?;
    Ok(args)
}

/// An expression, and records that have to be given.
pub fn over_given_records<'a>(alloc: Global, dashed: bool) -> Result<Vec<Arg<'a>>, AllocError> {
    let mut args = Vec::new(alloc);
    args.push(schema(alloc).required(false))?;
    args.push(data(alloc).required(true))?;
    add_records(alloc, dashed, &mut args)?;
    Ok(args)
}

/// An expression, and a schema or records, for which statistics may stand.
pub fn over_records_or_statistics<'a>(
    alloc: Global,
    dashed: bool,
) -> Result<Vec<Arg<'a>>, AllocError> {
    let mut args = Vec::new(alloc);
    add(&mut args, schema_or_data(alloc))?;
    add(&mut args, data(alloc).conflicts_with("stats"))?;
    add_records(alloc, dashed, &mut args)?;
    add(&mut args, statistics(alloc))?;
    Ok(args)
}

// Adds an expression, in what form records stand, and how many are gone over.
fn add_records<'a>(alloc: Global, dashed: bool, args: &mut Vec<Arg<'a>>) -> Result<(), AllocError> {
    args.push(expression(alloc, dashed))?;
    add_form(alloc, args)?;
    Ok(args.push(limit(alloc))?)
}

// Adds in what form records stand, and how their type is guessed.
fn add_form<'a>(alloc: Global, args: &mut Vec<Arg<'a>>) -> Result<(), AllocError> {
    args.push(format(alloc))?;
    args.push(delimiter(alloc))?;
    args.push(no_header(alloc))?;
    args.push(null(alloc))?;
    args.push(comment(alloc))?;
    add(args, nested(alloc))?;
    add(args, guess(alloc))?;
    add(args, decimals(alloc))?;
    add(args, column_type(alloc))?;
    Ok(args.push(skip_errors(alloc))?)
}

// The type of the rows, which records may tell in its place.
fn schema_or_data<'a>(alloc: Global) -> Result<Arg<'a>, AllocError> {
    schema(alloc)
        .required(false)
        .required_unless_present("data")
}

fn schema<'a>(alloc: Global) -> Arg<'a> {
    Arg::new(alloc, "schema")
        .long("schema")
        .value_name("TYPE")
        .required(true)
        .action(ArgAction::Set)
        .help("The type of the rows, as in {x=i32, s=utf8?}")
}

fn data<'a>(alloc: Global) -> Arg<'a> {
    Arg::new(alloc, "data")
        .long("data")
        .value_name("FILE")
        .action(ArgAction::Set)
        .help("The file of the records, or - for standard input")
}

/// Whether the word can be an expression that begins with a dash, as `-x > 1`, and no option: behind one dash it has a
/// character that no option has. What is one word behind the dash, as `-x`, is taken for an option.
pub fn is_dashed(word: &str) -> bool {
    match word.strip_prefix('-') {
        Some(rest) if !rest.starts_with('-') => {
            rest.as_bytes()
                .iter()
                .any(|byte| !byte.is_ascii_alphanumeric())
        }
        _ => false,
    }
}

/// The expression, which may begin with a dash where one of the words does.
pub fn expression<'a>(alloc: Global, dashed: bool) -> Arg<'a> {
    Arg::new(alloc, "expression")
        .value_name("EXPR")
        .required(true)
        .allow_negative_numbers(true)
        .allow_hyphen_values(dashed)
        .action(ArgAction::Set)
        .help("The expression, as in x >= 1 and x <= 5")
}

fn format<'a>(alloc: Global) -> Arg<'a> {
    Arg::new(alloc, "format")
        .long("format")
        .value_name("FORM")
        .action(ArgAction::Set)
        .value_parser(FORMATS)
        .help(
            "The form of the records; without it csv where the file's name ends in .csv or .tsv, else json",
        )
}

fn delimiter<'a>(alloc: Global) -> Arg<'a> {
    Arg::new(alloc, "delimiter")
        .long("delimiter")
        .value_name("CHARACTER")
        .action(ArgAction::Set)
        .help(
            "What stands between the cells of a CSV file, or the word tab; without it a comma, in .tsv a tab",
        )
}

fn no_header<'a>(alloc: Global) -> Arg<'a> {
    Arg::new(alloc, "no-header")
        .long("no-header")
        .action(ArgAction::SetTrue)
        .help("The CSV file has no header: its cells are called column1, column2, and so on")
}

fn null<'a>(alloc: Global) -> Arg<'a> {
    Arg::new(alloc, "null")
        .long("null")
        .value_name("TEXT")
        .allow_negative_numbers(true)
        .action(ArgAction::Set)
        .help("A cell of this text is null where an empty one is")
}

fn comment<'a>(alloc: Global) -> Arg<'a> {
    Arg::new(alloc, "comment")
        .long("comment")
        .value_name("CHARACTER")
        .action(ArgAction::Set)
        .help("What begins a line of a CSV file that is no record")
}

fn nested<'a>(alloc: Global) -> Result<Arg<'a>, AllocError> {
    Arg::new(alloc, "nested")
        .long("nested")
        .action(ArgAction::SetTrue)
        .help(
            "Names with dots in a header lead to fields of fields, whatever stands between the dots",
        )
        .conflicts_with("schema")
}

fn guess<'a>(alloc: Global) -> Result<Arg<'a>, AllocError> {
    Arg::new(alloc, "guess")
        .long("guess")
        .value_name("RECORDS")
        .action(ArgAction::Set)
        .help("The type is that of the first so many records, or of all; without it of 1000")
        .conflicts_with("schema")
}

fn decimals<'a>(alloc: Global) -> Result<Arg<'a>, AllocError> {
    Arg::new(alloc, "decimals")
        .long("decimals")
        .action(ArgAction::SetTrue)
        .help(
            "Numbers with a point are decimals, if each has as many digits behind it; without it they are f64",
        )
        .conflicts_with("schema")
}

fn column_type<'a>(alloc: Global) -> Result<Arg<'a>, AllocError> {
    Arg::new(alloc, "type")
        .long("type")
        .value_name("NAME=TYPE")
        .action(ArgAction::Append)
        .help("The type of that column, where the others are guessed; may be said of several")
        .conflicts_with("schema")
}

fn skip_errors<'a>(alloc: Global) -> Arg<'a> {
    Arg::new(alloc, "skip-errors")
        .long("skip-errors")
        .action(ArgAction::SetTrue)
        .help("Leave out records that can't be read; how many is said on standard error")
}

fn limit<'a>(alloc: Global) -> Arg<'a> {
    Arg::new(alloc, "limit")
        .long("limit")
        .value_name("COUNT")
        .action(ArgAction::Set)
        .value_parser(value_parser!(u64))
        .help("How many records are gone over at most")
}

/// In what form rows are printed.
pub fn output<'a>(alloc: Global) -> Arg<'a> {
    Arg::new(alloc, "output")
        .long("output")
        .value_name("FORM")
        .action(ArgAction::Set)
        .value_parser(OUTPUTS)
        .help("In what form the rows are printed")
}

/// What is selected of records that are kept.
pub fn select<'a>(alloc: Global, dashed: bool) -> Result<Arg<'a>, AllocError> {
    Arg::new(alloc, "select")
        .long("select")
        .value_name("EXPR")
        .allow_negative_numbers(true)
        .allow_hyphen_values(dashed)
        .action(ArgAction::Set)
        .help(
            "Print what this expression means at each of these records, or a list, as in id, total: cents + 100",
        )
        .conflicts_with("count")
}

/// Whether these are counted.
pub fn count<'a>(alloc: Global) -> Arg<'a> {
    Arg::new(alloc, "count")
        .long("count")
        .action(ArgAction::SetTrue)
        .help("Print how many records these are")
}

/// In chunks of how many records they are read.
pub fn chunk<'a>(alloc: Global) -> Result<Arg<'a>, AllocError> {
    Arg::new(alloc, "chunk")
        .long("chunk")
        .value_name("COUNT")
        .action(ArgAction::Set)
        .value_parser(value_parser!(usize).range(1..))
        .help(
            "Go by chunks of so many records, and evaluate only those that their statistics leave open",
        )
        .conflicts_with("count")?
        .conflicts_with("select")?
        .conflicts_with("output")
}

fn statistics<'a>(alloc: Global) -> Result<Arg<'a>, AllocError> {
    Arg::new(alloc, "stats")
        .long("stats")
        .value_name("FILE")
        .action(ArgAction::Set)
        .help("A file of statistics of chunks, or - for standard input")
        .conflicts_with("skip-errors")
}

/// The statistics of the chunks of which those are printed that have to be read.
pub fn chunks<'a>(alloc: Global) -> Result<Arg<'a>, AllocError> {
    Arg::new(alloc, "chunks")
        .long("chunks")
        .value_name("FILE")
        .action(ArgAction::Set)
        .help(
            "Print which chunks have to be read, by a file of their statistics, or - for standard input",
        )
        .conflicts_with("data")?
        .conflicts_with("sql")?
        .conflicts_with("skip-errors")
}

/// Whether a plan is printed as JSON.
pub fn json<'a>(alloc: Global) -> Arg<'a> {
    Arg::new(alloc, "json")
        .long("json")
        .action(ArgAction::SetTrue)
        .help("Print JSON, as without --sql and --chunks")
}

/// The engine whose SQL the expression is.
pub fn dialect<'a>(alloc: Global) -> Arg<'a> {
    Arg::new(alloc, "sql")
        .long("sql")
        .value_name("ENGINE")
        .action(ArgAction::Set)
        .value_parser(ENGINES)
        .help("The expression is the condition of a WHERE, in that engine's SQL")
}

/// The engine that a plan is written for.
pub fn sql<'a>(alloc: Global) -> Result<Arg<'a>, AllocError> {
    Arg::new(alloc, "sql")
        .long("sql")
        .value_name("ENGINE")
        .action(ArgAction::Set)
        .value_parser(ENGINES)
        .help("Write the plan as a statement for that engine")
        .requires_arg("table")
}

/// The engine's table.
pub fn table<'a>(alloc: Global) -> Result<Arg<'a>, AllocError> {
    Arg::new(alloc, "table")
        .long("table")
        .value_name("NAME")
        .action(ArgAction::Set)
        .help("The name of the engine's table")
        .requires_arg("sql")
}
