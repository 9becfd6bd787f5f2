// How the type of records is guessed, as the words of the command line say.
use anyhow::Result;
use clap::ArgMatches;
use vx_commands::{ColumnType, Guess, Shown};

/// How the type of records is guessed.
#[derive(Drop)]
pub struct GuessWords<'a> {
    records: u64,
    columns: Vec<ColumnType<'a>>,
    nested: bool,
    decimals: bool,
}

impl<'a> GuessWords<'a> {
    /// The same as a command takes it.
    pub fn guess(&self) -> Guess<'_> {
        Guess {
            records: self.records,
            columns: self.columns.as_slice(),
            nested: self.nested,
            decimals: self.decimals,
        }
    }
}

/// How the words say that the type is guessed. Where one can't be read, that is told, and there is nothing.
pub fn guess_told<'a>(
    rt: &HostRuntime,
    matches: &ArgMatches<'a>,
) -> Result<Option<GuessWords<'a>>> {
    let Some(records) = records_of(matches) else {
        rt.eprintln(format_args!(
            "error: --guess is a number of records, of at least 1, or the word all"
        ))?;
        return Ok(None);
    };
    let Some(columns) = columns_told(rt, matches)? else {
        return Ok(None);
    };
    Ok(Some(GuessWords {
        records,
        columns,
        nested: matches.get_flag("nested"),
        decimals: matches.get_flag("decimals"),
    }))
}

// The types that the words say of columns. Where one can't be read, or is another of a column, that is told, and there is
// nothing.
fn columns_told<'a>(
    rt: &HostRuntime,
    matches: &ArgMatches<'a>,
) -> Result<Option<Vec<ColumnType<'a>>>> {
    let mut columns: Vec<ColumnType<'a>> = Vec::new(rt.alloc());
    for word in matches.get_strs("type").unwrap_or(&[]) {
        match word.split_once('=') {
            Some((name, _)) if columns.iter().any(|said| said.name == name) => {
                rt.eprintln(format_args!("error: --type says two types of {}", Shown(name)))?;
                return Ok(None);
            }
            Some((name, text)) if !name.is_empty() => columns.push(ColumnType { name, text })?,
            _ => {
                rt.eprintln(format_args!("error: --type is a column and its type, as price=i64"))?;
                return Ok(None);
            }
        }
    }
    Ok(Some(columns))
}

// How many records are looked at, at most; none where the words say no number.
fn records_of(matches: &ArgMatches<'_>) -> Option<u64> {
    match matches.get_str("guess") {
        None => Some(Guess::default().records),
        Some("all") => Some(u64::MAX),
        Some(word) => word.parse().ok().filter(|count| *count > 0),
    }
}
