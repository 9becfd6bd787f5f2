// Tables that stand in files.
use crate::judge::Judge;
use crate::table::{Table, Tally, exit_code};
use anyhow::{Context, Result};
use std::process::ExitCode;
use std::rt::Files;
use std::{fs, io};

/// Judges the table in each file of these names, prints its tally, and gives the status of a program that does so.
pub fn judge_files<J: Judge>(
    rt: &(impl Files + AllocGlobal + Print),
    names: &[String],
    judge: &mut J,
) -> Result<ExitCode> {
    let mut failed: usize = 0;
    for name in names {
        let name = name.as_str();
        let text = fs::read_to_string(rt, name).context(format_args!("reading {name}"))?;
        let mut tally = Tally::default();
        let table = Table::new(name, text.as_str());
        table.judge(rt.alloc(), judge, &mut tally, &mut io::writer(rt))?;
        println!(rt; "{name}: {tally}")?;
        failed = failed.saturating_add(tally.failed);
    }
    Ok(exit_code(failed))
}
