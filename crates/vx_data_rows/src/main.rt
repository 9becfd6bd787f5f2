// Runs the tables of files that it is given: `vx_data_rows NAME.table ..`.
//
// The lines of a table whose name begins with `wrong-` are wrong on purpose, and have to be told.
#![tactic(auto)]

mod answers;
mod chance;
mod cut;
mod format;
mod line;
mod numbers;
mod records;
mod types;
mod unread;
mod values;

use anyhow::Result;
use line::Calls;
use std::env;
use std::process::ExitCode;
use vx_test_support::judge_files;

fn main(rt: HostRuntime) -> Result<ExitCode> {
    let mut names = Vec::new(rt.alloc());
    for name in env::args(&rt)?.skip(1) {
        names.push(name)?;
    }
    judge_files(&rt, names.as_slice(), &mut Calls)
}
