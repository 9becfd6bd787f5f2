// Runs the tables that it is given: `vx_table_tests NAME.table ..`.
//
// The lines of a table whose name begins with `wrong-` are wrong on purpose, and have to be told;
// those of one that begins with `unread-` can't be read, and have to be refused.
#![tactic(auto)]

use anyhow::{Context, Result};
use std::process::ExitCode;
use std::{env, fs};
use vx_test_runner::judge_table;
use vx_test_support::{Aim, Table, Tally, exit_code};

// The tallies of tables, by what their lines are there for.
#[derive(Clone, Copy, Default)]
struct Tallies {
    right: Tally,
    wrong: Tally,
    unread: Tally,
}

impl Tallies {
    fn of(&mut self, aim: Aim) -> &mut Tally {
        match aim {
            Aim::Right => &mut self.right,
            Aim::Wrong => &mut self.wrong,
            Aim::Unread => &mut self.unread,
        }
    }
}

fn main(rt: HostRuntime) -> Result<ExitCode> {
    let alloc = rt.alloc();
    let mut tallies = Tallies::default();
    for name in env::args(&rt)?.skip(1) {
        let name = name.as_str();
        let text = fs::read_to_string(&rt, name).context(format_args!("reading {name}"))?;
        let table = Table::new(name, text.as_str());
        let tally = tallies.of(table.aim);
        judge_table(alloc, &table, tally, &mut rt.stdout())?;
    }
    let Tallies {
        right,
        wrong,
        unread,
    } = tallies;
    println!(rt; "{} wrong lines, {} not told", wrong.lines, wrong.failed)?;
    println!(rt;
        "{} lines that can't be read, {} not refused",
        unread.lines, unread.failed
    )?;
    println!(rt; "{} rows, {} failed", right.lines, right.failed)?;
    let failed = right.failed.saturating_add(wrong.failed);
    Ok(exit_code(failed.saturating_add(unread.failed)))
}
