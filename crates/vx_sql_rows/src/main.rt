// Runs the tables of SQL texts that it is given: `vx_sql_rows NAME.table ..`. The lines of a table whose name
// begins with `wrong-` are wrong on purpose, and have to be told.
//
// `vx_sql_rows cases ENGINE SEED COUNT` prints so many expressions by chance as a script for an engine, and what the
// engine should print (tools/engines.sh). `plans` in place of `cases` does so of plans over several machines
// (tools/cluster.sh). A line as `-- answers` names the part behind it. `again` reads their texts, and ends with 1 where
// one is read as something else.
#![tactic(auto)]

mod again;
mod cases;
mod found;
mod line;
mod plans;
mod shown;
mod untold;

use again::read_again;
use anyhow::{Context, Result, anyhow};
use cases::make_cases;
use line::{Texts, dialect_named};
use plans::make_plans;
use std::alloc::AllocGlobal;
use std::env;
use std::io::Print;
use std::process::ExitCode;
use vx_sql::Dialect;
use vx_test_support::{exit_code, judge_files};

fn main(rt: HostRuntime) -> Result<ExitCode> {
    let alloc = rt.alloc();
    let mut words = Vec::new(alloc);
    for word in env::args(&rt)?.skip(1) {
        words.push(word)?;
    }
    match words.as_slice() {
        [what, engine, seed, count] if what.as_str() == "cases" => {
            print_cases(
                &rt,
                Asked::new(engine.as_str(), seed.as_str(), count.as_str())?,
            )
        }
        [what, engine, seed, count] if what.as_str() == "plans" => {
            print_plans(
                &rt,
                Asked::new(engine.as_str(), seed.as_str(), count.as_str())?,
            )
        }
        [what, engine, seed, count] if what.as_str() == "again" => {
            print_readings(
                &rt,
                Asked::new(engine.as_str(), seed.as_str(), count.as_str())?,
            )
        }
        tables => judge_files(&rt, tables, &mut Texts),
    }
}

fn print_cases(rt: &(impl AllocGlobal + Print), asked: Asked) -> Result<ExitCode> {
    let told = match make_cases(rt.alloc(), asked.dialect, asked.seed, asked.count) {
        Ok(told) => told,
        Err(why) => return Err(anyhow!("{why}")),
    };
    println!(rt; "-- script\n{}-- untold", told.script)?;
    println!(rt; "{}-- answers", told.untold)?;
    println!(rt; "{}{} statements fail", told.answers, told.failures)?;
    Ok(ExitCode::SUCCESS)
}

fn print_plans(rt: &(impl AllocGlobal + Print), asked: Asked) -> Result<ExitCode> {
    let plans = match make_plans(rt.alloc(), asked.dialect, asked.seed, asked.count) {
        Ok(plans) => plans,
        Err(why) => return Err(anyhow!("{why}")),
    };
    println!(rt; "-- schema\n{}-- sources", plans.schema)?;
    println!(rt; "{}-- table\n{}-- script", plans.sources, plans.table)?;
    println!(rt; "{}-- left", plans.script)?;
    print!(rt; "{}-- answers\n{}", plans.left, plans.answers)?;
    Ok(ExitCode::SUCCESS)
}

fn print_readings(rt: &(impl AllocGlobal + Print), asked: Asked) -> Result<ExitCode> {
    let readings = match read_again(rt.alloc(), asked.dialect, asked.seed, asked.count) {
        Ok(readings) => readings,
        Err(why) => return Err(anyhow!("{why}")),
    };
    println!(rt; "{readings}")?;
    Ok(exit_code(readings.failures))
}

// What expressions are asked for.
#[derive(Clone, Copy)]
struct Asked {
    dialect: Dialect,
    seed: u64,
    count: usize,
}

impl Asked {
    fn new(engine: &str, seed: &str, count: &str) -> Result<Asked> {
        let Some(dialect) = dialect_named(engine) else {
            return Err(anyhow!("no such engine: {engine}"));
        };
        let seed = seed.parse().context("reading the seed")?;
        let count = count.parse().context("reading the count")?;
        Ok(Asked {
            dialect,
            seed,
            count,
        })
    }
}
