// Whole tables, and what their lines are to come to.
use crate::judge::{Judge, Judged};
use std::alloc::Global;
use std::fmt::{Display, Formatter};
use std::io::Write;
use std::process::ExitCode;
use std::{fmt, io};

/// What each line of a table is there for.
#[derive(Clone, Copy, PartialEq, Eq)]
pub enum Aim {
    /// To be answered as it says.
    Right,
    /// To be wrong, so that it is told.
    Wrong,
    /// To be refused as one that can't be read.
    Unread,
}

impl Aim {
    /// What the lines of a table of that name are there for: they are wrong where it begins with
    /// `wrong-`, and can't be read where it begins with `unread-`.
    pub fn of(name: &str) -> Aim {
        if name.starts_with("wrong-") {
            Aim::Wrong
        } else if name.starts_with("unread-") {
            Aim::Unread
        } else {
            Aim::Right
        }
    }
}

/// How many lines were judged, and how many came to something else than they are there for.
#[derive(Clone, Copy, Default)]
pub struct Tally {
    /// All lines but those that are no call.
    pub lines: usize,
    /// Those that came to something else.
    pub failed: usize,
}

impl Display for Tally {
    fn fmt<W: fmt::Write>(&self, f: &mut Formatter<W>) -> fmt::Result {
        write!(f, "{} lines, {} failed", self.lines, self.failed)
    }
}

/// A table by its name and its text, and what its lines are there for.
#[derive(Clone, Copy)]
pub struct Table<'a> {
    pub name: &'a str,
    pub text: &'a str,
    pub aim: Aim,
}

impl<'a> Table<'a> {
    /// The table of that name and text, whose lines are there for what the name says.
    pub fn new(name: &'a str, text: &'a str) -> Table<'a> {
        Table {
            name,
            text,
            aim: Aim::of(name),
        }
    }

    /// Judges each line, adds it to the tally, and writes of each that came to something else than it is
    /// there for the table's name, the line's number, and what it came to. A line that is blank or
    /// begins with `#` is no call. Fails where the writer does.
    pub fn judge<J: Judge, W: Write>(
        &self,
        alloc: Global,
        judge: &mut J,
        tally: &mut Tally,
        out: &mut W,
    ) -> io::Result<()> {
        for (i, line) in self.text.lines().enumerate() {
            let call = line.trim();
            if call.is_empty() || call.starts_with('#') {
                continue;
            }
            let judged = judge.judge(alloc, call);
            if let Ok(Judged::NoCall) = judged {
                continue;
            }
            tally.lines = tally.lines.saturating_add(1);
            if !is_as_meant(&judged, self.aim) {
                tally.failed = tally.failed.saturating_add(1);
                let (name, number) = (self.name, i.saturating_add(1));
                writeln!(out, "{name}:{number}: {line}")?;
                tell(&judged, out)?;
            }
        }
        Ok(())
    }
}

// Whether a line came to what it is there for.
fn is_as_meant<E>(judged: &Result<Judged, E>, aim: Aim) -> bool {
    match judged {
        Ok(Judged::Differs(_)) => aim == Aim::Wrong,
        Ok(_) => aim == Aim::Right,
        Err(_) => aim == Aim::Unread,
    }
}

fn tell<E: Display, W: Write>(judged: &Result<Judged, E>, out: &mut W) -> io::Result<()> {
    match judged {
        Ok(Judged::Differs(got)) => writeln!(out, "    is answered {got}"),
        Ok(_) => writeln!(out, "    is answered as it says"),
        Err(why) => writeln!(out, "    can't be read: {why}"),
    }
}

/// The status of a program of which so many lines came to something else than they are there for.
pub fn exit_code(failed: usize) -> ExitCode {
    if failed == 0 {
        ExitCode::SUCCESS
    } else {
        ExitCode::FAILURE
    }
}
