// Source text that is read, and the call that it is timed through.
ghost use Rattle.std.specs.Prelude.{◌≡◌, ◌≢◌, ◌<◌};

use crate::family::Family;
use crate::{Status, refused};
use std::alloc::Global;
use std::fmt::Display;
use vx_dtype::{VortexError, VortexResult};
use vx_source::{ParseError, SourceText, parse};
use vx_tree::Expression;

/// What is done with a text.
#[derive(Clone, Copy, Debug, PartialEq, Eq)]
enum Work {
    /// 0: the source text read.
    Read,
    /// 1: the source text written.
    Write,
    /// 2: the text written as `Display` writes it.
    Display,
}

impl Work {
    fn of(number: u8) -> Option<Work> {
        match number {
            0 => Some(Work::Read),
            1 => Some(Work::Write),
            2 => Some(Work::Display),
            _ => None,
        }
    }
}

/// Makes the And over so many comparisons and its source text, does the work with that number so often,
/// each result let go before the next, and writes how many bytes the source text has. Answers the number
/// of a [`Status`]; where that isn't 0, `bytes` stays.
#[unsafe(no_mangle)]
pub extern "C" fn vx_text(alloc: Global, size: usize, work: u8, repeats: u32, bytes: &mut u64) -> u8
    ensures status { result < 4 }
    ensures kept { result ≢ 0 → bytes.new ≡ bytes.old }
{
    let Some(work) = Work::of(work) else {
        return Status::NoSuchNumber as u8;
    };
    match worked(alloc, size, work, repeats) {
        Ok(count) => {
            *bytes = count;
            Status::Answered as u8
        }
        Err(refusal) => refused(refusal),
    }
}

// The bytes of the source text, after so much work.
fn worked(alloc: Global, size: usize, work: Work, repeats: u32) -> VortexResult<u64> {
    let tree = Family::Conjunction.tree(alloc, size)?;
    let text = format!(in alloc; "{}", SourceText(&tree))?;
    for _ in 0..repeats {
        match work {
            Work::Read => drop(parsed(alloc, text.as_str())?),
            Work::Write => written(alloc, &SourceText(&tree))?,
            Work::Display => written(alloc, &tree)?,
        }
    }
    Ok(text.len() as u64)
}

/// The tree of the source text, and `NotText` where it isn't one.
pub fn parsed(alloc: Global, text: &str) -> VortexResult<Expression> {
    match parse(alloc, text) {
        Ok(tree) => Ok(tree),
        Err(ParseError::OutOfMemory) => Err(VortexError::OutOfMemory),
        Err(ParseError::Unexpected { .. }) => Err(VortexError::NotText),
    }
}

fn written<T: Display>(alloc: Global, text: &T) -> VortexResult<()> {
    let _ = format!(in alloc; "{text}")?;
    Ok(())
}
