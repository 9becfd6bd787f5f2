// A run of the program.
ghost use Rattle.std.specs.Prelude.{◌≡◌, ◌⊎◌};
ghost use Rattle.vx_command_pages.specs.declared.error.Status.TheVariants.{Failed};
ghost use Rattle.vx_commands.specs.Commands.{EndsCommand, EndsAtPage, EndsAtError};

use crate::command::{Command, page_of};
use std::alloc::Global;
use std::fmt::Display;
use std::io::Write;
use vx_command_pages::{CommandError, Status};
use vx_writing::tell;

/// Runs the command: its page is written on `out`, or an error as a message on `err`, and
/// the other writer is left as it was. All of a page is made before the first of it is written. The
/// status is `Done` for a page, `Wrong` for a text that can't be read or an expression that is refused,
/// and `Failed` where memory or a writer fails.
pub fn run_command<W: Write, E: Write>(
    alloc: Global,
    command: &Command<'_>,
    out: &mut W,
    err: &mut E,
) -> Status
    ensures { EndsCommand command.now (W.contents out.old) (W.contents out.new) (E.contents err.old) (E.contents err.new) result }
{
    match page_of(alloc, command) {
        Ok(page) => print(page.as_str(), out),
        Err(error) => tell_error(alloc, command, &error, err),
    }
}

/// Writes the page.
pub(crate) fn print<W: Write>(page: &str, out: &mut W) -> Status
    ensures { EndsAtPage page.now (W.contents out.old) (W.contents out.new) result }
{
    match tell(out, page, 0) {
        0 => Status::Done,
        _ => Status::Failed,
    }
}

// Writes the error as a message.
fn tell_error<E: Write>(
    alloc: Global,
    command: &Command<'_>,
    error: &CommandError,
    err: &mut E,
) -> Status
    ensures { EndsAtError error.now result }
{
    tell_message(alloc, &command.message(error), error.status(), err)
}

/// Writes the message, and the end of its line. The status is the one that is wanted, or `Failed` where
/// the writer or memory fails.
pub(crate) fn tell_message<M: Display, E: Write>(
    alloc: Global,
    message: &M,
    wanted: Status,
    err: &mut E,
) -> Status
    ensures { (result ≡ wanted) ⊎ (result ≡ Failed) }
{
    let told = match format!(in alloc; "{message}\n") {
        Ok(text) => tell(err, text.as_str(), 0),
        Err(_) => tell(err, "error: out of memory\n", 1),
    };
    match told {
        0 => wanted,
        _ => Status::Failed,
    }
}
