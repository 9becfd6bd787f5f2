// A run of the program.
ghost use Rattle.std.specs.Prelude.{◌≡◌, map, string_bytes};
ghost use Rattle.vx_run.specs.Requests.{asked};
ghost use Rattle.vx_run.specs.Runs.{EndsShow, EndsAtRow};

use crate::pages::page;
use crate::row::{Row, asked};
use std::alloc::Global;
use std::io::Write;
use vx_writing::tell;

/// Runs the program on the words after its name, and answers its status. One word that names a
/// row gives the row's page on `out` and 0, or where memory is refused (number 1, `OutOfMemory`)
/// no byte on `out`, `out of memory` on `err` and 1. One word that names none gives `unknown row`
/// on `err` and 2, and any other number of words `usage: vx_show ROW` and 2. A writer that fails
/// holds a part of its text, and the status is 1. The other writer is left as it was.
pub fn run_show<W: Write, E: Write>(alloc: Global, words: &[String], out: &mut W, err: &mut E) -> u8
    ensures { EndsShow (asked (map string_bytes words.now)) (W.contents out.old) (W.contents out.new)
        (E.contents err.old) (E.contents err.new) result }
{
    match asked(words) {
        Ok(row) => show(alloc, row, out, err),
        Err(complaint) => tell(err, complaint, 2),
    }
}

// Writes the row's page, all of which is made before the first write.
fn show<W: Write, E: Write>(alloc: Global, row: Row, out: &mut W, err: &mut E) -> u8
    ensures { EndsAtRow row (W.contents out.old) (W.contents out.new)
        (E.contents err.old) (E.contents err.new) result }
{
    match page(alloc, row) {
        Ok(page) => tell(out, page.as_str(), 0),
        Err(_) => tell(err, "out of memory\n", 1),
    }
}
