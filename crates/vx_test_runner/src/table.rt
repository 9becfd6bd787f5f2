// Whole tables.
use crate::scene::Scene;
use std::alloc::Global;
use std::io;
use std::io::Write;
use vx_test_support::{Table, Tally};

/// Judges each line of the table over a scene of its own, as [`Table::judge`] does. Fails where the
/// writer does, and where memory for the scene is refused.
pub fn judge_table<W: Write>(
    alloc: Global,
    table: &Table<'_>,
    tally: &mut Tally,
    out: &mut W,
) -> io::Result<()> {
    match Scene::new(alloc) {
        Ok(mut scene) => table.judge(alloc, &mut scene, tally, out),
        Err(_) => Err(io::Error::from(io::ErrorKind::OutOfMemory)),
    }
}
