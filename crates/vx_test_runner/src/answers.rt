// Answers to the lines of tables, each of the public calls that its kind names.
mod analyses;
mod arrays;
mod bound;
mod bound_line;
mod built;
mod chance;
mod distinct;
mod functions;
mod matches;
mod pairs;
mod partitions;
mod paths;
pub mod pruned;
mod queries;
mod scans;
mod source_texts;
mod sources;
mod split;
mod values;
mod words;

use crate::kind::Kind;
use crate::scene::Scene;
use std::alloc::Global;
use vx_test_support::Unread;

/// The answer to a line of that kind with these columns.
pub fn answer(
    alloc: Global,
    kind: Kind,
    scene: &Scene,
    columns: &[&str],
) -> Result<String, Unread> {
    match (kind, columns) {
        (Kind::OfSource(kind), [tree]) => sources::answer(alloc, kind, scene, tree),
        (Kind::OfBound(kind), [tree]) => bound::answer(alloc, kind, scene, tree),
        (Kind::OfTwo(kind), [by, tree]) => pairs::answer(alloc, kind, scene, by, tree),
        (Kind::OfWords(kind), _) => words::answer(alloc, kind, scene, columns),
        _ => Err(Unread::Word("another number of columns")),
    }
}
