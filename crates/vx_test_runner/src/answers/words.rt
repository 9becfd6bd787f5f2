// Answers that are of no tree.
use crate::answers::built::collected;
use crate::answers::chance::{by_chance, texts_by_chance};
use crate::answers::functions::{child_names, kept, node_type, shown_function, swapped};
use crate::answers::matches::{like, matched};
use crate::answers::paths::path_set;
use crate::answers::pruned::statistics_of;
use crate::answers::scans::{read, read_through};
use crate::answers::source_texts::{parsed, parsed_over, parsed_scalar, parsed_type, places};
use crate::answers::sources::peeled_text;
use crate::answers::values::{column, joined, scalar_text, type_text, union};
use crate::kind::WordsKind;
use crate::refusals::refusal;
use crate::scene::Scene;
use std::alloc::Global;
use vx_test_support::Unread;

/// The answer to a line of that kind with these columns.
pub fn answer(
    alloc: Global,
    kind: WordsKind,
    scene: &Scene,
    columns: &[&str],
) -> Result<String, Unread> {
    match columns {
        [word] => of_one(alloc, kind, scene, word),
        [first, second] => of_two(alloc, kind, scene, first, second),
        [names, columns, rows] => joined(alloc, names, columns, rows),
        [first, second, third, last] => match kind {
            WordsKind::FirstMatch => matched(alloc, first, second, third, last),
            _ => peeled_text(alloc, first, second, third, scene.text(last)),
        },
        _ => Err(Unread::Word("another number of columns")),
    }
}

// The answer to a line of one column.
fn of_one(alloc: Global, kind: WordsKind, scene: &Scene, word: &str) -> Result<String, Unread> {
    match kind {
        WordsKind::Error => error_text(alloc, word),
        WordsKind::Function => shown_function(alloc, word),
        WordsKind::ChildNames => child_names(alloc, word),
        WordsKind::Swapped => swapped(alloc, word),
        WordsKind::TypeText => type_text(alloc, word),
        WordsKind::Parse => parsed(alloc, word),
        WordsKind::ParsedType => parsed_type(alloc, word),
        WordsKind::ParsedScalar => parsed_scalar(alloc, word),
        WordsKind::Places => places(alloc, word),
        WordsKind::Scalar => scalar_text(alloc, word),
        WordsKind::PathSet => path_set(alloc, word),
        WordsKind::Read => Ok(read(alloc, scene, word)?),
        WordsKind::Reader => Ok(read_through(alloc, scene, word)?),
        WordsKind::StatisticsOf => Ok(statistics_of(alloc, scene, word)?),
        WordsKind::ByChance => by_chance(alloc, word),
        WordsKind::TextsByChance => texts_by_chance(alloc, word),
        _ => Err(Unread::Word("another number of columns")),
    }
}

// The answer to a line of two columns.
fn of_two(
    alloc: Global,
    kind: WordsKind,
    scene: &Scene,
    first: &str,
    second: &str,
) -> Result<String, Unread> {
    match kind {
        WordsKind::Like => like(alloc, first, second),
        WordsKind::NodeType => node_type(alloc, first, second),
        WordsKind::Kept => kept(alloc, first, second),
        WordsKind::ParseOver => parsed_over(alloc, first, second),
        WordsKind::Union => union(alloc, first, second),
        WordsKind::Column => column(alloc, first, second),
        WordsKind::Collected(kind) => collected(alloc, kind, scene, first, second),
        _ => Err(Unread::Word("another number of columns")),
    }
}

// The text of the refusal of that name.
fn error_text(alloc: Global, name: &str) -> Result<String, Unread> {
    let refusal = refusal(alloc, name)?;
    Ok(format!(in alloc; "{refusal}")?)
}
