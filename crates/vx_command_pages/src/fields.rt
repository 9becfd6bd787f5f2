// Which fields there are, where one of another name is asked for.
use std::alloc::{AllocError, Global};
use strsim::levenshtein;
use vx_source_types::NameText;
use vx_tree::{FieldName, StructFields};

// How near the name of a field is to another name.
#[derive(Clone, Copy, Debug, PartialEq, Eq)]
enum Nearness {
    // They are the same in lower case.
    Alike,
    // They are so but for a character.
    OneEdit,
    // They are so but for two.
    TwoEdits,
    // They differ in more.
    Far,
}

// The nearest first.
const BY_NEARNESS: &[Nearness] = &[
    Nearness::Alike,
    Nearness::OneEdit,
    Nearness::TwoEdits,
    Nearness::Far,
];

// How many names are told at most.
const TOLD: usize = 5;

// How many bytes a name has at most that is compared by its edits.
const COMPARED: usize = 100;

/// Which fields there are, at most five by name, the nearest to that name first. Fails for want of memory
/// alone.
pub(crate) fn fields_told(
    alloc: Global,
    fields: &StructFields,
    wanted: &FieldName,
) -> Result<String, AllocError> {
    let names = nearest(alloc, fields, wanted)?;
    let more = fields.nfields().saturating_sub(names.len());
    match names.as_slice() {
        [] => String::from_str(alloc, "there is no field"),
        [name] => format!(in alloc; "there is {}", NameText(name)),
        [first, rest @ ..] => {
            let mut told = format!(in alloc; "there are {}", NameText(first))?;
            push_names(alloc, rest, more, &mut told)?;
            Ok(told)
        }
    }
}

// Adds the names, and how many more there are.
fn push_names(
    alloc: Global,
    names: &[&FieldName],
    more: usize,
    told: &mut String,
) -> Result<(), AllocError> {
    for (i, name) in names.iter().enumerate() {
        let is_last = more == 0 && i.saturating_add(1) == names.len();
        let before = if is_last { " and " } else { ", " };
        told.push_str(format!(in alloc; "{before}{}", NameText(name))?.as_str())?;
    }
    if more > 0 {
        told.push_str(format!(in alloc; " and {more} more")?.as_str())?;
    }
    Ok(())
}

// The names of the nearest fields, as many as are told; those that are as near in the order of the type.
fn nearest<'a>(
    alloc: Global,
    fields: &'a StructFields,
    wanted: &FieldName,
) -> Result<Vec<&'a FieldName>, AllocError> {
    let wanted = wanted.as_str().to_lowercase(alloc)?;
    let mut nearness = Vec::new(alloc);
    for name in fields.names().iter().take(fields.nfields()) {
        nearness.push(nearness_of(alloc, name.as_str(), wanted.as_str())?)?;
    }
    let mut names = Vec::new(alloc);
    for near in BY_NEARNESS {
        for (name, own) in fields.names().iter().zip(nearness.iter()) {
            if own == near && names.len() < TOLD {
                names.push(name)?;
            }
        }
    }
    Ok(names)
}

// How near the name is to that one in lower case.
fn nearness_of(alloc: Global, name: &str, wanted: &str) -> Result<Nearness, AllocError> {
    Ok(match edits_to(alloc, name, wanted)? {
        Some(0) => Nearness::Alike,
        Some(1) => Nearness::OneEdit,
        Some(2) => Nearness::TwoEdits,
        _ => Nearness::Far,
    })
}

/// The field of which the fewest edits make that name, and of several the first; both are taken in lower case. Fields of
/// more than 100 bytes are left out unless they are that name. Fails for want of memory alone.
pub fn nearest_field<'a>(
    alloc: Global,
    fields: &'a StructFields,
    wanted: &str,
) -> Result<Option<&'a FieldName>, AllocError> {
    let wanted = wanted.to_lowercase(alloc)?;
    let mut nearest = None;
    let mut fewest = usize::MAX;
    for name in fields.names().iter() {
        if let Some(edits) = edits_to(alloc, name.as_str(), wanted.as_str())?
            && edits < fewest
        {
            fewest = edits;
            nearest = Some(name);
        }
    }
    Ok(nearest)
}

// How many edits make that name, which is in lower case, of this one; None where one of them is too long to tell.
fn edits_to(alloc: Global, name: &str, wanted: &str) -> Result<Option<usize>, AllocError> {
    let name = name.to_lowercase(alloc)?;
    if name.as_str() == wanted {
        return Ok(Some(0));
    }
    if name.len().max(wanted.len()) > COMPARED {
        return Ok(None);
    }
    Ok(Some(levenshtein(alloc, name.as_str(), wanted)?))
}
