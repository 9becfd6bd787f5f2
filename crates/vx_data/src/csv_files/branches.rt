// The fields of a type whose cells have dotted names.
use crate::csv_files::header::{fault_at, named};
use crate::expected::Expected;
use crate::fault::Fault;
use std::alloc::Global;
use std::collections::HashMap;
use vx_dtype::FieldName;

/// A field of the type that is guessed: a cell, by its place in a record, or a struct.
#[cycle(branch)]
#[derive(Drop)]
pub(crate) struct Branch {
    pub(crate) name: FieldName,
    pub(crate) kind: BranchKind,
}

/// What a field is.
#[cycle(branch)]
#[derive(Drop)]
pub(crate) enum BranchKind {
    /// The cell at that place.
    Cell(usize),
    /// A struct.
    Struct(Branches),
}

/// The fields of a struct, each of another name.
#[cycle(branch)]
#[derive(Drop)]
pub(crate) struct Branches {
    pub(crate) all: Vec<Branch>,
    index: HashMap<FieldName, usize>,
}

/// The fields whose dotted names these are. Where no name has to lead to a field of a field, each name is rather a field of
/// its own unless all read as paths, of which none is both a cell and the way to others. Refuses such a one where names have
/// to lead. No name stands there twice. Time is linear in the names.
pub(crate) fn branches_of(
    alloc: Global,
    names: &[FieldName],
    nested: bool,
) -> Result<Vec<Branch>, Fault> {
    if !nested && !names.iter().all(|name| reads_as_path(name.as_str())) {
        return cells_of(alloc, names);
    }
    let mut branches = Branches::new(alloc);
    for (place, name) in names.iter().enumerate() {
        let parts: Vec<&str> = name.as_str().split('.').collect(alloc)?;
        if !grow(alloc, &mut branches, parts.as_slice(), place)? {
            if nested {
                return Err(fault_at(alloc, Expected::CellOrStruct, name.as_str()));
            }
            return cells_of(alloc, names);
        }
    }
    Ok(branches.all)
}

// Whether the dots in a name, if it has some, stand between words, of which the first doesn't begin with a digit.
fn reads_as_path(name: &str) -> bool {
    if !name.contains('.') {
        return true;
    }
    !name.starts_with(|first: char| first.is_ascii_digit()) && name.split('.').all(is_word)
}

// Whether the text is of letters, digits and underscores.
fn is_word(part: &str) -> bool {
    !part.is_empty()
        && part
            .chars()
            .all(|each| each == '_' || each.is_alphanumeric())
}

// A cell of each name.
fn cells_of(alloc: Global, names: &[FieldName]) -> Result<Vec<Branch>, Fault> {
    let mut cells = Vec::with_capacity(alloc, names.len())?;
    for (place, name) in names.iter().enumerate() {
        let name = name.clone()?;
        let kind = BranchKind::Cell(place);
        cells.push(Branch { name, kind })?;
    }
    Ok(cells)
}

// Adds the cell of that place under the names, unless one is both a cell and the way to others. Tells whether it is added.
fn grow(
    alloc: Global,
    branches: &mut Branches,
    names: &[&str],
    place: usize,
) -> Result<bool, Fault> {
    let Some((first, rest)) = names.split_first() else {
        return Ok(true);
    };
    let i = match branches.find(alloc, first)? {
        Some(i) => i,
        None => {
            branches.push(alloc, first, kind_of(alloc, rest.is_empty(), place))?;
            if rest.is_empty() {
                return Ok(true);
            }
            branches.all.len().saturating_sub(1)
        }
    };
    match branches.all.get_mut(i) {
        Some(branch) => match &mut branch.kind {
            BranchKind::Struct(inner) if !rest.is_empty() => grow(alloc, inner, rest, place),
            _ => Ok(false),
        },
        None => Ok(false),
    }
}

fn kind_of(alloc: Global, is_cell: bool, place: usize) -> BranchKind {
    if is_cell {
        BranchKind::Cell(place)
    } else {
        BranchKind::Struct(Branches::new(alloc))
    }
}

// Up to so many names are compared one after another.
const FEW: usize = 16;

impl Branches {
    // No field yet.
    fn new(alloc: Global) -> Branches {
        Branches {
            all: Vec::new(alloc),
            index: HashMap::new(alloc),
        }
    }

    // The place of the field of that name.
    fn find(&self, alloc: Global, name: &str) -> Result<Option<usize>, Fault> {
        if self.all.len() <= FEW {
            return Ok(
                self.all
                    .iter()
                    .position(|field| field.name.as_str() == name),
            );
        }
        Ok(self.index.get(&named(alloc, name)?).copied())
    }

    // One more field, of a name that none has.
    fn push(&mut self, alloc: Global, name: &str, kind: BranchKind) -> Result<(), Fault> {
        let name = named(alloc, name)?;
        self.index.insert(name.clone()?, self.all.len())?;
        Ok(self.all.push(Branch { name, kind })?)
    }
}
