// Names in their order, and where they are many, an index of their first places.
ghost use Rattle.std.specs.Prelude.{◌≡◌, IfOk, position};
ghost use Rattle.std.specs.Str.{bytes_eq};
ghost use Rattle.vx_dtype.specs.Names.{TellsFirstPlaces};

use crate::FieldName;
use std::alloc::{AllocError, Global};
use std::collections::HashMap;
use std::marker::Model;

// A list of at most so many names has no index: a walk along them is short.
const NARROW: usize = 16;

// The names of a list, which never change, so that the index stays true.
#[derive(Drop)]
pub(crate) struct NameList {
    names: Vec<FieldName>,
    index: Option<Box<HashMap<FieldName, usize>>>,
}

impl Model for NameList {
    ghost use Rattle.std.specs.Prelude.{List, ℕ, IfSome};
    ghost use Rattle.vx_dtype.specs.Names.{TellsFirstPlaces};

    ghost Value = { List (List ℕ) };

    ghost view = { λ l. l.names.items };

    ghost invariant = { λ l. IfSome l.index (λ index. TellsFirstPlaces index.value l.names.items) };
}

impl NameList {
    // The names, with an index where they are many.
    pub(crate) fn new(alloc: Global, names: Vec<FieldName>) -> Result<NameList, AllocError>
        ensures { IfOk result (λ list. list ≡ names.items) }
    {
        if names.len() <= NARROW {
            return Ok(NameList { names, index: None });
        }
        let index = Box::new(alloc, first_places(alloc, names.as_slice())?)?;
        Ok(NameList {
            names,
            index: Some(index),
        })
    }

    // The first place at which the name stands.
    pub(crate) fn find(&self, name: &FieldName) -> Option<usize>
        ensures { result ≡ position (bytes_eq name.now) self.now }
    {
        match &self.index {
            Some(index) => index.get(name).copied(),
            None => self.names.iter().position(|other| *name == *other),
        }
    }

    // The names as a slice.
    pub(crate) fn as_slice(&self) -> &[FieldName]
        ensures { result.now ≡ self.now }
    {
        self.names.as_slice()
    }
}

// The first place of each name. The names are taken from the last to the first, so that of a repeated
// name the first place stays.
fn first_places(alloc: Global, names: &[FieldName]) -> Result<HashMap<FieldName, usize>, AllocError>
    ensures { IfOk result (λ index. TellsFirstPlaces index names.now) }
{
    let mut index = HashMap::with_capacity(alloc, names.len())?;
    for i in (0..names.len()).rev() {
        index.insert(names[i].clone()?, i)?;
    }
    Ok(index)
}
