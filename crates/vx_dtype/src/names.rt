// Names of fields, and lists of them.
ghost use Rattle.std.specs.Prelude.{◌≡◌, ◌==◌, IfOk, Ok, [], List, nat_eq, length, position, slice_get};
ghost use Rattle.std.specs.Option.{option_copied};
ghost use Rattle.std.specs.Slice.Iter.{iter_rest};
ghost use Rattle.std.specs.Str.{bytes_eq};
ghost use Rattle.std.specs.Cmp.Lexicographic.{pointwise};
ghost use Rattle.std.specs.Hash as fed;
ghost use Rattle.std.specs.Cmp.Rules.{comparing, hashing};
ghost use Rattle.vx_dtype.specs.Returns.{ReturnsOrOom};
ghost use Rattle.vx_dtype.specs.Fields.{is_among, names_without};
ghost use Rattle.vx_dtype.specs.Deciding.{names_alike};
ghost use Rattle.std.proofs.Common.{rules};

use crate::VortexResult;
use crate::name_list::NameList;
use std::alloc::{AllocError, Global};
use std::fmt;
use std::hash::{Hash, Hasher};
use std::marker::Model;
use std::slice::Iter;
use std::sync::{Arc, ArcStr};

/// A name of a field; clones share its text.
pub struct FieldName {
    text: ArcStr,
}

impl Drop for FieldName {
    fn drop(self) {
        let FieldName { text } = self;
        drop(text);
    }
}

impl Model for FieldName {
    ghost use Rattle.std.specs.Prelude.{List, ℕ};
    ghost use Rattle.std.specs.Arc.{arc_str_bytes};

    ghost Value = { List ℕ };

    ghost view = { λ a. arc_str_bytes a.text };
}

impl FieldName {
    /// The name that is spelled so. Refuses with `OutOfMemory` (1) alone.
    pub fn new(alloc: Global, text: &str) -> VortexResult<FieldName>
        ensures { ReturnsOrOom (λ name. name) result (Ok text.now) }
    {
        Ok(FieldName {
            text: ArcStr::from_str(alloc, text)?,
        })
    }

    /// The name's text.
    pub fn as_str(&self) -> &str
        ensures { result.now ≡ self.now }
    {
        self.text.as_str()
    }
}

impl Clone for FieldName {
    ghost is_clone = { λ name copy. copy ≡ name };

    fn clone(&self) -> Result<FieldName, AllocError> {
        Ok(FieldName {
            text: self.text.clone()?,
        })
    }
}

impl PartialEq for FieldName {
    ghost eq = { pointwise nat_eq };

    ghost laws = { Prim.search (comparing, rules) };

    fn eq(&self, other: &FieldName) -> bool {
        self.text == other.text
    }
}

impl Eq for FieldName {
    ghost laws = { Prim.search (comparing, rules) };
}

impl Hash for FieldName {
    ghost hash_input = { fed.str };

    ghost respects_eq = { Prim.search (hashing, rules) };

    fn hash<H: Hasher>(&self, state: &mut H) {
        self.text.hash(state);
    }
}

impl fmt::Display for FieldName {
    ghost use Rattle.std.specs.Prelude.{Some};

    ghost output = { λ name. Some name };

    fn fmt<W: fmt::Write>(&self, f: &mut fmt::Formatter<W>) -> fmt::Result {
        self.text.fmt(f)
    }
}

impl fmt::Debug for FieldName {
    fn fmt<W: fmt::Write>(&self, f: &mut fmt::Formatter<W>) -> fmt::Result {
        fmt::Debug::fmt(&self.text, f)
    }
}

/// A list of names, repeats allowed; clones share it. In a long list a name is looked up by its hash.
pub struct FieldNames {
    list: Arc<NameList>,
}

impl Drop for FieldNames {
    fn drop(self) {
        let FieldNames { list } = self;
        drop(list);
    }
}

impl Model for FieldNames {
    ghost use Rattle.std.specs.Prelude.{List, ℕ};

    ghost Value = { List (List ℕ) };

    ghost view = { λ a. a.list.value };
}

impl FieldNames {
    /// These names in their order. Refuses with `OutOfMemory` (1) alone.
    pub fn new(alloc: Global, names: Vec<FieldName>) -> VortexResult<FieldNames>
        ensures { ReturnsOrOom (λ all. all) result (Ok names.items) }
    {
        Ok(FieldNames {
            list: Arc::new(alloc, NameList::new(alloc, names)?)?,
        })
    }

    /// No name. Refuses with `OutOfMemory` (1) alone.
    pub fn empty(alloc: Global) -> VortexResult<FieldNames>
        ensures { ReturnsOrOom (λ all. all) result (Ok []) }
    {
        FieldNames::new(alloc, Vec::new(alloc))
    }

    /// The first place at which the name stands.
    pub fn find(&self, name: &FieldName) -> Option<usize>
        ensures { result ≡ position (bytes_eq name.now) self.now }
    {
        self.list.find(name)
    }

    /// Whether the name is one of these.
    pub fn contains(&self, name: &FieldName) -> bool
        ensures { result ≡ is_among self.now name.now }
    {
        self.find(name).is_some()
    }

    /// The names but the given ones, in their order. Refuses with `OutOfMemory` (1) alone.
    pub fn without(&self, alloc: Global, left_out: &FieldNames) -> VortexResult<FieldNames>
        ensures { ReturnsOrOom (λ all. all) result (Ok (names_without left_out.now self.now)) }
    {
        FieldNames::new(alloc, names_without(alloc, self.as_slice(), left_out)?)
    }

    /// The name at that place, if there are so many.
    pub fn get(&self, i: usize) -> Option<&FieldName>
        ensures { option_copied result ≡ slice_get self.now i }
    {
        self.as_slice().get(i)
    }

    /// How many names there are.
    pub fn len(&self) -> usize
        ensures { result ≡ length self.now }
    {
        self.as_slice().len()
    }

    /// Whether there is no name.
    pub fn is_empty(&self) -> bool
        ensures { result ≡ (length self.now == 0) }
    {
        self.as_slice().is_empty()
    }

    /// The names one after another.
    pub fn iter(&self) -> Iter<'_, FieldName>
        ensures { iter_rest result ≡ self.now }
    {
        self.as_slice().iter()
    }

    /// The names as a slice.
    pub fn as_slice(&self) -> &[FieldName]
        ensures { result.now ≡ self.now }
    {
        self.list.as_slice()
    }
}

/// Copies of the names but those that are left out, in their order. Fails for want of memory alone.
pub fn names_without(
    alloc: Global,
    names: &[FieldName],
    left_out: &FieldNames,
) -> Result<Vec<FieldName>, AllocError>
    ensures { IfOk result (λ kept. kept.items ≡ names_without left_out.now names.now) }
{
    let mut kept = Vec::new(alloc);
    for name in names {
        if !left_out.contains(name) {
            kept.push(name.clone()?)?;
        }
    }
    Ok(kept)
}

impl Clone for FieldNames {
    ghost is_clone = { λ names copy. copy ≡ names };

    fn clone(&self) -> Result<FieldNames, AllocError> {
        Ok(FieldNames {
            list: self.list.clone()?,
        })
    }
}

impl PartialEq for FieldNames {
    ghost eq = { pointwise (pointwise nat_eq) };

    ghost laws = { Prim.search (comparing, rules) };

    fn eq(&self, other: &FieldNames) -> bool {
        self.as_slice() == other.as_slice()
    }
}

impl Eq for FieldNames {
    ghost laws = { Prim.search (comparing, rules) };
}

impl Hash for FieldNames {
    ghost hash_input = { fed.slice fed.str };

    ghost respects_eq = { names_alike.fed };

    fn hash<H: Hasher>(&self, state: &mut H) {
        self.as_slice().hash(state);
    }
}

impl fmt::Debug for FieldNames {
    fn fmt<W: fmt::Write>(&self, f: &mut fmt::Formatter<W>) -> fmt::Result {
        fmt::Debug::fmt(self.as_slice(), f)
    }
}
