// Paths of fields.
ghost use Rattle.std.specs.Prelude.{◌≡◌, ◌==◌, ◌++◌, ◌∷◌, [], IfOk, Ok, length};
ghost use Rattle.std.specs.Cmp.{on_equiv, on_per, partial_equiv_from_equiv};
ghost use Rattle.std.specs.Hash as fed;
ghost use Rattle.std.specs.Str.{bytes_eq};
ghost use Rattle.vx_value.specs.Returns.{ReturnsOrOom, Returns};
ghost use Rattle.vx_value.specs.Deciding.{equal_path_equiv, name_equiv, name_alike, names_alike};
ghost use Rattle.vx_value.specs.Paths.{equal_path, part_name, path_of};

use std::alloc::{AllocError, Global};
use std::fmt;
use std::hash::{Hash, Hasher};
use std::marker::Model;
use vx_dtype::{FieldName, VortexResult};

/// A part of a path.
#[derive(Debug)]
pub enum Field {
    /// The first field of that name in a struct.
    Name(FieldName),
}

impl Drop for Field {
    fn drop(self) {
        let Field::Name(name) = self;
        drop(name);
    }
}

impl Clone for Field {
    ghost is_clone = { λ field copy. part_name copy ≡ part_name field };

    fn clone(&self) -> Result<Field, AllocError> {
        match self {
            Field::Name(name) => Ok(Field::Name(name.clone()?)),
        }
    }
}

impl PartialEq for Field {
    ghost eq = { λ a b. bytes_eq (part_name a) (part_name b) };

    ghost laws = { on_per part_name (partial_equiv_from_equiv name_equiv) };

    fn eq(&self, other: &Field) -> bool {
        match (self, other) {
            (Field::Name(name), Field::Name(other)) => name == other,
        }
    }
}

impl Eq for Field {
    ghost laws = { on_equiv part_name name_equiv };
}

impl Hash for Field {
    ghost hash_input = { λ field. fed.str (part_name field) };

    ghost respects_eq = { λ a b. name_alike.fed (part_name a) (part_name b) };

    fn hash<H: Hasher>(&self, state: &mut H) {
        match self {
            Field::Name(name) => name.hash(state),
        }
    }
}

/// Where a value stands in a row: the names of fields on the way to it, each inside the one before.
pub struct FieldPath {
    parts: Vec<Field>,
}

impl Drop for FieldPath {
    fn drop(self) {
        let FieldPath { parts } = self;
        drop(parts);
    }
}

impl Model for FieldPath {
    ghost use Rattle.std.specs.Prelude.{List, ℕ};
    ghost use Rattle.vx_value.specs.Paths.{path_of};

    ghost Value = { List (List ℕ) };

    ghost view = { λ p. path_of p.parts.items };
}

impl FieldPath {
    /// The path of no name, which leads to the whole row. Takes no memory, and so never refuses.
    pub fn root(alloc: Global) -> VortexResult<FieldPath>
        ensures { Returns (λ p. p) result (Ok []) }
    {
        Ok(FieldPath {
            parts: Vec::new(alloc),
        })
    }

    /// The path of that one name. Refuses with `OutOfMemory` (1) alone.
    pub fn from_name(alloc: Global, name: FieldName) -> VortexResult<FieldPath>
        ensures { ReturnsOrOom (λ p. p) result (Ok (name ∷ [])) }
    {
        FieldPath::root(alloc)?.push(alloc, name)
    }

    /// The path that goes on to the field of that name. Refuses with `OutOfMemory` (1) alone.
    pub fn push(self, _alloc: Global, name: FieldName) -> VortexResult<FieldPath>
        ensures { ReturnsOrOom (λ p. p) result (Ok (self ++ name ∷ [])) }
    {
        let FieldPath { mut parts } = self;
        parts.push(Field::Name(name))?;
        Ok(FieldPath { parts })
    }

    /// The names one after another.
    pub fn parts(&self) -> &[Field]
        ensures { path_of result.now ≡ self.now }
    {
        self.parts.as_slice()
    }

    // The parts in memory of their own.
    pub(crate) fn copied_parts(&self) -> Result<Vec<Field>, AllocError>
        ensures { IfOk result (λ parts. path_of parts.items ≡ self.now) }
    {
        self.parts.clone()
    }

    /// Whether this is the path of no name.
    pub fn is_root(&self) -> bool
        ensures { result ≡ (length self.now == 0) }
    {
        self.parts.is_empty()
    }
}

impl Clone for FieldPath {
    ghost is_clone = { λ path copy. copy ≡ path };

    fn clone(&self) -> Result<FieldPath, AllocError> {
        Ok(FieldPath {
            parts: self.parts.clone()?,
        })
    }
}

impl PartialEq for FieldPath {
    ghost eq = { equal_path };

    ghost laws = { partial_equiv_from_equiv equal_path_equiv };

    fn eq(&self, other: &FieldPath) -> bool {
        self.parts == other.parts
    }
}

impl Eq for FieldPath {
    ghost laws = { equal_path_equiv };
}

impl Hash for FieldPath {
    ghost hash_input = { fed.slice fed.str };

    ghost respects_eq = { names_alike.fed };

    fn hash<H: Hasher>(&self, state: &mut H) {
        self.parts.hash(state);
    }
}

impl fmt::Debug for FieldPath {
    fn fmt<W: fmt::Write>(&self, f: &mut fmt::Formatter<W>) -> fmt::Result {
        fmt::Debug::fmt(&self.parts, f)
    }
}
