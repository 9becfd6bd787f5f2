// Sets of paths.
ghost use Rattle.std.specs.Prelude.{◌≡◌, ℕ, ◌&&◌, [], IfErr, OnErr, OnOk, take, length};
ghost use Rattle.std.specs.Iterator.{YieldsFirstRef, item_count};
ghost use Rattle.vx_value.specs.Paths.{add_path, add_paths, has_proper_prefix, is_member, minimal_paths, path_of};
ghost use Rattle.vx_dtype.specs.declared.error.VortexError.TheVariants.{OutOfMemory};

use crate::{Field, FieldPath};
use indexmap::IndexMap;
use indexmap::map::Values;
use std::alloc::Global;
use std::marker::Model;
use vx_dtype::VortexResult;

/// Paths without repeats, in the order in which they were first inserted.
pub struct FieldPathSet {
    // Each path beside its parts, by which a prefix of another path is looked up as it stands.
    paths: IndexMap<Vec<Field>, FieldPath>,
}

impl Drop for FieldPathSet {
    fn drop(self) {
        let FieldPathSet { paths } = self;
        drop(paths);
    }
}

impl Model for FieldPathSet {
    ghost use Rattle.std.specs.Prelude.{◌≡◌, List, ℕ, map};
    ghost use Rattle.indexmap.specs.IndexMap.{keys, values};
    ghost use Rattle.vx_value.specs.Paths.{path_of};

    ghost Value = { List (List (List ℕ)) };

    ghost view = { λ s. values s.paths };

    ghost invariant = { λ s. map (λ parts. path_of parts.items) (keys s.paths) ≡ values s.paths };
}

impl FieldPathSet {
    /// The set of no path.
    pub fn new(alloc: Global) -> FieldPathSet
        ensures { result ≡ [] }
    {
        FieldPathSet {
            paths: IndexMap::new(alloc),
        }
    }

    /// Inserts the paths one after another; one that is there already stays where it is. Refuses
    /// with `OutOfMemory` (1) alone, and then holds a beginning of the paths beside those it had.
    pub fn extend(&mut self, paths: Vec<FieldPath>) -> VortexResult<()>
        ensures inserted { OnOk result (self.new ≡ add_paths self.old paths.items) }
        ensures beginning { OnErr result ((k : ℕ) × (self.new ≡ add_paths self.old (take k paths.items))) }
        ensures memory { IfErr result (λ e. e ≡ OutOfMemory) }
    {
        for path in paths {
            self.insert(path)?;
        }
        Ok(())
    }

    /// The paths of which no other is a proper prefix, in their order. Takes no memory. Each of a
    /// path's proper prefixes is looked up by its hash: a path costs the square of its length, however
    /// many others there are.
    pub fn iter(&self) -> FieldPaths<'_>
        ensures { result ≡ minimal_paths self.now }
    {
        FieldPaths {
            set: self,
            rest: self.paths.values(),
        }
    }

    // The path behind the others, unless it is there.
    fn insert(&mut self, path: FieldPath) -> VortexResult<()>
        ensures inserted { OnOk result (self.new ≡ add_path self.old path) }
        ensures unchanged { OnErr result (self.new ≡ self.old) }
        ensures memory { IfErr result (λ e. e ≡ OutOfMemory) }
    {
        if self.has(path.parts()) {
            return Ok(());
        }
        let parts = path.copied_parts()?;
        self.paths.insert(parts, path)?;
        Ok(())
    }

    // Whether the path of these parts is in the set.
    fn has(&self, parts: &[Field]) -> bool
        ensures { result ≡ is_member self.now (path_of parts.now) }
    {
        self.paths.contains_key(parts)
    }

    // Whether a path of the set is a proper prefix of the one of these parts.
    fn has_proper_prefix(&self, parts: &[Field]) -> bool
        ensures { result ≡ has_proper_prefix self.now (path_of parts.now) }
    {
        for len in 0..parts.len() {
            if self.has(&parts[..len]) {
                return true;
            }
        }
        false
    }
}

/// The paths of a set of which no other is a proper prefix, one after another.
#[derive(Drop)]
pub struct FieldPaths<'a> {
    set: &'a FieldPathSet,
    rest: Values<'a, Vec<Field>, FieldPath>,
}

impl<'a> Model for FieldPaths<'a> {
    ghost use Rattle.std.specs.Prelude.{List, ℕ, filter, not};
    ghost use Rattle.vx_value.specs.Paths.{has_proper_prefix};

    ghost Value = { List (List (List ℕ)) };

    ghost view = { λ s. filter (λ path. not (has_proper_prefix s.set.now path)) s.rest };
}

impl<'a> Iterator for FieldPaths<'a> {
    type Item = &'a FieldPath;

    ghost next_gives = { YieldsFirstRef (λ paths. paths) };

    ghost remaining = { item_count (λ paths. paths) };

    fn next(&mut self) -> Option<&'a FieldPath> {
        while let Some(path) = self.rest.next() {
            if !self.set.has_proper_prefix(path.parts()) {
                return Some(path);
            }
        }
        None
    }
}
