// What a node is asked for.
ghost use Rattle.std.specs.Prelude.{◌≡◌, ◌++◌, ◌∷◌, [], ◌==◌, IfErr, Ok, OnOk, length, map};
ghost use Rattle.vx_dtype.specs.declared.error.VortexError.TheVariants.{OutOfMemory};
ghost use Rattle.vx_value.specs.Returns.{ReturnsOrOom};
ghost use Rattle.vx_rewrite_paths.specs.Asked.{each_alone, whole};
ghost use Rattle.vx_rewrite_paths.specs.Requests.{front_path, requested};

use std::alloc::Global;
use vx_dtype::{FieldName, VortexResult};
use vx_value::FieldPath;

// The names that the paths of a request begin with, from the outermost field in. Each stands on the
// stack beside the node that takes that field, so that a path takes no memory before it is recorded.
#[derive(Clone, Copy)]
pub(crate) enum Front<'a> {
    // No name.
    Empty,
    // A field, and the names inside it.
    Item(&'a FieldName, &'a Front<'a>),
}

// The paths that a node is asked for.
#[derive(Clone, Copy)]
pub(crate) struct Request<'a> {
    // What they all begin with.
    pub(crate) front: Front<'a>,
    // Behind it one path for each of these names, or else nothing, and it is the only path.
    pub(crate) ends: Option<&'a [FieldName]>,
}

impl<'a> Request<'a> {
    // The root path alone.
    pub(crate) fn whole() -> Request<'a>
        ensures { requested result ≡ whole }
    {
        Request {
            front: Front::Empty,
            ends: None,
        }
    }

    // Whether there is no path.
    pub(crate) fn is_nothing(&self) -> bool
        ensures { result ≡ (length (requested self.now) == 0) }
    {
        match self.ends {
            None => false,
            Some(names) => names.is_empty(),
        }
    }

    // Puts the paths behind those that are recorded.
    #[inline(never)]
    pub(crate) fn record(&self, alloc: Global, recorded: &mut Vec<FieldPath>) -> VortexResult<()>
        ensures recorded { OnOk result (recorded.new.items ≡ recorded.old.items ++ requested self.now) }
        ensures memory { IfErr result (λ e. e ≡ OutOfMemory) }
    {
        match self.ends {
            None => Ok(recorded.push(self.front.path(alloc)?)?),
            Some(names) => self.front.record_each(alloc, names, recorded),
        }
    }
}

impl<'a> Front<'a> {
    // The path of the names.
    fn path(&self, alloc: Global) -> VortexResult<FieldPath>
        ensures { ReturnsOrOom (λ path. path) result (Ok (front_path self.now)) }
    {
        let mut path = FieldPath::root(alloc)?;
        let mut rest = self;
        while let Front::Item(name, inner) = rest {
            path = path.push(alloc, (*name).clone()?)?;
            rest = inner;
        }
        Ok(path)
    }

    // Puts a path for each of the names, which stands behind these, behind those that are recorded.
    fn record_each(
        &self,
        alloc: Global,
        names: &[FieldName],
        recorded: &mut Vec<FieldPath>,
    ) -> VortexResult<()>
        ensures recorded { OnOk result (recorded.new.items ≡ recorded.old.items ++ map (λ end. front_path self.now ++ end) (each_alone names.now)) }
        ensures memory { IfErr result (λ e. e ≡ OutOfMemory) }
    {
        for name in names {
            let path = self.path(alloc)?;
            recorded.push(path.push(alloc, name.clone()?)?)?;
        }
        Ok(())
    }
}
