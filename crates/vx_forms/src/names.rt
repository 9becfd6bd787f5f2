// What names, and lists of names, may be given as.
ghost use Rattle.std.specs.Prelude.{◌≡◌, List, Ok, IfOk, IfErr, map};
ghost use Rattle.vx_dtype.specs.declared.error.VortexError.TheVariants.{OutOfMemory};
ghost use Rattle.vx_dtype.specs.Returns.{ReturnsOrOom};
ghost use Rattle.vx_value.specs.Types.{Name};
ghost use Rattle.vx_forms.specs.Named.{beside, named};

use std::alloc::Global;
use vx_dtype::{FieldName, FieldNames, VortexResult};

/// What a name may be given as: a name, one that is lent, or its text.
pub trait IntoFieldName: Drop + Sized {
    /// The name that this stands for.
    ghost name: { Self → Name };

    /// The name. Refuses with `OutOfMemory` (1) alone.
    fn into_field_name(self, alloc: Global) -> VortexResult<FieldName>
        ensures { ReturnsOrOom (λ a. a) result (Ok (name self)) };
}

impl IntoFieldName for FieldName {
    ghost name = { λ a. a };

    fn into_field_name(self, _alloc: Global) -> VortexResult<FieldName> {
        Ok(self)
    }
}

impl IntoFieldName for &FieldName {
    ghost name = { λ a. a.now };

    fn into_field_name(self, _alloc: Global) -> VortexResult<FieldName> {
        Ok(self.clone()?)
    }
}

impl IntoFieldName for &str {
    ghost name = { λ text. text.now };

    fn into_field_name(self, alloc: Global) -> VortexResult<FieldName> {
        FieldName::new(alloc, self)
    }
}

/// What a list of names may be given as: such a list, one that is lent, or an array of names.
pub trait IntoFieldNames: Drop + Sized {
    /// The names that this stands for.
    ghost names: { Self → List Name };

    /// The names in their order. Refuses with `OutOfMemory` (1) alone.
    fn into_field_names(self, alloc: Global) -> VortexResult<FieldNames>
        ensures { ReturnsOrOom (λ all. all) result (Ok (names self)) };
}

impl IntoFieldNames for FieldNames {
    ghost names = { λ all. all };

    fn into_field_names(self, _alloc: Global) -> VortexResult<FieldNames> {
        Ok(self)
    }
}

impl IntoFieldNames for &FieldNames {
    ghost names = { λ all. all.now };

    fn into_field_names(self, _alloc: Global) -> VortexResult<FieldNames> {
        Ok(self.clone()?)
    }
}

impl<N: IntoFieldName, const K: usize> IntoFieldNames for [N; K] {
    ghost names = { map N.name };

    fn into_field_names(self, alloc: Global) -> VortexResult<FieldNames> {
        FieldNames::new(alloc, names_of(alloc, Vec::from_array(alloc, self)?)?)
    }
}

// The names that these stand for.
fn names_of<N: IntoFieldName>(alloc: Global, names: Vec<N>) -> VortexResult<Vec<FieldName>>
    ensures { ReturnsOrOom (λ all. all.items) result (Ok (map N.name names.items)) }
{
    let mut all = Vec::with_capacity(alloc, names.len())?;
    for name in names {
        all.push(name.into_field_name(alloc)?)?;
    }
    Ok(all)
}

/// The names, and what stands beside them, apart. Refuses with `OutOfMemory` (1) alone.
pub fn unzip_named<N: IntoFieldName, T: Drop>(
    alloc: Global,
    entries: Vec<(N, T)>,
) -> VortexResult<(Vec<FieldName>, Vec<T>)>
    ensures names { IfOk result (λ apart. apart.0.items ≡ named N.name entries.items) }
    ensures others { IfOk result (λ apart. apart.1.items ≡ beside entries.items) }
    ensures refusal { IfErr result (λ e. e ≡ OutOfMemory) }
{
    let mut names = Vec::with_capacity(alloc, entries.len())?;
    let mut others = Vec::with_capacity(alloc, entries.len())?;
    for (name, other) in entries {
        names.push(name.into_field_name(alloc)?)?;
        others.push(other)?;
    }
    Ok((names, others))
}
