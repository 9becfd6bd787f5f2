// Answers that are of a source: its texts, its type, and how it is built.
use crate::answers::built::{built, built_bound};
use crate::answers::pruned::selected;
use crate::answers::queries::any_query;
use crate::answers::scans::planned;
use crate::kind::SourceKind;
use crate::scene::Scene;
use crate::told::{agreed, barred, refused, told};
use std::alloc::Global;
use std::fmt;
use std::fmt::Write;
use vx_test_support::{Unread, expression};
use vx_tree::{DType, Expression, Scope, VortexResult};

/// The answer to a line that asks of the source of that text.
pub fn answer(
    alloc: Global,
    kind: SourceKind,
    scene: &Scene,
    tree: &str,
) -> Result<String, Unread> {
    let source = scene.source(alloc, tree)?;
    Ok(match kind {
        SourceKind::Text => text(alloc, &source)?,
        SourceKind::TextLength => text_length(alloc, scene, &source)?,
        SourceKind::TreeText => tree_text(alloc, &source)?,
        SourceKind::TreeTextLength => tree_text_length(alloc, &source)?,
        SourceKind::Type => agreed_type(alloc, scene, &source)?,
        SourceKind::Built => built(alloc, &source)?,
        SourceKind::BuiltBound => built_bound(alloc, scene, &source)?,
        SourceKind::Depth => depth(alloc, scene, &source)?,
        SourceKind::AnyQuery => any_query(alloc, scene, &source)?,
        SourceKind::Planned
        | SourceKind::PlannedPaths
        | SourceKind::PlannedSplit
        | SourceKind::Scan => planned(alloc, kind, scene, &source)?,
        SourceKind::Selected => told(alloc, selected(alloc, scene, &source))?,
    })
}

/// A source by `fmt_sql`.
#[derive(Clone, Copy)]
struct Sql<'a>(&'a Expression);

impl fmt::Display for Sql<'_> {
    fn fmt<W: fmt::Write>(&self, f: &mut fmt::Formatter<W>) -> fmt::Result {
        self.0.fmt_sql(f)
    }
}

fn text(alloc: Global, source: &Expression) -> VortexResult<String> {
    let sql = Sql(source);
    agreed(
        alloc,
        format!(in alloc; "{source}")?,
        format!(in alloc; "{sql}")?,
    )
}

// How many bytes the text has, also once it is bound.
fn text_length(alloc: Global, scene: &Scene, source: &Expression) -> VortexResult<String> {
    let text = format!(in alloc; "{source}")?;
    let length = format!(in alloc; "{}", text.len())?;
    match scene.bind(alloc, source) {
        Ok(bound) => {
            let text = format!(in alloc; "{bound}")?;
            let other = format!(in alloc; "{}", text.len())?;
            agreed(alloc, length, other)
        }
        Err(_) => Ok(length),
    }
}

/// The text of the source of that text, less what opens it and what closes it so many times.
pub fn peeled_text(
    alloc: Global,
    times: &str,
    open: &str,
    close: &str,
    tree: &str,
) -> Result<String, Unread> {
    let times: usize = times
        .parse()
        .map_err(|_| Unread::Word("no number of times"))?;
    let source = expression(alloc, tree)?;
    let text = format!(in alloc; "{source}")?;
    let mut peeled = text.as_str();
    for _ in 0..times {
        let inner = peeled.strip_prefix(open).map(|inner| inner.trim_start());
        match inner.and_then(|inner| inner.strip_suffix(close)) {
            Some(inner) => peeled = inner,
            None => return Ok(String::from_str(alloc, text.as_str())?),
        }
    }
    Ok(String::from_str(alloc, peeled)?)
}

fn tree_text(alloc: Global, source: &Expression) -> VortexResult<String> {
    let tree = source.display_tree();
    let text = format!(in alloc; "{tree}")?;
    Ok(barred(alloc, text.as_str())?)
}

/// Counts the bytes that are written, and keeps none.
#[derive(Clone, Copy)]
struct Counted(usize);

impl fmt::Write for Counted {
    fn write_str(&mut self, piece: &str) -> fmt::Result {
        self.0 = self.0.saturating_add(piece.len());
        Ok(())
    }
}

// How many bytes the tree text has, which grows with the square of the depth.
fn tree_text_length(alloc: Global, source: &Expression) -> VortexResult<String> {
    let mut counted = Counted(0);
    let is_written = write!(counted, "{}", source.display_tree()).is_ok();
    let Counted(bytes) = counted;
    if !is_written {
        return Ok(format!(in alloc; "cut off behind {bytes}")?);
    }
    Ok(format!(in alloc; "{bytes}")?)
}

// The type by each call that tells one.
fn agreed_type(alloc: Global, scene: &Scene, source: &Expression) -> VortexResult<String> {
    let typed = told(alloc, source.return_dtype(alloc, &scene.scope))?;
    let bound = bound_type(alloc, scene, source)?;
    agreed(alloc, typed, bound)
}

fn bound_type(alloc: Global, scene: &Scene, source: &Expression) -> VortexResult<String> {
    let bound = match scene.bind(alloc, source) {
        Ok(bound) => bound,
        Err(refusal) => return refused(alloc, &refusal),
    };
    if !bound.is_well_typed(alloc)? || !bound.is_root_bound_to(&scene.scope) {
        return Ok(format!(in alloc; "{bound}, which isn't well typed over its scope")?);
    }
    if !binds_alike(alloc, &scene.scope, source, &bound)? {
        return Ok(format!(in alloc; "{bound}, and another tree by its scope")?);
    }
    let dtype = bound.dtype();
    Ok(format!(in alloc; "{dtype}")?)
}

// Whether the source is bound to the scope as it is to the scope's type.
fn binds_alike(
    alloc: Global,
    dtype: &DType,
    source: &Expression,
    bound: &vx_tree::BoundExpression,
) -> VortexResult<bool> {
    let scope = Scope::new(dtype.clone()?);
    let other = source.bind_scope(alloc, &scope)?;
    Ok(other == *bound)
}

// How deep the source is, also once it is bound.
fn depth(alloc: Global, scene: &Scene, source: &Expression) -> VortexResult<String> {
    let depth = source.depth(alloc)?;
    let depth = format!(in alloc; "{depth}")?;
    match scene.bind(alloc, source) {
        Ok(bound) => {
            let other = bound.depth(alloc)?;
            let other = format!(in alloc; "{other}")?;
            agreed(alloc, depth, other)
        }
        Err(_) => Ok(depth),
    }
}
