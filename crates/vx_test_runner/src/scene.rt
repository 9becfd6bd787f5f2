// What the lines of a table stand over: a scope, its batches, statistics, and a tree.
ghost use Rattle.std.specs.Prelude.{IfOk};
ghost use Rattle.vx_tree.specs.Trees.{WellTyped};
ghost use Rattle.vx_tree.specs.Views.{bound_of};

use crate::answers::pruned::{read_off, statistics};
use std::alloc::Global;
use vx_prune::ChunkStats;
use vx_test_support::{Unread, dtype, expression, values};
use vx_tree::{BoundExpression, Column, DType, Expression, VortexResult};

/// The scope, batches of its type, statistics, and the tree that a ditto mark stands for.
#[derive(Drop)]
pub struct Scene {
    pub scope: DType,
    pub batches: Vec<Column>,
    pub statistics: ChunkStats,
    tree: String,
}

impl Scene {
    /// The scope of no fields, without a batch, and statistics of no row.
    pub fn new(alloc: Global) -> Result<Scene, Unread> {
        Ok(Scene {
            scope: dtype(alloc, "{}")?,
            batches: Vec::new(alloc),
            statistics: ChunkStats::new(alloc, 0),
            tree: String::new(alloc),
        })
    }

    /// Takes a line that sets the scene, and tells whether the line does so.
    pub fn set(&mut self, alloc: Global, name: &str, rest: &str) -> Result<bool, Unread> {
        match name {
            "scope" => {
                self.scope = dtype(alloc, rest)?;
                self.batches = Vec::new(alloc);
            }
            "batch" => {
                let batch = self.column(alloc, rest)?;
                self.batches.push(batch)?;
            }
            "no batch" if rest.is_empty() => self.batches = Vec::new(alloc),
            "statistics" => self.statistics = statistics(alloc, rest)?,
            "read statistics" => self.statistics = self.read_off(alloc, rest)?,
            "tree" => self.tree = String::from_str(alloc, rest)?,
            _ => return Ok(false),
        }
        Ok(true)
    }

    // The statistics of the first batch along the paths.
    fn read_off(&self, alloc: Global, paths: &str) -> Result<ChunkStats, Unread> {
        let batch = self.batches.first().ok_or("no batch")?;
        Ok(read_off(alloc, batch, paths)?)
    }

    fn column(&self, alloc: Global, rows: &str) -> Result<Column, Unread> {
        let dtype = self.scope.clone()?;
        Ok(Column::try_new(dtype, values(alloc, rows)?)?)
    }

    /// The text, or that of the tree in place of a ditto mark.
    pub fn text<'a>(&'a self, text: &'a str) -> &'a str {
        if text == "\"" {
            return self.tree.as_str();
        }
        text
    }

    /// The source of the text.
    pub fn source(&self, alloc: Global, text: &str) -> Result<Expression, Unread> {
        expression(alloc, self.text(text))
    }

    /// The source, bound to the scope.
    pub fn bind(&self, alloc: Global, source: &Expression) -> VortexResult<BoundExpression>
        ensures { IfOk result (λ b. WellTyped (bound_of b)) }
    {
        source.bind(alloc, &self.scope)
    }
}
