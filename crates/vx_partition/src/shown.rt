// The text of a partitioned tree.
ghost use Rattle.std.specs.Prelude.{◌≡◌, ◌<◌, length, get_or, []};
ghost use Rattle.std.specs.Fmt.{WritesOnOk};
ghost use Rattle.vx_fn.specs.Texts.{with_commas, named_texts};
ghost use Rattle.vx_partition.specs.Partitioned.{partitioned_text, texts_of};
ghost use Rattle.vx_tree.specs.Trees.{unbound, unbound_each};
ghost use Rattle.vx_tree.specs.Views.{bound_of, bounds_of};

use crate::partitioned::BoundPartitionedExpr;
use std::fmt;
use std::fmt::{Display, Formatter, Write};
use vx_tree::{BoundExpression, FieldName};

/// The root's text, and between braces each partition's behind its name: as many as names and
/// partitions both give.
impl<A> Display for BoundPartitionedExpr<A> {
    ghost use Rattle.std.specs.Prelude.{Some};

    ghost output = { λ p. Some (partitioned_text (unbound (bound_of p.root)) p.partition_names (unbound_each (bounds_of p.partitions.items))) };

    fn fmt<W: Write>(&self, f: &mut Formatter<W>) -> fmt::Result {
        f.write_str("root: ")?;
        self.root.fmt(f)?;
        f.write_str(" {")?;
        fmt_partitions(
            self.partition_names.as_slice(),
            self.partitions.as_slice(),
            f,
        )?;
        f.write_str("}")
    }
}

// The partitions, each behind its name, with commas between them.
fn fmt_partitions<W: Write>(
    names: &[FieldName],
    partitions: &[BoundExpression],
    f: &mut Formatter<W>,
) -> fmt::Result
    ensures { WritesOnOk W.write_str_gives f.old result (with_commas (named_texts names.now (texts_of partitions.now))) f.new }
{
    let count = names.len().min(partitions.len());
    if count == 0 {
        return Ok(());
    }
    fmt_partition(names, partitions, 0, f)?;
    for index in 1..count {
        f.write_str(", ")?;
        fmt_partition(names, partitions, index, f)?;
    }
    Ok(())
}

fn fmt_partition<W: Write>(
    names: &[FieldName],
    partitions: &[BoundExpression],
    index: usize,
    f: &mut Formatter<W>,
) -> fmt::Result
    requires named { index < length names.now }
    requires given { index < length partitions.now }
    ensures { WritesOnOk W.write_str_gives f.old result (get_or (named_texts names.now (texts_of partitions.now)) index []) f.new }
{
    names[index].fmt(f)?;
    f.write_str(": ")?;
    partitions[index].fmt(f)
}
