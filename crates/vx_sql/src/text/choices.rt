// The texts of CASE, and of what is written as one.
ghost use Rattle.std.specs.Prelude.{◌≡◌, ◌<◌, ◌+◌, ◌++◌, [], length, get_or, codes};
ghost use Rattle.std.specs.Fmt.{WritesOnOk};
ghost use Rattle.vx_fn.specs.Texts.{pairs_sql};
ghost use Rattle.vx_tree.specs.Texts.{pair_sql};
ghost use Rattle.vx_sql.specs.SqlTexts.{sqls_in, choice_sql};

use super::{Children, write_child};
use std::fmt;
use std::fmt::{Formatter, Write};

// Conditions and values in turn, and what is left over as the ELSE.
#[cycle(text)]
pub(super) fn write_case<W: Write>(children: Children, f: &mut Formatter<W>) -> fmt::Result
    ensures { WritesOnOk W.write_str_gives f.old result (codes "CASE" ++ (pairs_sql (sqls_in children.entry) ++ codes " END")) f.new }
{
    f.write_str("CASE")?;
    write_branches(children, f)?;
    f.write_str(" END")
}

#[cycle(text)]
fn write_branches<W: Write>(children: Children, f: &mut Formatter<W>) -> fmt::Result
    ensures { WritesOnOk W.write_str_gives f.old result (pairs_sql (sqls_in children.entry)) f.new }
{
    let pairs = children.nodes.len() / 2;
    for pair in 0..pairs {
        write_pair(children, 2 * pair, f)?;
    }
    if 2 * pairs < children.nodes.len() {
        f.write_str(" ELSE ")?;
        write_child(children, 2 * pairs, f)?;
    }
    Ok(())
}

// A condition and the value behind it.
#[cycle(text)]
fn write_pair<W: Write>(children: Children, index: usize, f: &mut Formatter<W>) -> fmt::Result
    requires { index + 1 < length children.nodes.now }
    ensures { WritesOnOk W.write_str_gives f.old result (pair_sql (sqls_in children.entry) index) f.new }
{
    f.write_str(" WHEN ")?;
    write_child(children, index, f)?;
    f.write_str(" THEN ")?;
    write_child(children, index + 1, f)
}

// One value where the mask is true, and else the other.
#[cycle(text)]
pub(super) fn write_zip<W: Write>(children: Children, f: &mut Formatter<W>) -> fmt::Result
    requires { length children.nodes.now ≡ 3 }
    ensures { let cs = sqls_in children.entry in WritesOnOk W.write_str_gives f.old result
        (choice_sql (get_or cs 2 []) (get_or cs 0 []) (codes " ELSE " ++ (get_or cs 1 [] ++ codes " END"))) f.new }
{
    write_choice(children, 2, f)?;
    f.write_str(" ELSE ")?;
    write_child(children, 1, f)?;
    f.write_str(" END")
}

// The input where the mask is true.
#[cycle(text)]
pub(super) fn write_mask<W: Write>(children: Children, f: &mut Formatter<W>) -> fmt::Result
    requires { length children.nodes.now ≡ 2 }
    ensures { let cs = sqls_in children.entry in WritesOnOk W.write_str_gives f.old result
        (choice_sql (get_or cs 1 []) (get_or cs 0 []) (codes " END")) f.new }
{
    write_choice(children, 1, f)?;
    f.write_str(" END")
}

// The first child where the one at the index is true.
#[cycle(text)]
fn write_choice<W: Write>(children: Children, condition: usize, f: &mut Formatter<W>) -> fmt::Result
    requires { condition < length children.nodes.now }
    ensures { let cs = sqls_in children.entry in WritesOnOk W.write_str_gives f.old result
        (choice_sql (get_or cs condition []) (get_or cs 0 []) []) f.new }
{
    f.write_str("CASE WHEN ")?;
    write_child(children, condition, f)?;
    f.write_str(" THEN ")?;
    write_child(children, 0, f)
}

// The input, or the fill.
#[cycle(text)]
pub(super) fn write_fill<W: Write>(children: Children, f: &mut Formatter<W>) -> fmt::Result
    requires { length children.nodes.now ≡ 2 }
    ensures { let cs = sqls_in children.entry in WritesOnOk W.write_str_gives f.old result
        (codes "COALESCE(" ++ (get_or cs 0 [] ++ (codes ", " ++ (get_or cs 1 [] ++ codes ")")))) f.new }
{
    f.write_str("COALESCE(")?;
    write_child(children, 0, f)?;
    f.write_str(", ")?;
    write_child(children, 1, f)?;
    f.write_str(")")
}
