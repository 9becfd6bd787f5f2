// Families of trees, each of any size.
ghost use Rattle.std.specs.Prelude.{◌<◌};

use crate::fields::{fields, names, numbered, numbered_names, numbers};
use crate::trees::Trees;
use std::alloc::Global;
use vx_dtype::{DType, FieldName, Nullability, PType, StructFields, VortexResult};
use vx_tree::{EmptyOptions, Expression, Operator, Scalar, ScalarFnRef};

/// A family of trees, with one of each size `n`.
#[derive(Clone, Copy, Debug, PartialEq, Eq)]
pub enum Family {
    /// And over `n` comparisons, balanced: the `i`th of the field `i mod (n / 4)`, with `10 * (i div
    /// (n / 4))`, and `>=` and `<` in turns.
    Conjunction,
    /// `n` times Not, of a field.
    Deep,
    /// `n` times the item of a pack of one, of a field.
    ItemsOfPacks,
    /// The pack of `n` comparisons.
    Wide,
    /// `n` times the And of the last tree with itself, which is shared.
    Shared,
    /// `n` times a CASE with the last tree as its ELSE.
    Cases,
    /// `n` comparisons of literals, joined by And one after another: the `i`th is `i < n`.
    Constants,
}

impl Family {
    /// The family of that number, if there is one.
    pub fn of(number: u8) -> Option<Family> {
        match number {
            0 => Some(Family::Conjunction),
            1 => Some(Family::Deep),
            2 => Some(Family::ItemsOfPacks),
            3 => Some(Family::Wide),
            4 => Some(Family::Shared),
            5 => Some(Family::Cases),
            6 => Some(Family::Constants),
            _ => None,
        }
    }

    /// The fields of the scope: `n / 4` numbers, at least one, for a conjunction, and else a truth
    /// value `b` and a number `x`.
    pub fn fields(self, alloc: Global, size: usize) -> VortexResult<StructFields> {
        match self {
            Family::Conjunction => {
                let names = numbered_names(alloc, fields_of(size))?;
                numbers(alloc, names, Nullability::NonNullable)
            }
            _ => pair(alloc),
        }
    }

    /// The tree of that size.
    pub fn tree(self, alloc: Global, size: usize) -> VortexResult<Expression> {
        let mut trees = Trees::new(alloc);
        self.make(alloc, size, &mut trees)?;
        trees.last()
    }

    // Makes the tree of that size.
    fn make(self, alloc: Global, size: usize, trees: &mut Trees) -> VortexResult<()> {
        match self {
            Family::Conjunction => conjunction(alloc, size, trees),
            Family::Deep => deep(alloc, size, trees),
            Family::ItemsOfPacks => items_of_packs(alloc, size, trees),
            Family::Wide => wide(alloc, size, trees),
            Family::Shared => shared(alloc, size, trees),
            Family::Cases => cases(alloc, size, trees),
            Family::Constants => constants(alloc, size, trees),
        }
    }
}

fn conjunction(alloc: Global, size: usize, trees: &mut Trees) -> VortexResult<()> {
    for i in 0..size {
        bound_of_field(alloc, i % fields_of(size), i / fields_of(size), trees)?;
    }
    trees.join(alloc)
}

// A lower bound of the field in even rounds, and an upper bound in odd ones.
fn bound_of_field(
    alloc: Global,
    field: usize,
    round: usize,
    trees: &mut Trees,
) -> VortexResult<()> {
    let operator = if round % 2 == 0 {
        Operator::Gte
    } else {
        Operator::Lt
    };
    trees.field(alloc, numbered(alloc, field)?)?;
    trees.with_number(alloc, operator, small(round).saturating_mul(10))
}

fn deep(alloc: Global, size: usize, trees: &mut Trees) -> VortexResult<()> {
    trees.named(alloc, "b")?;
    for _ in 0..size {
        trees.call(alloc, ScalarFnRef::Not(EmptyOptions))?;
    }
    Ok(())
}

fn items_of_packs(alloc: Global, size: usize, trees: &mut Trees) -> VortexResult<()> {
    trees.x(alloc)?;
    for _ in 0..size {
        trees.pack(alloc, names(alloc, &["a"])?)?;
        trees.item(alloc, FieldName::new(alloc, "a")?)?;
    }
    Ok(())
}

fn wide(alloc: Global, size: usize, trees: &mut Trees) -> VortexResult<()> {
    for i in 0..size {
        trees.compared(alloc, Operator::Lt, small(i))?;
    }
    trees.pack(alloc, numbered_names(alloc, size)?)
}

fn shared(alloc: Global, size: usize, trees: &mut Trees) -> VortexResult<()> {
    trees.literal(alloc, Scalar::from_bool(true))?;
    for _ in 0..size {
        trees.again()?;
        trees.binary(alloc, Operator::And)?;
    }
    Ok(())
}

// The pairs in their order, and each CASE over its pair and the ELSE behind it.
fn cases(alloc: Global, size: usize, trees: &mut Trees) -> VortexResult<()> {
    for i in 0..size {
        trees.x(alloc)?;
        trees.call(alloc, ScalarFnRef::IsNull(EmptyOptions))?;
        trees.number(alloc, small(i))?;
    }
    trees.number(alloc, small(size))?;
    for _ in 0..size {
        trees.case(alloc, 1)?;
    }
    Ok(())
}

fn constants(alloc: Global, size: usize, trees: &mut Trees) -> VortexResult<()> {
    for i in 0..size {
        trees.number(alloc, small(i))?;
        trees.with_number(alloc, Operator::Lt, small(size))?;
        if i > 0 {
            trees.binary(alloc, Operator::And)?;
        }
    }
    Ok(())
}

// `{b: bool, x: i32?}`.
fn pair(alloc: Global) -> VortexResult<StructFields> {
    let types = vec![in alloc;
        DType::Bool(Nullability::NonNullable),
        DType::Primitive(PType::I32, Nullability::Nullable),
    ]?;
    fields(alloc, names(alloc, &["b", "x"])?, types)
}

// How many fields a conjunction of that size has.
fn fields_of(size: usize) -> usize
    ensures { 0 < result }
{
    (size / 4).max(1)
}

// The number, or the largest that there is.
fn small(n: usize) -> i32 {
    i32::try_from(n).unwrap_or(i32::MAX)
}
