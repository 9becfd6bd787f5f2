// The fields of its scope that a tree reads, in one walk.
ghost use Rattle.std.specs.Prelude.{◌≡◌, ◌++◌, ◌∷◌, [], List, Some, map, IfOk, if◌then◌else◌};
ghost use Rattle.std.specs.Option.{option_copied};
ghost use Rattle.vx_rewrite_analysis.specs.Fields.{free_fields, field_of_root};
ghost use Rattle.vx_fn.specs.Views.{function_of};
ghost use Rattle.vx_value.specs.Types.{LogicalType, Name};
ghost use Rattle.vx_tree.specs.Trees.{node};
ghost use Rattle.vx_tree.specs.Views.{bound_of, bounds_of};
ghost use Rattle.vx_query_split.specs.Reading.{only_name};
ghost use Rattle.vx_query_split.specs.Reads.{IsReadAt, IsReadBelow, IsReadBy, name_list};

use std::alloc::AllocError;
use vx_tree::{BoundExpression, FieldName, ScalarFnRef};

// Which fields a tree reads.
#[derive(Clone, Copy)]
pub(crate) enum Reads<'a> {
    Nothing,
    One(&'a FieldName),
    Several,
}

// What a walk of a tree tells.
#[derive(Clone, Copy)]
pub(crate) struct Reading<'a> {
    pub(crate) reads: Reads<'a>,
    // Whether each scope root lies at or below a node that reads just one field.
    pub(crate) is_covered: bool,
}

impl<'a> Reads<'a> {
    // What the scope root of these fields reads.
    pub(crate) fn all(names: &'a [FieldName]) -> Reads<'a>
        ensures { IsReadBy result names.now }
    {
        let mut reads = Reads::Nothing;
        for name in names {
            reads = reads.and(Reads::One(name));
        }
        reads
    }

    // What both read together.
    fn and(self, other: Reads<'a>) -> Reads<'a>
        ensures { (xs ys : List Name) → IsReadBy self.entry xs → IsReadBy other.entry ys → IsReadBy result (xs ++ ys) }
    {
        match self {
            Reads::Nothing => other,
            Reads::One(name) => other.and_one(name),
            Reads::Several => Reads::Several,
        }
    }

    // The same of one field, and then others.
    fn and_one(self, name: &'a FieldName) -> Reads<'a>
        ensures { (xs ys : List Name) → only_name xs ≡ Some name.now → IsReadBy self.entry ys → IsReadBy result (xs ++ ys) }
    {
        match self {
            Reads::Nothing => Reads::One(name),
            Reads::One(own) => {
                if name == own {
                    return Reads::One(name);
                }
                Reads::Several
            }
            Reads::Several => Reads::Several,
        }
    }

    // The field, where it is just one.
    fn one(self) -> Option<&'a FieldName>
        ensures { (names : List Name) → IsReadBy self.entry names → option_copied result ≡ only_name names }
    {
        match self {
            Reads::One(name) => Some(name),
            Reads::Nothing | Reads::Several => None,
        }
    }
}

// Which fields the tree reads, where its scope root reads `scope`. Puts the field of each node that
// reads just one, and None for any other, behind those that there are: a node before its children,
// and below one that reads just one field no node.
#[cycle(read)]
pub(crate) fn read<'a>(
    scope: Reads<'a>,
    e: &'a BoundExpression,
    met: &mut Vec<Option<&'a FieldName>>,
) -> Result<Reading<'a>, AllocError>
    ensures { IfOk result (λ r. (names : List Name) → IsReadBy scope.entry names →
        IsReadAt names (bound_of e.now) r.reads r.is_covered (map option_copied met.old.items) (map option_copied met.new.items)) }
{
    match e {
        BoundExpression::Root { .. } => {
            let one = scope.one();
            met.push(one)?;
            Ok(Reading {
                reads: scope,
                is_covered: one.is_some(),
            })
        }
        BoundExpression::Scalar {
            scalar_fn,
            children,
            ..
        } => {
            let children = children.as_slice();
            let Some(name) = field_of_root(scalar_fn, children) else {
                return read_below(scope, children, met);
            };
            met.push(Some(name))?;
            Ok(Reading {
                reads: Reads::One(name),
                is_covered: true,
            })
        }
    }
}

// The same of a node that reads no field itself, by its children.
#[cycle(read)]
fn read_below<'a>(
    scope: Reads<'a>,
    children: &'a [BoundExpression],
    met: &mut Vec<Option<&'a FieldName>>,
) -> Result<Reading<'a>, AllocError>
    ensures { IfOk result (λ r. (names : List Name) → IsReadBy scope.entry names →
        IsReadBelow names (bounds_of children.now) r.reads r.is_covered (map option_copied met.old.items) (map option_copied met.new.items)) }
{
    let here = met.len();
    met.push(None)?;
    let mut reads = Reads::Nothing;
    let mut is_covered = true;
    for child in children {
        let next = read(scope, child, met)?;
        reads = reads.and(next.reads);
        is_covered = is_covered & next.is_covered;
    }
    if let Reads::One(name) = reads {
        met.truncate(here);
        met.push(Some(name))?;
        return Ok(Reading {
            reads,
            is_covered: true,
        });
    }
    Ok(Reading { reads, is_covered })
}

// The field that a node of that function takes of the scope root, if it does.
fn field_of_root<'a>(
    scalar_fn: &'a ScalarFnRef,
    children: &[BoundExpression],
) -> Option<&'a FieldName>
    ensures { (t : LogicalType) (names : List Name) → free_fields (node t (function_of scalar_fn.now) (bounds_of children.now)) names ≡ name_list (option_copied result) }
{
    match scalar_fn {
        ScalarFnRef::GetItem(name) => {
            if is_root_alone(children) {
                return Some(name);
            }
            None
        }
        _ => None,
    }
}

// Whether the scope root is the only one of them.
fn is_root_alone(children: &[BoundExpression]) -> bool
    ensures { (a : Name) → field_of_root a (bounds_of children.now) ≡ (if result then a ∷ [] else []) }
{
    match children {
        [] => false,
        [child] => match child {
            BoundExpression::Root { .. } => true,
            BoundExpression::Scalar { .. } => false,
        },
        [_, _, ..] => false,
    }
}
