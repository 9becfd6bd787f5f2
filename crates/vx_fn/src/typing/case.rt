// The type of a CASE, whose children are conditions and values in turn, and the ELSE value last.
ghost use Rattle.std.specs.Prelude.{◌≡◌, ℕ, map, Ok, option_map};
ghost use Rattle.std.specs.List.{list_all};
ghost use Rattle.vx_value.specs.Returns.{ReturnsOrOom};
ghost use Rattle.vx_value.specs.Joins.{union_all};
ghost use Rattle.vx_value.specs.Views.{type_of};
ghost use Rattle.vx_fn.specs.Functions.{case_when, is_truth, case_type, case_union, conditions, branches};
ghost use Rattle.vx_fn.specs.Memory.{RefusesEarly};

use super::rows::is_truth;
use crate::{CaseWhenOptions, Typed};
use std::alloc::Global;
use vx_dtype::{DType, Nullability, VortexError, VortexResult};

pub(super) fn case_dtype<T: Typed>(
    alloc: Global,
    options: CaseWhenOptions,
    children: &[T],
) -> VortexResult<DType>
    ensures typed { ReturnsOrOom type_of result (case_type options.num_when_then_pairs options.has_else (map T.dtype_of children.now)) }
    ensures early { RefusesEarly (case_when options.num_when_then_pairs options.has_else) type_of result (case_type options.num_when_then_pairs options.has_else (map T.dtype_of children.now)) }
{
    if options.num_when_then_pairs == 0 {
        return Err(VortexError::NoPairs);
    }
    if !are_truths(children) {
        return Err(VortexError::NotBool);
    }
    branches_dtype(alloc, options.has_else, children)
}

// Whether the conditions, every second of the children, are of a truth type.
fn are_truths<T: Typed>(children: &[T]) -> bool
    ensures { result ≡ list_all is_truth (conditions (map T.dtype_of children.now)) }
{
    match children {
        [condition, _, rest @ ..] => is_truth(condition.as_dtype()) && are_truths(rest),
        _ => true,
    }
}

// The union of the branches, nullable where there is no ELSE.
fn branches_dtype<T: Typed>(alloc: Global, has_else: bool, children: &[T]) -> VortexResult<DType>
    ensures typed { ReturnsOrOom type_of result (case_union has_else (branches (map T.dtype_of children.now))) }
    ensures early { RefusesEarly (case_when 0 has_else) type_of result (case_union has_else (branches (map T.dtype_of children.now))) }
{
    let joined = match children {
        [] => None,
        [value] => Some(value.as_dtype().clone()?),
        [_, value, rest @ ..] => joined_branches(alloc, value.as_dtype().clone()?, rest)?,
    };
    match joined {
        Some(t) => Ok(if has_else {
            t
        } else {
            t.with_nullability(Nullability::Nullable)
        }),
        None => Err(VortexError::BaseTypesDiffer),
    }
}

// The union of a type and the branches of what is left of the children.
fn joined_branches<T: Typed>(alloc: Global, t: DType, children: &[T]) -> VortexResult<Option<DType>>
    ensures { ReturnsOrOom (option_map type_of) result (Ok (union_all (type_of t) (branches (map T.dtype_of children.now)))) }
{
    match children {
        [] => Ok(Some(t)),
        [value] => t.union(alloc, value.as_dtype()),
        [_, value, rest @ ..] => match t.union(alloc, value.as_dtype())? {
            Some(joined) => joined_branches(alloc, joined, rest),
            None => Ok(None),
        },
    }
}
