// The number of a function's children, and the type of a node over their types.
ghost use Rattle.std.specs.Prelude.{◌≡◌, ◌≢◌, ℕ, map, length, IsTrue, IfOk, IsErrOf};
ghost use Rattle.vx_value.specs.Returns.{ReturnsOrOom, Returns};
ghost use Rattle.vx_value.specs.Views.{type_of};
ghost use Rattle.vx_dtype.specs.declared.error.VortexError.TheVariants.{ArityMismatch};
ghost use Rattle.vx_fn.specs.Functions.{fn_type, arity_of, HasFittingLiteral};
ghost use Rattle.vx_fn.specs.Memory.{RefusesEarly, is_typed_in_place};
ghost use Rattle.vx_fn.specs.Views.{function_of};

mod case;
mod fields;
mod rows;

use crate::{ScalarFnRef, Typed};
use case::case_dtype;
pub use fields::dtypes_of;
use fields::{item_dtype, pack_dtype, select_dtype};
pub(crate) use rows::is_atomic;
use rows::{
    between_dtype, binary_dtype, cast_dtype, contains_dtype, fill_dtype, length_dtype, like_dtype,
    literal_dtype, mask_dtype, not_dtype, truth_dtype, zip_dtype,
};
use std::alloc::Global;
use vx_dtype::{DType, VortexError, VortexResult};

impl ScalarFnRef {
    /// The number of children.
    pub fn arity(&self) -> usize
        ensures { result ≡ arity_of (function_of self.now) }
    {
        match self {
            ScalarFnRef::CaseWhen(options) => options.num_children(),
            ScalarFnRef::GetItem(_) => 1,
            ScalarFnRef::Literal(_) => 0,
            ScalarFnRef::Pack(options) => options.names.len(),
            ScalarFnRef::Select(_) => 1,
            ScalarFnRef::FillNull(_) => 2,
            ScalarFnRef::Zip(_) => 3,
            ScalarFnRef::Binary(_) => 2,
            ScalarFnRef::Not(_) => 1,
            ScalarFnRef::Between(_) => 3,
            ScalarFnRef::Like(_) => 2,
            ScalarFnRef::IsNull(_) => 1,
            ScalarFnRef::IsNotNull(_) => 1,
            ScalarFnRef::Mask(_) => 2,
            ScalarFnRef::Cast(_) => 1,
            ScalarFnRef::StartsWith(_) => 2,
            ScalarFnRef::ByteLength(_) => 1,
            ScalarFnRef::ListContains(_) => 2,
        }
    }

    /// The type of a node over its children's types, or its first refusal. First comes
    /// `ArityMismatch` (2), at another number of children, and then the function's own, in order:
    ///
    /// - `CaseWhen`: `NoPairs` (11) without a pair, `NotBool` (7) at a condition of another type,
    ///   `BaseTypesDiffer` (6) where the branches have no union.
    /// - `GetItem` and `Select`: `NotAStruct` (4), `NoSuchField` (5) with the first unknown name.
    /// - `FillNull` and `Cast`: `BaseTypesDiffer` (6).
    /// - `Zip`: `NotBool` (7) at another mask, `BaseTypesDiffer` (6) where the values have no union.
    /// - `Binary`, a comparison, and `Between`: `NotComparable` (8) at a list or a struct,
    ///   `BaseTypesDiffer` (6).
    /// - `Binary`, And or Or, and `Not`: `NotBool` (7).
    /// - `Binary`, arithmetic: `NotNumeric` (9) at a type of no numbers, or at decimals that are neither
    ///   added nor subtracted, `BaseTypesDiffer` (6).
    /// - `Like`, `StartsWith` and `ByteLength`: `NotText` (10).
    /// - `ListContains`: `NotComparable` (8) at a needle that is a list or a struct, `BaseTypesDiffer`
    ///   (6) where the other is no list of such values.
    /// - `Mask`: `NotBool` (7) at a mask of another type or a nullable one.
    ///
    /// `OutOfMemory` (1) comes only where something is copied: never for `Binary`, `Not`,
    /// `Between`, `Like`, `IsNull`, `IsNotNull`, `StartsWith`, `ByteLength` and `ListContains`, and in
    /// place of another refusal only where that is `NoSuchField`, or `BaseTypesDiffer` of `CaseWhen`.
    pub fn return_dtype(&self, alloc: Global, types: &[DType]) -> VortexResult<DType>
        ensures typed { ReturnsOrOom type_of result (fn_type (function_of self.now) (map type_of types.now)) }
        ensures literal { IfOk result (λ _. HasFittingLiteral (function_of self.now)) }
        ensures arity { length types.now ≢ arity_of (function_of self.now) → IsErrOf result (ArityMismatch (arity_of (function_of self.now)) (length types.now)) }
        ensures in_place { IsTrue (is_typed_in_place (function_of self.now)) → Returns type_of result (fn_type (function_of self.now) (map type_of types.now)) }
        ensures early { RefusesEarly (function_of self.now) type_of result (fn_type (function_of self.now) (map type_of types.now)) }
    {
        self.dtype_over(alloc, types)
    }

    /// The type of a node over these children, or its first refusal, as [`ScalarFnRef::return_dtype`]
    /// gives and refuses it over their types.
    pub fn dtype_over<T: Typed>(&self, alloc: Global, children: &[T]) -> VortexResult<DType>
        ensures typed { ReturnsOrOom type_of result (fn_type (function_of self.now) (map T.dtype_of children.now)) }
        ensures literal { IfOk result (λ _. HasFittingLiteral (function_of self.now)) }
        ensures arity { length children.now ≢ arity_of (function_of self.now) → IsErrOf result (ArityMismatch (arity_of (function_of self.now)) (length children.now)) }
        ensures in_place { IsTrue (is_typed_in_place (function_of self.now)) → Returns type_of result (fn_type (function_of self.now) (map T.dtype_of children.now)) }
        ensures early { RefusesEarly (function_of self.now) type_of result (fn_type (function_of self.now) (map T.dtype_of children.now)) }
    {
        let arity = self.arity();
        if children.len() != arity {
            return Err(VortexError::ArityMismatch {
                expected: arity,
                got: children.len(),
            });
        }
        match (self, children) {
            (ScalarFnRef::CaseWhen(options), _) => case_dtype(alloc, *options, children),
            (ScalarFnRef::GetItem(name), [input]) => item_dtype(name, input.as_dtype()),
            (ScalarFnRef::Literal(scalar), []) => literal_dtype(scalar),
            (ScalarFnRef::Pack(options), _) => pack_dtype(alloc, options, children),
            (ScalarFnRef::Select(selection), [child]) => {
                select_dtype(alloc, selection, child.as_dtype())
            },
            (ScalarFnRef::FillNull(_), [input, fill_value]) => {
                fill_dtype(input.as_dtype(), fill_value.as_dtype())
            },
            (ScalarFnRef::Zip(_), [if_true, if_false, mask]) => {
                zip_dtype(
                    alloc,
                    if_true.as_dtype(),
                    if_false.as_dtype(),
                    mask.as_dtype(),
                )
            }
            (ScalarFnRef::Binary(operator), [lhs, rhs]) => {
                binary_dtype(*operator, lhs.as_dtype(), rhs.as_dtype())
            },
            (ScalarFnRef::Not(_), [input]) => not_dtype(input.as_dtype()),
            (ScalarFnRef::Between(_), [array, lower, upper]) => {
                between_dtype(array.as_dtype(), lower.as_dtype(), upper.as_dtype())
            },
            (ScalarFnRef::Like(_), [child, pattern]) => {
                like_dtype(child.as_dtype(), pattern.as_dtype())
            },
            (ScalarFnRef::StartsWith(_), [input, prefix]) => {
                like_dtype(input.as_dtype(), prefix.as_dtype())
            },
            (ScalarFnRef::ByteLength(_), [input]) => length_dtype(input.as_dtype()),
            (ScalarFnRef::ListContains(_), [list, needle]) => {
                contains_dtype(list.as_dtype(), needle.as_dtype())
            },
            (ScalarFnRef::IsNull(_) | ScalarFnRef::IsNotNull(_), [_]) => Ok(truth_dtype(false)),
            (ScalarFnRef::Mask(_), [input, mask]) => mask_dtype(input.as_dtype(), mask.as_dtype()),
            (ScalarFnRef::Cast(target), [input]) => cast_dtype(target, input.as_dtype()),
            _ => unreachable!(),
        }
    }
}
