// The function of a node over its children's lanes.
ghost use Rattle.std.specs.Prelude.{◌≡◌, IfErr, IfOk, IfSome, IsOk, Ok};
ghost use Rattle.std.proofs.Math.ListN.{replicate};
ghost use Rattle.vx_dtype.specs.Returns.{ReturnsOrOom};
ghost use Rattle.vx_dtype.specs.declared.error.VortexError.TheVariants.{OutOfMemory};
ghost use Rattle.vx_fn.specs.Functions as functions;
ghost use Rattle.vx_fn.specs.Functions.{fn_type};
ghost use Rattle.vx_array.specs.Rows.{lanes_each, lanes_rows};
ghost use Rattle.vx_array_kernels.specs.Choices.{case_rows};
ghost use Rattle.vx_array_kernels.specs.Found.{Finds};
ghost use Rattle.vx_eval.specs.Columns.{node_answer, rows_of};
ghost use Rattle.vx_array_eval.specs.Nodes.{FindsAnswer, IsEven, IsTyped, IsWhole, answer_of, types_of};

use crate::by_rows::apply_by_rows;
use crate::few::{of_one, of_three, of_two};
use crate::node::Node;
use crate::structs::{get_item, pack, select};
use std::alloc::{AllocError, Global};
use std::sync::Arc;
use vx_array::Lanes;
use vx_array_kernels::{Pair, case_when, like};
use vx_dtype::{FieldName, VortexResult};
use vx_fn::{FieldSelection, LikeOptions, ScalarFnRef};
use vx_value::Scalar;

/// The function over its children's lanes, or its fault over their rows.
#[inline(never)]
pub fn apply(alloc: Global, node: Node) -> VortexResult<Lanes>
    requires typed { IsTyped node }
    requires number { IsWhole node }
    requires long { IsEven node }
    ensures { ReturnsOrOom lanes_rows result (answer_of node.entry) }
{
    match apply_fast(alloc, node)? {
        Some(out) => Ok(out),
        None => apply_by_rows(alloc, node),
    }
}

// The function over its children's lanes, where there is a fast way.
fn apply_fast(alloc: Global, node: Node) -> VortexResult<Option<Lanes>>
    requires typed { IsTyped node }
    requires long { IsEven node }
    ensures answer { FindsAnswer node.entry result }
    ensures memory { IfErr result (λ e. e ≡ OutOfMemory) }
{
    match node.function {
        ScalarFnRef::GetItem(name) => Ok(item_of(alloc, name, node)?),
        ScalarFnRef::Select(selection) => select_of(alloc, selection, node),
        ScalarFnRef::Like(options) => like_of(alloc, options, node),
        _ => Ok(apply_untyped(alloc, node)?),
    }
}

// The first field of that name of the one child's structs, where there is a fast way.
fn item_of(alloc: Global, name: &FieldName, node: Node) -> Result<Option<Lanes>, AllocError>
    requires typed { IsOk (fn_type (functions.get_item name.now) (types_of node)) }
    requires long { IsEven node }
    ensures { IfOk result (λ found. IfSome found (λ out. node_answer (functions.get_item name.now) (types_of node.entry) (rows_of node.entry.count (lanes_each node.entry.below.now)) ≡ Ok (lanes_rows out))) }
{
    match (node.children, node.below) {
        ([child], [input]) => get_item(alloc, node.count, name, child.dtype(), input),
        _ => Ok(None),
    }
}

// The included fields of the one child's structs, where there is a fast way.
fn select_of(alloc: Global, selection: &FieldSelection, node: Node) -> VortexResult<Option<Lanes>>
    requires typed { IsOk (fn_type (functions.select selection.now) (types_of node)) }
    requires long { IsEven node }
    ensures answer { IfOk result (λ found. IfSome found (λ out. node_answer (functions.select selection.now) (types_of node.entry) (rows_of node.entry.count (lanes_each node.entry.below.now)) ≡ Ok (lanes_rows out))) }
    ensures memory { IfErr result (λ e. e ≡ OutOfMemory) }
{
    match (node.children, node.below) {
        ([child], [input]) => select(alloc, node.count, selection, child.dtype(), input),
        _ => Ok(None),
    }
}

// Whether each text is like the pattern beside it, where there is a fast way.
fn like_of(alloc: Global, options: &LikeOptions, node: Node) -> VortexResult<Option<Lanes>>
    requires { IsEven node }
    ensures answer { IfOk result (λ found. IfSome found (λ out. node_answer (functions.like options.now.negated options.now.case_insensitive) (types_of node.entry) (rows_of node.entry.count (lanes_each node.entry.below.now)) ≡ Ok (lanes_rows out))) }
    ensures memory { IfErr result (λ e. e ≡ OutOfMemory) }
{
    match node.below {
        [lhs, rhs] => {
            let count = node.count;
            like(alloc, options, Pair { count, lhs, rhs })
        }
        _ => Ok(None),
    }
}

// The function over its children's lanes, where there is a fast way whatever their types.
fn apply_untyped(alloc: Global, node: Node) -> Result<Option<Lanes>, AllocError>
    requires { IsEven node }
    ensures { FindsAnswer node.entry result }
{
    match node.function {
        ScalarFnRef::Literal(scalar) => Ok(Some(literal(alloc, node.count, scalar)?)),
        ScalarFnRef::Pack(_) => Ok(Some(pack(alloc, node.count, node.below)?)),
        ScalarFnRef::CaseWhen(_) => case_of(alloc, node),
        _ => of_few(alloc, node),
    }
}

// The scalar's value in so many rows.
fn literal(alloc: Global, count: usize, scalar: &Scalar) -> Result<Lanes, AllocError>
    ensures { IfOk result (λ out. lanes_rows out ≡ replicate count scalar.now.value) }
{
    let value = scalar.value().clone()?;
    Ok(Lanes::Same(Arc::new(alloc, value)?, count))
}

// The value beside the first condition that is true, where there is a fast way. The first value's type tells
// of which kind they are.
fn case_of(alloc: Global, node: Node) -> Result<Option<Lanes>, AllocError>
    requires { IsEven node }
    ensures { Finds (case_rows node.entry.count (lanes_each node.entry.below.now)) result }
{
    match node.children.get(1) {
        Some(value) => case_when(alloc, node.count, value.dtype(), node.below),
        None => Ok(None),
    }
}

// The function over one child, two or three, where there is a fast way.
fn of_few(alloc: Global, node: Node) -> Result<Option<Lanes>, AllocError>
    requires { IsEven node }
    ensures { FindsAnswer node.entry result }
{
    match node.below {
        [input] => of_one(alloc, node, input),
        [lhs, rhs] => {
            let count = node.count;
            of_two(alloc, node, Pair { count, lhs, rhs })
        }
        [first, second, third] => of_three(alloc, node, (first, second, third)),
        _ => Ok(None),
    }
}
