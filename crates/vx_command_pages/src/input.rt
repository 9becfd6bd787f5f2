// The texts that a command is given, read.
ghost use Rattle.std.specs.Prelude.{◌≡◌, ℕ, List, Err, IfOk, IfErr, Ok};
ghost use Rattle.vx_value.specs.Types.{LogicalType};
ghost use Rattle.vx_value.specs.Views.{type_of};
ghost use Rattle.vx_tree.specs.Views.{tree_of, bound_of};
ghost use Rattle.vx_tree.specs.Trees.{Over, WellTyped, node_type, typed, unbound};
ghost use Rattle.vx_source_over.specs.Reading.{IsReadOpen, IsWritten, RefusesOver};
ghost use Rattle.vx_places.specs.Refusals.{IsFirstRefusal};
ghost use Rattle.vx_command_pages.specs.Spans.{IsRefusalAt};
ghost use Rattle.vx_command_pages.specs.Inputs.{Reads, ReadsAs, ReadsType, IsUnread, IsUnreadOver, IsUnreadSchema, IsUnreadQuery, IsRefusal, IsRefusedOver, IsRefusedWith};

use crate::beside::field_beside;
use crate::error::{CommandError, UnfitLiteral};
use crate::refused::RefusedNode;
use crate::remedy::Remedy;
use crate::report::Span;
use crate::spans::{places_at, span_at};
use std::alloc::Global;
use vx_places::{Place, first_refusal_at, node_at};
use vx_source::{
    DEFAULT_NESTING, OverError, ParseError, Placed, Written, over, parse_type, parse_with_places,
    read_open,
};
use vx_tree::{BoundExpression, DType, Expression, VortexError};

/// The expression that the text alone says, with the bytes that its nodes were read from. Fails at the
/// place where reading stops, and for want of memory.
pub fn read_expression(alloc: Global, text: &str) -> Result<Box<Placed>, CommandError>
    ensures read { IfOk result (λ placed. Reads text.now (tree_of placed.value.expression)) }
    ensures error { IfErr result (λ c. IsUnread text.now c) }
{
    match parse_with_places(alloc, text, DEFAULT_NESTING) {
        Ok(placed) => Ok(Box::new(alloc, placed)?),
        Err(ParseError::OutOfMemory) => Err(CommandError::OutOfMemory),
        Err(ParseError::Unexpected { at, expected }) => {
            Err(CommandError::UnreadExpression { at, expected })
        }
    }
}

/// What the text says before the type of the rows is known. Fails at the place where reading stops, and for want of memory.
pub fn read_written(alloc: Global, text: &str) -> Result<Box<Written<'_>>, CommandError>
    ensures written { IfOk result (λ written. IsWritten 200 text.now written.value) }
    ensures read { IfOk result (λ _. IsReadOpen 200 text.now) }
    ensures error { IfErr result (λ c. IsUnreadOver text.now c) }
{
    match read_open(alloc, text, DEFAULT_NESTING) {
        Ok(written) => Ok(Box::new(alloc, written)?),
        Err(ParseError::OutOfMemory) => Err(CommandError::OutOfMemory),
        Err(ParseError::Unexpected { at, expected }) => {
            Err(CommandError::UnreadExpression { at, expected })
        }
    }
}

/// The expression that was read of that text, over rows of that type. Fails at a literal that is none of the type that it takes
/// from what it stands beside, or that has none, and for want of memory.
pub fn read_over(
    alloc: Global,
    text: &str,
    written: Box<Written<'_>>,
    scope: &DType,
) -> Result<Box<Placed>, CommandError>
    ensures read { (text : List ℕ) → IsWritten 200 text written.entry.value → IfOk result (λ placed. ReadsAs text (type_of scope.now) (tree_of placed.value.expression)) }
    ensures error { (text : List ℕ) → IsWritten 200 text written.entry.value → IfErr result (λ c. IsRefusedOver text (type_of scope.now) c) }
{
    match over(alloc, Box::into_inner(written), scope) {
        Ok(placed) => Ok(Box::new(alloc, placed)?),
        Err(error) => Err(unsettled(alloc, text, scope, error)),
    }
}

// The error of a text that is refused so, over rows of that type.
fn unsettled(alloc: Global, text: &str, scope: &DType, error: OverError) -> CommandError
    ensures { (read : List ℕ) (s : LogicalType) → RefusesOver 200 read s error → IsRefusedOver read s result }
{
    match error {
        OverError::OutOfMemory => CommandError::OutOfMemory,
        OverError::Unexpected { at, expected } => CommandError::UnreadExpression { at, expected },
        OverError::Misfit {
            start,
            end,
            scalar,
            dtype,
        } => {
            let span = Span { start, end };
            let beside = field_beside(alloc, text, span, &dtype, scope);
            let literal = UnfitLiteral {
                span,
                scalar,
                dtype,
                beside,
            };
            match Box::new(alloc, literal) {
                Ok(literal) => CommandError::Unfit(literal),
                Err(_) => CommandError::OutOfMemory,
            }
        }
    }
}

/// The type that the schema says. Fails at the place where reading stops, and for want of memory.
pub fn read_schema(alloc: Global, schema: &str) -> Result<Box<DType>, CommandError>
    ensures read { IfOk result (λ scope. ReadsType schema.now (type_of scope.value)) }
    ensures error { IfErr result (λ c. IsUnreadSchema schema.now c) }
{
    match parse_type(alloc, schema) {
        Ok(scope) => Ok(Box::new(alloc, scope)?),
        Err(ParseError::OutOfMemory) => Err(CommandError::OutOfMemory),
        Err(ParseError::Unexpected { at, expected }) => {
            Err(CommandError::UnreadSchema { at, expected })
        }
    }
}

/// The expression and the type that a command is given, read.
#[derive(Drop)]
pub struct ReadQuery {
    /// The expression, with the bytes that its nodes were read from.
    pub placed: Box<Placed>,
    /// The type of the rows that it is over.
    pub scope: Box<DType>,
}

/// What the two texts say: literals without a type take that of what they stand beside. Fails at the place where reading
/// stops, of the expression first; then at a literal that has no type or is none of it; and for want of memory.
pub fn read_query(alloc: Global, expression: &str, schema: &str) -> Result<ReadQuery, CommandError>
    ensures read { IfOk result (λ query. ReadsAs expression.now (type_of query.scope.value) (tree_of query.placed.value.expression)) }
    ensures scope { IfOk result (λ query. ReadsType schema.now (type_of query.scope.value)) }
    ensures error { IfErr result (λ c. IsUnreadQuery expression.now schema.now c) }
{
    let written = read_written(alloc, expression)?;
    let scope = read_schema(alloc, schema)?;
    let placed = read_over(alloc, expression, written, &scope)?;
    Ok(ReadQuery { placed, scope })
}

/// The expression bound to the scope's type. Fails at its first refusal, with the bytes that the
/// refused node was read from, and for want of memory.
pub fn bind(
    alloc: Global,
    placed: &Placed,
    scope: &DType,
) -> Result<Box<BoundExpression>, CommandError>
    ensures typed { IfOk result (λ b. typed (tree_of placed.now.expression) (type_of scope.now) ≡ Ok (node_type (bound_of b.value))) }
    ensures well_typed { IfOk result (λ b. WellTyped (bound_of b.value)) }
    ensures over { IfOk result (λ b. Over (bound_of b.value) (type_of scope.now) × (unbound (bound_of b.value) ≡ tree_of placed.now.expression)) }
    ensures error { IfErr result (λ c. IsRefusal (tree_of placed.now.expression) (type_of scope.now) c) }
    ensures place { IfErr result (λ c. IsRefusalAt placed.now (type_of scope.now) c) }
{
    match placed.expression.bind(alloc, scope) {
        Ok(bound) => Ok(Box::new(alloc, bound)?),
        Err(refusal) => Err(refused(alloc, placed, scope, refusal)),
    }
}

/// The error of that refusal, with the bytes that the first refused node was read from; that memory ran
/// out, where it does while the node is looked for. Asks the first refusal of binding, or want of memory.
pub fn refused(alloc: Global, placed: &Placed, scope: &DType, refusal: VortexError) -> CommandError
    requires { IsRefusedWith (tree_of placed.now.expression) (type_of scope.now) refusal }
    ensures refusal { IsRefusal (tree_of placed.now.expression) (type_of scope.now) result }
    ensures place { IsRefusalAt placed.now (type_of scope.now) result }
{
    if let VortexError::OutOfMemory = refusal {
        return CommandError::OutOfMemory;
    }
    match first_refusal_at(alloc, &placed.expression, scope) {
        Ok(Some(place)) => refused_at(alloc, placed, scope, place),
        _ => CommandError::OutOfMemory,
    }
}

// The error of the refusal at that place.
fn refused_at(alloc: Global, placed: &Placed, scope: &DType, place: Place) -> CommandError
    requires typed { typed (tree_of placed.now.expression) (type_of scope.now) ≡ Err place.refusal }
    requires first { IsFirstRefusal (type_of scope.now) (tree_of placed.now.expression) place.path.items place.refusal }
    ensures refusal { IsRefusal (tree_of placed.now.expression) (type_of scope.now) result }
    ensures place { IsRefusalAt placed.now (type_of scope.now) result }
{
    let Place { path, refusal, .. } = place;
    let path = path.as_slice();
    CommandError::Refused {
        span: span_at(&placed.places, path),
        remedy: remedy_at(alloc, placed, scope, path, &refusal),
        refusal,
    }
}

// What would do in place of the node at the path, which is refused so.
fn remedy_at(
    alloc: Global,
    placed: &Placed,
    scope: &DType,
    path: &[usize],
    refusal: &VortexError,
) -> Option<Remedy> {
    let Some(
        Expression::Scalar {
            scalar_fn,
            children,
        },
    ) = node_at(&placed.expression, path)
    else {
        return None;
    };
    let places = match places_at(&placed.places, path) {
        Some(places) => places.children.as_slice(),
        None => &[],
    };
    let node = RefusedNode {
        scalar_fn,
        children: children.as_slice(),
        places,
        scope,
        refusal,
    };
    node.remedy(alloc).unwrap_or(None)
}
