// Whole texts of expressions.
ghost use Rattle.std.specs.Prelude.{◌≡◌, ◌≤◌, Err, IfErr, IfOk, MatchOption, true};
ghost use Rattle.vx_source_types.specs.declared.error.ParseError.TheVariants.{OutOfMemory};
ghost use Rattle.vx_tree.specs.Trees.{Tree};
ghost use Rattle.vx_tree.specs.Views.{tree_of};
ghost use Rattle.vx_source_types.specs.Tokens.{end};
ghost use Rattle.vx_source_types.specs.Views.{lexeme_of};
ghost use Rattle.vx_source_types.specs.Reading.{IsRead, Gives, ReadsAt, whole_text};
ghost use Rattle.vx_source_types.specs.ScalarReading.{ParsesWithin};
ghost use Rattle.vx_source_grammar.specs.ExpressionReading.{expression_step, step_by};
ghost use Rattle.vx_source_grammar.specs.States.{expression_start, open_as};
ghost use Rattle.vx_source_operands.specs.OperandViews.{operand_of};
ghost use Rattle.vx_source_operands.specs.PlainViews.{reading_of};
ghost use Rattle.vx_source_writer.specs.SourceTexts.{source};
ghost use Rattle.vx_source_laws.specs.Nesting.{nesting};
ghost use Rattle.vx_source_laws.specs.SpelledTrees.{IsSpelledTree};
ghost use Rattle.vx_source_parser.specs.Placed.{AreReadings, HasPlaces, StopsOpen, tree_in};

use crate::step::step;
use std::alloc::Global;
use vx_source_operands::{ExpressionReader, ExpressionStep, Operand, Places, PlainValues};
use vx_source_types::{DEFAULT_NESTING, Expected, Found, ParseError, Token, first_token, refusal};
use vx_tree::Expression;

/// An expression, and the bytes that its nodes were read from.
#[derive(Drop)]
pub struct Placed {
    /// The expression.
    pub expression: Expression,
    /// The bytes of its first node, and those of the nodes below.
    pub places: Places,
}

/// The expression that the text says, nested at most 200 deep. Refuses with the byte where reading stopped, or with one
/// before it, where a word, a value or an option begins that doesn't fit, and what would have stood right there, and with
/// `OutOfMemory`. Time is linear in the text.
pub fn parse(alloc: Global, text: &str) -> Result<Expression, ParseError>
    ensures parses { ParsesWithin expression_step (expression_start 200) text.now (λ e. tree_of e) result }
    ensures complete { (e : Tree) → IsRead expression_step (expression_start 200) text.now e → Gives tree_of result e }
    ensures again { (e : Tree) → IsSpelledTree e → nesting e ≤ 200 → text.now ≡ source e → Gives tree_of result e }
{
    parse_with(alloc, text, DEFAULT_NESTING)
}

/// The same, nested at most as deep as said: so many brackets may be open, and so deep may the tree be below its
/// first node, both together.
pub fn parse_with(alloc: Global, text: &str, limit: usize) -> Result<Expression, ParseError>
    ensures parses { ParsesWithin expression_step (expression_start limit) text.now (λ e. tree_of e) result }
    ensures complete { (e : Tree) → IsRead expression_step (expression_start limit) text.now e → Gives tree_of result e }
    ensures again { (e : Tree) → IsSpelledTree e → nesting e ≤ limit → text.now ≡ source e → Gives tree_of result e }
{
    let Operand { tree, .. } = read(alloc, PlainValues::Alone, text, limit)?;
    Ok(Box::into_inner(tree))
}

/// The same, and beside it the bytes that each node was read from.
pub fn parse_with_places(alloc: Global, text: &str, limit: usize) -> Result<Placed, ParseError>
    ensures parses { ParsesWithin expression_step (expression_start limit) text.now tree_in result }
    ensures complete { (e : Tree) → IsRead expression_step (expression_start limit) text.now e → Gives tree_in result e }
    ensures again { (e : Tree) → IsSpelledTree e → nesting e ≤ limit → text.now ≡ source e → Gives tree_in result e }
    ensures places { IfOk result HasPlaces }
{
    let Operand { tree, places, .. } = read(alloc, PlainValues::Alone, text, limit)?;
    Ok(Placed {
        expression: Box::into_inner(tree),
        places,
    })
}

/// Two readings of a text: they differ in the types of the literals that have none there, and in nothing else.
#[derive(Drop)]
pub struct Readings {
    /// One, and the bytes that its nodes were read from.
    pub first: Placed,
    /// The other.
    pub second: Expression,
}

/// What the text says where values without a type may take one from what they stand beside, as two readings of it. They are
/// nested at most as deep as said. Refuses as [`parse_with`] does, but for numbers out of the range of `i32` or `f64` and
/// nulls without a type, which are read.
pub fn parse_open(alloc: Global, text: &str, limit: usize) -> Result<Readings, ParseError>
    ensures reads { IfOk result (λ both. AreReadings limit text.now (tree_of both.first.expression) (tree_of both.second)) }
    ensures places { IfOk result (λ both. HasPlaces both.first) }
    ensures complete { (e d : Tree) → AreReadings limit text.now e d → IfErr result (λ x. x ≡ OutOfMemory) }
    ensures stops { IfErr result (StopsOpen limit text.now) }
{
    let Operand { tree, places, .. } = read(alloc, PlainValues::Open(false), text, limit)?;
    let first = Placed {
        expression: Box::into_inner(tree),
        places,
    };
    with_second(alloc, first, text, limit)
}

// The first reading and the second one.
fn with_second(
    alloc: Global,
    first: Placed,
    text: &str,
    limit: usize,
) -> Result<Readings, ParseError>
    ensures first { IfOk result (λ both. both.first ≡ first) }
    ensures second { IfOk result (λ both. IsRead (step_by (open_as true)) (expression_start limit) text.now (tree_of both.second)) }
    ensures complete { (d : Tree) → IsRead (step_by (open_as true)) (expression_start limit) text.now d → IfErr result (λ x. x ≡ OutOfMemory) }
    ensures stops { IfErr result (StopsOpen limit text.now) }
{
    let Operand { tree, .. } = read(alloc, PlainValues::Open(true), text, limit)?;
    let second = Box::into_inner(tree);
    Ok(Readings { first, second })
}

// Reads the text token by token, values without a type as said.
fn read(alloc: Global, plain: PlainValues, text: &str, limit: usize) -> Result<Operand, ParseError>
    ensures { ParsesWithin (step_by (reading_of plain)) (expression_start limit) text.now operand_of result }
{
    let mut reader = ExpressionReader::new(alloc, limit);
    let mut from = 0;
    loop {
        let found = first_token(alloc, text, from)?;
        from = found.end;
        let surplus = surplus(&found);
        match step(alloc, plain, reader, found) {
            Ok(ExpressionStep::More(next)) => reader = next,
            Ok(ExpressionStep::Done(operand)) => match surplus {
                None => return Ok(operand),
                Some(error) => return Err(error),
            },
            Err(error) => return Err(error),
        }
    }
}

// Why the token may not stand behind the whole expression; None at the end of the text.
fn surplus(found: &Found) -> Option<ParseError>
    ensures { MatchOption result (lexeme_of found.now.token ≡ end) (λ e. (a : Tree) → ReadsAt found.now.at operand_of (Err e) (whole_text a (lexeme_of found.now.token))) }
{
    match &found.token {
        Token::End => None,
        _ => Some(refusal(found, Expected::End)),
    }
}
