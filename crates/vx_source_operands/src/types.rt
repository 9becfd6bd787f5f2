// The type that options say.
ghost use Rattle.vx_value.specs.Views.{type_of};
ghost use Rattle.vx_source_types.specs.TypeReading.{type_start, type_step};
ghost use Rattle.vx_source_types.specs.TypeViews.{reader_of};
ghost use Rattle.vx_source_grammar.specs.OptionReading.{read_all};
ghost use Rattle.vx_source_operands.specs.Places.{ReadsUpTo};
ghost use Rattle.vx_source_operands.specs.OperandViews.{lexeme_in, lexemes_of};
ghost use Rattle.vx_source_operands.specs.Parts.{all_read, goes_on};

use crate::context::Context;
use crate::refusals::{bracket, no_later, refusal_in};
use std::alloc::Global;
use vx_dtype::DType;
use vx_source_types::{Expected, Found, ParseError, TypeReader, TypeStep, expected};

// The type that the tokens say, where the bracket behind the last was found.
pub(crate) fn dtype(context: Context, tokens: &[Found]) -> Result<DType, ParseError>
    ensures reads { ReadsUpTo context.entry.found.now.at type_of result (read_all type_step (type_start context.entry.room) (lexemes_of tokens.now)) }
{
    let Context {
        alloc,
        room,
        found: end,
    } = context;
    let mut reader = TypeReader::new(alloc, room);
    for found in tokens {
        reader = more_of_type(alloc, reader, found, end)?;
    }
    end_type(alloc, reader, end)
}

// What a token makes of the type.
fn more_of_type(
    alloc: Global,
    reader: TypeReader,
    found: &Found,
    end: &Found,
) -> Result<TypeReader, ParseError>
    ensures reads { ReadsUpTo end.now.at reader_of result (goes_on (lexeme_in found.now) (type_step (reader_of reader) (lexeme_in found.now))) }
{
    match reader.step(alloc, found) {
        Ok(TypeStep::More(next)) => Ok(next),
        Ok(TypeStep::Done(_)) => Err(refusal_in(found, end, Expected::CloseBracket)),
        Err(error) => Err(no_later(error, end)),
    }
}

// What the bracket makes of the type.
fn end_type(alloc: Global, reader: TypeReader, end: &Found) -> Result<DType, ParseError>
    ensures reads { ReadsUpTo end.now.at type_of result (all_read type_step (reader_of reader)) }
{
    match reader.step(alloc, &bracket(end)) {
        Ok(TypeStep::Done(dtype)) => Ok(dtype),
        Ok(TypeStep::More(_)) => Err(expected(end, Expected::CloseBracket)),
        Err(error) => Err(no_later(error, end)),
    }
}
