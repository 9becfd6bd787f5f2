// A token of an expression.
ghost use Rattle.vx_source_types.specs.Views.{lexeme_of};
ghost use Rattle.vx_source_grammar.specs.ExpressionReading.{step_by};
ghost use Rattle.vx_source_operands.specs.Places.{ReadsUpTo};
ghost use Rattle.vx_source_operands.specs.PlainViews.{reading_of};
ghost use Rattle.vx_source_operands.specs.OperandViews.{reader_of, step_of};

use crate::after::{after_is, after_is_not, after_loose, after_not, after_tight};
use crate::begin::{begin, begin_minus, begin_plus};
use crate::calls::{first_child, first_packed, pack_end, packed, packed_value};
use crate::members::members;
use crate::postfix::{dot, exclusion, selection, selection_name, selection_next};
use crate::values::{read_type, value};
use crate::words::{after_id, after_vortex, after_word, case, children, options_next};
use std::alloc::Global;
use vx_source_operands::{Context, ExpressionReader, ExpressionStep, Mode, PlainValues};
use vx_source_types::{Found, ParseError};

// What the token makes of the expression, where values that no type follows are read so.
pub(crate) fn step(
    alloc: Global,
    plain: PlainValues,
    reader: ExpressionReader,
    token: Found,
) -> Result<ExpressionStep, ParseError>
    ensures reads { ReadsUpTo token.at step_of result (step_by (reading_of plain) (reader_of reader) (lexeme_of token.token)) }
{
    let ExpressionReader { frames, mode, room } = reader;
    let context = Context {
        alloc,
        room,
        found: &token,
    };
    match mode {
        Mode::Operand => begin(context, frames),
        Mode::FirstChild => first_child(context, frames),
        Mode::Tight(e) => after_tight(context, frames, e),
        Mode::Loose(e) => after_loose(context, frames, e),
        Mode::Word(word, start, end) => after_word(context, frames, word, (start, end)),
        Mode::Vortex(word, start, end) => after_vortex(context, frames, word, (start, end)),
        Mode::Id(word, name, start, end) => {
            after_id(context, frames, (word, name), (start, end))
        }
        Mode::Options(options) => options_next(alloc, frames, room, options, token),
        Mode::Children(function, start) => children(context, frames, function, start),
        Mode::Dot(e) => dot(context, frames, e),
        Mode::Selection(e) => selection(context, frames, e),
        Mode::Exclusion(e) => exclusion(context, frames, e),
        Mode::SelectionName(names) => selection_name(context, frames, names),
        Mode::SelectionNext(names) => selection_next(context, frames, names),
        Mode::FirstPacked(start) => first_packed(context, frames, start),
        Mode::Packed => packed(context, frames),
        Mode::PackedValue => packed_value(context, frames),
        Mode::PackEnd(names, items, start, end) => {
            pack_end(context, frames, names, items, (start, end))
        }
        Mode::NotLike(e) => after_not(context, frames, e),
        Mode::Is(e) => after_is(context, frames, e),
        Mode::IsNot(e) => after_is_not(context, frames, e),
        Mode::In(e) => members(context, plain, frames, e),
        Mode::Case => case(context, frames),
        Mode::Plus(start) => begin_plus(context, frames, start),
        Mode::Minus(start) => begin_minus(context, plain, frames, start),
        Mode::Value(reader, start, end) => value(context, plain, frames, reader, (start, end)),
        Mode::Type(wanted, reader, end) => read_type(context, frames, wanted, reader, end),
    }
}
