// Functions by their names and the options between square brackets.
ghost use Rattle.std.specs.Prelude.{◌≡◌, None, option_map};
ghost use Rattle.vx_fn.specs.Views.{function_of};
ghost use Rattle.vx_source_types.specs.Reading.{Gives};
ghost use Rattle.vx_source_grammar.specs.Keywords.{beside};
ghost use Rattle.vx_source_grammar.specs.OptionReading.{function_read, option_read, option_readers};
ghost use Rattle.vx_source_operands.specs.Places.{ReadsUpTo};
ghost use Rattle.vx_source_operands.specs.OperandViews.{lexemes_of};
ghost use Rattle.vx_source_operands.specs.Parts.{read_by, sign_readers};

use crate::context::Context;
use crate::functions::plain_function;
use crate::misfits::misfit;
use crate::names::{item, pack, select};
use crate::operators::{between, case_when, like, operator};
use crate::refusals::refusal_in;
use crate::scalars::scalar;
use crate::types::dtype;
use std::alloc::Global;
use vx_dtype::FieldName;
use vx_fn::ScalarFnRef;
use vx_source_types::{Expected, Found, ParseError, is_word};

/// The function of that name with the options, where the bracket behind the last was found, and with as many brackets allowed
/// inside one another in them as there is room. Refuses at the token that doesn't fit, or at the bracket, with what would have
/// stood right.
pub fn function_of(
    context: Context,
    name: &FieldName,
    options: &[Found],
) -> Result<ScalarFnRef, ParseError>
    ensures reads { ReadsUpTo context.entry.found.now.at function_of result (function_read name.now (lexemes_of options.now) context.entry.room) }
{
    match plain_function(name) {
        Some(scalar_fn) => match options {
            [] => Ok(scalar_fn),
            [first, ..] => Err(refusal_in(first, context.found, Expected::CloseBracket)),
        },
        None => with_options(context, name, options),
    }
}

// The same, where no function without options has the name.
fn with_options(
    context: Context,
    name: &FieldName,
    options: &[Found],
) -> Result<ScalarFnRef, ParseError>
    ensures reads { ReadsUpTo context.entry.found.now.at function_of result (option_read name.now (lexemes_of options.now) context.entry.room None) }
{
    if is_word(name, "literal") {
        return Ok(ScalarFnRef::Literal(scalar(context, options)?));
    }
    if is_word(name, "cast") {
        return Ok(ScalarFnRef::Cast(dtype(context, options)?));
    }
    match other(context.alloc, name, options)? {
        Some(scalar_fn) => Ok(scalar_fn),
        None => Err(misfit(name, options, context.found)),
    }
}

// The same, where the options are neither a scalar nor a type.
fn other(
    alloc: Global,
    name: &FieldName,
    options: &[Found],
) -> Result<Option<ScalarFnRef>, ParseError>
    ensures { Gives (option_map function_of) result (read_by (lexemes_of options.now) (beside option_readers name.now)) }
{
    if is_word(name, "get_item") {
        match item(options) {
            Some(item) => Ok(Some(ScalarFnRef::GetItem(item.clone()?))),
            None => Ok(None),
        }
    } else if is_word(name, "pack") {
        match pack(alloc, options)? {
            Some(options) => Ok(Some(ScalarFnRef::Pack(options))),
            None => Ok(None),
        }
    } else if is_word(name, "select") {
        match select(alloc, options)? {
            Some(selection) => Ok(Some(ScalarFnRef::Select(selection))),
            None => Ok(None),
        }
    } else {
        Ok(of_signs(name, options))
    }
}

// The same, where the options are signs, keywords and numbers.
fn of_signs(name: &FieldName, options: &[Found]) -> Option<ScalarFnRef>
    ensures { option_map function_of result ≡ read_by (lexemes_of options.now) (beside sign_readers name.now) }
{
    if is_word(name, "binary") {
        Some(ScalarFnRef::Binary(operator(options)?))
    } else if is_word(name, "like") {
        Some(ScalarFnRef::Like(like(options)?))
    } else if is_word(name, "between") {
        Some(ScalarFnRef::Between(between(options)?))
    } else if is_word(name, "case_when") {
        Some(ScalarFnRef::CaseWhen(case_when(options)?))
    } else {
        None
    }
}
