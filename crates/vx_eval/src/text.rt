// Texts against patterns.
ghost use Rattle.std.specs.Prelude.{◌≡◌, length, option_map, List, [], ◌∷◌, Ok};
ghost use Rattle.std.proofs.Math.ListN.{replicate};
ghost use Rattle.vx_dtype.specs.Returns.{ReturnsOrOom};
ghost use Rattle.vx_value.specs.Types.{LogicalType};
ghost use Rattle.vx_value.specs.Views.{value_of};
ghost use Rattle.vx_fn.specs.Functions as functions;
ghost use Rattle.vx_fn.specs.Values as values;
ghost use Rattle.vx_eval.specs.Columns.{rows_view, truth_datum, Evaluates};
ghost use Rattle.vx_eval.specs.Kernels.{text_of, accepted};

use crate::constants::Constants;
use crate::rows::Rows;
use crate::truths::told;
use std::alloc::Global;
use vx_dtype::VortexResult;
use vx_eval_like::{Pattern, is_like};
use vx_fn::LikeOptions;
use vx_value::Value;

/// Whether each text is like the pattern beside it. One pattern for all rows is read once.
/// Refuses with `OutOfMemory` (1) alone.
pub fn like<'a>(
    alloc: Global,
    count: usize,
    options: &LikeOptions,
    child: &Rows,
    pattern: &Rows,
) -> VortexResult<Rows<'a>>
    requires child { length (rows_view child.now) ≡ count }
    requires pattern { length (rows_view pattern.now) ≡ count }
    ensures { (ts : List LogicalType) → Evaluates (functions.like options.now.negated options.now.case_insensitive) ts count (rows_view child.now ∷ rows_view pattern.now ∷ []) result }
{
    if let Rows::Same(value, _) = pattern {
        return like_one(alloc, count, options, child, *value);
    }
    let mut answers = Vec::with_capacity(alloc, count)?;
    for i in 0..count {
        answers.push(liked(alloc, options, child.row(i), pattern.row(i))?)?;
    }
    Ok(Rows::Truths(answers, Constants::new()))
}

// The same with one pattern for all rows.
fn like_one<'a>(
    alloc: Global,
    count: usize,
    options: &LikeOptions,
    child: &Rows,
    pattern: &Value,
) -> VortexResult<Rows<'a>>
    requires { length (rows_view child.now) ≡ count }
    ensures { (ts : List LogicalType) → Evaluates (functions.like options.now.negated options.now.case_insensitive) ts count (rows_view child.now ∷ replicate count (value_of pattern.now) ∷ []) result }
{
    match as_text(pattern) {
        Some(text) => {
            let read = Pattern::compile(alloc, text, options.case_insensitive)?;
            told(
                alloc,
                count,
                |i| accepted(options.negated, child.row(i), &read),
            )
        }
        None => told(alloc, count, |_| None),
    }
}

// The text that the value is, if it is one.
fn as_text<'v>(v: &'v Value) -> Option<&'v str>
    ensures { option_map (λ s. s.now) result ≡ text_of (value_of v.now) }
{
    match v {
        Value::Utf8(text) => Some(text.as_str()),
        _ => None,
    }
}

// Whether the pattern accepts the text, turned round where it is negated; null of null.
fn accepted(negated: bool, v: &Value, pattern: &Pattern) -> Option<bool>
    ensures { truth_datum result ≡ accepted negated pattern.now (value_of v.now) }
{
    match v {
        Value::Utf8(text) => Some(flipped(negated, pattern.matches(text.as_str()))),
        _ => None,
    }
}

// Whether the text is like the pattern, turned round where it is negated; null where one is.
fn liked(alloc: Global, options: &LikeOptions, v: &Value, w: &Value) -> VortexResult<Option<bool>>
    ensures { ReturnsOrOom truth_datum result (Ok (values.liked options.now.negated options.now.case_insensitive (value_of v.now) (value_of w.now))) }
{
    match v {
        Value::Utf8(text) => match w {
            Value::Utf8(pattern) => {
                let ignore_case = options.case_insensitive;
                let is_like = is_like(alloc, text.as_str(), pattern.as_str(), ignore_case)?;
                Ok(Some(flipped(options.negated, is_like)))
            }
            _ => Ok(None),
        },
        _ => Ok(None),
    }
}

// The answer, turned round where it is negated.
fn flipped(negated: bool, b: bool) -> bool
    ensures { result ≡ values.flipped negated b }
{
    if negated { !b } else { b }
}
