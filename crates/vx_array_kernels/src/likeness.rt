// LIKE over texts in a buffer.
ghost use Rattle.std.specs.Prelude.{◌≡◌, ◌<◌, ◌≤◌, Bool, IfErr, IfOk, IfSome, false, get_or, is_some, length, map, not, option_map, unwrap_or};
ghost use Rattle.vx_dtype.specs.declared.error.VortexError.TheVariants.{OutOfMemory};
ghost use Rattle.vx_value.specs.Types.{bool, is_null_datum, null, utf8};
ghost use Rattle.vx_fn.specs.Values.{flipped, liked};
ghost use Rattle.vx_eval_like.specs.Patterns.{Compiled, compiled};
ghost use Rattle.vx_array.specs.Kinds.{spans_in, text_row};
ghost use Rattle.vx_array.specs.Rows.{lanes_rows};
ghost use Rattle.vx_array_kernels.specs.Found.{Finds, IsLong, pair_rows};
ghost use Rattle.vx_array_kernels.specs.Likeness.{accepted, text_datum, text_rows, truth_datum, Suits};
ghost use Rattle.vx_array_kernels.specs.Truths.{AreValues};

use crate::pair::Pair;
use crate::reach::Steps;
use std::alloc::{AllocError, Global};
use vx_array::{BitPart, Lanes, Spans, Validity};
use vx_array_loops::{Bits, tabulated};
use vx_dtype::VortexResult;
use vx_eval_like::Pattern;
use vx_fn::LikeOptions;
use vx_value::Value;

/// So many texts in a buffer, where they are valid.
#[derive(Clone, Copy)]
pub struct Texts<'a> {
    /// How many.
    pub count: usize,
    /// Their bytes.
    pub spans: &'a Spans,
    /// Which are valid.
    pub validity: &'a Validity,
}

// The offsets that cut texts out of bytes, and the steps of a pattern along these.
#[derive(Drop)]
struct Quick<'a> {
    offsets: &'a [usize],
    steps: Steps,
}

/// Whether each text of the first column is like the pattern beside it. There is an answer where the texts
/// are in a buffer and the pattern is one value in all rows, which is read once. Refuses with `OutOfMemory`
/// (1) alone.
pub fn like(alloc: Global, options: &LikeOptions, pair: Pair) -> VortexResult<Option<Lanes>>
    requires { IsLong pair }
    ensures answer { Finds (pair_rows (liked options.now.negated options.now.case_insensitive) pair.entry) result }
    ensures memory { IfErr result (λ e. e ≡ OutOfMemory) }
{
    match (pair.lhs, pair.rhs) {
        (Lanes::Texts(spans, validity), Lanes::Same(value, _)) => match value.as_ref() {
            Value::Utf8(pattern) => {
                let count = pair.count;
                let texts = Texts {
                    count,
                    spans,
                    validity,
                };
                Ok(Some(like_one(alloc, options, pattern.as_str(), texts)?))
            }
            _ => Ok(None),
        },
        _ => Ok(None),
    }
}

// Whether each text is like the one pattern.
fn like_one(
    alloc: Global,
    options: &LikeOptions,
    pattern: &str,
    texts: Texts,
) -> VortexResult<Lanes>
    requires long { length (text_rows texts) ≡ texts.count }
    requires there { texts.count ≤ length (spans_in texts.spans.now) }
    ensures rows { IfOk result (λ out. lanes_rows out ≡ map (λ v. liked options.now.negated options.now.case_insensitive v (utf8 pattern.now)) (text_rows texts.entry)) }
    ensures memory { IfErr result (λ e. e ≡ OutOfMemory) }
{
    let quick = quick_of(alloc, options.case_insensitive, pattern, texts)?;
    let pattern = Pattern::compile(alloc, pattern, options.case_insensitive)?;
    Ok(matched(alloc, options.negated, &pattern, &quick, texts)?)
}

// The steps of the pattern along the texts' bytes, if it has few parts. A slice of a few texts out of a
// long buffer isn't worth the look at all its bytes.
fn quick_of<'a>(
    alloc: Global,
    ignore_case: bool,
    pattern: &str,
    texts: Texts<'a>,
) -> Result<Option<Quick<'a>>, AllocError>
    ensures { IfOk result (λ found. IfSome found (λ q. Suits (compiled ignore_case pattern.now) texts.entry q)) }
{
    let (offsets, bytes) = texts.spans.buffers();
    if bytes.len() / 64 > texts.count {
        return Ok(None);
    }
    match Steps::of(alloc, pattern, ignore_case, bytes)? {
        Some(steps) => Ok(Some(Quick { offsets, steps })),
        None => Ok(None),
    }
}

// Whether the pattern accepts each text, turned round where it is negated.
fn matched(
    alloc: Global,
    negated: bool,
    pattern: &Pattern,
    quick: &Option<Quick>,
    texts: Texts,
) -> Result<Lanes, AllocError>
    requires long { length (text_rows texts) ≡ texts.count }
    requires there { texts.count ≤ length (spans_in texts.spans.now) }
    requires suits { IfSome quick.now (λ q. Suits pattern.now texts q) }
    ensures { IfOk result (λ out. lanes_rows out ≡ map (accepted negated pattern.now) (text_rows texts.entry)) }
{
    let told = tabulated(
        alloc,
        texts.count,
        None,
        |k| tells(negated, pattern, quick, texts, k),
    )?;
    truths(alloc, told.as_slice())
}

// Whether the pattern accepts the text of that row, turned round where it is negated; nothing of null.
#[inline(always)]
fn tells(
    negated: bool,
    pattern: &Pattern,
    quick: &Option<Quick>,
    texts: Texts,
    k: usize,
) -> Option<bool>
    requires there { k < length (spans_in texts.spans.now) }
    requires suits { IfSome quick.now (λ q. Suits pattern.now texts q) }
    ensures { truth_datum result ≡ accepted negated pattern.now (get_or (text_rows texts.entry) k null) }
{
    if let Some(quick) = quick {
        if let Some(accepts) = quickly(quick, texts, k) {
            return Some(turned_round(negated, accepts));
        }
    }
    slowly(negated, pattern, texts, k)
}

// Whether the pattern of the steps accepts the text of that row, if it is short and all ASCII.
#[inline(always)]
fn quickly(quick: &Quick, texts: Texts, k: usize) -> Option<bool>
    requires { k < length (spans_in texts.spans.now) }
    ensures { IfSome result (λ told. (negated : Bool) (p : Compiled) → Suits p texts.entry quick.now → bool (flipped negated told) ≡ accepted negated p (get_or (text_rows texts.entry) k null)) }
{
    if texts.validity.is_valid(k) && k < quick.offsets.len().saturating_sub(1) {
        return quick.steps.accepts(quick.offsets[k], quick.offsets[k + 1]);
    }
    None
}

// The truth value, turned round where it is negated.
#[inline(always)]
fn turned_round(negated: bool, truth: bool) -> bool
    ensures { result ≡ flipped negated truth }
{
    if negated { !truth } else { truth }
}

// What the pattern tells of the text of that row, character by character.
#[inline(never)]
fn slowly(negated: bool, pattern: &Pattern, texts: Texts, k: usize) -> Option<bool>
    requires { k < length (spans_in texts.spans.now) }
    ensures { truth_datum result ≡ accepted negated pattern.now (get_or (text_rows texts.entry) k null) }
{
    match text_at(texts, k) {
        Some(text) => Some(turned_round(negated, pattern.matches(text))),
        None => None,
    }
}

// The text of that row, unless it is null.
#[inline(always)]
fn text_at<'a>(texts: Texts<'a>, k: usize) -> Option<&'a str>
    requires { k < length (spans_in texts.spans.now) }
    ensures { text_datum (option_map (λ t. t.now) result) ≡ get_or (text_rows texts.entry) k null }
{
    if texts.validity.is_valid(k) {
        return as_text(texts.spans.span(k));
    }
    None
}

/// Which of the texts aren't null: those that are valid and UTF-8.
pub fn texts_there(alloc: Global, texts: Texts) -> Result<Bits, AllocError>
    requires long { length (text_rows texts) ≡ texts.count }
    requires there { texts.count ≤ length (spans_in texts.spans.now) }
    ensures { IfOk result (λ bits. AreValues bits (text_rows texts.entry)) }
{
    Bits::tabulated(alloc, texts.count, |k| is_text(texts, k))
}

// Whether the text of that row isn't null.
#[inline(always)]
fn is_text(texts: Texts, k: usize) -> bool
    requires { k < length (spans_in texts.spans.now) }
    ensures { result ≡ not (is_null_datum (get_or (text_rows texts.entry) k null)) }
{
    text_at(texts, k).is_some()
}

// The bytes as a text, if they are one.
#[inline(always)]
fn as_text(bytes: &[u8]) -> Option<&str>
    ensures { text_datum (option_map (λ t. t.now) result) ≡ text_row bytes.now }
{
    match str::from_utf8(bytes) {
        Ok(text) => Some(text),
        Err(_) => None,
    }
}

// The truth values as lanes, null where there is none.
fn truths(alloc: Global, told: &[Option<bool>]) -> Result<Lanes, AllocError>
    ensures { IfOk result (λ out. lanes_rows out ≡ map truth_datum told.now) }
{
    let valid = Bits::tabulated(alloc, told.len(), |k| is_told(told, k))?;
    let bits = Bits::tabulated(alloc, told.len(), |k| is_true(told, k))?;
    let valid = BitPart::new(alloc, valid)?;
    Ok(Lanes::Bools(BitPart::new(alloc, bits)?, Validity::Rows(valid)))
}

// Whether there is a truth value at that place.
#[inline(always)]
fn is_told(told: &[Option<bool>], k: usize) -> bool
    requires { k < length told.now }
    ensures { result ≡ is_some (get_or told.now k None) }
{
    told[k].is_some()
}

// Whether it is true.
#[inline(always)]
fn is_true(told: &[Option<bool>], k: usize) -> bool
    requires { k < length told.now }
    ensures { result ≡ unwrap_or (get_or told.now k None) false }
{
    told[k].unwrap_or(false)
}
