// Texts in a buffer against what they may begin with.
ghost use Rattle.std.specs.Prelude.{◌≡◌, ◌≤◌, ◌<◌, IfOk, [], get_or, length, map, nat_eq};
ghost use Rattle.std.specs.List as lists;
ghost use Rattle.vx_value.specs.Types.{utf8};
ghost use Rattle.vx_fn.specs.Values.{begun};
ghost use Rattle.vx_array.specs.Kinds.{spans_in};
ghost use Rattle.vx_array.specs.Rows.{lanes_rows};
ghost use Rattle.vx_array_kernels.specs.Found.{Finds, IsLong, pair_rows};
ghost use Rattle.vx_array_kernels.specs.Likeness.{text_rows};
ghost use Rattle.vx_array_kernels.specs.Truths.{both_rows};

use crate::likeness::Texts;
use crate::pair::Pair;
use crate::text_validity::text_validity;
use std::alloc::{AllocError, Global};
use vx_array::{BitPart, Lanes, Spans};
use vx_array_loops::Bits;
use vx_value::Value;

/// Whether each text of the first column begins with the one beside it. There is an answer where the texts are
/// in a buffer, and those beside them in one too, or one text in all rows. Compares bytes, which tell the same
/// as characters do.
pub fn starts_with(alloc: Global, pair: Pair) -> Result<Option<Lanes>, AllocError>
    requires { IsLong pair }
    ensures { Finds (pair_rows begun pair.entry) result }
{
    let count = pair.count;
    match (pair.lhs, pair.rhs) {
        (Lanes::Texts(spans, validity), Lanes::Same(value, _)) => match value.as_ref() {
            Value::Utf8(prefix) => {
                let texts = Texts {
                    count,
                    spans,
                    validity,
                };
                Ok(Some(begun_with(alloc, texts, prefix.as_str())?))
            }
            _ => Ok(None),
        },
        (Lanes::Texts(spans, validity), Lanes::Texts(others, others_validity)) => {
            let texts = Texts {
                count,
                spans,
                validity,
            };
            let prefixes = Texts {
                count,
                spans: others,
                validity: others_validity,
            };
            Ok(Some(begun_beside(alloc, texts, prefixes)?))
        }
        _ => Ok(None),
    }
}

// Whether each text begins with the one.
fn begun_with(alloc: Global, texts: Texts, prefix: &str) -> Result<Lanes, AllocError>
    requires long { length (text_rows texts) ≡ texts.count }
    requires there { texts.count ≤ length (spans_in texts.spans.now) }
    ensures { IfOk result (λ out. lanes_rows out ≡ map (λ v. begun v (utf8 prefix.now)) (text_rows texts.entry)) }
{
    let prefix = prefix.as_bytes();
    let told = Bits::tabulated(alloc, texts.count, |k| begins(texts.spans, k, prefix))?;
    let validity = text_validity(alloc, texts)?;
    Ok(Lanes::Bools(BitPart::new(alloc, told)?, validity))
}

// Whether each text begins with the one beside it. Asks as many.
fn begun_beside(alloc: Global, texts: Texts, prefixes: Texts) -> Result<Lanes, AllocError>
    requires count { prefixes.count ≡ texts.count }
    requires long { length (text_rows texts) ≡ texts.count }
    requires there { texts.count ≤ length (spans_in texts.spans.now) }
    requires prefixes_long { length (text_rows prefixes) ≡ prefixes.count }
    requires prefixes_there { prefixes.count ≤ length (spans_in prefixes.spans.now) }
    ensures { IfOk result (λ out. lanes_rows out ≡ both_rows texts.entry.count begun (text_rows texts.entry) (text_rows prefixes.entry)) }
{
    let told = Bits::tabulated(
        alloc,
        texts.count,
        |k| begins_beside(texts.spans, k, prefixes.spans),
    )?;
    let validity = text_validity(alloc, texts)?;
    let both = validity.and(alloc, &text_validity(alloc, prefixes)?)?;
    Ok(Lanes::Bools(BitPart::new(alloc, told)?, both))
}

// Whether the bytes of that row begin with these.
#[inline(always)]
fn begins(spans: &Spans, k: usize, prefix: &[u8]) -> bool
    requires { k < length (spans_in spans.now) }
    ensures { result ≡ lists.starts_with nat_eq (get_or (spans_in spans.now) k []) prefix.now }
{
    spans.span(k).starts_with(prefix)
}

// Whether the bytes of that row begin with those beside them.
#[inline(always)]
fn begins_beside(spans: &Spans, k: usize, others: &Spans) -> bool
    requires here { k < length (spans_in spans.now) }
    requires beside { k < length (spans_in others.now) }
    ensures { result ≡ lists.starts_with nat_eq (get_or (spans_in spans.now) k []) (get_or (spans_in others.now) k []) }
{
    begins(spans, k, others.span(k))
}
