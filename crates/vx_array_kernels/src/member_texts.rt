// Which texts in a buffer are among the elements of one list.
ghost use Rattle.std.specs.Prelude.{◌≡◌, ◌<◌, ◌≤◌, IfOk, IfSome, [], get_or, length, map, take};
ghost use Rattle.vx_value.specs.Types.{Data, utf8};
ghost use Rattle.vx_value.specs.Views.{data_view};
ghost use Rattle.vx_fn.specs.Values.{has_element};
ghost use Rattle.vx_array.specs.Kinds.{spans_in};
ghost use Rattle.vx_array_kernels.specs.Members.{HasTexts};

use crate::likeness::Texts;
use std::alloc::{AllocError, Global};
use std::collections::HashSet;
use vx_array::Spans;
use vx_array_loops::Bits;
use vx_value::Value;

/// Whether the bytes of each of so many texts are those of one of the elements, if these are null or texts.
pub fn texts_told(alloc: Global, items: &[Value], texts: Texts) -> Result<Option<Bits>, AllocError>
    requires { texts.count ≤ length (spans_in texts.spans.now) }
    ensures { IfOk result (λ found. IfSome found (λ told. told ≡ map (λ bs. has_element (data_view items.now) (utf8 bs)) (take texts.entry.count (spans_in texts.entry.spans.now)))) }
{
    let Some(set) = texts_of(alloc, items)? else {
        return Ok(None);
    };
    let told = Bits::tabulated(alloc, texts.count, |k| has_text(&set, texts.spans, k))?;
    Ok(Some(told))
}

// The bytes of the elements that aren't null, if these are texts.
fn texts_of<'a>(alloc: Global, items: &'a [Value]) -> Result<Option<HashSet<&'a [u8]>>, AllocError>
    ensures { IfOk result (λ found. IfSome found (λ set. HasTexts set (data_view items.now))) }
{
    let mut set = HashSet::with_capacity(alloc, items.len())?;
    for item in items {
        match item {
            Value::Null => {}
            Value::Utf8(text) => {
                set.insert(text.as_str().as_bytes())?;
            }
            _ => return Ok(None),
        }
    }
    Ok(Some(set))
}

// Whether the set has the bytes of that row.
#[inline(always)]
fn has_text(set: &HashSet<&[u8]>, spans: &Spans, k: usize) -> bool
    requires { k < length (spans_in spans.now) }
    ensures { (ws : Data) → HasTexts set.now ws → result ≡ has_element ws (utf8 (get_or (spans_in spans.now) k [])) }
{
    let bytes = spans.span(k);
    set.contains(&bytes)
}
