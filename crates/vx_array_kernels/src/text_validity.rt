// Which texts in a buffer aren't null.
ghost use Rattle.std.specs.Prelude.{◌≡◌, ◌≤◌, IfOk, length, map, true};
ghost use Rattle.vx_value.specs.Types.{utf8};
ghost use Rattle.vx_array.specs.Kinds.{spans_in, text_row};
ghost use Rattle.vx_array_kernels.specs.Likeness.{text_rows};
ghost use Rattle.vx_array_kernels.specs.Truths.{TellsNulls};

use crate::likeness::{Texts, texts_there};
use crate::validity::validity_by;
use std::alloc::{AllocError, Global};
use vx_array::Validity;

/// Which of the texts aren't null: those that are valid and UTF-8. Where the whole buffer is ASCII its bytes
/// are looked at once and the validity is shared, else each text is read for itself.
pub fn text_validity(alloc: Global, texts: Texts) -> Result<Validity, AllocError>
    requires long { length (text_rows texts) ≡ texts.count }
    requires there { texts.count ≤ length (spans_in texts.spans.now) }
    ensures { IfOk result (λ v. TellsNulls v (text_rows texts.entry)) }
{
    if are_ascii(texts) {
        return texts.validity.clone();
    }
    validity_by(alloc, texts_there(alloc, texts)?, texts.count)
}

// Whether the whole buffer is ASCII. A slice of a few texts out of a long buffer isn't worth the look at all
// its bytes.
fn are_ascii(texts: Texts) -> bool
    ensures { result ≡ true → map text_row (spans_in texts.entry.spans.now) ≡ map utf8 (spans_in texts.entry.spans.now) }
{
    let (_, bytes) = texts.spans.buffers();
    bytes.len() / 64 <= texts.count && bytes.is_ascii()
}
