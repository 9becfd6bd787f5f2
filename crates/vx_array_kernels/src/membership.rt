// Whether values in buffers are among the elements of one list.
ghost use Rattle.std.specs.Prelude.{◌≡◌, ◌≤◌, IfOk, List, length, map};
ghost use Rattle.vx_value.specs.Types.{Datum, int, list_of};
ghost use Rattle.vx_value.specs.Views.{data_view};
ghost use Rattle.vx_fn.specs.Values as values;
ghost use Rattle.vx_fn.specs.Values.{contained};
ghost use Rattle.vx_array.specs.Kinds.{numbers_in, spans_in};
ghost use Rattle.vx_array.specs.Rows.{lanes_rows};
ghost use Rattle.vx_array.specs.Shown.{HasRows, shown};
ghost use Rattle.vx_array_kernels.specs.Found.{Finds, IsLong, pair_rows};
ghost use Rattle.vx_array_kernels.specs.Likeness.{text_rows};
ghost use Rattle.vx_array_kernels.specs.Members.{TellsMembers};
ghost use Rattle.vx_array_kernels.specs.Truths.{TellsNulls};

use crate::likeness::Texts;
use crate::member_numbers::numbers_told;
use crate::member_texts::texts_told;
use crate::pair::Pair;
use crate::text_validity::text_validity;
use crate::truths::valid_rows;
use std::alloc::{AllocError, Global};
use vx_array::{BitPart, Lanes, Numbers, Validity};
use vx_array_loops::Bits;
use vx_value::Value;

/// Whether each value of the second column is among the elements of the list beside it. There is an answer
/// where the list is one in all rows, its elements are null, numbers of one width or texts, and the values are
/// numbers of that width or texts in a buffer; there is none where the elements are very many.
pub fn list_contains(alloc: Global, pair: Pair) -> Result<Option<Lanes>, AllocError>
    requires { IsLong pair }
    ensures { Finds (pair_rows contained pair.entry) result }
{
    match pair.lhs {
        Lanes::Same(list, _) => match list.as_ref() {
            Value::List(items) => among(alloc, pair.count, items.as_slice(), pair.rhs),
            _ => Ok(None),
        },
        _ => Ok(None),
    }
}

// Whether each of so many rows is among the elements.
fn among(
    alloc: Global,
    count: usize,
    items: &[Value],
    lanes: &Lanes,
) -> Result<Option<Lanes>, AllocError>
    requires { length (lanes_rows lanes.now) ≡ count }
    ensures { Finds (map (contained (list_of (data_view items.now))) (lanes_rows lanes.now)) result }
{
    match lanes {
        Lanes::Numbers(numbers, validity) => {
            among_numbers(alloc, count, items, numbers, validity)
        }
        Lanes::Texts(spans, validity) => {
            let texts = Texts {
                count,
                spans,
                validity,
            };
            among_texts(alloc, items, texts)
        }
        _ => Ok(None),
    }
}

// The same of numbers, where they are valid.
fn among_numbers(
    alloc: Global,
    count: usize,
    items: &[Value],
    numbers: &Numbers,
    validity: &Validity,
) -> Result<Option<Lanes>, AllocError>
    requires { length (shown validity.now (map int (numbers_in numbers.now))) ≡ count }
    ensures { Finds (map (contained (list_of (data_view items.now))) (shown validity.now (map int (numbers_in numbers.now)))) result }
{
    let Some(told) = numbers_told(alloc, count, items, numbers)? else {
        return Ok(None);
    };
    let validity = validity.clone()?;
    Ok(Some(told_lanes(alloc, items, told, validity)?))
}

// The same of texts.
fn among_texts(alloc: Global, items: &[Value], texts: Texts) -> Result<Option<Lanes>, AllocError>
    requires long { length (text_rows texts) ≡ texts.count }
    requires there { texts.count ≤ length (spans_in texts.spans.now) }
    ensures { Finds (map (contained (list_of (data_view items.now))) (text_rows texts.entry)) result }
{
    let Some(told) = texts_told(alloc, items, texts)? else {
        return Ok(None);
    };
    let validity = text_validity(alloc, texts)?;
    Ok(Some(told_lanes(alloc, items, told, validity)?))
}

// Truth values that tell of rows with that validity whether each is one of the elements, with null in place of
// false where an element is null.
fn told_lanes(
    alloc: Global,
    items: &[Value],
    told: Bits,
    validity: Validity,
) -> Result<Lanes, AllocError>
    requires { HasRows validity (length told) }
    ensures { IfOk result (λ out. (rows : List Datum) → TellsNulls validity rows → TellsMembers (data_view items.now) told rows → lanes_rows out ≡ map (contained (list_of (data_view items.now))) rows) }
{
    if !has_null(items) {
        return Ok(Lanes::Bools(BitPart::new(alloc, told)?, validity));
    }
    let mut sure = valid_rows(alloc, told.len(), &validity)?;
    sure.and_with(&told);
    let sure = BitPart::new(alloc, sure)?;
    Ok(Lanes::Bools(BitPart::new(alloc, told)?, Validity::Rows(sure)))
}

// Whether some element is null.
fn has_null(items: &[Value]) -> bool
    ensures { result ≡ values.has_null (data_view items.now) }
{
    for item in items {
        if item.is_null() {
            return true;
        }
    }
    false
}
