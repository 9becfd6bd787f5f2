// The elements of one list, made ready for many look-ups.
ghost use Rattle.std.specs.Prelude.{◌≡◌, IfOk};
ghost use Rattle.vx_value.specs.Types.{list_of};
ghost use Rattle.vx_value.specs.Views.{value_of, data_view};
ghost use Rattle.vx_fn.specs.Values as values;
ghost use Rattle.vx_eval.specs.Columns.{truth_datum};
ghost use Rattle.vx_eval.specs.Elements.{HasElements};

use std::alloc::{AllocError, Global};
use std::collections::HashSet;
use std::marker::Model;
use vx_value::Value;

// A list's elements, their set, and whether one of them is null.
#[derive(Drop)]
pub(super) struct ElementSet<'a> {
    items: &'a [Value],
    set: HashSet<&'a Value>,
    has_null: bool,
}

impl<'a> Model for ElementSet<'a> {
    ghost use Rattle.std.specs.Prelude.{◌≡◌};
    ghost use Rattle.vx_value.specs.Codes.{datum_code};
    ghost use Rattle.vx_value.specs.Types.{Datum, list_of};
    ghost use Rattle.vx_value.specs.Views.{data_view};
    ghost use Rattle.vx_fn.specs.Values as values;
    ghost use Rattle.vx_eval.specs.Elements.{HasElements};

    ghost Value = { Datum };

    ghost coded = { datum_code };

    ghost view = { λ e. list_of (data_view e.items.now) };

    ghost invariant = { λ e. HasElements e.set (data_view e.items.now) × (e.has_null ≡ values.has_null (data_view e.items.now)) };
}

impl<'a> ElementSet<'a> {
    // The set of these elements.
    pub(super) fn new(alloc: Global, items: &'a [Value]) -> Result<ElementSet<'a>, AllocError>
        ensures { IfOk result (λ elements. elements ≡ list_of (data_view items.now)) }
    {
        let set = set_of(alloc, items)?;
        let has_null = has_null(items);
        Ok(ElementSet {
            items,
            set,
            has_null,
        })
    }

    // Whether the value is one of the elements; null of null, and where it is none, but one is null.
    pub(super) fn find(&self, needle: &Value) -> Option<bool>
        ensures { truth_datum result ≡ values.contained self.now (value_of needle.now) }
    {
        if needle.is_null() {
            None
        } else if self.set.contains(&needle) {
            Some(true)
        } else if self.has_null {
            None
        } else {
            Some(false)
        }
    }
}

// The elements, each once.
fn set_of<'a>(alloc: Global, items: &'a [Value]) -> Result<HashSet<&'a Value>, AllocError>
    ensures { IfOk result (λ set. HasElements set (data_view items.now)) }
{
    let mut set = HashSet::with_capacity(alloc, items.len())?;
    for item in items {
        set.insert(item)?;
    }
    Ok(set)
}

// Whether some element is null.
fn has_null(items: &[Value]) -> bool
    ensures { result ≡ values.has_null (data_view items.now) }
{
    for item in items {
        if item.is_null() {
            return true;
        }
    }
    false
}
