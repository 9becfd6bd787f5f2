// Functions by their types, and selections by their names.
ghost use Rattle.std.specs.Prelude.{IfOk};
ghost use Rattle.std.specs.List.{IsDistinct};
ghost use Rattle.std.specs.Str.{bytes_eq};

use std::alloc::Global;
use vx_test_support::names;
use vx_tree::Nullability::Nullable;
use vx_tree::{
    Binary, DType, FieldName, FieldNames, FieldSelection, FillNull, GetItem, Literal, Operator,
    ScalarFnRef, ScalarFnVTable, StrictComparison, VortexResult,
};

/// The function that gives the field of that name.
fn item(alloc: Global, name: &str) -> VortexResult<ScalarFnRef> {
    Ok(GetItem::bind(FieldName::new(alloc, name)?))
}

#[test]
fn markers_see_their_own_function(rt: HostRuntime) {
    let alloc = rt.alloc();
    let item = item(alloc, "a").expect(&rt, "a function");
    assert!(rt; item.is::<GetItem>());
    assert!(rt; !item.is::<Literal>());
    assert!(rt;
        item.as_opt::<GetItem>()
            .is_some_and(|name| name.as_str() == "a")
    );
    assert!(rt; item.as_opt::<Binary>().is_none());
    let and = Binary::bind(Operator::And);
    assert!(rt; Binary::options_of(&and) == Some(&Operator::And));
    assert!(rt; FillNull::supports_dtype(&DType::Utf8(Nullable)));
    assert_eq!(rt; StrictComparison::Strict.sign(), "<");
}

// The one name of this text, which is distinct from all others of its list.
fn one_name(alloc: Global, text: &str) -> VortexResult<FieldNames>
    ensures { IfOk result (λ names. IsDistinct bytes_eq names) }
{
    FieldNames::new(alloc, vec![in alloc; FieldName::new(alloc, text)?]?)
}

fn all_but(alloc: Global, name: &str) -> VortexResult<FieldSelection> {
    Ok(FieldSelection::exclude(one_name(alloc, name)?))
}

fn only(alloc: Global, name: &str) -> VortexResult<FieldSelection> {
    Ok(FieldSelection::include(one_name(alloc, name)?))
}

#[test]
fn selections_tell_their_names(rt: HostRuntime) {
    let alloc = rt.alloc();
    let a = names(alloc, "a", ' ').expect(&rt, "names");
    let left_out = all_but(alloc, "a").expect(&rt, "a selection");
    assert!(rt; left_out.is_exclude() && !left_out.is_include());
    assert!(rt; *left_out.field_names() == a);
    let chosen = only(alloc, "a").expect(&rt, "a selection");
    assert!(rt; chosen.is_include() && !chosen.is_exclude());
    assert!(rt; *chosen.field_names() == a);
    let given = names(alloc, "c b", ' ').expect(&rt, "names");
    let given = FieldSelection::Include(given);
    assert!(rt; given.is_include() && !given.is_exclude());
    assert_eq!(rt; given.field_names().len(), 2);
}
