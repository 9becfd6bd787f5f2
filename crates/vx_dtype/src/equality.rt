// `==` of types: they are equal exactly where they stand for one and the same type.
ghost use Rattle.std.specs.Prelude.{◌≡◌, true, false};
ghost use Rattle.std.specs.Cmp.{on_equiv, on_per, partial_equiv_from_equiv};
ghost use Rattle.vx_dtype.specs.Equality.{equal_type, equal_fields};
ghost use Rattle.vx_dtype.specs.Deciding.{equal_type_equiv, equal_fields_equiv};
ghost use Rattle.vx_dtype.specs.Joins.{same_base, same_base_fields};
ghost use Rattle.vx_dtype.specs.Views.{type_of, fields_view, fields_of};

use crate::fields::field_count;
use crate::{DType, FieldName, StructFields};

impl PartialEq for DType {
    ghost eq = { λ a b. equal_type (type_of a) (type_of b) };

    ghost laws = { on_per type_of (partial_equiv_from_equiv equal_type_equiv) };

    fn eq(&self, other: &DType) -> bool {
        alike(self, other, true)
    }
}

impl Eq for DType {
    ghost laws = { on_equiv type_of equal_type_equiv };
}

// Whether the types are the same, one level after another; where `exactly` is false, whether they
// differ in nullability alone.
#[cycle(alike)]
pub(crate) fn alike(a: &DType, b: &DType, exactly: bool) -> bool
    ensures same { exactly ≡ true → result ≡ equal_type (type_of a.now) (type_of b.now) }
    ensures base { exactly ≡ false → result ≡ same_base (type_of a.now) (type_of b.now) }
{
    if exactly && a.is_nullable() != b.is_nullable() {
        return false;
    }
    match a {
        DType::Bool(_) => match b {
            DType::Bool(_) => true,
            _ => false,
        },
        DType::Primitive(p, _) => match b {
            DType::Primitive(q, _) => p.index() == q.index(),
            _ => false,
        },
        DType::Float(p, _) => match b {
            DType::Float(q, _) => p.is_same(*q),
            _ => false,
        },
        DType::Decimal(d, _) => match b {
            DType::Decimal(e, _) => d.precision() == e.precision() && d.scale() == e.scale(),
            _ => false,
        },
        DType::Date(_) => match b {
            DType::Date(_) => true,
            _ => false,
        },
        DType::Timestamp(t, _) => match b {
            DType::Timestamp(u, _) => t.is_same(u),
            _ => false,
        },
        DType::Utf8(_) => match b {
            DType::Utf8(_) => true,
            _ => false,
        },
        DType::Binary(_) => match b {
            DType::Binary(_) => true,
            _ => false,
        },
        DType::List(t, _) => match b {
            DType::List(u, _) => alike(t.as_ref(), u.as_ref(), exactly),
            _ => false,
        },
        DType::FixedSizeList(t, k, _) => match b {
            DType::FixedSizeList(u, l, _) => k == l && alike(t.as_ref(), u.as_ref(), exactly),
            _ => false,
        },
        DType::Struct(x, _) => match b {
            DType::Struct(y, _) => alike_all(
                x.names.as_slice(),
                x.types.as_slice(),
                y.names.as_slice(),
                y.types.as_slice(),
                exactly,
            ),
            _ => false,
        },
    }
}

// Whether the fields have the same names in the same order, and types that are so.
#[cycle(alike)]
fn alike_all(
    names: &[FieldName],
    types: &[DType],
    others: &[FieldName],
    kinds: &[DType],
    exactly: bool,
) -> bool
    ensures same { exactly ≡ true → result ≡ equal_fields (fields_view names.now types.now) (fields_view others.now kinds.now) }
    ensures base { exactly ≡ false → result ≡ same_base_fields (fields_view names.now types.now) (fields_view others.now kinds.now) }
{
    let count = field_count(names, types);
    if count != field_count(others, kinds) {
        return false;
    }
    for i in 0..count {
        let t = &types[i];
        let u = &kinds[i];
        if names[i] != others[i] {
            return false;
        }
        if !alike(t, u, exactly) {
            return false;
        }
    }
    true
}

impl PartialEq for StructFields {
    ghost eq = { λ a b. equal_fields (fields_of a) (fields_of b) };

    ghost laws = { on_per fields_of (partial_equiv_from_equiv equal_fields_equiv) };

    fn eq(&self, other: &StructFields) -> bool {
        alike_all(
            self.names.as_slice(),
            self.types.as_slice(),
            other.names.as_slice(),
            other.types.as_slice(),
            true,
        )
    }
}

impl Eq for StructFields {
    ghost laws = { on_equiv fields_of equal_fields_equiv };
}
