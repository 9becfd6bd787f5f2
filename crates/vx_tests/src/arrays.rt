// Fields of arrays of structs, in buffers, in a slice of them and boxed.
use std::alloc::Global;
use std::test::Fail;
use vx_array::Array;
use vx_array_build::{constant, from_column};
use vx_test_support::{column, reads};
use vx_tree::{FieldName, Scalar, VortexError, VortexResult};

/// Whether the field of that name reads so.
fn has_field(alloc: Global, array: &Array, name: &str, text: &str) -> VortexResult<bool> {
    let field = array.field(alloc, &FieldName::new(alloc, name)?)?;
    Ok(reads(&field, text))
}

/// Three structs, of which the second is null.
fn sample(alloc: Global, boxed: bool) -> Result<Array, Fail> {
    let rows = column(alloc, "{a=i32,b=utf8?}?", "{1,'x} null {3,null}")?;
    if boxed {
        return Ok(Array::from_column(alloc, &rows)?);
    }
    Ok(from_column(alloc, &rows)?)
}

#[test]
fn a_field_is_null_where_its_struct_is(rt: HostRuntime) -> Result<(), Fail> {
    let alloc = rt.alloc();
    for boxed in [false, true] {
        let array = sample(alloc, boxed)?;
        assert!(rt; has_field(alloc, &array, "a", "[1i32, null, 3i32]")?);
        assert!(rt; has_field(alloc, &array, "b", "[\"x\", null, null]")?);
        let field = array.field(alloc, &FieldName::new(alloc, "a")?)?;
        assert!(rt; field.dtype().is_nullable() && field.null_count() == 1);
    }
    Ok(())
}

#[test]
fn a_slice_has_the_fields_of_its_rows(rt: HostRuntime) -> Result<(), Fail> {
    let alloc = rt.alloc();
    for boxed in [false, true] {
        let array = sample(alloc, boxed)?;
        if array.len() != 3 {
            return Err(Fail::new("not three rows"));
        }
        let last = array.slice(1, 2)?;
        assert!(rt; has_field(alloc, &last, "a", "[null, 3i32]")?);
    }
    Ok(())
}

#[test]
fn one_struct_in_all_rows_has_one_field(rt: HostRuntime) -> Result<(), Fail> {
    let alloc = rt.alloc();
    let array = sample(alloc, false)?;
    if array.is_empty() {
        return Err(Fail::new("no row"));
    }
    let scalar = Scalar::try_new(array.dtype().clone()?, array.value(alloc, 0)?)?;
    let array = constant(alloc, &scalar, 2)?;
    assert!(rt; has_field(alloc, &array, "a", "[1i32, 1i32]")?);
    Ok(())
}

#[test]
fn a_field_that_is_none_is_refused(rt: HostRuntime) -> Result<(), Fail> {
    let alloc = rt.alloc();
    let name = FieldName::new(alloc, "c")?;
    let array = sample(alloc, false)?;
    let Err(VortexError::NoSuchField(missing)) = array.field(alloc, &name) else {
        return Err(Fail::new("a field"));
    };
    assert!(rt; missing == name);
    let numbers = from_column(alloc, &column(alloc, "i32", "1 2")?)?;
    assert!(rt; matches!(numbers.field(alloc, &name), Err(VortexError::NotAStruct)));
    Ok(())
}
