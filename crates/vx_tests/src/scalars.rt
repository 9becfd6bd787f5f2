// Scalars by their constructors: texts, types and values.
use crate::looks::{answers, differs, gives, same, shows};
use vx_floats::Float;
use vx_test_support::reads;
use vx_tree::Nullability::Nullable;
use vx_tree::{DType, Scalar, Value};

#[test]
fn scalars_show_their_value(rt: HostRuntime) {
    let alloc = rt.alloc();
    shows(&rt, Scalar::from_bool(true), "true");
    shows(&rt, Scalar::from_bool(false), "false");
    shows(&rt, Scalar::from_u8(255), "255u8");
    shows(&rt, Scalar::from_u16(5), "5u16");
    shows(&rt, Scalar::from_u32(32), "32u32");
    let most = Scalar::from_u64(18_446_744_073_709_551_615);
    shows(&rt, most, "18446744073709551615u64");
    shows(&rt, Scalar::from_i8(-128), "-128i8");
    shows(&rt, Scalar::from_i16(0), "0i16");
    shows(&rt, Scalar::from_i32(-100), "-100i32");
    shows(&rt, Scalar::from_i64(42), "42i64");
    answers(&rt, Scalar::utf8(alloc, "say \"no\""), "\"say \"no\"\"");
    answers(&rt, Scalar::binary(alloc, &[0, 10, 255]), "0x000aff");
    answers(&rt, Scalar::binary(alloc, &[]), "0x");
}

#[test]
fn scalars_of_floats_show_the_fewest_digits(rt: HostRuntime) {
    let price = Float::from_f64_bits(0x4023_fae1_47ae_147b);
    shows(&rt, Scalar::from_float(price), "9.99f64");
    let single = Float::from_f32_bits(0x411f_d70a);
    shows(&rt, Scalar::from_float(single), "9.99f32");
    let below_zero = Float::from_f64_bits(0x8000_0000_0000_0000);
    shows(&rt, Scalar::from_float(below_zero), "-0.0f64");
    assert!(rt; reads(Scalar::from_float(single).dtype(), "f32"));
}

// The bits of a NaN aren't told apart; those of the zeros are.
#[test]
fn scalars_of_floats_have_one_nan_and_two_zeros(rt: HostRuntime) {
    let quiet = Scalar::from_float(Float::F64(0x7ff8_0000_0000_0000));
    let other = Scalar::from_float(Float::F64(0xfff0_0000_0000_0001));
    same(&rt, other, &quiet);
    let zero = Scalar::from_float(Float::F32(0));
    differs(&rt, Scalar::from_float(Float::F32(0x8000_0000)), &zero);
    differs(&rt, Scalar::from_float(Float::F64(0)), &zero);
}

#[test]
fn scalars_have_a_type_and_a_value(rt: HostRuntime) {
    let null = Scalar::null(DType::Utf8(Nullable));
    assert!(rt; null.is_null());
    assert!(rt; reads(&null, "null") && reads(null.dtype(), "utf8?"));
    let five = Scalar::from_i32(5);
    assert!(rt; !five.is_null());
    assert!(rt; matches!(five.value(), Value::Int(5)));
    gives(&rt, five.clone(), &five);
    differs(&rt, Scalar::from_i64(5), &five);
}
