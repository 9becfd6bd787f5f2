// Plain values as literals and scalars.
use crate::forms::shown::gives;
use std::alloc::Global;
use vx_forms::*;
use vx_tree::Nullability::NonNullable;
use vx_tree::{DType, Scalar, VortexResult};
use vx_types::{TimeUnit, TimestampType};

// The text of the literal, and its type.
fn literal<S: IntoScalar>(alloc: Global, value: S) -> VortexResult<String> {
    let tree = lit(alloc, value)?;
    let dtype = tree.return_dtype(alloc, &DType::Bool(NonNullable))?;
    Ok(format!(in alloc; "{tree} of {dtype}")?)
}

#[test]
fn values(rt: HostRuntime) {
    let alloc = rt.alloc();
    let octets: &[u8] = &[0, 255];
    let none: Option<i32> = None;
    gives(&rt, literal(alloc, true), "true of bool");
    gives(&rt, literal(alloc, "a"), "\"a\" of utf8");
    gives(&rt, literal(alloc, octets), "0x00ff of binary");
    gives(&rt, literal(alloc, Some("a")), "\"a\" of utf8?");
    gives(&rt, literal(alloc, Some(Some(5))), "5i32 of i32?");
    gives(&rt, literal(alloc, none), "null of i32?");
}

#[test]
fn whole_numbers(rt: HostRuntime) {
    let alloc = rt.alloc();
    gives(&rt, literal(alloc, 255u8), "255u8 of u8");
    gives(&rt, literal(alloc, 65535u16), "65535u16 of u16");
    gives(&rt, literal(alloc, u32::MAX), "4294967295u32 of u32");
    gives(
        &rt,
        literal(alloc, u64::MAX),
        "18446744073709551615u64 of u64",
    );
    gives(&rt, literal(alloc, -128i8), "-128i8 of i8");
    gives(&rt, literal(alloc, -32768i16), "-32768i16 of i16");
    gives(&rt, literal(alloc, i32::MIN), "-2147483648i32 of i32");
    gives(
        &rt,
        literal(alloc, i64::MIN),
        "-9223372036854775808i64 of i64",
    );
}

// Behind the point are as few digits as the number is read again by.
#[test]
fn floating_point_numbers(rt: HostRuntime) {
    let alloc = rt.alloc();
    let none: Option<f32> = None;
    gives(&rt, literal(alloc, 9.99f64), "9.99f64 of f64");
    gives(&rt, literal(alloc, 9.99f32), "9.99f32 of f32");
    gives(&rt, literal(alloc, 1.0f64), "1.0f64 of f64");
    gives(&rt, literal(alloc, -0.0f64), "-0.0f64 of f64");
    gives(
        &rt,
        literal(alloc, 0.30000000000000004f64),
        "0.30000000000000004f64 of f64",
    );
    gives(&rt, literal(alloc, Some(0.5f32)), "0.5f32 of f32?");
    gives(&rt, literal(alloc, none), "null of f32?");
}

fn pets(alloc: Global) -> VortexResult<Scalar> {
    let pets = [
        ("dog", scalar(alloc, 32u32)?),
        ("cat", scalar(alloc, "rufus")?),
    ];
    struct_row(alloc, pets)
}

fn nobody(alloc: Global) -> VortexResult<Scalar> {
    let nobody: [(&str, Scalar); 0] = [];
    struct_row(alloc, nobody)
}

// The literal of a row, and its type.
fn row(alloc: Global, row: VortexResult<Scalar>) -> VortexResult<String> {
    literal(alloc, row?)
}

// The same of a row that is lent.
fn lent_row(alloc: Global, row: VortexResult<Scalar>) -> VortexResult<String> {
    literal(alloc, &row?)
}

#[test]
fn scalars(rt: HostRuntime) {
    let alloc = rt.alloc();
    gives(
        &rt,
        lent_row(alloc, pets(alloc)),
        "{dog: 32u32, cat: \"rufus\"} of {dog=u32, cat=utf8}",
    );
    gives(
        &rt,
        row(alloc, pets(alloc)),
        "{dog: 32u32, cat: \"rufus\"} of {dog=u32, cat=utf8}",
    );
    gives(&rt, row(alloc, nobody(alloc)), "{} of {}");
}

#[test]
fn days_and_decimals(rt: HostRuntime) {
    let alloc = rt.alloc();
    gives(&rt, row(alloc, date("2024-01-31")), "2024-01-31 of date");
    gives(
        &rt,
        row(alloc, decimal("-12.50")),
        "-12.50 of decimal(4, 2)",
    );
    gives(&rt, row(alloc, decimal("7")), "7 of decimal(1, 0)");
    let refused = "the value of row 0 doesn't fit the type";
    gives(&rt, row(alloc, date("2023-02-29")), refused);
    gives(&rt, row(alloc, decimal("1e2")), refused);
}

// The instant of the text as a time on a clock.
fn local(alloc: Global, text: &str, unit: TimeUnit) -> VortexResult<String> {
    literal(alloc, timestamp(text, TimestampType { unit, zone: None })?)
}

#[test]
fn instants(rt: HostRuntime) {
    let alloc = rt.alloc();
    let text = "2024-01-31T10:15:30.25";
    gives(
        &rt,
        local(alloc, text, TimeUnit::Milliseconds),
        "2024-01-31T10:15:30.250 of timestamp(ms)",
    );
    let refused = "the value of row 0 doesn't fit the type";
    gives(&rt, local(alloc, text, TimeUnit::Seconds), refused);
    gives(
        &rt,
        local(alloc, "2024-01-31T10:15:30Z", TimeUnit::Seconds),
        refused,
    );
}
