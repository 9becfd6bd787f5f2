// The source texts of types by chance.
use crate::format::Format;
use crate::numbers::Numbers;
use std::alloc::{AllocError, Global};

const FLAT: [&str; 22] = [
    "bool",
    "u8",
    "u16",
    "u32",
    "u64",
    "i8",
    "i16",
    "i32",
    "i64",
    "f32",
    "f64",
    "utf8",
    "binary",
    "decimal(10, 2)",
    "decimal(38, 0)",
    "decimal(38, 38)",
    "date",
    "timestamp(s)",
    "timestamp(ms, \"UTC\")",
    "timestamp(us)",
    "timestamp(us, \"Europe/Zurich\")",
    "timestamp(ns)",
];

const FIRST_NAMES: [&str; 4] = ["a", "Name_1", "`x,y`", "`say \"it\"`"];

const SECOND_NAMES: [&str; 3] = ["b", "`two words`", "`é`"];

// How many types are made at once, of which the next ones are made.
const WIDTH: usize = 4;

// How many types may be inside one another.
const LAYERS: usize = 4;

/// A type that the format can hold: of CSV a struct, and no list in it.
pub fn type_text(
    alloc: Global,
    format: Format<'_>,
    numbers: &mut Numbers,
) -> Result<String, AllocError> {
    let mut below = flat_types(alloc)?;
    for _ in 0..LAYERS {
        below = layer_over(alloc, below.as_slice(), format, numbers)?;
    }
    match format {
        Format::Json(_) => other_type(alloc, below.as_slice(), format, numbers),
        Format::Csv(_) => struct_type(alloc, below.as_slice(), numbers),
    }
}

fn flat_types(alloc: Global) -> Result<Vec<String>, AllocError> {
    let mut types = Vec::with_capacity(alloc, FLAT.len())?;
    for dtype in FLAT {
        types.push(String::from_str(alloc, dtype)?)?;
    }
    Ok(types)
}

// As many types as are made at once, each flat or of those.
fn layer_over(
    alloc: Global,
    below: &[String],
    format: Format<'_>,
    numbers: &mut Numbers,
) -> Result<Vec<String>, AllocError> {
    let mut layer = Vec::with_capacity(alloc, WIDTH)?;
    for _ in 0..WIDTH {
        layer.push(other_type(alloc, below, format, numbers)?)?;
    }
    Ok(layer)
}

fn other_type(
    alloc: Global,
    below: &[String],
    format: Format<'_>,
    numbers: &mut Numbers,
) -> Result<String, AllocError> {
    let mark = numbers.pick(&["", "?"]);
    match (numbers.below(6), format.holds_lists()) {
        (0, _) => {
            let fields = struct_type(alloc, below, numbers)?;
            format!(in alloc; "{fields}{mark}")
        }
        (1, true) => {
            let element = one_of(below, numbers);
            format!(in alloc; "list({element}){mark}")
        }
        (2, true) => {
            let element = one_of(below, numbers);
            format!(in alloc; "fixed_size_list({element})[2]{mark}")
        }
        _ => {
            let flat = numbers.pick(&FLAT);
            format!(in alloc; "{flat}{mark}")
        }
    }
}

// A struct of two fields, which is never null.
fn struct_type(
    alloc: Global,
    below: &[String],
    numbers: &mut Numbers,
) -> Result<String, AllocError> {
    let name = numbers.pick(&FIRST_NAMES);
    let dtype = one_of(below, numbers);
    let other_name = numbers.pick(&SECOND_NAMES);
    let other_dtype = one_of(below, numbers);
    format!(in alloc; "{{{name}={dtype}, {other_name}={other_dtype}}}")
}

// One of these types.
fn one_of<'a>(types: &'a [String], numbers: &mut Numbers) -> &'a str {
    let i = numbers.below(types.len() as u64) as usize;
    match types.get(i) {
        Some(dtype) => dtype.as_str(),
        None => "bool",
    }
}
