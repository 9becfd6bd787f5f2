// The texts of ends and of bounds.
use crate::bounds::Bounds;
use crate::endpoint::Endpoint;
use std::fmt;
use std::fmt::{Display, Formatter, Write};
use vx_dtype::DType;
use vx_literals::{write_day, write_decimal, write_instant};

/// Bounds of values of a type, whose texts are as that type has them: of days `from 2024-01-31 on`.
#[derive(Clone, Copy)]
pub struct TypedBounds<'a> {
    /// The bounds.
    pub bounds: Bounds<'a>,
    /// The type of what lies within them.
    pub dtype: &'a DType,
}

// An end, read by the type that is known of it.
#[derive(Clone, Copy)]
struct End<'a> {
    endpoint: Endpoint<'a>,
    dtype: Option<&'a DType>,
}

impl<'a> End<'a> {
    fn new(endpoint: Endpoint<'a>, dtype: Option<&'a DType>) -> End<'a> {
        End { endpoint, dtype }
    }
}

/// The value: `true`, `5`, `1.5`, `"ab"`, `0x0a`.
impl Display for Endpoint<'_> {
    fn fmt<W: Write>(&self, f: &mut Formatter<W>) -> fmt::Result {
        match self {
            Endpoint::Bool(b) => write!(f, "{b}"),
            Endpoint::Int(i) => write!(f, "{i}"),
            Endpoint::Float(x) => write!(f, "{x}"),
            Endpoint::Text(text) => write!(f, "\"{text}\""),
            Endpoint::Bytes(bytes) => write_bytes(bytes, f),
        }
    }
}

fn write_bytes<W: Write>(bytes: &[u8], f: &mut Formatter<W>) -> fmt::Result {
    f.write_str("0x")?;
    for byte in bytes {
        write!(f, "{byte:02x}")?;
    }
    Ok(())
}

impl Display for End<'_> {
    fn fmt<W: Write>(&self, f: &mut Formatter<W>) -> fmt::Result {
        match (&self.endpoint, self.dtype) {
            (Endpoint::Int(units), Some(DType::Decimal(decimal, _))) => {
                write_decimal(*units, decimal.scale(), f)
            }
            (Endpoint::Int(day), Some(DType::Date(_))) => write_day(*day, f),
            (Endpoint::Int(instant), Some(DType::Timestamp(timestamp, _))) => {
                write_instant(*instant, timestamp, f)
            }
            (endpoint, _) => endpoint.fmt(f),
        }
    }
}

/// What is known: `5`, `from 1 to 5`, `from 1 on`, `up to 5`, `false or true`, `any value`, each also
/// with `or null` behind it; `null`; and `nothing` where no value is within.
impl Display for Bounds<'_> {
    fn fmt<W: Write>(&self, f: &mut Formatter<W>) -> fmt::Result {
        write_bounds(self, None, f)
    }
}

/// What is known, as of bounds without a type.
impl Display for TypedBounds<'_> {
    fn fmt<W: Write>(&self, f: &mut Formatter<W>) -> fmt::Result {
        write_bounds(&self.bounds, Some(self.dtype), f)
    }
}

fn write_bounds<W: Write>(
    bounds: &Bounds,
    dtype: Option<&DType>,
    f: &mut Formatter<W>,
) -> fmt::Result {
    if !bounds.value {
        return f.write_str(if bounds.null { "null" } else { "nothing" });
    }
    write_values(bounds, dtype, f)?;
    f.write_str(if bounds.null { " or null" } else { "" })
}

fn write_values<W: Write>(
    bounds: &Bounds,
    dtype: Option<&DType>,
    f: &mut Formatter<W>,
) -> fmt::Result {
    match (bounds.least, bounds.greatest) {
        (Some(least), Some(greatest)) if greatest.at_most(&least) => End::new(least, dtype).fmt(f),
        (Some(Endpoint::Bool(_)), Some(_)) => f.write_str("false or true"),
        (Some(least), Some(greatest)) => {
            let (least, greatest) = (End::new(least, dtype), End::new(greatest, dtype));
            write!(f, "from {least} to {greatest}")
        }
        (Some(least), None) => write!(f, "from {} on", End::new(least, dtype)),
        (None, Some(greatest)) => write!(f, "up to {}", End::new(greatest, dtype)),
        (None, None) => f.write_str("any value"),
    }
}
