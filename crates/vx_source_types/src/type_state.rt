// How far a type is read.
ghost use Rattle.std.specs.Prelude.{◌≡◌, length};

use std::sync::ArcStr;
use vx_dtype::{DType, DecimalType, FieldName, TimeUnit};

/// The fields of a struct so far, and the nesting that is allowed outside it.
#[derive(Drop)]
pub struct FieldsSoFar {
    /// The names.
    pub names: Vec<FieldName>,
    /// The types, one a name.
    pub types: Vec<DType>,
    /// The nesting.
    pub room: usize,
    ghost even: { length names.items ≡ length types.items },
}

/// What is open around the type that is being read, with the nesting that is allowed outside.
#[derive(Drop)]
pub enum TypeFrame {
    /// A list.
    List {
        /// The nesting.
        room: usize,
    },
    /// A list of one length.
    FixedSizeList {
        /// The nesting.
        room: usize,
    },
    /// A struct, and the name of the field whose type is read.
    Struct(FieldsSoFar, FieldName),
}

/// What is due next.
#[derive(Drop)]
pub enum TypeMode {
    /// A type.
    Begin,
    /// The bracket behind `list`.
    ListOpens,
    /// The bracket behind `fixed_size_list`.
    FixedSizeListOpens,
    /// The square bracket behind the element type.
    LengthOpens(DType),
    /// The length.
    Length(DType),
    /// The square bracket behind the length.
    LengthCloses(DType, u32),
    /// The bracket behind `decimal`.
    DecimalOpens,
    /// The precision.
    Precision,
    /// A comma behind the precision, or the closing bracket.
    PrecisionEnds(DecimalType),
    /// The scale behind the precision.
    Scale(DecimalType),
    /// The bracket behind the precision and the scale.
    ScaleCloses(DecimalType),
    /// The bracket behind `timestamp`.
    TimestampOpens,
    /// The unit.
    Unit,
    /// A comma behind the unit, or the closing bracket.
    UnitEnds(TimeUnit),
    /// The zone behind the unit.
    Zone(TimeUnit),
    /// The bracket behind the zone.
    ZoneCloses(TimeUnit, ArcStr),
    /// The first field, or the end of a struct without one.
    FirstField(FieldsSoFar),
    /// Another field.
    NextField(FieldsSoFar),
    /// The sign between a field's name and its type.
    FieldType(FieldsSoFar, FieldName),
    /// A type is there, but for a question mark.
    Unmarked(DType),
    /// A type is there.
    Whole(DType),
}

/// A type that is being read.
#[derive(Drop)]
pub struct TypeReader {
    /// What is open, the innermost last.
    pub frames: Vec<TypeFrame>,
    /// What is due.
    pub mode: TypeMode,
    /// How many more brackets are allowed inside.
    pub room: usize,
}

/// What a token makes of a type that is being read.
#[derive(Drop)]
pub enum TypeStep {
    /// The token is a part of it.
    More(TypeReader),
    /// The type has ended before the token.
    Done(DType),
}
