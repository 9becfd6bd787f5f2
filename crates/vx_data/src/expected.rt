// What would have stood right where a record was refused.
use std::fmt;
use std::fmt::{Display, Formatter, Write};
use thiserror::Error;
use vx_dtype::{DType, PType};

/// What a record lacks at the place where it was refused, or a row where it can't be written.
#[derive(Debug, Drop, Error)]
pub enum Expected {
    /// The record is no JSON, seen at that byte of it.
    #[error("expected JSON at byte {at} of the record")]
    Json { at: usize },
    /// A whole value is there, and more behind it.
    #[error("expected the end of the record at byte {at} of it")]
    End { at: usize },
    /// The record is no text.
    #[error("expected a text in UTF-8")]
    Utf8,
    /// Null is none of the type.
    #[error("expected a value that isn't null")]
    NotNull,
    /// A truth value.
    #[error("expected true or false")]
    Truth,
    /// A number of that type.
    #[error("expected a whole number from {range}, without a point or an exponent", range = Range(*.0))]
    Whole(PType),
    /// A number of any type.
    #[error("expected a whole number of at most 64 bits, without a point or an exponent")]
    WholeOfAnyType,
    /// A text.
    #[error("expected a text")]
    Text,
    /// Bytes.
    #[error("expected a text of 0x and two hexadecimal digits for each byte")]
    Bytes,
    /// A list.
    #[error("expected an array")]
    List,
    /// A list of that many items.
    #[error("expected an array of {0} items")]
    Items(u32),
    /// A struct.
    #[error("expected an object")]
    Struct,
    /// No field has that name.
    #[error("expected the name of a field of the type")]
    Field,
    /// A name stands there again.
    #[error("expected the name once")]
    Once,
    /// A field is absent that isn't nullable.
    #[error("expected the field to be there, since it isn't nullable")]
    Present,
    /// More is nested than can be guessed.
    #[error("expected at most {0} arrays and objects inside one another")]
    LessNesting(usize),
    /// No type has this value and those before it.
    #[error("expected the kind of value that stood here before")]
    SameKind,
    /// A value of the whole type.
    #[error("expected a value of the type {0}")]
    Value(DType),
    /// A value of the type, which the text that stands there doesn't say. Of a long text this is the beginning.
    #[error("expected a value of the type {dtype}, which {text} is not")]
    Said { dtype: DType, text: String },
    /// Two fields of a struct have that one name.
    #[error("expected a type whose fields have different names")]
    DistinctNames,
    /// A record has more cells than the first.
    #[error("expected at most {0} cells, as many as the first record has")]
    Cells(u64),
    /// No quote closes a cell of the record.
    #[error("expected a double quote that closes the cell which the one at byte {at} of the record opens")]
    ClosingQuote { at: usize },
    /// A cell goes on behind the quote that closes it.
    #[error("expected the end of the cell at byte {at} of the record, behind its closing double quote")]
    CellEnd { at: usize },
    /// The header lacks the name, and has others that the type doesn't have.
    #[error("expected the name to stand in the header, which has others")]
    InHeader,
    /// A name is a cell's, and those of other cells begin with it.
    #[error("expected the name of a cell, or the beginning of others, and not both")]
    CellOrStruct,
    /// A file has no header.
    #[error("expected a line with the names of the fields")]
    Header,
    /// A file without a header has no record that tells how many cells there are.
    #[error("expected a record, since the first one tells how many cells there are")]
    FirstRecord,
    /// A cell holds no list.
    #[error("expected a type that a cell can hold, which {0} is not")]
    CellType(DType),
    /// A row of no cell would be lost.
    #[error("expected a type with at least one cell")]
    SomeField,
    /// An empty text, which would be read as null.
    #[error("expected a text that isn't empty, since an empty cell is null")]
    NonEmptyText,
    /// Statistics of a chunk count more nulls than rows.
    #[error("expected no more nulls than rows")]
    NoMoreThanRows,
    /// Statistics of a chunk have a greatest value that comes before the least one.
    #[error("expected a value that isn't below the least one")]
    NotBelowLeast,
    /// A struct whose cells are all empty, which would be read as null.
    #[error("expected a cell that isn't empty, since a struct of empty cells is null")]
    NonEmptyCell,
}

// The range of a type of numbers, as `0 to 255`.
#[derive(Clone, Copy)]
struct Range(PType);

impl Display for Range {
    fn fmt<W: Write>(&self, f: &mut Formatter<W>) -> fmt::Result {
        f.write_str(match self.0 {
            PType::U8 => "0 to 255",
            PType::U16 => "0 to 65535",
            PType::U32 => "0 to 4294967295",
            PType::U64 => "0 to 18446744073709551615",
            PType::I8 => "-128 to 127",
            PType::I16 => "-32768 to 32767",
            PType::I32 => "-2147483648 to 2147483647",
            PType::I64 => "-9223372036854775808 to 9223372036854775807",
        })
    }
}
