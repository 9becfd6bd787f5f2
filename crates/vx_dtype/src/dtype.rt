// Types of columns.
ghost use Rattle.std.specs.Prelude.{◌≡◌, IfOk, Ok, false, length, option_map, true};
ghost use Rattle.vx_dtype.specs.Returns.{ReturnsOrOom};
ghost use Rattle.vx_dtype.specs.Types.{atomic, floating, is_nullable, items_type, number, struct_fields, ty, with_nullability};
ghost use Rattle.vx_dtype.specs.Views.{admits_null, type_of, fields_of, fields_view, names_of};

use crate::{DecimalType, FieldNames, FloatType, TimestampType, VortexResult};
use std::alloc::{AllocError, Global};
use std::sync::Arc;

/// Whether null is a value of a type.
#[derive(Clone, Copy, Debug, PartialEq, Eq, Hash)]
pub enum Nullability {
    /// Null is no value of the type.
    NonNullable,
    /// Null is a value of the type.
    Nullable,
}

/// The types of whole numbers, by their ranges.
#[derive(Clone, Copy, Debug, PartialEq, Eq, Hash)]
pub enum PType {
    /// From 0 to 255.
    U8,
    /// From 0 to 65,535.
    U16,
    /// From 0 to 4,294,967,295.
    U32,
    /// From 0 to 18,446,744,073,709,551,615.
    U64,
    /// From -128 to 127.
    I8,
    /// From -32,768 to 32,767.
    I16,
    /// From -2,147,483,648 to 2,147,483,647.
    I32,
    /// From -9,223,372,036,854,775,808 to 9,223,372,036,854,775,807.
    I64,
}

/// The type of a value or of a column's rows; clones share what it points to.
#[cycle(dtype)]
#[derive(Debug)]
pub enum DType {
    /// Truth values.
    Bool(Nullability),
    /// Whole numbers in the range of the `PType`.
    Primitive(PType, Nullability),
    /// Floating-point numbers of that format, with one NaN.
    Float(FloatType, Nullability),
    /// Decimals of that precision and scale.
    Decimal(DecimalType, Nullability),
    /// Days, counted from the first of January 1970, in 32 bits.
    Date(Nullability),
    /// Instants, counted from the beginning of the year 1970 in the type's unit, in 64 bits.
    Timestamp(TimestampType, Nullability),
    /// Texts.
    Utf8(Nullability),
    /// Bytes.
    Binary(Nullability),
    /// Lists of any length, whose items are of the element type.
    List(Arc<DType>, Nullability),
    /// Lists of exactly that length, whose items are of the element type.
    FixedSizeList(Arc<DType>, u32, Nullability),
    /// Structs, with a value for each field.
    Struct(StructFields, Nullability),
}

/// The fields of a struct, names and types side by side: a name without a type is no field.
#[cycle(dtype)]
#[derive(Debug)]
pub struct StructFields {
    pub(crate) names: FieldNames,
    pub(crate) types: Arc<Vec<DType>>,
}

// (a drop that is written is one call wherever a type is let go, which proofs step over)
impl Drop for DType {
    #[cycle(let_go)]
    fn drop(self) {
        match self {
            DType::Bool(_)
            | DType::Primitive(_, _)
            | DType::Float(_, _)
            | DType::Decimal(_, _)
            | DType::Date(_)
            | DType::Utf8(_)
            | DType::Binary(_) => {}
            DType::Timestamp(timestamp, _) => drop(timestamp),
            DType::List(element, _) | DType::FixedSizeList(element, _, _) => drop(element),
            DType::Struct(fields, _) => drop(fields),
        }
    }
}

impl Drop for StructFields {
    #[cycle(let_go)]
    fn drop(self) {
        let StructFields { names, types } = self;
        drop(names);
        drop(types);
    }
}

impl Nullability {
    /// Whether null is a value.
    pub fn admits_null(self) -> bool
        ensures { result ≡ admits_null self }
    {
        match self {
            Nullability::NonNullable => false,
            Nullability::Nullable => true,
        }
    }

    /// Nullable where that is true.
    pub fn of(nullable: bool) -> Nullability
        ensures { admits_null result ≡ nullable }
    {
        if nullable {
            Nullability::Nullable
        } else {
            Nullability::NonNullable
        }
    }
}

impl DType {
    /// The outer nullability.
    pub fn nullability(&self) -> Nullability
        ensures { admits_null result ≡ is_nullable (type_of self.now) }
    {
        match self {
            DType::Bool(n) => *n,
            DType::Primitive(_, n) => *n,
            DType::Float(_, n) => *n,
            DType::Decimal(_, n) => *n,
            DType::Date(n) => *n,
            DType::Timestamp(_, n) => *n,
            DType::Utf8(n) => *n,
            DType::Binary(n) => *n,
            DType::List(_, n) => *n,
            DType::FixedSizeList(_, _, n) => *n,
            DType::Struct(_, n) => *n,
        }
    }

    /// Whether null is a value of the type.
    pub fn is_nullable(&self) -> bool
        ensures { result ≡ is_nullable (type_of self.now) }
    {
        self.nullability().admits_null()
    }

    /// The type with another outer nullability.
    pub fn with_nullability(self, nullability: Nullability) -> DType
        ensures { type_of result ≡ with_nullability (admits_null nullability) (type_of self) }
    {
        match self {
            DType::Bool(_) => DType::Bool(nullability),
            DType::Primitive(p, _) => DType::Primitive(p, nullability),
            DType::Float(p, _) => DType::Float(p, nullability),
            DType::Decimal(decimal, _) => DType::Decimal(decimal, nullability),
            DType::Date(_) => DType::Date(nullability),
            DType::Timestamp(timestamp, _) => DType::Timestamp(timestamp, nullability),
            DType::Utf8(_) => DType::Utf8(nullability),
            DType::Binary(_) => DType::Binary(nullability),
            DType::List(t, _) => DType::List(t, nullability),
            DType::FixedSizeList(t, size, _) => DType::FixedSizeList(t, size, nullability),
            DType::Struct(fields, _) => DType::Struct(fields, nullability),
        }
    }

    /// The type of the same values, and of null.
    pub fn as_nullable(self) -> DType
        ensures { type_of result ≡ with_nullability true (type_of self) }
    {
        self.with_nullability(Nullability::Nullable)
    }

    /// The type of the items, if this is a type of lists, of any length or of one.
    pub fn as_any_size_list_element_opt(&self) -> Option<&DType>
        ensures { option_map (λ t. type_of t.now) result ≡ items_type (type_of self.now) }
    {
        match self {
            DType::List(element, _) | DType::FixedSizeList(element, _, _) => Some(element.as_ref()),
            _ => None,
        }
    }

    /// The fields, if this is a struct type.
    pub fn as_struct_fields_opt(&self) -> Option<&StructFields>
        ensures { option_map (λ s. fields_of s.now) result ≡ struct_fields (type_of self.now) }
    {
        match self {
            DType::Struct(fields, _) => Some(fields),
            _ => None,
        }
    }
}

impl From<PType> for DType {
    /// The whole numbers in that range, without null.
    ghost from_gives = { λ ptype dtype. type_of dtype ≡ ty (atomic (number ptype)) false };

    fn from(ptype: PType) -> DType {
        DType::Primitive(ptype, Nullability::NonNullable)
    }
}

impl From<FloatType> for DType {
    /// The floating-point numbers of that format.
    ghost from_gives = { λ format dtype. type_of dtype ≡ ty (atomic (floating format)) false };

    fn from(format: FloatType) -> DType {
        DType::Float(format, Nullability::NonNullable)
    }
}

impl StructFields {
    /// Each name with the type beside it. Asks as many types as names, and refuses with
    /// `OutOfMemory` (1) alone.
    pub fn new(alloc: Global, names: FieldNames, types: Vec<DType>) -> VortexResult<StructFields>
        requires { length names ≡ length types.items }
        ensures fields { ReturnsOrOom fields_of result (Ok (fields_view names types.items)) }
        ensures names { IfOk result (λ s. names_of s ≡ names) }
    {
        Ok(struct_of(alloc, names, types)?)
    }
}

// Each name with the type beside it, as long as both last.
pub(crate) fn struct_of(
    alloc: Global,
    names: FieldNames,
    types: Vec<DType>,
) -> Result<StructFields, AllocError>
    ensures fields { IfOk result (λ s. fields_of s ≡ fields_view names types.items) }
    ensures names { IfOk result (λ s. names_of s ≡ names) }
{
    Ok(StructFields {
        names,
        types: Arc::new(alloc, types)?,
    })
}
