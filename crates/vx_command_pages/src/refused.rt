// What is told of a refused node: the types of what it is given or the fields that there are, and what would do.
use crate::fields::fields_told;
use crate::help::help_for;
use crate::remedy::{Part, Remedy, Role};
use crate::report::Span;
use std::alloc::{AllocError, Global};
use vx_source::{Places, ScalarText, TypeText};
use vx_tree::{
    DType, Expression, FieldName, PType, Scalar, ScalarFnRef, Value, VortexError, VortexResult,
};

/// A node that is refused, and what it was read from.
#[derive(Clone, Copy)]
pub(crate) struct RefusedNode<'a> {
    /// Its function.
    pub scalar_fn: &'a ScalarFnRef,
    /// What it is given.
    pub children: &'a [Expression],
    /// The bytes that these were read from.
    pub places: &'a [Places],
    /// The type of the rows.
    pub scope: &'a DType,
    /// What it is refused with.
    pub refusal: &'a VortexError,
}

// What the node is given that its refusal is about.
#[derive(Drop)]
struct Operand<'a> {
    role: Role,
    node: &'a Expression,
    place: Option<Span>,
    dtype: DType,
}

// How many operands are told of at most.
const TOLD: usize = 3;

impl<'a> RefusedNode<'a> {
    /// The remedy, None where nothing is known beside the refusal. Refuses with `OutOfMemory` (1)
    /// alone where each child has a type.
    pub(crate) fn remedy(&self, alloc: Global) -> VortexResult<Option<Remedy>> {
        if let (VortexError::NoSuchField(name), [input]) = (self.refusal, self.children) {
            return self.other_fields(alloc, input, name);
        }
        if let (VortexError::NotAStruct, [input]) = (self.refusal, self.children)
            && matches!(input, Expression::Root)
        {
            return Ok(Some(no_fields(alloc, self.scope)?));
        }
        let operands = self.operands(alloc)?;
        if operands.is_empty() {
            return Ok(None);
        }
        let advice = self.advice(alloc, operands.as_slice())?;
        let parts = parts_of(alloc, operands.as_slice())?;
        Ok(Some(Remedy { parts, advice }))
    }

    // Which fields the input has in place of that one.
    fn other_fields(
        &self,
        alloc: Global,
        input: &Expression,
        name: &FieldName,
    ) -> VortexResult<Option<Remedy>> {
        let dtype = input.return_dtype(alloc, self.scope)?;
        match &dtype {
            DType::Struct(fields, _) => Ok(Some(Remedy {
                parts: Vec::new(alloc),
                advice: fields_told(alloc, fields, name)?,
            })),
            _ => Ok(None),
        }
    }

    // The operands that are told of.
    fn operands(&self, alloc: Global) -> VortexResult<Vec<Operand<'a>>> {
        let mut operands = Vec::new(alloc);
        for (index, node) in self.children.iter().enumerate() {
            if operands.len() < TOLD
                && let Some(role) = self.role_at(index)
            {
                let dtype = node.return_dtype(alloc, self.scope)?;
                if self.is_told(role, &dtype, operands.as_slice()) {
                    let place = self.place_at(index);
                    operands.push(Operand {
                        role,
                        node,
                        place,
                        dtype,
                    })?;
                }
            }
        }
        Ok(operands)
    }

    // What the child at that index is, None where the refusal isn't about it.
    fn role_at(&self, index: usize) -> Option<Role> {
        let is_last = index.saturating_add(1) == self.children.len();
        let roles: &'static [Role] = match (self.scalar_fn, self.refusal) {
            (ScalarFnRef::CaseWhen(_), refusal) => return case_role(refusal, index, is_last),
            (ScalarFnRef::Zip(_) | ScalarFnRef::Mask(_), VortexError::NotBool) => {
                return if is_last { Some(Role::Mask) } else { None };
            }
            (ScalarFnRef::Binary(_) | ScalarFnRef::Like(_) | ScalarFnRef::StartsWith(_), _) => {
                &[Role::Left, Role::Right]
            }
            (ScalarFnRef::ListContains(_), VortexError::NotComparable) => {
                return if is_last { Some(Role::Value) } else { None };
            }
            (ScalarFnRef::ListContains(_), _) => &[Role::List, Role::Value],
            (ScalarFnRef::Between(_), _) => &[Role::Value, Role::Lower, Role::Upper],
            (ScalarFnRef::FillNull(_), _) => &[Role::Value, Role::Fill],
            (ScalarFnRef::Zip(_), _) => &[Role::Value, Role::Other],
            _ => &[Role::Value],
        };
        roles.get(index).copied()
    }

    // Whether an operand of that type is told of behind these.
    fn is_told(&self, role: Role, dtype: &DType, before: &[Operand<'_>]) -> bool {
        match self.refusal {
            VortexError::NotBool => role == Role::Mask || !matches!(dtype, DType::Bool(_)),
            VortexError::BaseTypesDiffer => match before.first() {
                Some(first) => !first.dtype.eq_ignore_nullability(dtype),
                None => true,
            },
            VortexError::NotComparable => before.is_empty() && !is_atomic(dtype),
            VortexError::NotAStruct | VortexError::NotNumeric | VortexError::NotText => true,
            _ => false,
        }
    }

    // The bytes that the child at that index was read from, where it has some of its own.
    fn place_at(&self, index: usize) -> Option<Span> {
        let place = self.places.get(index)?;
        Some(Span {
            start: place.start,
            end: place.end,
        })
    }

    // What would do, an empty text where that isn't known.
    fn advice(&self, alloc: Global, operands: &[Operand<'_>]) -> VortexResult<String> {
        match (self.refusal, self.scalar_fn) {
            (VortexError::BaseTypesDiffer, ScalarFnRef::Cast(_)) => {
                Ok(String::from_str(alloc, "a cast changes nullability alone")?)
            }
            (VortexError::BaseTypesDiffer, _) => numbers_of_one_type(alloc, operands),
            (refusal, _) => Ok(String::from_str(alloc, help_for(refusal).unwrap_or(""))?),
        }
    }
}

// What is told of a field of rows that have none.
fn no_fields(alloc: Global, scope: &DType) -> Result<Remedy, AllocError> {
    let dtype = type_told(alloc, scope)?;
    Ok(Remedy {
        parts: Vec::new(alloc),
        advice: format!(in alloc; "the schema is {dtype}, which has no fields: `$` is the row")?,
    })
}

fn is_atomic(dtype: &DType) -> bool {
    !matches!(
        dtype,
        DType::List(_, _) | DType::FixedSizeList(_, _, _) | DType::Struct(_, _)
    )
}

// What that child of a CASE is: conditions and branches stand in turn, and the ELSE value last.
fn case_role(refusal: &VortexError, index: usize, is_last: bool) -> Option<Role> {
    let is_branch = index % 2 == 1;
    match refusal {
        VortexError::NotBool if !is_branch && !is_last => Some(Role::Condition),
        VortexError::BaseTypesDiffer if is_branch => Some(Role::Branch),
        VortexError::BaseTypesDiffer if is_last => Some(Role::Else),
        _ => None,
    }
}

// The operands as they are told.
fn parts_of(alloc: Global, operands: &[Operand<'_>]) -> Result<Vec<Part>, AllocError> {
    let mut parts = Vec::new(alloc);
    for operand in operands {
        let dtype = type_told(alloc, &operand.dtype)?;
        parts.push(Part {
            cited: if is_short(operand.node) {
                operand.place
            } else {
                None
            },
            role: operand.role,
            dtype,
        })?;
    }
    Ok(parts)
}

// Whether the node is a path or a literal.
fn is_short(node: &Expression) -> bool {
    match node {
        Expression::Root => true,
        Expression::Scalar {
            scalar_fn,
            children,
        } => match (scalar_fn, children.as_slice()) {
            (ScalarFnRef::Literal(_), _) => true,
            (ScalarFnRef::GetItem(_), [input]) => is_short(input),
            _ => false,
        },
    }
}

// How many characters of a type are told at most.
const TYPE_TOLD: usize = 60;

// The type as source text, cut where it is long.
fn type_told(alloc: Global, dtype: &DType) -> Result<String, AllocError> {
    let text = format!(in alloc; "{}", TypeText(dtype))?;
    if text.as_str().chars().nth(TYPE_TOLD).is_none() {
        return Ok(text);
    }
    let mut told = String::new(alloc);
    for c in text.as_str().chars().take(TYPE_TOLD) {
        told.push(c)?;
    }
    told.push_str("...")?;
    Ok(told)
}

// How the literals among the operands are written as numbers of the type that the others have; an empty
// text where others differ, or have no type of whole numbers.
fn numbers_of_one_type(alloc: Global, operands: &[Operand<'_>]) -> VortexResult<String> {
    let Some(wanted) = ptype_wanted(operands) else {
        return Ok(String::new(alloc));
    };
    let mut advice = String::new(alloc);
    for operand in operands {
        let dtype = DType::from(wanted);
        if operand.dtype.eq_ignore_nullability(&dtype) {
            continue;
        }
        let Some(number) = number_at(operand.node) else {
            return Ok(String::new(alloc));
        };
        let Ok(literal) = Scalar::try_new(dtype, Value::Int(number)) else {
            return Ok(format!(in alloc; "{number} doesn't fit {wanted}")?);
        };
        let before = if advice.is_empty() { "write " } else { " and " };
        advice.push_str(format!(in alloc; "{before}{}", ScalarText(&literal))?.as_str())?;
    }
    Ok(advice)
}

// The type of whole numbers of the first operand that is no literal number.
fn ptype_wanted(operands: &[Operand<'_>]) -> Option<PType> {
    for operand in operands {
        if number_at(operand.node).is_none() {
            return match operand.dtype {
                DType::Primitive(ptype, _) => Some(ptype),
                _ => None,
            };
        }
    }
    None
}

// The number of a literal that is of a type of whole numbers.
fn number_at(node: &Expression) -> Option<i128> {
    match node.as_scalar() {
        Some(ScalarFnRef::Literal(scalar)) => match (scalar.dtype(), scalar.value()) {
            (DType::Primitive(..), Value::Int(number)) => Some(*number),
            _ => None,
        },
        _ => None,
    }
}
