// Refusals by their names, as tables write them.
use std::alloc::Global;
use std::fmt;
use vx_test_support::Unread;
use vx_tree::{FieldName, VortexError};

/// A refusal as its name, and behind it what it says in brackets: `NoSuchField(zz)`.
#[derive(Clone, Copy)]
pub struct Named<'a>(pub &'a VortexError);

impl fmt::Display for Named<'_> {
    fn fmt<W: fmt::Write>(&self, f: &mut fmt::Formatter<W>) -> fmt::Result {
        let name = name_of(self.0);
        match self.0 {
            VortexError::ArityMismatch { expected, got }
            | VortexError::PartitionCount { expected, got } => {
                write!(f, "{name}({expected},{got})")
            }
            VortexError::RootChildren { got } => write!(f, "{name}({got})"),
            VortexError::NoSuchField(field) | VortexError::PartitionNameTaken(field) => {
                write!(f, "{name}({field})")
            }
            VortexError::AddOverflow { row }
            | VortexError::CastNull { row }
            | VortexError::RowMisfit { row }
            | VortexError::DivisionByZero { row } => write!(f, "{name}({row})"),
            _ => f.write_str(name),
        }
    }
}

pub fn name_of(refusal: &VortexError) -> &'static str {
    match refusal {
        VortexError::OutOfMemory => "OutOfMemory",
        VortexError::ArityMismatch { .. } => "ArityMismatch",
        VortexError::RootChildren { .. } => "RootChildren",
        VortexError::NotAStruct => "NotAStruct",
        VortexError::NoSuchField(_) => "NoSuchField",
        VortexError::BaseTypesDiffer => "BaseTypesDiffer",
        VortexError::NotBool => "NotBool",
        VortexError::NotComparable => "NotComparable",
        VortexError::NotNumeric => "NotNumeric",
        VortexError::NotText => "NotText",
        VortexError::NoPairs => "NoPairs",
        VortexError::ScopeMismatch => "ScopeMismatch",
        VortexError::AddOverflow { .. } => "AddOverflow",
        VortexError::CastNull { .. } => "CastNull",
        VortexError::BadFill => "BadFill",
        VortexError::PartitionCount { .. } => "PartitionCount",
        VortexError::PartitionNameTaken(_) => "PartitionNameTaken",
        VortexError::RowMisfit { .. } => "RowMisfit",
        VortexError::LengthMismatch => "LengthMismatch",
        VortexError::DivisionByZero { .. } => "DivisionByZero",
    }
}

/// The refusal of that name, with what it says behind it in brackets.
pub fn refusal(alloc: Global, text: &str) -> Result<VortexError, Unread> {
    let Some((name, said)) = text.split_once('(') else {
        return Ok(plain(text).ok_or("no refusal")?);
    };
    let said = said.strip_suffix(')').ok_or("a bracket that isn't closed")?;
    match name {
        "NoSuchField" => Ok(VortexError::NoSuchField(FieldName::new(alloc, said)?)),
        "PartitionNameTaken" => Ok(VortexError::PartitionNameTaken(FieldName::new(alloc, said)?)),
        _ => Ok(counted(name, said).ok_or("no refusal that says so")?),
    }
}

fn plain(name: &str) -> Option<VortexError> {
    Some(match name {
        "OutOfMemory" => VortexError::OutOfMemory,
        "NotAStruct" => VortexError::NotAStruct,
        "BaseTypesDiffer" => VortexError::BaseTypesDiffer,
        "NotBool" => VortexError::NotBool,
        "NotComparable" => VortexError::NotComparable,
        "NotNumeric" => VortexError::NotNumeric,
        "NotText" => VortexError::NotText,
        "NoPairs" => VortexError::NoPairs,
        "ScopeMismatch" => VortexError::ScopeMismatch,
        "BadFill" => VortexError::BadFill,
        "LengthMismatch" => VortexError::LengthMismatch,
        _ => return None,
    })
}

fn counted(name: &str, said: &str) -> Option<VortexError> {
    if let Some((expected, got)) = said.split_once(',') {
        let expected = expected.parse().ok()?;
        let got = got.parse().ok()?;
        return match name {
            "ArityMismatch" => Some(VortexError::ArityMismatch { expected, got }),
            "PartitionCount" => Some(VortexError::PartitionCount { expected, got }),
            _ => None,
        };
    }
    let number = said.parse().ok()?;
    match name {
        "RootChildren" => Some(VortexError::RootChildren { got: number }),
        "AddOverflow" => Some(VortexError::AddOverflow { row: number }),
        "CastNull" => Some(VortexError::CastNull { row: number }),
        "RowMisfit" => Some(VortexError::RowMisfit { row: number }),
        "DivisionByZero" => Some(VortexError::DivisionByZero { row: number }),
        _ => None,
    }
}
