// The names of a function's children.
ghost use Rattle.std.specs.Prelude.{◌≡◌, ◌<◌, Ok, Some};
ghost use Rattle.std.specs.Fmt.{WritesOnOk};
ghost use Rattle.vx_value.specs.Returns.{ReturnsOrOom};
ghost use Rattle.vx_fn.specs.ChildNames.{case_child_name, child_name_of, child_word};
ghost use Rattle.vx_fn.specs.Functions.{arity_of};
ghost use Rattle.vx_fn.specs.Views.{function_of};

use crate::ScalarFnRef;
use std::alloc::Global;
use std::fmt;
use std::fmt::{Display, Formatter, Write};
use vx_dtype::{FieldName, VortexResult};

/// The name of a function's child, as a text that takes no memory.
#[derive(Clone, Copy)]
pub struct ChildName<'a> {
    /// The function.
    pub scalar_fn: &'a ScalarFnRef,
    /// The place of the child among its children.
    pub index: usize,
}

impl Display for ChildName<'_> {
    ghost output = { λ c. Some (child_name_of (function_of c.scalar_fn.now) c.index) };

    fn fmt<W: Write>(&self, f: &mut Formatter<W>) -> fmt::Result {
        match self.scalar_fn {
            ScalarFnRef::CaseWhen(options) => {
                write_case_child(options.num_when_then_pairs, self.index, f)
            }
            ScalarFnRef::Pack(options) => match options.names.as_slice().get(self.index) {
                Some(name) => name.fmt(f),
                None => Ok(()),
            },
            _ => f.write_str(child_word(self.scalar_fn, self.index)),
        }
    }
}

fn child_word(scalar_fn: &ScalarFnRef, index: usize) -> &'static str
    ensures { result.now ≡ child_word (function_of scalar_fn.now) index }
{
    match (scalar_fn, index) {
        (ScalarFnRef::Literal(_), _) => "",
        (ScalarFnRef::Select(_), _) => "child",
        (ScalarFnRef::FillNull(_), 0) => "input",
        (ScalarFnRef::FillNull(_), _) => "fill_value",
        (ScalarFnRef::Zip(_), 0) => "if_true",
        (ScalarFnRef::Zip(_), 1) => "if_false",
        (ScalarFnRef::Zip(_), _) => "mask",
        (ScalarFnRef::Binary(_), 0) => "lhs",
        (ScalarFnRef::Binary(_), _) => "rhs",
        (ScalarFnRef::Between(_), 0) => "array",
        (ScalarFnRef::Between(_), 1) => "lower",
        (ScalarFnRef::Between(_), _) => "upper",
        (ScalarFnRef::Like(_), 0) => "child",
        (ScalarFnRef::Like(_), _) => "pattern",
        (ScalarFnRef::Mask(_), 0) => "input",
        (ScalarFnRef::Mask(_), _) => "mask",
        (ScalarFnRef::StartsWith(_), 0) => "input",
        (ScalarFnRef::StartsWith(_), _) => "prefix",
        (ScalarFnRef::ListContains(_), 0) => "list",
        (ScalarFnRef::ListContains(_), _) => "needle",
        _ => "input",
    }
}

fn write_case_child<W: Write>(pairs: u32, index: usize, f: &mut Formatter<W>) -> fmt::Result
    ensures { WritesOnOk W.write_str_gives f.old result (case_child_name pairs index) f.new }
{
    if index == 2 * (pairs as usize) {
        return f.write_str("else");
    }
    let pair = index / 2;
    if index % 2 == 0 {
        write!(f, "when_{pair}")
    } else {
        write!(f, "then_{pair}")
    }
}

impl ScalarFnRef {
    /// The name of the child at that place. Asks a place below the arity.
    pub fn child_name(&self, alloc: Global, index: usize) -> VortexResult<FieldName>
        requires { index < arity_of (function_of self.now) }
        ensures { ReturnsOrOom (λ name. name) result (Ok (child_name_of (function_of self.now) index)) }
    {
        let name = ChildName {
            scalar_fn: self,
            index,
        };
        let text = name.to_string(alloc)?;
        Ok(FieldName::new(alloc, text.as_str())?)
    }
}
