// Errors as messages.
use crate::error::RowsError;
use std::fmt;
use std::fmt::{Display, Formatter, Write};
use vx_command_pages::{Help, Input, Message, Shown, Span};
use vx_data::{DataError, WriteError};
use vx_dtype::VortexError;
use vx_records::{RecordFault, RecordsError};
use vx_source::TypeText;

/// An error as a message to a person, with the place in the text underlined where it is of the
/// expression or the schema, and no end of line behind it. Takes no memory.
#[derive(Clone, Copy)]
pub struct RowsMessage<'a> {
    /// The error.
    pub error: &'a RowsError,
    /// The expression that the command was given.
    pub expression: Input<'a>,
    /// The schema.
    pub schema: Input<'a>,
    /// What the file of the records is called.
    pub data: &'a str,
}

impl Display for RowsMessage<'_> {
    fn fmt<W: Write>(&self, f: &mut Formatter<W>) -> fmt::Result {
        match self.error {
            RowsError::Query(error) => {
                let message = Message {
                    error,
                    expression: self.expression,
                    schema: self.schema,
                };
                message.fmt(f)
            }
            RowsError::NotBool(dtype) => {
                let all = Span {
                    start: 0,
                    end: self.expression.text.len(),
                };
                let message = format_args!(
                    "records are kept by truth values, and these are of the type {}",
                    TypeText(dtype)
                );
                let help = "write a comparison, as in x > 0, or a test, as in x is not null";
                let report = self
                    .expression
                    .report(&message, all, Some(Help::Said(help)));
                report.fmt(f)
            }
            RowsError::Records { error, span } => self.write_stop(error, *span, f),
        }
    }
}

impl RowsMessage<'_> {
    // What stopped going over the records.
    fn write_stop<W: Write>(
        &self,
        error: &RecordsError,
        span: Span,
        f: &mut Formatter<W>,
    ) -> fmt::Result {
        match error {
            RecordsError::OutOfMemory => f.write_str("error: out of memory"),
            RecordsError::Data(e) => write!(f, "error: {}: {}", Shown(self.data), Shown(e)),
            RecordsError::Write(e) => write!(f, "error: writing: {}", Shown(e)),
            RecordsError::Fault(fault) => self.write_fault(fault, span, f),
        }
    }

    // The fault, and the record that it is at.
    fn write_fault<W: Write>(
        &self,
        fault: &RecordFault,
        span: Span,
        f: &mut Formatter<W>,
    ) -> fmt::Result {
        let refusal = &fault.refusal;
        let message = FaultText(refusal);
        let report = self.expression.report(&message, span, help_for(refusal));
        report.fmt(f)?;
        match fault.line {
            Some(line) => write!(f, "\n  = record: {}, line {line}", Shown(self.data)),
            None => Ok(()),
        }
    }
}

// What a fault is, without its row, which is counted from some record within the file.
#[derive(Clone, Copy)]
struct FaultText<'a>(&'a VortexError);

impl Display for FaultText<'_> {
    fn fmt<W: Write>(&self, f: &mut Formatter<W>) -> fmt::Result {
        match self.0 {
            VortexError::AddOverflow { .. } => f.write_str("the result is out of range"),
            VortexError::CastNull { .. } => f.write_str("the null would be made non-null"),
            VortexError::DivisionByZero { .. } => f.write_str("the divisor is zero"),
            refusal => refusal.fmt(f),
        }
    }
}

// What would do in place of what faults, None where the fault says it.
fn help_for(refusal: &VortexError) -> Option<Help<'static>> {
    match refusal {
        VortexError::AddOverflow { .. } => Some(Help::Said(
            "say a wider type in the schema, as i64",
        )),
        VortexError::CastNull { .. } => Some(Help::Said(
            "fill the nulls before, as in coalesce(x, 0)",
        )),
        VortexError::DivisionByZero { .. } => Some(Help::Said(
            "make the zeros null before, as in x / mask(y, y != 0)",
        )),
        _ => None,
    }
}
