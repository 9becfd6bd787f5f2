// Errors as messages.
use crate::error::CommandError;
use crate::help::{help_for, help_for_unread};
use crate::remedy::{Help, Remedy};
use crate::report::{Report, Span};
use crate::unfit::UnfitText;
use std::fmt;
use std::fmt::{Display, Formatter, Write};
use vx_tree::VortexError;

/// A text that a command is given, and what messages call it.
#[derive(Clone, Copy, Debug)]
pub struct Input<'a> {
    /// What it is called, as `expression` or the name of a file.
    pub name: &'a str,
    /// The text.
    pub text: &'a str,
    /// Whether it is rather the name of a file, whose text may be meant.
    pub names_file: bool,
}

impl<'a> Input<'a> {
    /// The text under that name.
    pub fn new(name: &'a str, text: &'a str) -> Input<'a> {
        Input {
            name,
            text,
            names_file: false,
        }
    }

    // What would do in place of the text where it can't be read.
    fn help(self) -> Option<Help<'a>> {
        if self.names_file {
            Some(Help::File(self.text))
        } else {
            None
        }
    }

    /// The message about those bytes of the text, with what would do.
    pub fn report<M: Display>(
        self,
        message: M,
        span: Span,
        help: Option<Help<'a>>,
    ) -> Report<'a, M> {
        Report {
            message,
            name: self.name,
            text: self.text,
            span,
            help,
        }
    }
}

/// An error as a message to a person, with the place in the text underlined, and no end of line
/// behind it. Takes no memory.
#[derive(Clone, Copy)]
pub struct Message<'a> {
    /// The error.
    pub error: &'a CommandError,
    /// The expression that the command was given.
    pub expression: Input<'a>,
    /// The schema; that of a command which takes none is never shown.
    pub schema: Input<'a>,
}

impl Display for Message<'_> {
    fn fmt<W: Write>(&self, f: &mut Formatter<W>) -> fmt::Result {
        match self.error {
            CommandError::OutOfMemory => f.write_str("error: out of memory"),
            CommandError::UnreadExpression { at, expected } => {
                let help = help_for_unread(self.expression.text, *at, expected).map(Help::Said);
                let report = self.expression.report(expected, place(*at), help);
                report.fmt(f)
            }
            CommandError::UnreadSchema { at, expected } => {
                let report = self.schema.report(expected, place(*at), self.schema.help());
                report.fmt(f)
            }
            CommandError::Unfit(literal) => {
                let text = self.expression.text;
                let help = Some(Help::Literal(literal, text));
                let told = UnfitText { literal, text };
                let report = self.expression.report(told, literal.span, help);
                report.fmt(f)
            }
            CommandError::Refused {
                span,
                refusal,
                remedy,
            } => {
                let help = self.help(refusal, remedy.as_ref());
                let report = self.expression.report(refusal, *span, help);
                report.fmt(f)
            }
        }
    }
}

impl<'a> Message<'a> {
    // What would do in place of what is refused: what the remedy says, or else the refusal's help.
    fn help(&self, refusal: &VortexError, remedy: Option<&'a Remedy>) -> Option<Help<'a>> {
        match (remedy, help_for(refusal)) {
            (Some(remedy), _) => Some(Help::Remedy(remedy, self.expression.text)),
            (None, Some(help)) => Some(Help::Said(help)),
            (None, None) => None,
        }
    }
}

// The place at which reading stopped.
fn place(at: usize) -> Span {
    Span { start: at, end: at }
}
