// What stops a run over the records of a file, and its message.
use crate::columns::{ColumnError, ColumnName};
use crate::data::{Guess, Schema};
use crate::error::RowsError;
use crate::message::RowsMessage;
use crate::number_texts::NumberTexts;
use crate::selected::SelectStop;
use std::fmt;
use std::fmt::{Display, Formatter, Write};
use vx_command_pages::{CommandError, Input, Shown, Span, Status};
use vx_data::{DataError, Expected};
use vx_dtype::VortexError;
use vx_records::RecordsError;
use vx_value::FieldPath;

/// Why a run ends early.
#[derive(Debug, Drop)]
pub(crate) enum Stop {
    /// At the command, or at going over the records.
    Rows(RowsError),
    /// At a type that is said of a column.
    Column(ColumnError),
    /// At the expression that is selected of records that are kept.
    Select(RowsError),
    /// At a number of that expression that stands beside a column of such texts.
    Numbers {
        of: CommandText,
        error: RowsError,
        texts: NumberTexts,
    },
}

/// Which of the expressions that a command is given.
#[derive(Clone, Copy, Debug)]
pub(crate) enum CommandText {
    /// The one that it is about.
    Expression,
    /// What is selected of records of which that is true.
    Select,
}

impl CommandText {
    /// Why a run ends that stops with that error of it.
    pub(crate) fn stop(self, error: CommandError) -> Stop {
        let error = RowsError::Query(error);
        match self {
            CommandText::Expression => Stop::Rows(error),
            CommandText::Select => Stop::Select(error),
        }
    }
}

impl Stop {
    ghost use Rattle.vx_commands.specs.Guesses.{IsOfError};

    /// How the run ends.
    #[tactic(auto, using(crate::proofs::Stopped::ends))]
    pub(crate) fn status(&self) -> Status
        ensures { IsOfError result }
    {
        match self {
            Stop::Rows(error) | Stop::Select(error) | Stop::Numbers { error, .. } => error.status(),
            Stop::Column(ColumnError::OutOfMemory) => Status::Failed,
            Stop::Column(ColumnError::Unread { .. } | ColumnError::Missing { .. }) => Status::Wrong,
        }
    }

    /// Whether what is written to is a pipe that its reader has closed.
    pub(crate) fn is_closed_pipe(&self) -> bool {
        match self {
            Stop::Rows(error) | Stop::Select(error) => error.is_closed_pipe(),
            Stop::Column(_) | Stop::Numbers { .. } => false,
        }
    }

    /// Whether it may be because of comments that are read as a header or as records.
    pub(crate) fn may_be_comments(&self) -> bool {
        match self {
            Stop::Rows(
                RowsError::Records {
                    error: RecordsError::Data(DataError::Unexpected { expected, .. }),
                    ..
                },
            ) => !is_misfit(expected),
            Stop::Rows(RowsError::Query(CommandError::Refused { refusal, .. })) => {
                matches!(refusal, VortexError::NoSuchField(_))
            }
            _ => false,
        }
    }
}

impl From<RowsError> for Stop {
    fn from(error: RowsError) -> Stop {
        Stop::Rows(error)
    }
}

impl From<CommandError> for Stop {
    fn from(error: CommandError) -> Stop {
        Stop::Rows(RowsError::Query(error))
    }
}

impl From<SelectStop> for Stop {
    fn from(stop: SelectStop) -> Stop {
        match stop {
            SelectStop::Condition(error) => Stop::Rows(error),
            SelectStop::Value(error) => Stop::Select(error),
        }
    }
}

impl From<ColumnError> for Stop {
    fn from(error: ColumnError) -> Stop {
        Stop::Column(error)
    }
}

/// What stopped a run, as a message to a person, and no end of line behind it. Takes no memory.
#[derive(Clone, Copy)]
pub(crate) struct StopMessage<'a> {
    /// What stopped it.
    pub(crate) stop: &'a Stop,
    /// The expression that the command was given.
    pub(crate) expression: Input<'a>,
    /// What is selected of records that are kept.
    pub(crate) select: Input<'a>,
    /// The type of the records.
    pub(crate) schema: Schema<'a>,
    /// What the file of the records is called.
    pub(crate) data: &'a str,
    /// Whether it seems to begin with a comment that is read as its header.
    pub(crate) has_comments: bool,
}

impl Display for StopMessage<'_> {
    fn fmt<W: Write>(&self, f: &mut Formatter<W>) -> fmt::Result {
        match self.stop {
            Stop::Rows(error) => {
                self.write_error(error, self.expression, f)?;
                self.write_help(error, f)
            }
            Stop::Select(error) => self.write_error(error, self.select, f),
            Stop::Numbers { of, error, texts } => {
                self.write_error(error, self.text(*of), f)?;
                write!(f, "\n  = help: {texts}")?;
                if texts.has_no_word() {
                    self.write_floats(f)?;
                }
                Ok(())
            }
            Stop::Column(error) => self.write_column(error, f),
        }
    }
}

impl<'a> StopMessage<'a> {
    // That expression.
    fn text(&self, of: CommandText) -> Input<'a> {
        match of {
            CommandText::Expression => self.expression,
            CommandText::Select => self.select,
        }
    }

    // The error, of that expression.
    fn write_error<W: Write>(
        &self,
        error: &RowsError,
        expression: Input<'_>,
        f: &mut Formatter<W>,
    ) -> fmt::Result {
        let message = RowsMessage {
            error,
            expression,
            schema: self.schema.input(),
            data: self.data,
        };
        message.fmt(f)
    }

    // What would do, if it is known beside what the error says.
    fn write_help<W: Write>(&self, error: &RowsError, f: &mut Formatter<W>) -> fmt::Result {
        if self.has_comments {
            return f.write_str(
                "\n  = help: the file begins with `#`: --comment '#' leaves out lines that do",
            );
        }
        let Schema::Guessed(guess) = self.schema else {
            return Ok(());
        };
        match guess.misfit(error) {
            Some(at) => write_remedy(guess, at, f),
            None => Ok(()),
        }
    }

    // What takes numbers as floating-point numbers that aren't decimals of one scale, where decimals are asked for.
    fn write_floats<W: Write>(&self, f: &mut Formatter<W>) -> fmt::Result {
        match self.schema {
            Schema::Guessed(Guess { decimals: true, .. }) => {
                f.write_str(": without --decimals those with a point are floating-point numbers")
            }
            _ => Ok(()),
        }
    }

    // What is wrong with the type that is said of a column.
    fn write_column<W: Write>(&self, error: &ColumnError, f: &mut Formatter<W>) -> fmt::Result {
        let columns = self.schema.columns();
        match error {
            ColumnError::OutOfMemory => f.write_str("error: out of memory"),
            ColumnError::Unread {
                column,
                at,
                expected,
            } => {
                let text = columns.get(*column).map_or("", |said| said.text);
                let place = Span {
                    start: *at,
                    end: *at,
                };
                let report = Input::new("type", text).report(expected, place, None);
                report.fmt(f)
            }
            ColumnError::Missing { column, nearest } => {
                let name = columns.get(*column).map_or("", |said| said.name);
                write!(
                    f,
                    "error: {} has no column {}",
                    Shown(self.data),
                    Shown(name)
                )?;
                match nearest {
                    Some(nearest) => write!(f, "\n  = help: there is {}", Shown(nearest.as_str())),
                    None => Ok(()),
                }
            }
        }
    }
}

impl Guess<'_> {
    // Where a record isn't of the type that was guessed, if that is what the error tells.
    fn misfit<'a>(self, error: &'a RowsError) -> Option<&'a FieldPath> {
        match error {
            RowsError::Records {
                error: RecordsError::Data(DataError::Unexpected { at, expected, .. }),
                ..
            } if self.records < u64::MAX && is_misfit(expected) && !self.says(at) => Some(at),
            _ => None,
        }
    }
}

// Whether a value of another type was expected.
fn is_misfit(expected: &Expected) -> bool {
    matches!(
        expected,
        Expected::NotNull
            | Expected::Truth
            | Expected::Whole(_)
            | Expected::Text
            | Expected::List
            | Expected::Struct
            | Expected::Field
            | Expected::Present
            | Expected::Value(_)
            | Expected::Said { .. }
    )
}

// What would do where a record isn't of the type that was guessed.
fn write_remedy<W: Write>(guess: Guess<'_>, at: &FieldPath, f: &mut Formatter<W>) -> fmt::Result {
    f.write_str("\n  = help: the type is that of the first ")?;
    match guess.records {
        1 => f.write_str("record")?,
        count => write!(f, "{count} records")?,
    }
    f.write_str(": --guess all takes that of all, ")?;
    if !at.is_root() {
        write!(f, "--type {}=TYPE says one, ", ColumnName(at))?;
    }
    f.write_str("--schema says all")
}
