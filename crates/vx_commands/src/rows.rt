// A run of the program over the records of a file.
use crate::asked::asked_paths;
use crate::chunk_plan::{ChunksForm, plan_chunks};
use crate::data::{DataFormat, GUESSED_JSON, Schema, Source, buffered, opened, unwritten};
use crate::error::RowsError;
use crate::explained::{ChunksQuery, explain_chunks};
use crate::expressions::{Expressions, read_expressions};
use crate::notes::Notes;
use crate::outputs::OutputFormat;
use crate::records_query::RecordsQuery;
use crate::run::tell_message;
use crate::stop::{Stop, StopMessage};
use crate::tasks::{ReadCommand, worked, written};
use std::alloc::Global;
use std::io::{Cursor, Read, Write};
use std::num::NonZeroUsize;
use vx_command_pages::{CommandError, Input, Shown, Status, explanation_of};
use vx_data::{CsvFormat, DataError, JsonFormat, WriteError};
use vx_dtype::DType;
use vx_prune::ChunkRecords;
use vx_records::{CsvRows, JsonRecords, RecordReader, Skipping};
use vx_source::Placed;

/// What is done with records.
#[derive(Clone, Copy, Debug, PartialEq, Eq)]
pub enum RecordsTask {
    /// Those of which the expression is true are written as they stand.
    Filter,
    /// The same, in chunks of so many records, and how many of these weren't evaluated is told.
    FilterByChunks(NonZeroUsize),
    /// How many there are of which the expression is true is written.
    Count,
    /// What is selected of those of which the expression is true is written in that form.
    Select(OutputFormat),
    /// What the expression means at each is written in that form.
    Evaluate(OutputFormat),
    /// The type of the records is written, what becomes of the expression, and what it means at each as
    /// JSON lines.
    Explain,
    /// What becomes of the expression is written, and what is known of it in each chunk: the records are
    /// statistics of chunks of rows of the schema's type, as JSON lines.
    ExplainChunks,
    /// Which chunks have to be read is written in that form; the records are such statistics.
    PlanChunks(ChunksForm),
}

impl RecordsTask {
    // Whether what may be meant otherwise is told of the expression.
    fn is_noted(self) -> bool {
        match self {
            RecordsTask::Filter
            | RecordsTask::FilterByChunks(_)
            | RecordsTask::Count
            | RecordsTask::Select(_)
            | RecordsTask::Evaluate(_) => true,
            RecordsTask::Explain | RecordsTask::ExplainChunks | RecordsTask::PlanChunks(_) => false,
        }
    }
}

/// A command that goes over the records of a file.
#[derive(Clone, Copy, Debug)]
pub struct RowsCommand<'a> {
    /// What is done with them.
    pub work: RecordsTask,
    /// The expression.
    pub expression: Input<'a>,
    /// What is selected of the records of which it is true: `$` where a task selects nothing.
    pub select: Input<'a>,
    /// The type of the records.
    pub schema: Schema<'a>,
    /// What the file is called.
    pub data: &'a str,
    /// In what form the records stand in it.
    pub format: DataFormat<'a>,
    /// How many records are gone over at most.
    pub limit: u64,
    /// Whether records that can't be read are left out, and counted.
    pub skips: bool,
}

impl RowsCommand<'_> {
    // The same, once its expressions are read.
    fn read<'p>(&self, placed: &'p Placed, value: &'p Placed) -> ReadCommand<'p> {
        let query = RecordsQuery {
            placed,
            limit: self.limit,
        };
        ReadCommand {
            work: self.work,
            query,
            value,
        }
    }
}

/// Runs the command over the records that the reader gives, which is read once, in blocks. What it prints is written on
/// `out` as it comes, and an error as a message on `err`, where a filter by chunks also tells how many
/// of them weren't evaluated, and notes tell of a comparison with null, and of a whole number that is a day. The status is `Done`; or `Wrong` for a text
/// that can't be read, an expression that is refused or faults, or a record that isn't of the schema's
/// type; or `Failed` where memory, the reader or a writer fails. Where `out` is a pipe that its reader has
/// closed, the run ends there as `Done`.
pub fn run_rows<D: Source + Drop, W: Write, E: Write>(
    alloc: Global,
    command: &RowsCommand<'_>,
    data: D,
    out: &mut W,
    err: &mut E,
) -> Status {
    let mut data = data;
    match gone_over(alloc, command, &mut data, out, &mut *err) {
        Ok(()) => Status::Done,
        Err(stop) if stop.is_closed_pipe() => Status::Done,
        Err(stop) => {
            let message = StopMessage {
                stop: &stop,
                expression: command.expression,
                select: command.select,
                schema: command.schema,
                data: command.data,
                has_comments: stop.may_be_comments() && command.format.has_comments(&mut data),
            };
            tell_message(alloc, &message, stop.status(), err)
        }
    }
}

// Goes over the records. Those that told their type are read once more.
fn gone_over<D: Source + Drop, W: Write, E: Write>(
    alloc: Global,
    command: &RowsCommand<'_>,
    data: &mut D,
    out: &mut W,
    err: &mut E,
) -> Result<(), Stop> {
    let (expressions, read) = read_expressions(alloc, command, &mut *data)?;
    let data = Cursor::new(read).chain(data);
    let run = Run {
        alloc,
        command,
        out,
        err,
    };
    match (command.work, command.format) {
        (RecordsTask::ExplainChunks | RecordsTask::PlanChunks(_), _) => {
            Ok(run.over_chunks(&expressions, data)?)
        }
        (_, DataFormat::Json) => run.over_json(expressions, data),
        (_, DataFormat::Csv(format)) => run.over_csv(format, expressions, data),
    }
}

// A command, and what it writes on.
#[derive(Drop)]
struct Run<'r, 'a, W: Write, E: Write> {
    alloc: Global,
    command: &'r RowsCommand<'a>,
    out: &'r mut W,
    err: &'r mut E,
}

impl<W: Write, E: Write> Run<'_, '_, W, E> {
    // Goes over the records of a file of JSON.
    fn over_json<D: Read + Drop>(self, expressions: Expressions, data: D) -> Result<(), Stop> {
        let lines = buffered(self.alloc, data)?;
        let Expressions {
            placed,
            value,
            scope,
        } = expressions;
        let scope = Box::into_inner(scope);
        let schema = self.command.schema;
        let format = json_format(schema, &scope);
        let records = JsonRecords::with_others(self.alloc, scope, format, schema.others(), lines);
        let read = self.command.read(&placed, &value);
        self.over(&read, records)
    }

    // Goes over the records of a CSV file of that format.
    fn over_csv<D: Read + Drop>(
        self,
        format: CsvFormat<'_>,
        expressions: Expressions,
        data: D,
    ) -> Result<(), Stop> {
        let Expressions {
            placed,
            value,
            scope,
        } = expressions;
        let scope = Box::into_inner(scope);
        let read = self.command.read(&placed, &value);
        let others = self.command.schema.others();
        let paths = asked_paths(self.alloc, &read, &scope);
        let records = opened(CsvRows::open_others(self.alloc, scope, format, others, data))?;
        let records = match paths {
            Some(paths) => records.along(&paths),
            None => records,
        };
        self.over(&read, records)
    }

    // Does with the records what the command says, and tells what may be meant otherwise.
    fn over<R: RecordReader + Drop>(self, read: &ReadCommand<'_>, records: R) -> Result<(), Stop> {
        let Run {
            alloc,
            command,
            out,
            err,
        } = self;
        let run = Run {
            alloc,
            command,
            out,
            err: &mut *err,
        };
        run.over_records(read, records)?;
        if command.work.is_noted() {
            // (a note changes nothing, and so does one that isn't written)
            let _ = write!(
                err,
                "{}",
                Notes::of(command.expression.text, read.query.placed)
            );
        }
        Ok(())
    }

    // Does with the records what the command says, and tells how many were left out that can't be read.
    fn over_records<R: RecordReader + Drop>(
        self,
        read: &ReadCommand<'_>,
        records: R,
    ) -> Result<(), Stop> {
        let Run {
            alloc,
            command,
            out,
            err,
        } = self;
        let mut records = records;
        if !command.skips {
            return worked(alloc, read, &mut records, out, err);
        }
        let mut records = Skipping::new(records);
        let done = worked(alloc, read, &mut records, out, &mut *err);
        if let Some(first) = records.first_refusal() {
            unwritten(told_skipped(records.skipped(), first, err))?;
        }
        done
    }

    // Does with the statistics of chunks that the records are what the command says.
    fn over_chunks<D: Read + Drop>(
        self,
        expressions: &Expressions,
        data: D,
    ) -> Result<(), RowsError> {
        let Run {
            alloc,
            command,
            out,
            ..
        } = self;
        if command.work == RecordsTask::ExplainChunks {
            write_explanation(alloc, expressions, &mut *out)?;
        }
        let Ok(chunks) = ChunkRecords::new(alloc, &expressions.scope) else {
            return Err(RowsError::Query(CommandError::OutOfMemory));
        };
        let Ok(dtype) = chunks.record_type() else {
            return Err(RowsError::Query(CommandError::OutOfMemory));
        };
        let mut records = JsonRecords::new(alloc, dtype, buffered(alloc, data)?);
        let query = ChunksQuery {
            placed: &expressions.placed,
            scope: &expressions.scope,
            chunks: &chunks,
            limit: command.limit,
        };
        match command.work {
            RecordsTask::PlanChunks(form) => plan_chunks(alloc, &query, form, &mut records, out),
            _ => explain_chunks(alloc, &query, &mut records, out),
        }
    }
}

// How JSON of that type is read: where it wasn't guessed, a text is a string; and an array on a line of its own is a list
// where the records are lists.
fn json_format(schema: Schema<'_>, scope: &DType) -> JsonFormat {
    match (schema, scope) {
        (Schema::Guessed(_), _) => GUESSED_JSON,
        (Schema::Said(_), DType::List(_, _) | DType::FixedSizeList(_, _, _)) => {
            JsonFormat::default()
        }
        (Schema::Said(_), _) => JsonFormat {
            any_layout: true,
            number_texts: false,
        },
    }
}

// Tells how many records were left out, and where the first stands.
fn told_skipped<E: Write>(count: u64, first: &DataError, err: &mut E) -> Result<(), WriteError> {
    if count == 1 {
        writeln!(err, "1 record skipped, at {}", Shown(first))?;
    } else {
        writeln!(
            err,
            "{count} records skipped, the first at {}",
            Shown(first)
        )?;
    }
    Ok(())
}

// Writes what becomes of the expression.
fn write_explanation<W: Write>(
    alloc: Global,
    expressions: &Expressions,
    out: &mut W,
) -> Result<(), RowsError> {
    let page = explanation_of(alloc, &expressions.placed, &expressions.scope)?;
    unwritten(written(out, page.as_str()))
}
