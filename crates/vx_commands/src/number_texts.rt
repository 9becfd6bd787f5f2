// Columns of numbers that are guessed to be texts.
ghost use Rattle.std.specs.Prelude.{◌≡◌, IfSome, Some, string_bytes};
ghost use Rattle.vx_value.specs.Views.{value_of};
ghost use Rattle.vx_commands.specs.Guesses.{IsNumberText, is_number};

use crate::columns::ColumnName;
use crate::data::{DataFormat, GUESSED_JSON, Source, buffered};
use crate::guessed::{GuessedRecords, UntypedRecords};
use std::alloc::Global;
use std::fmt;
use std::fmt::{Display, Formatter, Write};
use std::io::{Cursor, Read};
use vx_command_pages::{Shown, UnfitLiteral};
use vx_data::{DataError, OtherFields};
use vx_dtype::DType;
use vx_records::{CsvRows, JsonRecords, RecordReader};
use vx_source::parse;
use vx_tree::{Expression, ScalarFnRef};
use vx_value::{Field, FieldPath, Value};

/// A column that is guessed to be texts, of which those that were looked at are numbers, but perhaps for one word.
#[derive(Debug, Drop)]
pub(crate) struct NumberTexts {
    // Where it stands in a record.
    path: FieldPath,
    // What its texts are.
    texts: SeenTexts,
}

// Numbers among texts.
#[derive(Debug, Drop)]
struct SeenTexts {
    // The first of them.
    number: String,
    // The one word that stands beside them, if one does.
    word: Option<String>,
}

impl NumberTexts {
    /// Whether each of its texts is a number.
    pub(crate) fn has_no_word(&self) -> bool {
        self.texts.word.is_none()
    }
}

impl Display for NumberTexts {
    fn fmt<W: Write>(&self, f: &mut Formatter<W>) -> fmt::Result {
        let number = Shown(self.texts.number.as_str());
        write!(f, "{} holds numbers, as {number}, ", ColumnName(&self.path))?;
        match &self.texts.word {
            Some(word) => {
                let word = Shown(word.as_str());
                write!(
                    f,
                    "and {word}, so that it is guessed to be texts: --null {word} takes that for null"
                )
            }
            None => f.write_str("that are guessed to be texts, which compare by their characters"),
        }
    }
}

/// The column of number texts that the literal stands beside in the text, if it is a number and does. Where something is in
/// the way of telling, or the column's type is said, there is none; nor where a word stands among the numbers that can't be
/// taken for null by saying so.
pub(crate) fn number_texts<D: Source>(
    alloc: Global,
    text: &str,
    literal: &UnfitLiteral,
    records: GuessedRecords<'_>,
    data: &mut D,
) -> Option<NumberTexts>
    ensures { IfSome result (λ column. IsNumberText (string_bytes column.texts.number)) }
{
    if !matches!(
        (&literal.dtype, literal.scalar.value()),
        (DType::Utf8(_), Value::Int(_) | Value::Utf8(_))
    ) {
        return None;
    }
    let field = literal.beside.as_ref()?;
    let called = text.get(field.span.start..field.span.end)?;
    let path = path_of(alloc, &parse(alloc, called).ok()?)?;
    if records.untyped.guess.says(&path) {
        return None;
    }
    let texts = records.seen_texts(alloc, &path, data)?;
    Some(NumberTexts { path, texts })
}

// Where the column stands in a record, if the node is one.
fn path_of(alloc: Global, node: &Expression) -> Option<FieldPath> {
    let Expression::Scalar {
        scalar_fn,
        children,
    } = node
    else {
        return FieldPath::root(alloc).ok();
    };
    match (scalar_fn, children.as_slice()) {
        (ScalarFnRef::GetItem(name), [input]) => {
            let path = path_of(alloc, input)?;
            path.push(alloc, name.clone().ok()?).ok()
        }
        _ => None,
    }
}

impl GuessedRecords<'_> {
    // The texts of the column, where all that are looked at are numbers, but for such a word.
    fn seen_texts<D: Source>(
        self,
        alloc: Global,
        column: &FieldPath,
        data: &mut D,
    ) -> Option<SeenTexts>
        ensures { IfSome result (λ texts. IsNumberText (string_bytes texts.number)) }
    {
        let GuessedRecords {
            untyped,
            dtype,
            read,
        } = self;
        let dtype = Box::into_inner(dtype);
        let data = Cursor::new(read).chain(data);
        let others = OtherFields::Refused;
        match untyped.format {
            DataFormat::Json => {
                let lines = buffered(alloc, data).ok()?;
                let records = JsonRecords::with_others(alloc, dtype, GUESSED_JSON, others, lines);
                seen_texts(alloc, column, untyped, records)
            }
            DataFormat::Csv(format) => {
                let records = CsvRows::open_others(alloc, dtype, format, others, data).ok()?;
                seen_texts(alloc, column, untyped, records)
            }
        }
    }
}

// The texts of the column, where all of the records that guessing looked at are numbers, but for such a word.
fn seen_texts<R: RecordReader + Drop>(
    alloc: Global,
    column: &FieldPath,
    untyped: UntypedRecords<'_>,
    records: R,
) -> Option<SeenTexts>
    ensures { IfSome result (λ texts. IsNumberText (string_bytes texts.number)) }
{
    let mut records = records;
    let mut first = None;
    let mut word = None;
    for _ in 0..untyped.guess.records {
        let record = match records.read(alloc) {
            Ok(Some(record)) => record,
            Ok(None) => return seen(first, word),
            Err(error) => {
                if untyped.skips && matches!(&error, DataError::Unexpected { .. }) {
                    continue;
                }
                return None;
            }
        };
        let value = value_at(records.dtype(), &record.row, column.parts())?;
        if !is_number(value) {
            if !untyped.format.may_say_null() || !is_only_word(value, &mut word) {
                return None;
            }
        } else if first.is_none()
            && let Value::Utf8(text) = value
        {
            first = Some(text.clone().ok()?);
        }
    }
    seen(first, word)
}

// The texts of which the first number is that one, if there is one, and the word beside them.
fn seen(number: Option<String>, word: Option<String>) -> Option<SeenTexts>
    ensures { IfSome result (λ texts. number ≡ Some texts.number) }
{
    Some(SeenTexts {
        number: number?,
        word,
    })
}

// Whether the value is a text, and the same as the word that was kept, if there is one. It is kept from then on.
fn is_only_word(value: &Value, word: &mut Option<String>) -> bool {
    let Value::Utf8(text) = value else {
        return false;
    };
    match word {
        Some(word) => word.as_str() == text.as_str(),
        None => match text.clone() {
            Ok(text) => {
                *word = Some(text);
                true
            }
            Err(_) => false,
        },
    }
}

// Whether the value is null, or the text of a number.
fn is_number(value: &Value) -> bool
    ensures { result ≡ is_number (value_of value.now) }
{
    match value {
        Value::Null => true,
        Value::Utf8(text) => text.as_str().parse::<f64>().is_ok(),
        _ => false,
    }
}

// What the names lead to in the row.
fn value_at<'a>(dtype: &DType, row: &'a Value, names: &[Field]) -> Option<&'a Value> {
    let (mut dtype, mut value) = (dtype, row);
    for part in names {
        let Field::Name(name) = part;
        let DType::Struct(fields, _) = dtype else {
            return None;
        };
        let Value::Struct(values) = value else {
            return if value.is_null() { Some(value) } else { None };
        };
        let place = fields.names().find(name)?;
        dtype = fields.types().get(place)?;
        value = values.get(place)?;
    }
    Some(value)
}
