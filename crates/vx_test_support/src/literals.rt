// Values by their words.
use crate::pieces::{number, parted, within};
use crate::unread::Unread;
use std::alloc::Global;
use vx_dtype::FloatType;
use vx_floats::{Float, read_float};
use vx_tree::Value;

const MARKS: [char; 6] = ['[', ']', '{', '}', ',', '*'];

/// The value of the word: `null`, a truth value, a whole number, a floating-point number as `f64(1.5)`,
/// `f32(1.5)` or by its bits as `bits(HEX)`, a text behind `'`, `text(HEX)` and `bytes(HEX)`, a list as
/// `[1,null]`, a struct as `{1,'a}`. In a list or struct `7*` before a value
/// says seven times, and a text behind `'` ends at the next mark.
pub fn value(alloc: Global, word: &str) -> Result<Value, Unread> {
    let mut values = Vec::new(alloc);
    push_values(alloc, word, &mut values)?;
    if values.len() != 1 {
        return Err(Unread::Word("not one value"));
    }
    values.pop().ok_or(Unread::Word("no value"))
}

/// The value and the type of `VALUE:TYPE`.
pub fn typed(word: &str) -> Option<(&str, &str)> {
    word.rsplit_once(':')
}

/// The values of the words, which stand one space apart.
pub fn values(alloc: Global, words: &str) -> Result<Vec<Value>, Unread> {
    let mut values = Vec::new(alloc);
    for word in words.split_whitespace() {
        push_values(alloc, word, &mut values)?;
    }
    Ok(values)
}

// Pushes the value of the word, with `7*` before it seven times.
fn push_values(alloc: Global, word: &str, values: &mut Vec<Value>) -> Result<(), Unread> {
    if let Some(text) = word.strip_prefix('\'') {
        return Ok(values.push(Value::Utf8(String::from_str(alloc, text)?))?);
    }
    let mut reader = ValueReader {
        alloc,
        values,
        open: Vec::new(alloc),
        times: 1,
    };
    for piece in word.split_inclusive(MARKS) {
        let (word, mark) = parted(piece, &MARKS);
        reader.take(word, mark)?;
    }
    if !reader.open.is_empty() {
        return Err(Unread::Word("a list or struct that isn't closed"));
    }
    Ok(())
}

/// The list or struct that is being read: how many values were read before it, and how often it is
/// to stand.
#[derive(Clone, Copy)]
struct OpenValue {
    is_struct: bool,
    before: usize,
    times: usize,
}

// A value is read from left to right: what is read waits, and so does what it stands in.
#[derive(Drop)]
struct ValueReader<'a> {
    alloc: Global,
    values: &'a mut Vec<Value>,
    open: Vec<OpenValue>,
    times: usize,
}

impl ValueReader<'_> {
    fn take(&mut self, word: &str, mark: Option<char>) -> Result<(), Unread> {
        match mark {
            Some('*') => {
                self.times = number(word, "no number of times")?;
                Ok(())
            }
            Some('[') => self.open(false),
            Some('{') => self.open(true),
            Some(']' | '}') => {
                self.flat(word)?;
                self.close(mark == Some('}'))
            }
            _ => self.flat(word),
        }
    }

    fn flat(&mut self, word: &str) -> Result<(), Unread> {
        if word.is_empty() {
            return Ok(());
        }
        let value = flat(self.alloc, word)?;
        self.push(value, self.times)
    }

    // The value so many times, the last one as it is.
    fn push(&mut self, value: Value, times: usize) -> Result<(), Unread> {
        self.times = 1;
        for _ in 1..times {
            let again = value.clone()?;
            self.values.push(again)?;
        }
        Ok(self.values.push(value)?)
    }

    fn open(&mut self, is_struct: bool) -> Result<(), Unread> {
        let opened = OpenValue {
            is_struct,
            before: self.values.len(),
            times: self.times,
        };
        self.times = 1;
        Ok(self.open.push(opened)?)
    }

    fn close(&mut self, is_struct: bool) -> Result<(), Unread> {
        let opened = self.open.pop().ok_or("nothing to close")?;
        if opened.is_struct != is_struct || self.values.len() < opened.before {
            return Err(Unread::Word("closed as something else"));
        }
        let items = self.values.split_off(opened.before)?;
        let value = if is_struct {
            Value::Struct(items)
        } else {
            Value::List(items)
        };
        self.push(value, opened.times)
    }
}

fn flat(alloc: Global, word: &str) -> Result<Value, Unread> {
    if let Some(text) = word.strip_prefix('\'') {
        return Ok(Value::Utf8(String::from_str(alloc, text)?));
    }
    if let Some(digits) = within(word, "bytes") {
        return Ok(Value::Binary(bytes(alloc, digits)?));
    }
    if let Some(digits) = within(word, "text") {
        return text(alloc, digits);
    }
    if let Some(text) = within(word, "f64") {
        return float(text, FloatType::F64);
    }
    if let Some(text) = within(word, "f32") {
        return float(text, FloatType::F32);
    }
    if let Some(digits) = within(word, "bits") {
        return bits(digits);
    }
    match word {
        "null" => Ok(Value::Null),
        "true" => Ok(Value::Bool(true)),
        "false" => Ok(Value::Bool(false)),
        _ => int(word),
    }
}

fn int(word: &str) -> Result<Value, Unread> {
    match word.parse::<i128>() {
        Ok(number) => Ok(Value::Int(number)),
        Err(_) => Err(Unread::Word("no value")),
    }
}

// The floating-point number of that format which the text writes.
fn float(text: &str, format: FloatType) -> Result<Value, Unread> {
    match read_float(text.as_bytes(), format) {
        Some(number) => Ok(Value::Float(number)),
        None => Err(Unread::Word("no floating-point number")),
    }
}

// The floating-point number of exactly these bits, 32 or 64 by the number of digits.
fn bits(digits: &str) -> Result<Value, Unread> {
    let number = match digits.len() {
        8 => u32::from_str_radix(digits, 16).ok().map(Float::F32),
        _ => u64::from_str_radix(digits, 16).ok().map(Float::F64),
    };
    match number {
        Some(number) => Ok(Value::Float(number)),
        None => Err(Unread::Word("no bits")),
    }
}

// The text of these bytes.
fn text(alloc: Global, digits: &str) -> Result<Value, Unread> {
    let bytes = bytes(alloc, digits)?;
    match std::str::from_utf8(bytes.as_slice()) {
        Ok(text) => Ok(Value::Utf8(String::from_str(alloc, text)?)),
        Err(_) => Err(Unread::Word("no UTF-8")),
    }
}

// The bytes of two hexadecimal digits each.
fn bytes(alloc: Global, digits: &str) -> Result<Vec<u8>, Unread> {
    match hex::decode(alloc, digits) {
        Ok(bytes) => Ok(bytes),
        Err(hex::FromHexError::OutOfMemory) => Err(Unread::from(vx_tree::VortexError::OutOfMemory)),
        Err(_) => Err(Unread::Word("no hexadecimal digits")),
    }
}
