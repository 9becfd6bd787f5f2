// Values.
ghost use Rattle.std.specs.Prelude.{◌≡◌, ℕ, IfOk, fold};
ghost use Rattle.std.specs.Cmp.{on_equiv, on_per, partial_equiv_from_equiv};
ghost use Rattle.vx_value.specs.Deciding.{equal_datum_equiv, datum_alike};
ghost use Rattle.vx_value.specs.Equality.{equal_datum, equal_data};
ghost use Rattle.vx_value.specs.Hashes.{datum_fed, data_fed};
ghost use Rattle.vx_value.specs.Types.{is_null_datum};
ghost use Rattle.vx_value.specs.Views.{value_of, data_view};

use std::alloc::AllocError;
use std::hash::{Hash, Hasher};
use vx_floats::Float;

/// A value of some type.
#[derive(Debug)]
pub enum Value {
    /// A value of every nullable type.
    Null,
    /// A truth value.
    Bool(bool),
    /// A whole number: of a type of whole numbers, the units of a decimal, a day, or an instant.
    Int(i128),
    /// A floating-point number.
    Float(Float),
    /// A text.
    Utf8(String),
    /// Bytes.
    Binary(Vec<u8>),
    /// A list, by its items.
    List(Vec<Value>),
    /// A struct, by the values of its fields.
    Struct(Vec<Value>),
}

impl Drop for Value {
    fn drop(self) {
        match self {
            Value::Null | Value::Bool(_) | Value::Int(_) | Value::Float(_) => {}
            Value::Utf8(text) => drop(text),
            Value::Binary(bytes) => drop(bytes),
            Value::List(items) | Value::Struct(items) => drop(items),
        }
    }
}

impl Value {
    /// Whether the value is null.
    pub fn is_null(&self) -> bool
        ensures { result ≡ is_null_datum (value_of self.now) }
    {
        matches!(self, Value::Null)
    }
}

impl Clone for Value {
    ghost is_clone = { λ v copy. value_of copy ≡ value_of v };

    fn clone(&self) -> Result<Value, AllocError> {
        copy(self)
    }
}

// The same value, in memory of its own.
#[cycle(copy)]
fn copy(value: &Value) -> Result<Value, AllocError>
    ensures { IfOk result (λ v. value_of v ≡ value_of value.now) }
{
    match value {
        Value::Null => Ok(Value::Null),
        Value::Bool(b) => Ok(Value::Bool(*b)),
        Value::Int(z) => Ok(Value::Int(*z)),
        Value::Float(x) => Ok(Value::Float(*x)),
        Value::Utf8(text) => Ok(Value::Utf8(text.clone()?)),
        Value::Binary(bytes) => Ok(Value::Binary(copy_bytes(bytes)?)),
        Value::List(items) => Ok(Value::List(copy_all(items)?)),
        Value::Struct(items) => Ok(Value::Struct(copy_all(items)?)),
    }
}

// The same bytes.
fn copy_bytes(bytes: &Vec<u8>) -> Result<Vec<u8>, AllocError>
    ensures { IfOk result (λ copy. copy.items ≡ bytes.now.items) }
{
    bytes.clone()
}

// The same values in their order.
#[cycle(copy)]
fn copy_all(values: &Vec<Value>) -> Result<Vec<Value>, AllocError>
    ensures { IfOk result (λ v. data_view v.items ≡ data_view values.now.items) }
{
    let mut copies = Vec::with_capacity(*values.allocator(), values.len())?;
    for value in values {
        copies.push(copy(value)?)?;
    }
    Ok(copies)
}

impl PartialEq for Value {
    ghost eq = { λ a b. equal_datum (value_of a) (value_of b) };

    ghost laws = { on_per value_of (partial_equiv_from_equiv equal_datum_equiv) };

    fn eq(&self, other: &Value) -> bool {
        equal(self, other)
    }
}

impl Eq for Value {
    ghost laws = { on_equiv value_of equal_datum_equiv };
}

impl Hash for Value {
    ghost hash_input = { λ v. datum_fed (value_of v) };

    ghost respects_eq = { λ x y. datum_alike.fed (value_of x) (value_of y) };

    fn hash<H: Hasher>(&self, state: &mut H) {
        feed(self, state);
    }
}

// Whether the values are the same.
#[cycle(equal)]
fn equal(a: &Value, b: &Value) -> bool
    ensures { result ≡ equal_datum (value_of a.now) (value_of b.now) }
{
    match a {
        Value::Null => match b {
            Value::Null => true,
            _ => false,
        },
        Value::Bool(x) => match b {
            Value::Bool(y) => x == y,
            _ => false,
        },
        Value::Int(x) => match b {
            Value::Int(y) => x == y,
            _ => false,
        },
        Value::Float(x) => match b {
            Value::Float(y) => x.is_same(*y),
            _ => false,
        },
        Value::Utf8(x) => match b {
            Value::Utf8(y) => x == y,
            _ => false,
        },
        Value::Binary(x) => match b {
            Value::Binary(y) => x == y,
            _ => false,
        },
        Value::List(x) => match b {
            Value::List(y) => equal_all(x.as_slice(), y.as_slice()),
            _ => false,
        },
        Value::Struct(x) => match b {
            Value::Struct(y) => equal_all(x.as_slice(), y.as_slice()),
            _ => false,
        },
    }
}

// Whether the values are the same in the same order.
#[cycle(equal)]
pub(crate) fn equal_all(a: &[Value], b: &[Value]) -> bool
    ensures { result ≡ equal_data (data_view a.now) (data_view b.now) }
{
    if a.len() != b.len() {
        return false;
    }
    for i in 0..a.len() {
        if !equal(&a[i], &b[i]) {
            return false;
        }
    }
    true
}

// Feeds the value to the hasher.
#[cycle(feed)]
fn feed<H: Hasher>(value: &Value, state: &mut H)
    ensures { state.new ≡ fold H.write state.old (datum_fed (value_of value.now)) }
{
    match value {
        Value::Null => state.write_u8(0),
        Value::Bool(b) => {
            state.write_u8(1);
            b.hash(state);
        }
        Value::Int(z) => {
            state.write_u8(2);
            z.hash(state);
        }
        Value::Float(x) => {
            state.write_u8(7);
            x.feed(state);
        }
        Value::Utf8(text) => {
            state.write_u8(3);
            text.hash(state);
        }
        Value::Binary(bytes) => {
            state.write_u8(4);
            bytes.hash(state);
        }
        Value::List(items) => {
            state.write_u8(5);
            feed_all(items.as_slice(), state);
        }
        Value::Struct(items) => {
            state.write_u8(6);
            feed_all(items.as_slice(), state);
        }
    }
}

// Feeds the values, and then that there are no more.
#[cycle(feed)]
fn feed_all<H: Hasher>(values: &[Value], state: &mut H)
    ensures { state.new ≡ fold H.write state.old (data_fed (data_view values.now)) }
{
    for i in 0..values.len() {
        state.write_u8(1);
        feed(&values[i], state);
    }
    state.write_u8(0);
}
