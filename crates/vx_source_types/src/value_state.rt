// How far a value is read.
use vx_dtype::FieldName;
use vx_value::Value;

/// A value whose type isn't known yet.
#[derive(Drop)]
pub enum Draft {
    /// A value, with the names of its structs in the order in which they stand.
    Value(Value, Vec<FieldName>),
    /// A number with a point or an exponent, as its text.
    Point(String),
}

/// The items of a list or the values of a struct so far, and the nesting that is allowed outside it.
#[derive(Drop)]
pub struct ItemsSoFar {
    /// The items or values.
    pub items: Vec<Value>,
    /// The nesting.
    pub room: usize,
}

/// What is open around the value that is being read.
#[derive(Drop)]
pub enum ValueFrame {
    /// A list.
    List(ItemsSoFar),
    /// A struct.
    Struct(ItemsSoFar),
}

/// What is due next.
#[derive(Drop)]
pub enum ValueMode {
    /// A value.
    Value,
    /// The first item, or the end of an empty list.
    FirstItem(ItemsSoFar),
    /// The first field, or the end of an empty struct.
    FirstField(ItemsSoFar),
    /// Another field.
    NextField(ItemsSoFar),
    /// The sign between a field's name and its value.
    FieldValue(ItemsSoFar),
    /// A value is there.
    Whole(Value),
    /// A number with a point or an exponent is there, as its text.
    Point(String),
}

/// A value that is being read.
#[derive(Drop)]
pub struct ValueReader {
    /// What is open, the innermost last.
    pub frames: Vec<ValueFrame>,
    /// What is due.
    pub mode: ValueMode,
    /// The names of structs so far.
    pub names: Vec<FieldName>,
    /// How many more brackets are allowed inside.
    pub room: usize,
}

/// What a token makes of a value that is being read.
#[derive(Drop)]
pub enum ValueStep {
    /// The token is a part of it.
    More(ValueReader),
    /// The value has ended before the token.
    Done(Draft),
}
