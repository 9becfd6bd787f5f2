// What tests assert of values that they hand over.
use std::fmt::Display;
use std::process::Abort;
use vx_test_support::reads;
use vx_tree::VortexResult;

/// Asserts that the value prints as the text.
pub fn shows<T: Display + Drop>(rt: &impl Abort, value: T, text: &str) {
    assert!(rt; reads(&value, text), "not {text}");
}

/// Asserts that what is answered, or what refuses it, prints as the text.
pub fn answers<T: Display + Drop>(rt: &impl Abort, answer: VortexResult<T>, text: &str) {
    match answer {
        Ok(value) => shows(rt, value, text),
        Err(refusal) => shows(rt, refusal, text),
    }
}

/// Asserts that it is refused, and that the refusal prints as the text.
pub fn refuses<T: Drop>(rt: &impl Abort, answer: VortexResult<T>, text: &str) {
    match answer {
        Ok(_) => rt.abort(),
        Err(refusal) => shows(rt, refusal, text),
    }
}

/// Asserts that what is answered equals the other.
pub fn gives<T: PartialEq + Drop, E: Drop>(rt: &impl Abort, answer: Result<T, E>, other: &T) {
    match answer {
        Ok(value) => same(rt, value, other),
        Err(_) => rt.abort(),
    }
}

/// Asserts that the value equals the other.
pub fn same<T: PartialEq + Drop>(rt: &impl Abort, value: T, other: &T) {
    assert!(rt; value == *other);
}

/// Asserts that the value doesn't equal the other.
pub fn differs<T: PartialEq + Drop>(rt: &impl Abort, value: T, other: &T) {
    assert!(rt; value != *other);
}
