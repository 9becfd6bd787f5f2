// What forms give, compared as texts. All of it is generic over what is given, since of a type
// parameter the prover writes nothing out: a form that a test keeps itself, over a step that may end
// it, is written out at each such step (docs/develop/BENCHMARKS.md, "What a proof costs").
use std::fmt::Display;
use std::process::Abort;
use vx_test_support::reads;
use vx_tree::VortexResult;

/// Asserts that the form gives what has that text, or is refused with that text.
pub fn gives<T: Display + Drop>(rt: &impl Abort, form: VortexResult<T>, text: &str) {
    match form {
        Ok(given) => assert!(rt; reads(&given, text), "not {text}"),
        Err(refusal) => assert!(rt; reads(&refusal, text), "not {text}"),
    }
}

/// What is collected. Asserts that something is.
pub fn some<T: Drop>(rt: &impl Abort, collected: VortexResult<Option<T>>) -> VortexResult<T> {
    collected.transpose().expect(rt, "something is collected")
}

/// Whether nothing is collected.
pub fn is_nothing<T: Drop>(collected: VortexResult<Option<T>>) -> bool {
    matches!(collected, Ok(None))
}
