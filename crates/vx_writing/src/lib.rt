// Texts on a writer that may fail.
#![tactic(auto)]

ghost use Rattle.std.specs.Prelude.{IsTrue, IsFalse};
ghost use Rattle.std.specs.Io.KnownBytes.{Appends};
ghost use Rattle.vx_writing.specs.Writing.{Breaks, Tells};

use std::io::Write;

/// Writes the text, and answers the status that is wanted: 1 where the writer fails,
/// which then holds a part of the text.
pub fn tell<W: Write>(out: &mut W, text: &str, status: u8) -> u8
    ensures { Tells (W.contents out.old) (W.contents out.new) text.now status result }
{
    if write_text(out, text) { status } else { 1 }
}

// Writes the whole text, or a part where the writer fails.
fn write_text<W: Write>(out: &mut W, text: &str) -> bool
    ensures whole { IsTrue result → Appends (W.contents out.old) (W.contents out.new) text.now }
    ensures part { IsFalse result → Breaks (W.contents out.old) (W.contents out.new) text.now }
{
    let bytes = text.as_bytes();
    let mut written = 0;
    while written < bytes.len() {
        match out.write(&bytes[written..]) {
            Ok(n) if n > 0 => written += n,
            _ => return false,
        }
    }
    true
}
