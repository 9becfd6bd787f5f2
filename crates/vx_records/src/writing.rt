// Bytes written whole, or up to where a writer fails.
ghost use Rattle.std.specs.Prelude.{IfErr, OnOk, OnErr};
ghost use Rattle.std.specs.Io.KnownBytes.{Appends};
ghost use Rattle.vx_records.specs.Chunks.{IsOfWriting};
ghost use Rattle.vx_records.specs.Outcomes.{Breaks};

use crate::RecordsError;
use std::io;
use std::io::{ErrorKind, Write};
use vx_data::WriteError;

/// Writes the text. Where the writer fails it holds a beginning of it.
pub(crate) fn write_text<W: Write>(out: &mut W, text: &[u8]) -> Result<(), RecordsError>
    ensures whole { OnOk result (Appends (W.contents out.old) (W.contents out.new) text.now) }
    ensures part { IfErr result (λ e. IsOfWriting e × Breaks (W.contents out.old) (W.contents out.new) text.now) }
{
    match write_bytes(out, text) {
        Ok(()) => Ok(()),
        Err(e) => Err(RecordsError::Write(WriteError::Write(e))),
    }
}

// Writes the bytes. Where the writer fails it holds a beginning of them.
fn write_bytes<W: Write>(out: &mut W, bytes: &[u8]) -> io::Result<()>
    ensures whole { OnOk result (Appends (W.contents out.old) (W.contents out.new) bytes.now) }
    ensures part { OnErr result (Breaks (W.contents out.old) (W.contents out.new) bytes.now) }
{
    let mut written = 0;
    while written < bytes.len() {
        match out.write(&bytes[written..]) {
            Ok(0) => return Err(io::Error::from(ErrorKind::WriteZero)),
            Ok(n) => written += n,
            Err(e) => return Err(e),
        }
    }
    Ok(())
}
