// Standard output, and why it couldn't be written.
use anyhow::Result;
use std::io;
use std::io::Write;
use vx_commands::Status;

/// A writer that keeps the error which writing ended with.
#[derive(Drop)]
pub struct Written<W> {
    out: W,
    failure: Option<io::Error>,
}

impl<W: Write + Drop> Written<W> {
    /// Nothing is written yet.
    pub fn new(out: W) -> Written<W> {
        Written { out, failure: None }
    }

    /// How the program ends whose command ended so: where this writer failed, that is told on standard
    /// error. A pipe that its reader has closed is no failure.
    pub fn ended(self, rt: &HostRuntime, status: Status) -> Result<Status> {
        match self.failure {
            None => Ok(status),
            Some(error) if error.kind() == io::ErrorKind::BrokenPipe => Ok(Status::Done),
            Some(error) => {
                rt.eprintln(format_args!("error: writing: {error}"))?;
                Ok(Status::Failed)
            }
        }
    }
}

impl<W: Write> Write for Written<W> {
    fn write(&mut self, buf: &[u8]) -> io::Result<usize> {
        let written = self.out.write(buf);
        if let Err(error) = &written
            && error.kind() != io::ErrorKind::Interrupted
        {
            self.failure = Some(*error);
        }
        written
    }

    fn flush(&mut self) -> io::Result<()> {
        self.out.flush()
    }
}
