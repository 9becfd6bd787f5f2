// A reader that keeps all that was read of it.
use std::alloc::Global;
use std::io;
use std::io::Read;

/// A reader that keeps all that was read of it, so that it can be read once more.
#[derive(Drop)]
pub struct Recorded<R> {
    reader: R,
    bytes: Vec<u8>,
}

impl<R> Recorded<R> {
    /// Nothing is read yet. Takes no memory.
    pub fn new(alloc: Global, reader: R) -> Recorded<R> {
        Recorded {
            reader,
            bytes: Vec::new(alloc),
        }
    }

    /// The bytes that were read, and the reader of those behind them.
    pub fn into_parts(self) -> (Vec<u8>, R) {
        (self.bytes, self.reader)
    }
}

impl<R: Read> Read for Recorded<R> {
    fn read(&mut self, buf: &mut [u8]) -> io::Result<usize> {
        let count = self.reader.read(buf)?;
        self.bytes.extend_from_slice(&buf[..count])?;
        Ok(count)
    }
}
