// Readers that fail behind what was read.
use std::io;
use std::io::{BufRead, Read};

/// A reader that always fails, with the text `connection lost`.
#[derive(Drop)]
pub struct Cut;

impl Read for Cut {
    fn read(&mut self, _buf: &mut [u8]) -> io::Result<usize> {
        Err(lost())
    }
}

impl BufRead for Cut {
    fn fill_buf(&mut self) -> io::Result<&[u8]> {
        Err(lost())
    }

    fn consume(&mut self, _amount: usize) {}
}

fn lost() -> io::Error {
    io::Error::new(io::ErrorKind::ConnectionReset, "connection lost")
}
