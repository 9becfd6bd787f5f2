// A reader that keeps what was read of it.
use std::alloc::{AllocError, Global};
use std::cell::RefCell;
use std::io;
use std::io::Read;

/// A reader whose bytes are kept from when they are read to when they are taken.
#[derive(Drop)]
pub(crate) struct Kept<R> {
    reader: R,
    // (a CSV reader lends what it stands on, and doesn't give it out to be written)
    bytes: RefCell<Bytes>,
}

/// Bytes that wait, behind some that don't any more.
#[derive(Drop)]
struct Bytes {
    all: Vec<u8>,
    taken: usize,
}

impl<R> Kept<R> {
    /// Nothing is kept yet.
    pub(crate) fn new(alloc: Global, reader: R) -> Kept<R> {
        Kept {
            reader,
            bytes: RefCell::new(Bytes {
                all: Vec::new(alloc),
                taken: 0,
            }),
        }
    }

    /// Moves so many of the bytes that wait, or as many as there are, behind the text.
    pub(crate) fn take(&self, count: u64, text: &mut Vec<u8>) -> Result<(), AllocError> {
        match self.bytes.try_borrow_mut() {
            Ok(mut bytes) => bytes.take(count, text),
            Err(_) => Ok(()),
        }
    }
}

impl Bytes {
    fn take(&mut self, count: u64, text: &mut Vec<u8>) -> Result<(), AllocError> {
        let (all, taken) = (self.all.as_slice(), self.taken.min(self.all.len()));
        let waiting = &all[taken..];
        let count = count.min(waiting.len() as u64) as usize;
        text.extend_from_slice(&waiting[..count])?;
        self.taken = taken.saturating_add(count);
        Ok(())
    }

    // These bytes wait, too. Those that were taken are let go of once they are as many as those that wait, so that no
    // byte is moved more often than others are taken.
    fn keep(&mut self, bytes: &[u8]) -> Result<(), AllocError> {
        let len = self.all.len();
        let taken = self.taken.min(len);
        if len - taken <= taken {
            self.all.copy_within(taken..len, 0);
            self.all.truncate(len - taken);
            self.taken = 0;
        }
        self.all.extend_from_slice(bytes)
    }
}

impl<R: Read> Read for Kept<R> {
    fn read(&mut self, buf: &mut [u8]) -> io::Result<usize> {
        let count = self.reader.read(buf)?;
        self.bytes.get_mut().keep(&buf[..count])?;
        Ok(count)
    }
}
