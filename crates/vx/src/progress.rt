// Files that tell how much of them is read.
use std::io;
use std::io::{IsTerminal, Read, Seek, SeekFrom, Write};
use std::time::{Duration, Instant};
use vx_commands::Source;

/// A file that tells once a second, on standard error, how much of it is read, where standard error is
/// a terminal and standard output, which would be written over it, is none. The next that is written
/// there stands in its place.
#[derive(Drop)]
pub struct Progress<'a, R> {
    rt: &'a HostRuntime,
    file: R,
    bytes: u64,
    // When it is told again, None where it never is.
    next: Option<Instant>,
}

// So many seconds lie between two times.
const PERIOD: u64 = 1;

impl<'a, R> Progress<'a, R> {
    /// Nothing is read yet.
    pub fn new(rt: &'a HostRuntime, file: R) -> Progress<'a, R> {
        let is_seen = rt.stderr().is_terminal() && !rt.stdout().is_terminal();
        Progress {
            rt,
            file,
            bytes: 0,
            next: if is_seen { later(rt) } else { None },
        }
    }

    // Tells how much is read, if it is time. Where that can't be told, reading goes on all the same.
    fn tell(&mut self) {
        let Some(next) = self.next else {
            return;
        };
        if Instant::now(self.rt).is_ok_and(|now| now >= next) {
            let megabytes = self.bytes / 1_000_000;
            let _ = write!(self.rt.stderr(), "\x1b[K{megabytes} MB read\r");
            self.next = later(self.rt);
        }
    }

    // Wipes out what was told.
    fn wipe(&self) {
        if self.next.is_some() {
            let _ = self.rt.stderr().write_all(b"\x1b[K");
        }
    }
}

// A period from now, if the clock tells.
fn later(rt: &HostRuntime) -> Option<Instant> {
    match Instant::now(rt) {
        Ok(now) => now.checked_add(Duration::from_secs(PERIOD)),
        Err(_) => None,
    }
}

impl<R: Read> Read for Progress<'_, R> {
    fn read(&mut self, buf: &mut [u8]) -> io::Result<usize> {
        let count = self.file.read(buf)?;
        self.bytes = self.bytes.saturating_add(count as u64);
        if count == 0 {
            self.wipe();
        } else {
            self.tell();
        }
        Ok(count)
    }
}

impl<R: Read + Seek> Source for Progress<'_, R> {
    fn go_back(&mut self) -> io::Result<bool> {
        let went = self.file.seek(SeekFrom::Start(0)).is_ok();
        if went {
            self.bytes = 0;
        }
        Ok(went)
    }
}
