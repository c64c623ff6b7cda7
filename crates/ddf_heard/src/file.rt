//! A file that keeps its place, and why a call on it failed.
use std::cell::Cell;
use std::fs::{Metadata, OpenFile};
use std::io;
use std::io::{ErrorKind, Read, Seek, SeekFrom, Write};
use std::os::unix::fs::FileExt;

/// A file, the place of the next call on it, in bytes, and why the last call failed of those that did. The system is told the place with each read and
/// write, so that a seek to one is no call of it.
#[derive(Drop)]
pub struct HeardFile<F> {
    file: F,
    at: u64,
    why: Cell<Option<io::Error>>,
}

impl<F> HeardFile<F> {
    /// Keeps what is said of this file from now on, which is read and written from its first byte on.
    pub fn new(file: F) -> HeardFile<F> {
        HeardFile {
            file,
            at: 0,
            why: Cell::new(None),
        }
    }

    /// The file itself.
    pub fn file(&self) -> &F {
        &self.file
    }

    /// Why the last call that failed did so, where one failed.
    pub fn why(&self) -> Option<io::Error> {
        self.why.get()
    }
}

/// Keeps why a call failed. One that the system interrupted is made again by whoever made it.
fn keep<T>(why: &Cell<Option<io::Error>>, outcome: &io::Result<T>) {
    match outcome {
        Err(error) if error.kind() != ErrorKind::Interrupted => why.set(Some(*error)),
        _ => {}
    }
}

/// The place behind the bytes that a call moved.
fn behind(at: u64, outcome: &io::Result<usize>) -> u64 {
    match outcome {
        Ok(count) => at.saturating_add(*count as u64),
        Err(_) => at,
    }
}

impl<F: FileExt> Read for HeardFile<F> {
    fn read(&mut self, buf: &mut [u8]) -> io::Result<usize> {
        let outcome = self.file.read_at(buf, self.at);
        keep(&self.why, &outcome);
        self.at = behind(self.at, &outcome);
        outcome
    }
}

impl<F: FileExt + Write> Write for HeardFile<F> {
    fn write(&mut self, buf: &[u8]) -> io::Result<usize> {
        let outcome = self.file.write_at(buf, self.at);
        keep(&self.why, &outcome);
        self.at = behind(self.at, &outcome);
        outcome
    }

    fn flush(&mut self) -> io::Result<()> {
        let outcome = self.file.flush();
        keep(&self.why, &outcome);
        outcome
    }
}

impl<F: Seek> Seek for HeardFile<F> {
    fn seek(&mut self, to: SeekFrom) -> io::Result<u64> {
        let outcome = match to {
            SeekFrom::Start(at) => Ok(at),
            SeekFrom::End(_) => self.file.seek(to),
            SeekFrom::Current(by) => moved(self.at, by),
        };
        keep(&self.why, &outcome);
        if let Ok(at) = outcome {
            self.at = at;
        }
        outcome
    }
}

/// A place so many bytes further on.
fn moved(at: u64, by: i64) -> io::Result<u64> {
    match at.checked_add_signed(by) {
        Some(moved) => Ok(moved),
        None => Err(io::Error::from(ErrorKind::InvalidInput)),
    }
}

impl<F: OpenFile> OpenFile for HeardFile<F> {
    fn metadata(&self) -> io::Result<Metadata> {
        self.file.metadata()
    }

    fn set_len(&self, size: u64) -> io::Result<()> {
        self.file.set_len(size)
    }

    fn sync_all(&self) -> io::Result<()> {
        let outcome = self.file.sync_all();
        keep(&self.why, &outcome);
        outcome
    }

    fn sync_data(&self) -> io::Result<()> {
        let outcome = self.file.sync_data();
        keep(&self.why, &outcome);
        outcome
    }
}
