//! What a command is given to take: standard input, or lines that were taken from it before.
use crate::failure::Failure;
use crate::patient::Patient;
use std::io;
use std::io::{ErrorKind, Read};

/// One more than the bytes that a batch may have.
const MOST_BYTES: u64 = 65_537;

/// The input of a command.
#[derive(Drop)]
pub enum Given<S> {
    /// A stream.
    Stream(Patient<S>),
    /// The lines of a batch, and how many of their bytes were taken.
    Lines(Vec<u8>, usize),
}

impl<S: Read> Read for Given<S> {
    fn read(&mut self, buf: &mut [u8]) -> io::Result<usize> {
        match self {
            Given::Stream(stream) => stream.read(buf),
            Given::Lines(bytes, taken) => {
                let mut rest: &[u8] = match bytes.as_slice().get(*taken..) {
                    Some(rest) => rest,
                    None => &[],
                };
                let count = rest.read(buf)?;
                *taken = taken.saturating_add(count);
                Ok(count)
            }
        }
    }
}

/// Takes the lines of a batch from standard input, and a byte more where there are too many.
pub fn lines_of_input<R: Input + AllocGlobal>(rt: &R) -> Result<Vec<u8>, Failure> {
    let mut bytes = Vec::new(rt.alloc());
    let mut input = Patient(rt.reader()).take(MOST_BYTES);
    match input.read_to_end(&mut bytes) {
        Ok(_) => Ok(bytes),
        Err(why) if why.kind() == ErrorKind::OutOfMemory => Err(Failure::Memory),
        Err(_) => Err(Failure::Batch),
    }
}
