//! Streams whose calls are made again where the system interrupted them: a signal is no failure. docs/FAULTS.md#a-call-that-a-signal-interrupts
use std::io;
use std::io::{ErrorKind, Read, Write};

/// How often a call is made again that the system interrupted.
const TRIES: u32 = 1 << 20;

/// A reader or a writer that isn't interrupted.
#[derive(Drop)]
pub struct Patient<S>(pub S);

/// Whether a call was interrupted.
fn is_interrupted<T>(outcome: &io::Result<T>) -> bool {
    match outcome {
        Err(why) => why.kind() == ErrorKind::Interrupted,
        Ok(_) => false,
    }
}

impl<S: Read> Read for Patient<S> {
    fn read(&mut self, buf: &mut [u8]) -> io::Result<usize> {
        for _ in 0..TRIES {
            let outcome = self.0.read(buf);
            if !is_interrupted(&outcome) {
                return outcome;
            }
        }
        self.0.read(buf)
    }
}

impl<S: Write> Write for Patient<S> {
    fn write(&mut self, buf: &[u8]) -> io::Result<usize> {
        for _ in 0..TRIES {
            let outcome = self.0.write(buf);
            if !is_interrupted(&outcome) {
                return outcome;
            }
        }
        self.0.write(buf)
    }

    fn flush(&mut self) -> io::Result<()> {
        self.0.flush()
    }
}
