//! The output, heard: a line for people follows each refusal on standard error.
ghost use Rattle.std.specs.Prelude.{◌≡◌};

use crate::answers::Refused;
use crate::ear::Ear;
use ddf_bytes::{Failed, Sink};

/// A sink that says why a command is refused, and the way out, once another one has taken the refusal.
#[derive(Drop)]
pub struct HearingSink<'a, R, K> {
    sink: K,
    ear: Ear<'a, R>,
}

impl<'a, R: Eprint, K> HearingSink<'a, R, K> {
    /// Hears what a command prints to a sink, or the commands on the lines of a batch.
    pub fn new(sink: K, ear: Ear<'a, R>) -> HearingSink<'a, R, K> {
        HearingSink { sink, ear }
    }

    /// The sink itself.
    pub fn sink(&self) -> &K {
        &self.sink
    }

    /// The last refusal, if there was any.
    pub fn refused(&self) -> Option<Refused> {
        self.ear.refused()
    }

    /// The slot of the last disk that failed, if one did.
    pub fn fault(&self) -> Option<u16> {
        self.ear.fault()
    }
}

impl<R: Eprint, K: Sink> Sink for HearingSink<'_, R, K> {
    ghost tells = { K.tells };

    ghost output = { λ hearing. K.output hearing.sink };

    fn write(&mut self, piece: &[u8]) -> Result<usize, Failed> {
        let count = self.sink.write(piece)?;
        self.ear.hear(piece, count);
        Ok(count)
    }
}
