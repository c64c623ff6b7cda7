//! The output, counted: what was printed is told from what the system took. docs/SCRIPTS.md#after-6-and-7
ghost use Rattle.std.specs.Prelude.{◌≡◌};

use ddf_bytes::{Failed, Sink};

/// A sink that counts the bytes which another one takes.
#[derive(Drop)]
pub struct CountingSink<K> {
    sink: K,
    taken: u64,
}

impl<K> CountingSink<K> {
    /// Counts what this sink takes from now on.
    pub fn new(sink: K) -> CountingSink<K> {
        CountingSink { sink, taken: 0 }
    }

    /// How many bytes were taken.
    pub fn taken(&self) -> u64 {
        self.taken
    }
}

impl<K: Sink> Sink for CountingSink<K> {
    ghost tells = { K.tells };

    ghost output = { λ counting. K.output counting.sink };

    fn write(&mut self, piece: &[u8]) -> Result<usize, Failed> {
        let count = self.sink.write(piece)?;
        self.taken = self.taken.saturating_add(count as u64);
        Ok(count)
    }
}
