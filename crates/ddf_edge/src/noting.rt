//! The input, and whether it failed.
ghost use Rattle.std.specs.Prelude.{◌≡◌};

use ddf_bytes::{Failed, Source};

/// A source that notes whether a read of another one failed.
#[derive(Drop)]
pub struct NotingSource<S> {
    source: S,
    failed: bool,
}

impl<S> NotingSource<S> {
    /// Notes what becomes of the reads of this source from now on.
    pub fn new(source: S) -> NotingSource<S> {
        NotingSource {
            source,
            failed: false,
        }
    }

    /// Whether a read failed.
    pub fn failed(&self) -> bool {
        self.failed
    }
}

impl<S: Source> Source for NotingSource<S> {
    ghost tells = { S.tells };

    ghost input = { λ noting. S.input noting.source };

    fn read(&mut self, into: &mut [u8]) -> Result<usize, Failed> {
        match self.source.read(into) {
            Ok(count) => Ok(count),
            Err(failed) => {
                self.failed = true;
                Err(failed)
            }
        }
    }
}
