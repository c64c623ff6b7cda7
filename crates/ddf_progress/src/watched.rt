//! A bay over another one, and who is told of its reads and writes.
ghost use Rattle.std.specs.Prelude.{◌≡◌};
ghost use Rattle.ddf_progress.specs.Watching.{inner_of};

use ddf_bay::Bay;

/// Who is told how far calls have come.
pub trait Progress {
    /// So many sectors more were asked for.
    fn read(&mut self, sectors: u64);

    /// So many sectors more were asked to be written.
    fn wrote(&mut self, sectors: u64);
}

/// A bay that is another one, and tells of each read and write.
#[derive(Drop)]
pub struct Watched<B, P> {
    pub(crate) inner: B,
    pub(crate) progress: P,
}

impl<B: Bay + Drop, P: Progress + Drop> Watched<B, P> {
    /// Tells of the reads and writes of this bay from now on.
    pub fn new(inner: B, progress: P) -> Watched<B, P>
        ensures { inner_of result ≡ inner }
    {
        Watched { inner, progress }
    }

    /// The bay itself, and who was told.
    pub fn into_parts(self) -> (B, P)
        ensures { result.0 ≡ inner_of self }
    {
        (self.inner, self.progress)
    }
}
