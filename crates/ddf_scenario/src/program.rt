//! The program whose calls scenarios play.
use ddf_bay::MemoryBay;
use ddf_bytes::{MemorySink, MemorySource, Stamp};
use ddf_hidden_logs::Honoured;
use ddf_linux::Turned;
use ddf_update::NewLayout;
use std::alloc::Global;

/// The disks as the program gives them to its commands: records that Linux sealed are turned, bad sectors stand where their logs say, and a log that is
/// honoured shows no entries.
pub type Seen = Honoured<Turned<MemoryBay>>;

/// How the program sees the disks for a call.
#[derive(Clone, Copy)]
pub struct Sight {
    /// The layout of the disks that the words ask for, if these are for Linux.
    pub founds: Option<NewLayout>,
    /// Whether bad block logs are looked for, and honoured.
    pub by_logs: bool,
}

/// A program that is called with words, the first of which name its disks.
pub trait Program {
    /// How many disks the words name.
    fn disks(&self, words: &[String]) -> usize;

    /// How the program sees the disks for these words.
    fn sight(&self, alloc: Global, words: &[String]) -> Sight;

    /// Calls the program, and gives the status that it ends with; none where the words name another number of disks than there are.
    fn call(
        &self,
        alloc: Global,
        words: &[String],
        bay: &mut Seen,
        input: &mut MemorySource,
        sink: &mut MemorySink,
        stamp: Stamp,
    ) -> Option<u8>;
}
