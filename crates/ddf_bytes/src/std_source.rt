//! Standard input as a source.
ghost use Rattle.std.specs.Prelude.{◌≡◌, ◌≤◌, length, IfOk, OnOk, OnErr};
ghost use Rattle.std.specs.Io.KnownBytes.{ReadConsumes};
ghost use Rattle.ddf_bytes.specs.Counts.{Rose};

use crate::{Failed, Source};
use std::io::Read;

/// A source over a reader of std, as standard input. It tells nothing of its bytes. Each error of the reader is a
/// fault, an interrupted call too.
#[derive(Drop)]
pub struct StdSource<R> {
    reader: R,
    faults: u64,
}

impl<R> StdSource<R> {
    ghost use Rattle.ddf_bytes.specs.Std.{std_input};

    /// A source over this reader, of which no read failed yet.
    pub fn new(reader: R) -> StdSource<R>
        ensures { (std_input result).faults ≡ 0 }
    {
        StdSource { reader, faults: 0 }
    }
}

impl<R: Read> Source for StdSource<R> {
    ghost use Rattle.ddf_bytes.specs.Std.{reader_left, std_input};

    ghost tells = { ⊥ };

    ghost input = { std_input };

    fn read(&mut self, into: &mut [u8]) -> Result<usize, Failed>
        ensures within { IfOk result (λ count. count ≤ length into.old) }
        ensures ok { OnOk result ((std_input self.new).faults ≡ (std_input self.old).faults) }
        ensures failed { OnErr result (Rose (std_input self.old).faults (std_input self.new).faults) }
        ensures never_falls { (std_input self.old).faults ≤ (std_input self.new).faults }

        // The bytes come from the reader, which has the others left.
        ensures consumes { ReadConsumes (reader_left R.remaining self.old) (reader_left R.remaining self.new) result into.new }
    {
        match self.reader.read(into) {
            Ok(count) => Ok(count),
            Err(_) => {
                self.faults = self.faults.saturating_add(1);
                Err(Failed)
            }
        }
    }
}
