//! Where input comes from: the trait, and how a piece is filled. A short read isn't the end of the input; only one of no bytes is.
ghost use Rattle.std.specs.Prelude.{◌≡◌, ◌≤◌, ◌<◌, [], length, min, IfOk, OnOk, OnErr};
ghost use Rattle.ddf_bytes.specs.Counts.{Rose};
ghost use Rattle.ddf_bytes.specs.Streams.{SourceState, Gives, GivesFront};

use crate::Failed;
use thiserror::Error;

/// Where a command's input comes from.
pub trait Source {
    /// A source of this type tells the bytes that are left.
    ghost tells: { Type 0 };

    /// What it tells at this moment.
    ghost input: { Self → SourceState };

    /// Reads into a piece and answers how many bytes came. None in a piece that isn't empty is the end of the input.
    fn read(&mut self, into: &mut [u8]) -> Result<usize, Failed>
        ensures within { IfOk result (λ count. count ≤ length into.old) }
        ensures bytes { tells → IfOk result (Gives (input self.old) (input self.new) into.new) }
        ensures end { tells → 0 < length into.old → result ≡ Ok 0 → (input self.old).left ≡ [] }
        ensures bytes_failed { tells → OnErr result ((input self.new).left ≡ (input self.old).left) }
        ensures ok { OnOk result ((input self.new).faults ≡ (input self.old).faults) }
        ensures failed { OnErr result (Rose (input self.old).faults (input self.new).faults) }
        ensures never_falls { (input self.old).faults ≤ (input self.new).faults };
}

/// Why the input could not be read.
#[derive(Clone, Copy, Debug, PartialEq, Eq, Error)]
pub enum SourceFault {
    #[error("a read of the input failed")]
    Failed,
}

/// Reads until the piece is full or the input ends, and answers how many bytes came: as many as the piece holds, or all
/// that were left.
pub fn fill_from<S: Source>(source: &mut S, into: &mut [u8]) -> Result<usize, SourceFault>
    ensures bytes { S.tells → IfOk result (Gives (S.input source.old) (S.input source.new) into.new) }
    ensures all { S.tells → IfOk result (λ count. count ≡ min (length into.old) (length (S.input source.old).left)) }
    ensures within { IfOk result (λ count. count ≤ length into.old) }
    ensures bytes_failed { S.tells → OnErr result (GivesFront (S.input source.old) (S.input source.new)) }
    ensures ok { OnOk result ((S.input source.new).faults ≡ (S.input source.old).faults) }
    ensures failed { OnErr result (Rose (S.input source.old).faults (S.input source.new).faults) }
    ensures never_falls { (S.input source.old).faults ≤ (S.input source.new).faults }
{
    let mut done = 0;
    while done < into.len() {
        match source.read(&mut into[done..]) {
            Ok(0) => return Ok(done),
            Ok(count) => done += count,
            Err(_) => return Err(SourceFault::Failed),
        }
    }
    Ok(done)
}
