//! Where output goes: the trait, and how a whole piece is written. A write that takes nothing is a fault, or its caller would ask for ever.
ghost use Rattle.std.specs.Prelude.{◌≡◌, ◌≤◌, ◌<◌, ◌++◌, length, take, IfOk, OnOk, OnErr, IsErrOf};
ghost use Rattle.ddf_bytes.specs.Counts.{Rose};
ghost use Rattle.ddf_bytes.specs.Streams.{SinkState, SinkNeverFalls, SinkSame, TakesFront};

use crate::Failed;
use thiserror::Error;

/// Where a command's output goes.
pub trait Sink {
    /// A sink of this type tells the bytes that it took.
    ghost tells: { Type 0 };

    /// What it tells at this moment.
    ghost output: { Self → SinkState };

    /// Writes a front of the piece and answers how many bytes of it were taken.
    fn write(&mut self, piece: &[u8]) -> Result<usize, Failed>
        ensures within { IfOk result (λ count. count ≤ length piece.now) }
        ensures bytes { tells → IfOk result (λ count. (output self.new).taken ≡ (output self.old).taken ++ take count piece.now) }
        ensures bytes_failed { tells → OnErr result ((output self.new).taken ≡ (output self.old).taken) }
        ensures ok { OnOk result ((output self.new).faults ≡ (output self.old).faults) }
        ensures failed { OnErr result (Rose (output self.old).faults (output self.new).faults) }
        ensures some { IfOk result (λ count. 0 < count → (output self.new).empty_takes ≡ (output self.old).empty_takes) }
        ensures none { 0 < length piece.now → result ≡ Ok 0 → Rose (output self.old).empty_takes (output self.new).empty_takes }
        ensures none_of_none { length piece.now ≡ 0 → (output self.new).empty_takes ≡ (output self.old).empty_takes }
        ensures failed_takes { OnErr result ((output self.new).empty_takes ≡ (output self.old).empty_takes) }
        ensures never_falls { SinkNeverFalls (output self.old) (output self.new) };
}

/// Why the output could not be written.
#[derive(Clone, Copy, Debug, PartialEq, Eq, Error)]
pub enum SinkFault {
    /// A write failed.
    #[error("a write of the output failed")]
    Failed,
    /// A write took none of its bytes.
    #[error("the output takes no more bytes")]
    Nothing,
}

/// Writes the whole piece. After a fault a front of it was taken.
pub fn write_all<K: Sink>(sink: &mut K, piece: &[u8]) -> Result<(), SinkFault>
    ensures written { K.tells → OnOk result ((K.output sink.new).taken ≡ (K.output sink.old).taken ++ piece.now) }
    ensures front { K.tells → TakesFront (K.output sink.old) (K.output sink.new) piece.now }
    ensures ok { OnOk result (SinkSame (K.output sink.old) (K.output sink.new)) }
    ensures failed { IsErrOf result SinkFault.Failed → Rose (K.output sink.old).faults (K.output sink.new).faults }
    ensures nothing { IsErrOf result SinkFault.Nothing → Rose (K.output sink.old).empty_takes (K.output sink.new).empty_takes }
    ensures never_falls { SinkNeverFalls (K.output sink.old) (K.output sink.new) }
{
    let mut done = 0;
    while done < piece.len() {
        match sink.write(&piece[done..]) {
            Ok(0) => return Err(SinkFault::Nothing),
            Ok(count) => done += count,
            Err(_) => return Err(SinkFault::Failed),
        }
    }
    Ok(())
}
