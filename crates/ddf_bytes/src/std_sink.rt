//! Standard output as a sink.
ghost use Rattle.std.specs.Prelude.{◌≡◌, ◌≤◌, ◌<◌, length, IfOk, OnOk, OnErr};
ghost use Rattle.std.specs.Io.KnownBytes.{WriteAppends};
ghost use Rattle.ddf_bytes.specs.Counts.{Rose};
ghost use Rattle.ddf_bytes.specs.Streams.{SinkNeverFalls};

use crate::{Failed, Sink};
use std::io::Write;

/// A sink over a writer of std, as standard output. It tells nothing of its bytes. Each error of the writer is a
/// fault, an interrupted call too.
#[derive(Drop)]
pub struct StdSink<W> {
    writer: W,
    faults: u64,
    empty_takes: u64,
}

impl<W> StdSink<W> {
    ghost use Rattle.ddf_bytes.specs.Std.{std_output};

    /// A sink over this writer, of which no write failed or took nothing yet.
    pub fn new(writer: W) -> StdSink<W>
        ensures faults { (std_output result).faults ≡ 0 }
        ensures empty_takes { (std_output result).empty_takes ≡ 0 }
    {
        StdSink {
            writer,
            faults: 0,
            empty_takes: 0,
        }
    }
}

impl<W: Write> Sink for StdSink<W> {
    ghost use Rattle.ddf_bytes.specs.Std.{std_output, writer_held};

    ghost tells = { ⊥ };

    ghost output = { std_output };

    fn write(&mut self, piece: &[u8]) -> Result<usize, Failed>
        ensures within { IfOk result (λ count. count ≤ length piece.now) }
        ensures ok { OnOk result ((std_output self.new).faults ≡ (std_output self.old).faults) }
        ensures failed { OnErr result (Rose (std_output self.old).faults (std_output self.new).faults) }
        ensures some { IfOk result (λ count. 0 < count → (std_output self.new).empty_takes ≡ (std_output self.old).empty_takes) }
        ensures none { 0 < length piece.now → result ≡ Ok 0 → Rose (std_output self.old).empty_takes (std_output self.new).empty_takes }
        ensures none_of_none { length piece.now ≡ 0 → (std_output self.new).empty_takes ≡ (std_output self.old).empty_takes }
        ensures failed_takes { OnErr result ((std_output self.new).empty_takes ≡ (std_output self.old).empty_takes) }
        ensures never_falls { SinkNeverFalls (std_output self.old) (std_output self.new) }

        // The writer holds what is said to be taken, and no more.
        ensures appends { WriteAppends (writer_held W.contents self.old) (writer_held W.contents self.new) result piece.now }
    {
        match self.writer.write(piece) {
            Ok(count) => {
                if count == 0 && !piece.is_empty() {
                    self.empty_takes = self.empty_takes.saturating_add(1);
                }
                Ok(count)
            }
            Err(_) => {
                self.faults = self.faults.saturating_add(1);
                Err(Failed)
            }
        }
    }
}
