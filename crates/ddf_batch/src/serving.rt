//! The call that the program makes. It promises nothing itself, so the program doesn't load all that `run` promises.
//! docs/DECISIONS-COMMANDS.md#words-and-commands
ghost use Rattle.std.specs.Prelude.{◌≡◌, length};
ghost use Rattle.ddf_words.specs.Words.{words_of, slot_count};

use crate::running::run;
use ddf_bay::Bay;
use ddf_bytes::{Sink, Source, Stamp};
use std::alloc::Global;

/// The same call for a program, of which the contract names the conditions alone: what it promises stands at `run`, which it calls.
// argued: that `serve` does what `run` promises, for its body is one call of `run` with the same arguments.
pub fn serve<B: Bay, S: Source, K: Sink>(
    alloc: Global,
    words: &[String],
    bay: &mut B,
    source: &mut S,
    sink: &mut K,
    stamp: Stamp,
) -> u8
    requires slots { length (B.disks bay.old).sizes ≡ slot_count (words_of words.now) }
{
    run(alloc, words, bay, source, sink, stamp)
}
