//! `show`: the group that the disks are, as they record it. It counts by the disks that are there, or an array without one would be `optimal`.
//! docs/COMMANDS.md#show
ghost use Rattle.std.specs.Prelude.{◌≡◌};
ghost use Rattle.ddf_bytes.specs.Streams.{SinkRose};
ghost use Rattle.ddf_group_commands.specs.Show.{IsGroupShown, IsShown};
ghost use Rattle.ddf_answer.specs.Call.{answer_of, work_of};
ghost use Rattle.ddf_answer.specs.Ends.{Ends};
ghost use Rattle.ddf_answer.specs.Status.{code_of};
ghost use Rattle.ddf_words.specs.Traits.{traits_of};
ghost use Rattle.ddf_words.specs.declared.command.Command.{Command};

use crate::writing::read_group;
use ddf_answer::{Status, tell, tell_failure};
use ddf_assembly::Group;
use ddf_bay::Bay;
use ddf_bytes::{Guid, NoMemory, Sink};
use ddf_text::shown_text;
use std::alloc::Global;

/// Prints the group that the disks are, with its members and arrays, as it was assembled. Nothing is recovered.
pub fn show<B: Bay, K: Sink>(
    alloc: Global,
    named: Option<Guid>,
    bay: &mut B,
    sink: &mut K,
) -> Status
    ensures done { IsShown (work_of B.tells (B.disks bay.old) (B.disks bay.new)) named (answer_of K.tells (K.output sink.old) (K.output sink.new) (code_of result)) }
    ensures ends { Ends (traits_of Command.Show) (work_of B.tells (B.disks bay.old) (B.disks bay.new)) (answer_of K.tells (K.output sink.old) (K.output sink.new) (code_of result)) }
{
    match read_group(alloc, named, bay) {
        Ok(group) => tell_group(alloc, &group, sink),
        Err(failure) => tell_failure(alloc, failure, sink),
    }
}

/// Prints a group as it was assembled.
fn tell_group<K: Sink>(alloc: Global, group: &Group, sink: &mut K) -> Status
    ensures told { IsGroupShown group.now (answer_of K.tells (K.output sink.old) (K.output sink.new) (code_of result)) }
    ensures stream { code_of result ≡ 6 → SinkRose (K.output sink.old) (K.output sink.new) }
{
    match shown_text(alloc, group.config(), group.seats(), group.lagging()) {
        Ok(text) => tell(sink, text.as_bytes(), Status::Ok),
        Err(NoMemory) => Status::Memory,
    }
}
