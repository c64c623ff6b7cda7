//! `assemble`: the group that the disks are, brought in order. docs/COMMANDS.md#assemble
ghost use Rattle.std.specs.Prelude.{◌≡◌, string_bytes, IfErr, IfOk};
ghost use Rattle.ddf_bay.specs.Moments.{GoesOn};
ghost use Rattle.ddf_bytes.specs.Stamps.{timestamp_of};
ghost use Rattle.ddf_group_commands.specs.Assemble.{HasTold, IsAssembleDone};
ghost use Rattle.ddf_answer.specs.Call.{answer_of, work_of};
ghost use Rattle.ddf_answer.specs.Ends.{Ends};
ghost use Rattle.ddf_answer.specs.Status.{code_of};
ghost use Rattle.ddf_words.specs.Traits.{traits_of};
ghost use Rattle.ddf_words.specs.declared.command.Command.{Command};

use crate::writing::{read_group, recovered, write_changes};
use ddf_answer::{Failure, Status, tell, tell_failure};
use ddf_bay::Bay;
use ddf_bytes::{Guid, Sink, Stamp};
use ddf_recovery::loss;
use ddf_text::group_text;
use std::alloc::Global;

/// Recovers the group that the disks are, and prints it, with its members and arrays.
pub fn assemble_disks<B: Bay, K: Sink>(
    alloc: Global,
    named: Option<Guid>,
    bay: &mut B,
    sink: &mut K,
    stamp: &Stamp,
) -> Status
    ensures done { IsAssembleDone (work_of B.tells (B.disks bay.old) (B.disks bay.new)) named (timestamp_of stamp.now) (answer_of K.tells (K.output sink.old) (K.output sink.new) (code_of result)) }
    ensures ends { Ends (traits_of Command.Assemble) (work_of B.tells (B.disks bay.old) (B.disks bay.new)) (answer_of K.tells (K.output sink.old) (K.output sink.new) (code_of result)) }
{
    match assembled(alloc, named, bay, stamp) {
        Ok(text) => tell(sink, text.as_bytes(), Status::Ok),
        Err(failure) => tell_failure(alloc, failure, sink),
    }
}

/// Recovers the group, and answers its text, which is made before anything is written.
fn assembled<B: Bay>(
    alloc: Global,
    named: Option<Guid>,
    bay: &mut B,
    stamp: &Stamp,
) -> Result<String, Failure>
    ensures told { HasTold (work_of B.tells (B.disks bay.old) (B.disks bay.new)) named (timestamp_of stamp.now) result }
    ensures goes_on { GoesOn (B.disks bay.old) (B.disks bay.new) }
    ensures same_sizes { (B.disks bay.new).sizes ≡ (B.disks bay.old).sizes }
{
    let mut group = read_group(alloc, named, bay)?;
    let loss = loss(alloc, &group)?;
    let text = group_text(alloc, recovered(&group, &loss), group.seats())?;
    write_changes(alloc, &mut group, &[], stamp.timestamp(), bay)?;
    Ok(text)
}
