//! `import`: another group joins the group that the disks are. The disks that join are written last: cut short before the first disk shows the
//! join they are still their own group's, and from then on the next command takes them over. docs/NEW-DISK.md#cut-short
ghost use Rattle.std.specs.Prelude.{◌≡◌, ◌≤◌, ℕ, Bool, List, Option, Ok, OnOk, Some, ◌+◌, ◌*◌, length};
ghost use Rattle.ddf_bay.specs.Moments.{GoesOn, StopsLeave};
ghost use Rattle.ddf_bytes.specs.Stamps.{timestamp_of};
ghost use Rattle.ddf_answer.specs.Call.{answer_of, work_of};
ghost use Rattle.ddf_answer.specs.Ends.{Ends};
ghost use Rattle.ddf_answer.specs.Status.{code_of};
ghost use Rattle.ddf_assembly.specs.Assembled.{IsAssembledGroup};
ghost use Rattle.ddf_joining.specs.Joining.{Joining};
ghost use Rattle.ddf_assembly.specs.Slots.{LeaveNone};
ghost use Rattle.ddf_group_commands.specs.Change.{is_done};
ghost use Rattle.ddf_group_commands.specs.GroupRead.{IsFoundBy, IsReadFrom};
ghost use Rattle.ddf_group_commands.specs.Writing.{IsLeftWriting};
ghost use Rattle.ddf_words.specs.Traits.{traits_of};
ghost use Rattle.ddf_words.specs.declared.command.Command.{Command};
ghost use Rattle.ddf_import_command.specs.Import.{HasImported, IsImportDone, IsImported, IsImportReadyOr, KeepsJoins, import_asked, import_steps, is_own, keeps_disks};

use ddf_answer::{Failure, Status, tell, tell_failure};
use ddf_assembly::{AssembledGroup, Group, first_left_out};
use ddf_bay::Bay;
use ddf_bytes::{Guid, Sink, Stamp};
use ddf_config::{Refusal, Seat};
use ddf_group_commands::{failure_of, read_with_left_out};
use ddf_joining::{ReadyImport, ready_import, refuses_join, write_join};
use ddf_recovery::recover;
use ddf_text::sequence_line;
use std::alloc::Global;

/// Recovers the group that the disks are, takes the disks and the arrays of another group into it, and prints its new sequence number.
pub fn import<B: Bay, K: Sink>(
    alloc: Global,
    named: Option<Guid>,
    other: Guid,
    bay: &mut B,
    sink: &mut K,
    stamp: &Stamp,
) -> Status
    ensures done { IsImportDone (work_of B.tells (B.disks bay.old) (B.disks bay.new)) named other (timestamp_of stamp.now) (answer_of K.tells (K.output sink.old) (K.output sink.new) (code_of result)) }
    ensures ends { Ends (traits_of (Command.Import other)) (work_of B.tells (B.disks bay.old) (B.disks bay.new)) (answer_of K.tells (K.output sink.old) (K.output sink.new) (code_of result)) }
{
    match imported(alloc, named, other, bay, stamp.timestamp()) {
        Ok(sequence) => tell(sink, sequence_line(sequence).as_bytes(), Status::Ok),
        Err(failure) => tell_failure(alloc, failure, sink),
    }
}

/// The same, without the answer: the sequence number of the group behind it.
fn imported<B: Bay>(
    alloc: Global,
    named: Option<Guid>,
    other: Guid,
    bay: &mut B,
    timestamp: u32,
) -> Result<u32, Failure>
    ensures imported { HasImported (work_of B.tells (B.disks bay.old) (B.disks bay.new)) named other timestamp result }
    ensures goes_on { GoesOn (B.disks bay.old) (B.disks bay.new) }
    ensures same_sizes { (B.disks bay.new).sizes ≡ (B.disks bay.old).sizes }
{
    let native = read_with_left_out(alloc, named, bay)?;
    let joining = read_with_left_out(alloc, Some(other), bay)?;
    let AssembledGroup { group, left_out } = native;
    let mut group = group;
    write_import(
        alloc,
        &mut group,
        left_out.items(),
        &joining,
        timestamp,
        bay,
    )
}

/// Whether a slot is that of a seat.
fn is_own(seats: &[Seat], slot: usize) -> bool
    ensures { result ≡ is_own seats.now slot }
{
    seats.iter().any(|seat| seat.slot == slot)
}

/// Whether a group keeps the newest copy of each of these seats' slots, and none is a slot of its own.
fn keeps_disks(group: &Group, seats: &[Seat]) -> bool
    ensures { result ≡ keeps_disks group.now seats.now }
{
    seats.iter().all(|seat| group.kept(seat.slot) && !is_own(group.seats(), seat.slot))
}

/// The recovery of a group and the join of another one's disks, where the look that found the first left these slots out; or why there is none.
fn readied(
    alloc: Global,
    group: &Group,
    left_out: &[bool],
    other: &Group,
    timestamp: u32,
) -> Result<ReadyImport, Failure>
    requires assembled { IsAssembledGroup group.now }
    requires also { IsAssembledGroup other.now }
    ensures readied { IsImportReadyOr timestamp left_out.now group.now other.now result }
{
    let refusal = refuses_join(alloc, group, other)?;
    if let Some(refusal) = refusal {
        return Err(Failure::Refused(refusal));
    }
    if let Some(slot) = first_left_out(left_out, other.seats()) {
        return Err(Failure::Disk(slot));
    }
    if !keeps_disks(group, other.seats()) {
        return Err(Failure::Refused(Refusal::NoGroup));
    }
    match ready_import(alloc, group, other, timestamp) {
        Ok(ready) => Ok(ready),
        Err(fault) => Err(failure_of(fault)),
    }
}

/// Recovers a group and writes the join of another one's disks to it, and answers its sequence number behind that.
fn write_import<B: Bay>(
    alloc: Global,
    group: &mut Group,
    left_out: &[bool],
    joining: &AssembledGroup,
    timestamp: u32,
    bay: &mut B,
) -> Result<u32, Failure>
    requires from { IsReadFrom B.tells (B.disks bay.old) group.old }
    requires also { IsReadFrom B.tells (B.disks bay.old) joining.now.group }
    requires none { LeaveNone joining.now.left_out joining.now.group.newest }
    ensures imported { IsImported (work_of B.tells (B.disks bay.old) (B.disks bay.new)) joining.now.left_out group.old joining.now.group
        (import_asked timestamp left_out.now group.old joining.now.group) result }
    ensures keeps { B.tells → (left also_left : List Bool) (named also_named : Option (List ℕ)) → IsFoundBy (B.disks bay.old) left named group.old
        → IsFoundBy (B.disks bay.old) also_left also_named joining.now.group → (made : Joining) → import_asked timestamp left_out.now group.old joining.now.group ≡ Ok made
        → KeepsJoins (B.disks bay.old) (B.disks bay.new) left group.old joining.now.group timestamp made (is_done result) }

    // From entry to exit nothing of any slot is another than before but the copies that are written.
    ensures leaves { B.tells → (made : Joining) → import_asked timestamp left_out.now group.old joining.now.group ≡ Ok made
        → StopsLeave (B.disks bay.old) (B.disks bay.new) (IsLeftWriting (B.disks bay.old) (import_steps made)) }
    ensures goes_on { GoesOn (B.disks bay.old) (B.disks bay.new) }
    ensures same_sizes { (B.disks bay.new).sizes ≡ (B.disks bay.old).sizes }
    ensures reads { (B.disks bay.new).failed_reads ≡ (B.disks bay.old).failed_reads }
    ensures writes_rise { (slot : ℕ) → (B.disks bay.old).failed_writes slot ≤ (B.disks bay.new).failed_writes slot }
    ensures calls { (B.disks bay.new).calls ≤ (B.disks bay.old).calls + 52 * length (B.disks bay.old).sizes }
    ensures unfailed { OnOk result ((B.disks bay.new).failed_writes ≡ (B.disks bay.old).failed_writes) }
{
    let ready = readied(alloc, group, left_out, &joining.group, timestamp)?;
    let ReadyImport { recovery, join } = ready;
    let mut recovery = recovery;
    recover(group, bay, &mut recovery)?;
    write_join(group, bay, join)?;
    Ok(group.config().sequence)
}
