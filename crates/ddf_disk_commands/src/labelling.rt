//! `label`: the first copies of a new group's disks. docs/UPDATES.md#the-first-copies-of-a-disk
ghost use Rattle.std.specs.Prelude.{◌≡◌, ◌+◌, ◌*◌, ◌<◌, ◌≤◌, ℕ, Some, All, IfOk, OnOk, length};
ghost use Rattle.ddf_bay.specs.Moments.{GoesOn, StopsLeave};
ghost use Rattle.ddf_bay.specs.ReadsOnly.{ReadsOnly};
ghost use Rattle.ddf_update.specs.Group.{AreFirst, IsLeftFoundingAll, slot_sizes};
ghost use Rattle.ddf_update.specs.NewCopies.{new_copy};
ghost use Rattle.ddf_config.specs.declared.refusal.Refusal.{Refusal};
ghost use Rattle.ddf_disk_commands.specs.Label.{IsLabelled, IsTried, label_copy, label_sectors, label_slots, most_labelled, revision_of};
ghost use Rattle.ddf_disk_commands.specs.LabelRefusal.{IsFit, label_layout, label_refusal, layout_of};
ghost use Rattle.ddf_answer.specs.Call.{answer_of, work_of};
ghost use Rattle.ddf_answer.specs.Costs.{WritesAtMost};
ghost use Rattle.ddf_answer.specs.Ends.{Ends};
ghost use Rattle.ddf_words.specs.Traits.{traits_of};
ghost use Rattle.ddf_words.specs.declared.command.Command.{Command};
ghost use Rattle.ddf_answer.specs.Status.{code_of};

use crate::label_slots::{fit_slots, layout_of};
use ddf_answer::{Failure, Status, tell, tell_failure};
use ddf_bay::{Bay, DiskFault};
use ddf_bytes::{NoMemory, Sink, Stamp};
use ddf_header::Revision;
use ddf_update::{NewLayout, Prepared, found, found_disks};
use ddf_words::DiskStyle;
use std::alloc::Global;

/// Writes the first copies of a new group to the named slots, or to all. The disks are made in a style, and are those of a large group where
/// that is asked for, or where a small one has no room for so many.
pub fn label<B: Bay, K: Sink>(
    alloc: Global,
    style: DiskStyle,
    large: bool,
    named: &[u8],
    bay: &mut B,
    sink: &mut K,
    stamp: &Stamp,
) -> Status
    // promise:labelled, promise:costs
    ensures done { IsLabelled (work_of B.tells (B.disks bay.old) (B.disks bay.new)) large (revision_of style) stamp.now named.now (answer_of K.tells (K.output sink.old) (K.output sink.new) (code_of result)) }
    ensures ends { Ends (traits_of (Command.Label style large named.now)) (work_of B.tells (B.disks bay.old) (B.disks bay.new)) (answer_of K.tells (K.output sink.old) (K.output sink.new) (code_of result)) }
{
    match labelled(alloc, large, revision_of(style), named, bay, stamp) {
        Ok(()) => tell(sink, b"ok sequence 1\n", Status::Ok),
        Err(failure) => tell_failure(alloc, failure, sink),
    }
}

/// The revision of disks that are made in a style: Linux takes none but this one.
fn revision_of(style: DiskStyle) -> Revision
    ensures { result ≡ revision_of style }
{
    match style {
        DiskStyle::Standard => Revision::R200,
        DiskStyle::Linux => Revision::R120,
    }
}

/// Makes all sectors, and then writes them.
fn labelled<B: Bay>(
    alloc: Global,
    large: bool,
    revision: Revision,
    named: &[u8],
    bay: &mut B,
    stamp: &Stamp,
) -> Result<(), Failure>
    ensures tried { IsTried (work_of B.tells (B.disks bay.old) (B.disks bay.new)) large revision stamp.now named.now result }
    ensures unfailed { OnOk result ((slot : ℕ) → (B.disks bay.new).failed_writes slot ≡ (B.disks bay.old).failed_writes slot) }
    ensures any_moment { B.tells → StopsLeave (B.disks bay.old) (B.disks bay.new) (IsLeftFoundingAll (B.disks bay.old) (label_slots (B.disks bay.old).sizes named.now) (label_copy large revision stamp.now (B.disks bay.old).sizes named.now)) }
    ensures goes_on { GoesOn (B.disks bay.old) (B.disks bay.new) }
    ensures same_sizes { (B.disks bay.new).sizes ≡ (B.disks bay.old).sizes }
    ensures costs { WritesAtMost (work_of B.tells (B.disks bay.old) (B.disks bay.new)) (label_sectors (label_layout large (B.disks bay.old).sizes named.now) * length (label_slots (B.disks bay.old).sizes named.now)) }
    ensures calls { (B.disks bay.new).calls ≤ (B.disks bay.old).calls + most_labelled (length (label_slots (B.disks bay.old).sizes named.now)) }
    ensures refused { B.tells → (refusal : Refusal) → label_refusal large (B.disks bay.old).sizes (B.disks bay.old).held named.now ≡ Some refusal → ReadsOnly (B.disks bay.old) (B.disks bay.new) }
{
    let slots = match fit_slots(alloc, large, named, bay) {
        Ok(slots) => slots,
        Err(failure) => return Err(failure),
    };
    let Ok(updates) = first_updates(alloc, large, revision, bay, &slots, stamp) else {
        return Err(Failure::Memory);
    };
    match found_disks(bay, &slots, &updates) {
        Ok(()) => Ok(()),
        Err(DiskFault(slot)) => Err(Failure::Disk(slot)),
    }
}

/// The first copies of a new group on these slots.
fn first_updates<B: Bay>(
    alloc: Global,
    large: bool,
    revision: Revision,
    bay: &B,
    slots: &[usize],
    stamp: &Stamp,
) -> Result<Vec<Prepared>, NoMemory>
    requires fit { IsFit (layout_of large (length slots.now)) (B.disks bay.now).sizes slots.now }
    requires there { All (λ slot. slot < length (B.disks bay.now).sizes) slots.now }
    ensures counted { IfOk result (λ updates. length updates.items ≡ length slots.now) }
    ensures first { IfOk result (λ updates. AreFirst (slot_sizes (B.disks bay.now).sizes slots.now)
        (new_copy (layout_of large (length slots.now)) revision stamp.now (slot_sizes (B.disks bay.now).sizes slots.now)) updates.items) }
{
    let layout = layout_of(large, slots.len());
    updates_of(alloc, layout, revision, bay, slots, stamp)
}

/// The first copies of a new group of a layout.
fn updates_of<B: Bay>(
    alloc: Global,
    layout: NewLayout,
    revision: Revision,
    bay: &B,
    slots: &[usize],
    stamp: &Stamp,
) -> Result<Vec<Prepared>, NoMemory>
    requires fit { IsFit layout (B.disks bay.now).sizes slots.now }
    requires there { All (λ slot. slot < length (B.disks bay.now).sizes) slots.now }
    ensures counted { IfOk result (λ updates. length updates.items ≡ length slots.now) }
    ensures first { IfOk result (λ updates. AreFirst (slot_sizes (B.disks bay.now).sizes slots.now) (new_copy layout revision stamp.now (slot_sizes (B.disks bay.now).sizes slots.now)) updates.items) }
{
    let mut disks = Vec::with_capacity(alloc, slots.len())?;
    for slot in slots {
        disks.push((*slot, bay.size(*slot)))?;
    }
    found(alloc, &disks, layout, revision, stamp)
}
