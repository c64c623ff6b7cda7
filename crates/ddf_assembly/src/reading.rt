//! The newest copy of each slot of a bay. A slot of which a read failed is left out and not taken for blank: it may hold anything.
//! docs/DECISIONS.md#which-group-the-disks-are
ghost use Rattle.std.specs.Prelude.{◌≡◌, ◌+◌, ◌*◌, ◌++◌, ◌∷◌, ◌<◌, ◌≤◌, ℕ, [], true, IfOk, IfSome, OnOk, length, slice_index};
ghost use Rattle.ddf_bay.specs.State.{on_slot};
ghost use Rattle.ddf_bay.specs.ReadsOnly.{LooksAt, ReadsOnly};
ghost use Rattle.ddf_copy.specs.Copies.{newest_at};
ghost use Rattle.ddf_copy.specs.Faults.{show_failed};
ghost use Rattle.ddf_copy.specs.Whole.{IsNewestCopy};
ghost use Rattle.ddf_assembly.specs.Reading.{AreNewest, HasAnchor, HaveAnchors};
ghost use Rattle.ddf_assembly.specs.Slots.{IsLooked, IsRead, IsSlotRead, LeaveNone};
ghost use Rattle.ddf_assembly.specs.Held.{StandsUnder, StandUnder};

use ddf_bay::Bay;
use ddf_bytes::NoMemory;
use ddf_copy::{AnchorFault, Newest, ShowFault, anchor_of, newest};
use std::alloc::Global;

/// The newest copy of a slot. It has none where it has no anchor.
fn read_slot<B: Bay>(alloc: Global, bay: &mut B, slot: usize) -> Result<Option<Newest>, ShowFault>
    requires { slot < length (B.disks bay.old).sizes }
    ensures newest { B.tells → IfOk result (λ newest. newest ≡ on_slot newest_at (B.disks bay.old) slot) }
    ensures writable { IfOk result (λ newest. IfSome newest IsNewestCopy) }
    ensures under { IfOk result (λ newest. IfSome newest (HasAnchor (slice_index (B.disks bay.old).sizes slot))) }
    ensures stands { B.tells → IfOk result (λ newest. IfSome newest (StandsUnder (B.disks bay.old) slot)) }
    ensures reads { ReadsOnly (B.disks bay.old) (B.disks bay.new) }
    ensures look { LooksAt (B.disks bay.old) (B.disks bay.new) slot (show_failed result) }
    ensures gone { (B.disks bay.old).gone slot → show_failed result ≡ true }
    ensures calls { (B.disks bay.new).calls ≤ (B.disks bay.old).calls + 15 }
{
    match anchor_of(bay, slot) {
        Ok(anchor) => {
            let newest = newest(alloc, bay, slot, &anchor)?;
            Ok(Some(newest))
        }
        Err(AnchorFault::Blank | AnchorFault::Damaged(_)) => Ok(None),
        Err(AnchorFault::Disk(slot)) => Err(ShowFault::Disk(slot)),
    }
}

/// What was read of a slot.
#[derive(Drop)]
pub(crate) struct SlotRead {
    // Its newest copy. It has none where it has no anchor or is left out.
    newest: Option<Newest>,
    // Whether it is left out, since a call on it failed.
    left_out: bool,
}

/// The newest copy of a slot, or none where a call on it fails: it is left out.
fn read_or_leave<B: Bay>(alloc: Global, bay: &mut B, slot: usize) -> Result<SlotRead, NoMemory>
    requires { slot < length (B.disks bay.old).sizes }
    ensures read { IsSlotRead B.tells (B.disks bay.old) (B.disks bay.new) slot result }
    ensures writable { IfOk result (λ read. IfSome read.newest IsNewestCopy) }
    ensures under { IfOk result (λ read. IfSome read.newest (HasAnchor (slice_index (B.disks bay.old).sizes slot))) }
    ensures stands { B.tells → IfOk result (λ read. IfSome read.newest (StandsUnder (B.disks bay.old) slot)) }
    ensures reads { ReadsOnly (B.disks bay.old) (B.disks bay.new) }
    ensures calls { (B.disks bay.new).calls ≤ (B.disks bay.old).calls + 15 }
{
    match read_slot(alloc, bay, slot) {
        Ok(newest) => Ok(SlotRead {
            newest,
            left_out: false,
        }),
        Err(ShowFault::Disk(_)) => Ok(SlotRead {
            newest: None,
            left_out: true,
        }),
        Err(ShowFault::Memory) => Err(NoMemory),
    }
}

/// What was read of slots, the first ones of a bay.
#[derive(Drop)]
pub(crate) struct SlotsRead {
    /// The newest copy of each.
    pub(crate) newest: Vec<Option<Newest>>,
    /// Of each whether it is left out.
    pub(crate) left_out: Vec<bool>,
}

/// Puts what was read of one more behind it.
fn put_slot(read: SlotRead, slots: &mut SlotsRead) -> Result<(), NoMemory>
    ensures newest { OnOk result (slots.new.newest.items ≡ slots.old.newest.items ++ read.newest ∷ []) }
    ensures left_out { OnOk result (slots.new.left_out.items ≡ slots.old.left_out.items ++ read.left_out ∷ []) }
{
    slots.newest.push(read.newest)?;
    slots.left_out.push(read.left_out)?;
    Ok(())
}

/// The newest copy of each slot. A slot on which a call fails is left out.
pub(crate) fn read_slots<B: Bay>(alloc: Global, bay: &mut B) -> Result<SlotsRead, NoMemory>
    ensures read { IfOk result (λ slots. IsRead B.tells (B.disks bay.old) (B.disks bay.new) slots.left_out.items slots.newest.items) }
    ensures looked { IsLooked (B.disks bay.old) (B.disks bay.new) }
    ensures none { IfOk result (λ slots. LeaveNone slots.left_out.items slots.newest.items) }
    ensures writable { IfOk result (λ slots. AreNewest slots.newest.items) }
    ensures under { IfOk result (λ slots. HaveAnchors (B.disks bay.old).sizes slots.newest.items) }
    ensures stand { B.tells → IfOk result (λ slots. StandUnder (B.disks bay.old) slots.newest.items) }
    ensures never_falls { (slot : ℕ) → (B.disks bay.old).failed_reads slot ≤ (B.disks bay.new).failed_reads slot }
    ensures writes_never_fall { (slot : ℕ) → (B.disks bay.old).failed_writes slot ≤ (B.disks bay.new).failed_writes slot }
    ensures reads { ReadsOnly (B.disks bay.old) (B.disks bay.new) }
    ensures calls { (B.disks bay.new).calls ≤ (B.disks bay.old).calls + 15 * length (B.disks bay.old).sizes }
{
    let mut all = SlotsRead {
        newest: Vec::new(alloc),
        left_out: Vec::new(alloc),
    };
    for slot in 0..bay.slots() {
        let read = read_or_leave(alloc, bay, slot)?;
        put_slot(read, &mut all)?;
    }
    Ok(all)
}
