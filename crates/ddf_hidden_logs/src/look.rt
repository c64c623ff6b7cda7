//! What of the bad block log of each slot is shown, by one look at its copies.
ghost use Rattle.std.specs.Prelude.{◌≡◌, ◌+◌, ◌-◌, ◌*◌, ◌++◌, ◌<◌, ◌≤◌, ◌∷◌, ◌^◌, ℕ, [], None, if◌then◌else◌, length, IfOk, OnOk, slice_index};
ghost use Rattle.ddf_bay.specs.ReadsOnly.{AreFailed, LooksAt, ReadsOnly};
ghost use Rattle.ddf_bay.specs.State.{on_slot};
ghost use Rattle.ddf_copy.specs.Copies.{copies_of};
ghost use Rattle.ddf_copy.specs.Headers.{IsAnchor};
ghost use Rattle.ddf_copy.specs.Whole.{AreCopies, AreUnder};
ghost use Rattle.ddf_hidden_logs.specs.Looks.{AreLooks};
ghost use Rattle.ddf_hidden_logs.specs.Shown.{mask_in, mask_or};

use crate::mask::Mask;
use crate::recount::mask_under;
use ddf_bay::Bay;
use ddf_bytes::NoMemory;
use ddf_copy::{AnchorFault, Copies, ShowFault, anchor_of, copies_of};
use ddf_header::Header;
use ddf_logs::log_of;
use std::alloc::Global;

/// What a look at a slot gave.
#[derive(Drop)]
pub(crate) struct Look {
    // The mask of its log: none where a call failed.
    mask: Option<Mask>,
    // Whether a call on the slot failed.
    failed: bool,
}

/// The mask of a disk's log, by the copies that were read under its anchor.
fn mask_in(
    alloc: Global,
    anchor: &Header,
    copies: Copies,
    last: u64,
) -> Result<Option<Mask>, NoMemory>
    requires small { last < 2 ^ 55 }
    requires under { AreUnder (last + 1) anchor.now copies }
    requires writable { AreCopies copies }
    ensures { IfOk result (λ mask. mask ≡ mask_in last anchor.now copies) }
{
    let log = log_of(alloc, anchor, &copies, last)?;
    match copies.newest().copy() {
        Some(copy) => mask_under(alloc, anchor, copy, log.bad),
        None => Ok(None),
    }
}

/// Looks at both copies of a slot, under its anchor.
fn look_under<B: Bay>(
    alloc: Global,
    bay: &mut B,
    slot: usize,
    anchor: &Header,
) -> Result<Look, NoMemory>
    requires slot { slot < length (B.disks bay.old).sizes }
    requires some { 0 < slice_index (B.disks bay.old).sizes slot }
    requires anchor { IsAnchor anchor.now }
    ensures mask { B.tells → IfOk result (λ look. look.mask ≡ (if look.failed then None else mask_in (slice_index (B.disks bay.old).sizes slot - 1) anchor.now (on_slot copies_of (B.disks bay.old) slot anchor.now))) }
    ensures reads { ReadsOnly (B.disks bay.old) (B.disks bay.new) }
    ensures look { IfOk result (λ look. LooksAt (B.disks bay.old) (B.disks bay.new) slot look.failed) }
    ensures calls { (B.disks bay.new).calls ≤ (B.disks bay.old).calls + 14 }
{
    let last = bay.size(slot) - 1;
    match copies_of(alloc, bay, slot, anchor) {
        Ok(copies) => {
            let mask = mask_in(alloc, anchor, copies, last)?;
            Ok(Look {
                mask,
                failed: false,
            })
        }
        Err(ShowFault::Disk(_)) => Ok(Look {
            mask: None,
            failed: true,
        }),
        Err(ShowFault::Memory) => Err(NoMemory),
    }
}

/// Looks at a slot: one without an anchor has no log.
#[tactic(auto, unfolding(crate::specs::Shown::mask_at))]
fn look_at<B: Bay>(alloc: Global, bay: &mut B, slot: usize) -> Result<Look, NoMemory>
    requires { slot < length (B.disks bay.old).sizes }
    ensures mask { B.tells → IfOk result (λ look. look.mask ≡ mask_or (B.disks bay.old) slot look.failed) }
    ensures reads { ReadsOnly (B.disks bay.old) (B.disks bay.new) }
    ensures look { IfOk result (λ look. LooksAt (B.disks bay.old) (B.disks bay.new) slot look.failed) }
    ensures calls { (B.disks bay.new).calls ≤ (B.disks bay.old).calls + 15 }
{
    if bay.size(slot) == 0 {
        return Ok(Look {
            mask: None,
            failed: false,
        });
    }
    match anchor_of(bay, slot) {
        Ok(anchor) => look_under(alloc, bay, slot, &anchor),
        Err(AnchorFault::Blank | AnchorFault::Damaged(_)) => Ok(Look {
            mask: None,
            failed: false,
        }),
        Err(AnchorFault::Disk(_)) => Ok(Look {
            mask: None,
            failed: true,
        }),
    }
}

/// What looks at slots gave, the first ones of a bay.
#[derive(Drop)]
pub(crate) struct Looks {
    /// The mask of each.
    pub(crate) masks: Vec<Option<Mask>>,
    /// Of each whether a call on it failed.
    pub(crate) failed: Vec<bool>,
}

/// Puts what one more gave behind them.
fn put_look(look: Look, looks: &mut Looks) -> Result<(), NoMemory>
    ensures masks { OnOk result (looks.new.masks.items ≡ looks.old.masks.items ++ look.mask ∷ []) }
    ensures failed { OnOk result (looks.new.failed.items ≡ looks.old.failed.items ++ look.failed ∷ []) }
{
    looks.masks.push(look.mask)?;
    looks.failed.push(look.failed)?;
    Ok(())
}

/// Looks at each slot of a bay.
pub(crate) fn look_at_all<B: Bay>(alloc: Global, bay: &mut B) -> Result<Looks, NoMemory>
    ensures looks { IfOk result (λ looks. AreLooks B.tells (B.disks bay.old) looks.failed.items looks.masks.items) }
    ensures every_slot { IfOk result (λ looks. length looks.failed.items ≡ length (B.disks bay.old).sizes) }
    ensures failed { IfOk result (λ looks. AreFailed (B.disks bay.old) (B.disks bay.new) looks.failed.items) }
    ensures reads { ReadsOnly (B.disks bay.old) (B.disks bay.new) }
    ensures calls { (B.disks bay.new).calls ≤ (B.disks bay.old).calls + 15 * length (B.disks bay.old).sizes }
{
    let mut looks = Looks {
        masks: Vec::new(alloc),
        failed: Vec::new(alloc),
    };
    for slot in 0..bay.slots() {
        let look = look_at(alloc, bay, slot)?;
        put_look(look, &mut looks)?;
    }
    Ok(looks)
}
