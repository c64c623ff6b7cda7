//! What the bad block log of each slot gives, by one look at its copies.
ghost use Rattle.std.specs.Prelude.{◌≡◌, ◌+◌, ◌-◌, ◌*◌, ◌++◌, ◌<◌, ◌≤◌, ◌∷◌, ℕ, [], true, if◌then◌else◌, length, IfOk, OnOk, slice_index};
ghost use Rattle.ddf_bay.specs.ReadsOnly.{AreFailed, LooksAt, ReadsOnly};
ghost use Rattle.ddf_bay.specs.State.{on_slot};
ghost use Rattle.ddf_copy.specs.Copies.{copies_of};
ghost use Rattle.ddf_copy.specs.Headers.{IsAnchor};
ghost use Rattle.ddf_badblocks.specs.Ranges.{are_exchangeable};
ghost use Rattle.ddf_logs.specs.Logs.{exchange_in};
ghost use Rattle.ddf_logs.specs.Looks.{AreLooks, exchange_or};

use crate::log::log_of;
use ddf_badblocks::Exchange;
use ddf_bay::Bay;
use ddf_bytes::NoMemory;
use ddf_copy::{AnchorFault, ShowFault, anchor_of, copies_of};
use ddf_header::Header;
use std::alloc::Global;

/// What a look at a slot gave.
#[derive(Drop)]
pub(crate) struct Look {
    // The exchange of its bad sectors with spare ones: that of none where a call failed.
    exchange: Exchange,
    // Whether a call on the slot failed.
    failed: bool,
}

/// Looks at both copies of a slot, under its anchor.
fn look_under<B: Bay>(
    alloc: Global,
    bay: &mut B,
    slot: usize,
    anchor: &Header,
) -> Result<Look, NoMemory>
    requires slot { slot < length (B.disks bay.old).sizes }
    requires some { 0 < slice_index (B.disks bay.old).sizes slot }
    requires anchor { IsAnchor anchor.now }
    ensures exchange { B.tells → IfOk result (λ look. look.exchange ≡ (if look.failed then [] else exchange_in (slice_index (B.disks bay.old).sizes slot - 1) anchor.now (on_slot copies_of (B.disks bay.old) slot anchor.now))) }
    ensures can { IfOk result (λ look. are_exchangeable (slice_index (B.disks bay.old).sizes slot) look.exchange ≡ true) }
    ensures reads { ReadsOnly (B.disks bay.old) (B.disks bay.new) }
    ensures look { IfOk result (λ look. LooksAt (B.disks bay.old) (B.disks bay.new) slot look.failed) }
    ensures calls { (B.disks bay.new).calls ≤ (B.disks bay.old).calls + 14 }
{
    let last = bay.size(slot) - 1;
    match copies_of(alloc, bay, slot, anchor) {
        Ok(copies) => {
            let log = log_of(alloc, anchor, &copies, last)?;
            Ok(Look {
                exchange: log.exchange,
                failed: false,
            })
        }
        Err(ShowFault::Disk(_)) => Ok(Look {
            exchange: Exchange::none(alloc),
            failed: true,
        }),
        Err(ShowFault::Memory) => Err(NoMemory),
    }
}

/// Looks at a slot: one without an anchor has no log.
#[tactic(auto, unfolding(crate::specs::Logs::exchange_at))]
fn look_at<B: Bay>(alloc: Global, bay: &mut B, slot: usize) -> Result<Look, NoMemory>
    requires { slot < length (B.disks bay.old).sizes }
    ensures exchange { B.tells → IfOk result (λ look. look.exchange ≡ exchange_or (B.disks bay.old) slot look.failed) }
    ensures can { IfOk result (λ look. are_exchangeable (slice_index (B.disks bay.old).sizes slot) look.exchange ≡ true) }
    ensures reads { ReadsOnly (B.disks bay.old) (B.disks bay.new) }
    ensures look { IfOk result (λ look. LooksAt (B.disks bay.old) (B.disks bay.new) slot look.failed) }
    ensures calls { (B.disks bay.new).calls ≤ (B.disks bay.old).calls + 15 }
{
    if bay.size(slot) == 0 {
        return Ok(Look {
            exchange: Exchange::none(alloc),
            failed: false,
        });
    }
    match anchor_of(bay, slot) {
        Ok(anchor) => look_under(alloc, bay, slot, &anchor),
        Err(AnchorFault::Blank | AnchorFault::Damaged(_)) => Ok(Look {
            exchange: Exchange::none(alloc),
            failed: false,
        }),
        Err(AnchorFault::Disk(_)) => Ok(Look {
            exchange: Exchange::none(alloc),
            failed: true,
        }),
    }
}

/// What looks at slots gave, the first ones of a bay.
#[derive(Drop)]
pub(crate) struct Looks {
    /// The exchange of each.
    pub(crate) exchanges: Vec<Exchange>,
    /// Of each whether a call on it failed.
    pub(crate) failed: Vec<bool>,
}

/// Puts what one more gave behind them.
fn put_look(look: Look, looks: &mut Looks) -> Result<(), NoMemory>
    ensures exchanges { OnOk result (looks.new.exchanges.items ≡ looks.old.exchanges.items ++ look.exchange ∷ []) }
    ensures failed { OnOk result (looks.new.failed.items ≡ looks.old.failed.items ++ look.failed ∷ []) }
{
    looks.exchanges.push(look.exchange)?;
    looks.failed.push(look.failed)?;
    Ok(())
}

/// Looks at each slot of a bay.
pub(crate) fn look_at_all<B: Bay>(alloc: Global, bay: &mut B) -> Result<Looks, NoMemory>
    ensures looks { IfOk result (λ looks. AreLooks B.tells (B.disks bay.old) looks.failed.items looks.exchanges.items) }
    ensures every_slot { IfOk result (λ looks. length looks.failed.items ≡ length (B.disks bay.old).sizes) }
    ensures failed { IfOk result (λ looks. AreFailed (B.disks bay.old) (B.disks bay.new) looks.failed.items) }
    ensures reads { ReadsOnly (B.disks bay.old) (B.disks bay.new) }
    ensures calls { (B.disks bay.new).calls ≤ (B.disks bay.old).calls + 15 * length (B.disks bay.old).sizes }
{
    let mut looks = Looks {
        exchanges: Vec::new(alloc),
        failed: Vec::new(alloc),
    };
    for slot in 0..bay.slots() {
        let look = look_at(alloc, bay, slot)?;
        put_look(look, &mut looks)?;
    }
    Ok(looks)
}
