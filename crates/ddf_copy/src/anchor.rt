//! The anchor of a slot: the first thing that is read of a disk, and what says whether it has records at all. A slot that can't be asked is
//! failed and not blank: a blank one may be labelled. docs/FORMAT.md#whole-copies
ghost use Rattle.std.specs.Prelude.{◌≡◌, ◌+◌, ◌<◌, ◌≤◌, IfErr, IfOk, Err, true, false, length, slice_index};
ghost use Rattle.ddf_bay.specs.Moments.{IsSettled};
ghost use Rattle.ddf_bay.specs.State.{on_slot};
ghost use Rattle.ddf_bay.specs.ReadsOnly.{ReadsOnly, LooksAt};
ghost use Rattle.ddf_header.specs.declared.kind.HeaderKind.TheVariants.{Anchor};
ghost use Rattle.ddf_header.specs.Geometry.{IsSound};
ghost use Rattle.ddf_header.specs.Header.{IsWritable};
ghost use Rattle.ddf_copy.specs.Anchor.{anchor_at, anchor_in};
ghost use Rattle.ddf_copy.specs.Faults.{IsAnchorFaultOf, UpToDisk, anchor_failed};
ghost use Rattle.ddf_copy.specs.Headers.{IsAnchor};

use crate::fault::AnchorFault;
use ddf_bay::Bay;
use ddf_bytes::{Sector, be32};
use ddf_header::{HEADER_SIGNATURE, Header, HeaderKind, decode};

/// Reads the anchor, from the slot's last sector. A slot without sectors is asked for one sync instead, and is blank where
/// that is good.
#[tactic(auto, unfolding(crate::specs::Anchor::anchor_at))]
pub fn anchor_of<B: Bay>(bay: &mut B, slot: usize) -> Result<Header, AnchorFault>
    requires { slot < length (B.disks bay.old).sizes }
    ensures anchor { B.tells → UpToDisk slot result (on_slot anchor_at (B.disks bay.old) slot) }
    ensures sound { IfOk result (λ anchor. IsSound anchor.geometry) }
    ensures writable { IfOk result (IsWritable Anchor) }
    ensures spelled { IfOk result IsAnchor }
    ensures reads { ReadsOnly (B.disks bay.old) (B.disks bay.new) }
    ensures look { LooksAt (B.disks bay.old) (B.disks bay.new) slot (anchor_failed result) }
    ensures gone { (B.disks bay.old).gone slot → anchor_failed result ≡ true }
    ensures named { IfErr result (IsAnchorFaultOf slot) }
    ensures calls { (B.disks bay.new).calls ≤ (B.disks bay.old).calls + 1 }
    // A slot without sectors is blank only behind a good sync.
    ensures asked { slice_index (B.disks bay.old).sizes slot ≡ 0 → result ≡ Err AnchorFault.Blank → IsSettled (B.disks bay.new).may_hold (B.disks bay.new).held slot }
{
    let size = bay.size(slot);
    if size == 0 {
        return match bay.sync(slot) {
            Ok(()) => Err(AnchorFault::Blank),
            Err(_) => Err(AnchorFault::Disk(slot)),
        };
    }
    let mut last = [0; 512];
    match bay.read(slot, size - 1, &mut last) {
        Ok(()) => anchor_in(&last),
        Err(_) => Err(AnchorFault::Disk(slot)),
    }
}

/// The anchor that stands in a disk's last sector.
#[tactic(auto, unfolding(crate::specs::Anchor::anchor_in))]
fn anchor_in(last: &Sector) -> Result<Header, AnchorFault>
    ensures value { result ≡ anchor_in last.now }
    ensures sound { IfOk result (λ anchor. IsSound anchor.geometry) }
    ensures writable { IfOk result (IsWritable Anchor) }
    ensures spelled { IfOk result IsAnchor }
    ensures no_look { anchor_failed result ≡ false }
{
    if be32(last, 0) != HEADER_SIGNATURE {
        return Err(AnchorFault::Blank);
    }
    match decode(last, HeaderKind::Anchor) {
        Ok(anchor) => Ok(anchor),
        Err(fault) => Err(AnchorFault::Damaged(fault)),
    }
}
