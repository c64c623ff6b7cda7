//! Where the slots of a bay are seen to end, by one look at each. A disk whose controller keeps sectors of its own behind the records would
//! else look blank, since its anchor isn't in the last sector. docs/DISK-MODEL.md#the-bays
ghost use Rattle.std.specs.Prelude.{◌≡◌, ◌==◌, ◌<◌, true, false, is_err, length, IfOk, slice_index};
ghost use Rattle.ddf_bytes.specs.Counts.{Rose};
ghost use Rattle.ddf_bay.specs.State.{size_of};
ghost use Rattle.ddf_header.specs.Header.{header_signature};
ghost use Rattle.ddf_shortened.specs.SlotEnds.{ends_early, is_any_signature, is_early, is_unread, signature_of};
ghost use Rattle.ddf_shortened.specs.Looking.{Looks};

use ddf_bay::{Bay, BayFailed};
use ddf_bytes::be32;
use ddf_header::HEADER_SIGNATURE;

/// How many sectors before the end of a disk some controllers keep its anchor.
const EARLY_ANCHOR: u64 = 257;

/// The signature of a header in the other byte order.
const OTHER_ORDER: u32 = 0x11DE_11DE;

/// Where a slot is seen to end.
#[derive(Clone, Copy, PartialEq, Eq)]
pub(crate) enum SlotEnd {
    /// With its last sector.
    Last,
    /// 256 sectors before that.
    Early,
    /// With its last sector, since a read of the look failed.
    Unread,
}

impl SlotEnd {
    /// Where a slot ends whose last sector begins as no header, by the number that the sector 257 before the end begins with.
    fn by(found: u32) -> SlotEnd
        ensures early { is_early result ≡ (found == header_signature) }
        ensures read { is_unread result ≡ false }
    {
        if found == HEADER_SIGNATURE {
            SlotEnd::Early
        } else {
            SlotEnd::Last
        }
    }
}

/// Where the slots of a bay are seen to end.
#[derive(Clone, Copy)]
pub struct Ends {
    pub(crate) slots: [SlotEnd; 64],
}

impl Ends {
    ghost use Rattle.ddf_shortened.specs.EndsOf.{ends_before, unread_in};

    /// Whether a slot is seen 256 sectors shorter than it is.
    pub fn is_early(&self, slot: usize) -> bool
        ensures { result ≡ ends_before self.now slot }
    {
        match self.slots.get(slot) {
            Some(end) => matches!(end, SlotEnd::Early),
            None => false,
        }
    }

    /// Whether a read of the look at a slot failed, so that it isn't known where its records end.
    pub fn is_unread(&self, slot: usize) -> bool
        ensures { result ≡ unread_in self.now slot }
    {
        match self.slots.get(slot) {
            Some(end) => matches!(end, SlotEnd::Unread),
            None => false,
        }
    }
}

/// Looks at a slot: at its last sector, and where that begins as no header at the one where some controllers keep the anchor.
pub(crate) fn look<B: Bay>(inner: &mut B, slot: usize) -> SlotEnd
    requires { slot < length (B.disks inner.old).sizes }
    ensures looks { Looks (B.disks inner.old) (B.disks inner.new) slot 2 }
    ensures same { is_unread result ≡ false → (B.disks inner.new).failed_reads slot ≡ (B.disks inner.old).failed_reads slot }
    ensures rose { is_unread result ≡ true → Rose ((B.disks inner.old).failed_reads slot) ((B.disks inner.new).failed_reads slot) }
    ensures large { is_early result ≡ true → 257 < size_of (B.disks inner.old) slot }
    ensures exact { B.tells → is_unread result ≡ false → is_early result ≡ ends_early (size_of (B.disks inner.old) slot) ((B.disks inner.old).held slot) }
{
    let size = inner.size(slot);
    if size <= EARLY_ANCHOR {
        return SlotEnd::Last;
    }
    let Ok(last) = signature_at(inner, slot, size - 1) else {
        return SlotEnd::Unread;
    };
    if is_any_signature(last) {
        return SlotEnd::Last;
    }
    match signature_at(inner, slot, size - EARLY_ANCHOR) {
        Ok(found) => SlotEnd::by(found),
        Err(BayFailed) => SlotEnd::Unread,
    }
}

/// Whether a sector that begins with a number begins as a header, in the standard's byte order or in the other.
fn is_any_signature(number: u32) -> bool
    ensures { result ≡ is_any_signature number }
{
    number == HEADER_SIGNATURE || number == OTHER_ORDER
}

/// The number that a sector of a slot begins with.
fn signature_at<B: Bay>(inner: &mut B, slot: usize, lba: u64) -> Result<u32, BayFailed>
    requires slot { slot < length (B.disks inner.old).sizes }
    requires sector { lba < slice_index (B.disks inner.old).sizes slot }
    ensures looks { Looks (B.disks inner.old) (B.disks inner.new) slot 1 }
    ensures same { is_err result ≡ false → (B.disks inner.new).failed_reads slot ≡ (B.disks inner.old).failed_reads slot }
    ensures rose { is_err result ≡ true → Rose ((B.disks inner.old).failed_reads slot) ((B.disks inner.new).failed_reads slot) }
    ensures signature { B.tells → IfOk result (λ number. number ≡ signature_of ((B.disks inner.old).held slot lba)) }
{
    let mut sector = [0; 512];
    inner.read(slot, lba, &mut sector)?;
    Ok(be32(&sector, 0))
}
