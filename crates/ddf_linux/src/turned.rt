//! A bay over a bay, whose records are turned where Linux sealed them, so that all else knows one kind of seal. docs/LINUX-SEALS.md#a-bay-over-a-bay
ghost use Rattle.std.specs.Prelude.{◌≡◌, ◌≢◌, ◌<◌, ◌≤◌, ℕ, true, false, length, replicate};
ghost use Rattle.ddf_bytes.specs.Counts.{Rose};
ghost use Rattle.ddf_bay.specs.Moments.{Remembers, SpendsOver, SpendsReads};
ghost use Rattle.ddf_bay.specs.ReadsOnly.{ReadsOnly};
ghost use Rattle.ddf_linux.specs.Kinds.{IsSeenAs, is_turned, is_unread, turn};

use crate::kind::SlotKind;
use crate::zeros::SectorZeros;
use ddf_bay::{Bay, BayFailed};
use ddf_update::NewLayout;

/// A bay over a bay. A slot whose anchor is sealed as Linux's mdadm counts the CRC is turned: its sealed records are seen in
/// the standard's kind, and what is written to their places is sealed in Linux's. Every other slot is seen as it is, but for
/// one on which a disk may be founded where new disks are Linux's: the records of such a disk are turned before they are there.
/// Which sectors are turned is fixed when the bay is made, by the anchors of that moment and by the sizes of slots. A slot
/// whose last sector could not be read then fails each call.
#[derive(Drop)]
pub struct Turned<B: Bay + Drop> {
    pub(crate) inner: B,
    pub(crate) kinds: [SlotKind; 64],
    pub(crate) read_faults: [u64; 64],
    pub(crate) write_faults: [u64; 64],
    pub(crate) made: u64,
}

impl<B: Bay + Drop> Turned<B> {
    ghost use Rattle.ddf_linux.specs.TurnedBays.{inner_of, kind_of, disks_of};

    /// Reads the last sector of each slot, and sees the slot by it. With `founds` new disks of that layout are sealed in Linux's kind:
    /// a slot on which one may be founded is seen as that disk will be.
    pub fn new(inner: B, founds: Option<NewLayout>) -> Turned<B>
        // Nothing is written.
        ensures reads { ReadsOnly (B.disks inner) (B.disks (inner_of result)) }
        ensures remembers { Remembers (B.disks inner) (B.disks (inner_of result)) }

        // At most as many calls are made as there are slots. None asks for a sector to be written, or counts a failed write.
        ensures spends { SpendsOver (B.disks inner) (B.disks (inner_of result)) 0 (length (B.disks inner).sizes) }
        ensures writes { (B.disks (inner_of result)).failed_writes ≡ (B.disks inner).failed_writes }

        // A slot that could be read is turned exactly where its anchor is sealed in Linux's kind, at the anchor's places, and where a
        // disk may be founded on it for Linux, at the places of such a disk.
        ensures kinds { B.tells → (s : ℕ) → s < length (B.disks inner).sizes → is_unread (kind_of result s) ≡ false → IsSeenAs founds (B.disks inner) s (kind_of result s) }

        // A slot is unread only where a read of it failed.
        ensures unread { (s : ℕ) → is_unread (kind_of result s) ≡ true → Rose ((B.disks inner).failed_reads s) ((B.disks (inner_of result)).failed_reads s) }
        ensures read { (s : ℕ) → is_unread (kind_of result s) ≡ false → (B.disks (inner_of result)).failed_reads s ≡ (B.disks inner).failed_reads s }

        // Its own counts begin at 0.
        ensures calls { (disks_of B.disks result).calls ≡ 0 }
        ensures faults { (s : ℕ) → is_unread (kind_of result s) ≡ true → ((disks_of B.disks result).failed_reads s ≡ 0) × ((disks_of B.disks result).failed_writes s ≡ 0) }
    {
        let mut inner = inner;
        let zeros = SectorZeros::new();
        let mut kinds = [SlotKind::Plain; 64];
        for slot in 0..inner.slots() {
            kinds[slot] = look(&zeros, &mut inner, slot, founds);
        }
        Turned {
            inner,
            kinds,
            read_faults: [0; 64],
            write_faults: [0; 64],
            made: 0,
        }
    }

    /// The inner bay, to be asked.
    pub fn inner(&self) -> &B
        ensures { result.now ≡ inner_of self.now }
    {
        &self.inner
    }

    /// The inner bay.
    pub fn into_inner(self) -> B
        ensures inner { result ≡ inner_of self }

        // What is seen of a sector is what it holds, turned, and the other way round.
        ensures held { (s l : ℕ) → (disks_of B.disks self).held s l ≡ turn (kind_of self s) l ((B.disks result).held s l) }
        ensures back { (s l : ℕ) → (B.disks result).held s l ≡ turn (kind_of self s) l ((disks_of B.disks self).held s l) }
    {
        self.inner
    }

    /// Whether records of a slot are turned.
    pub fn turns(&self, slot: usize) -> bool
        requires { slot < length (disks_of B.disks self.now).sizes }
        ensures { result ≡ is_turned (kind_of self.now slot) }
    {
        self.kinds[slot].is_turned()
    }
}

/// Reads the last sector of a slot, and sees the slot by it.
fn look<B: Bay>(
    zeros: &SectorZeros,
    inner: &mut B,
    slot: usize,
    founds: Option<NewLayout>,
) -> SlotKind
    requires { slot < length (B.disks inner.old).sizes }
    ensures reads { ReadsOnly (B.disks inner.old) (B.disks inner.new) }
    ensures remembers { Remembers (B.disks inner.old) (B.disks inner.new) }
    ensures spends { SpendsReads (B.disks inner.old) (B.disks inner.new) slot 1 }
    ensures same { is_unread result ≡ false → (B.disks inner.new).failed_reads slot ≡ (B.disks inner.old).failed_reads slot }
    ensures rose { is_unread result ≡ true → Rose ((B.disks inner.old).failed_reads slot) ((B.disks inner.new).failed_reads slot) }
    ensures kind { B.tells → is_unread result ≡ false → IsSeenAs founds (B.disks inner.old) slot result }
{
    let size = inner.size(slot);
    if size == 0 {
        return SlotKind::Plain;
    }
    let mut last = [0; 512];
    match inner.read(slot, size - 1, &mut last) {
        Ok(()) => SlotKind::seen(zeros, size, &last, founds),
        Err(BayFailed) => SlotKind::Unread,
    }
}
