//! A bay over a bay, some of whose slots are seen shorter than they are.
ghost use Rattle.std.specs.Prelude.{◌≡◌, ◌<◌, ◌*◌, ℕ, true, false, length};
ghost use Rattle.ddf_bytes.specs.Counts.{Rose};
ghost use Rattle.ddf_bay.specs.State.{size_of};
ghost use Rattle.ddf_bay.specs.Moments.{Remembers, SpendsOver};
ghost use Rattle.ddf_bay.specs.ReadsOnly.{ReadsOnly};
ghost use Rattle.ddf_shortened.specs.EndsOf.{ends_before, unread_in};
ghost use Rattle.ddf_shortened.specs.SlotEnds.{ends_early};

use crate::ends::{Ends, SlotEnd, look};
use ddf_bay::Bay;

/// A bay over a bay. A slot whose last sector begins as no header, and whose sector 257 before the end begins as one of the standard, is
/// seen 256 sectors shorter: so is the disk of a controller that keeps its anchor there seen as the standard has it. Every other slot is seen as it is,
/// and so is one of which a read failed in the look. Each call is the inner one. Which slots are shorter is fixed when the bay is made.
#[derive(Drop)]
pub struct Shortened<B: Bay + Drop> {
    pub(crate) inner: B,
    pub(crate) ends: Ends,
}

impl<B: Bay + Drop> Shortened<B> {
    ghost use Rattle.ddf_shortened.specs.ShortenedBays.{disks_of, inner_of, is_shorter, is_unread};

    /// Looks at each slot, and sees it by that.
    pub fn new(inner: B) -> Shortened<B>
        // Nothing is written, and at most two calls a slot are made, all of them reads.
        ensures reads { ReadsOnly (B.disks inner) (B.disks (inner_of result)) }
        ensures remembers { Remembers (B.disks inner) (B.disks (inner_of result)) }
        ensures spends { SpendsOver (B.disks inner) (B.disks (inner_of result)) 0 (2 * length (B.disks inner).sizes) }
        ensures writes { (B.disks (inner_of result)).failed_writes ≡ (B.disks inner).failed_writes }

        // Of a slot whose reads were good it is told exactly whether it is shorter.
        ensures exact { B.tells → (s : ℕ) → s < length (B.disks inner).sizes → is_unread result s ≡ false → is_shorter result s ≡ ends_early (size_of (B.disks inner) s) ((B.disks inner).held s) }
        ensures large { (s : ℕ) → is_shorter result s ≡ true → 257 < size_of (B.disks inner) s }

        // A slot is unread only where a read of it failed, and is then seen as it is.
        ensures unread { (s : ℕ) → is_unread result s ≡ true → Rose ((B.disks inner).failed_reads s) ((B.disks (inner_of result)).failed_reads s) }
        ensures read { (s : ℕ) → is_unread result s ≡ false → (B.disks (inner_of result)).failed_reads s ≡ (B.disks inner).failed_reads s }
        ensures whole { (s : ℕ) → is_unread result s ≡ true → is_shorter result s ≡ false }
    {
        let mut inner = inner;
        let mut ends = [SlotEnd::Last; 64];
        for slot in 0..inner.slots() {
            ends[slot] = look(&mut inner, slot);
        }
        Shortened {
            inner,
            ends: Ends { slots: ends },
        }
    }

    /// Sees each slot as it is, without a look.
    pub fn whole(inner: B) -> Shortened<B>
        ensures inner { inner_of result ≡ inner }
        ensures whole { (s : ℕ) → is_shorter result s ≡ false }
        ensures read { (s : ℕ) → is_unread result s ≡ false }
    {
        Shortened {
            inner,
            ends: Ends {
                slots: [SlotEnd::Last; 64],
            },
        }
    }

    /// The inner bay.
    pub fn into_inner(self) -> B
        ensures inner { result ≡ inner_of self }

        // Its sectors are those that were seen.
        ensures held { (disks_of B.disks self).held ≡ (B.disks result).held }
    {
        self.inner
    }

    /// Whether a slot is seen 256 sectors shorter than it is.
    pub fn is_shorter(&self, slot: usize) -> bool
        ensures { result ≡ is_shorter self.now slot }
    {
        self.ends.is_early(slot)
    }

    /// Which slots are, and of which the look failed.
    pub fn ends(&self) -> Ends
        ensures shorter { (s : ℕ) → ends_before result s ≡ is_shorter self.now s }
        ensures unread { (s : ℕ) → unread_in result s ≡ is_unread self.now s }
    {
        self.ends
    }
}
