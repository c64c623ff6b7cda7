//! A bay over a bay, whose disks' bad block logs show what counts against the disk.
ghost use Rattle.std.specs.Prelude.{◌≡◌, ℕ, None};
ghost use Rattle.ddf_hidden_logs.specs.Masks.{hidden, turn};

use crate::mask::Mask;
use crate::masks::hidden_at;
use ddf_bay::Bay;
use std::alloc::Global;

/// A bay over a bay. Of each slot, at the place of the bad block log in either copy, the front of the newest copy's log is seen as another one:
/// with the count of entries that counts against the disk, which is 0 where its log is honoured. What is written there as it is seen stands there as
/// it was. Which sectors these are is fixed when the bay is made, and so is what is seen of them; all others are as they are.
#[derive(Drop)]
pub struct Hidden<B: Bay + Drop> {
    pub(crate) inner: B,
    pub(crate) masks: Vec<Option<Mask>>,
    pub(crate) made: u64,
}

impl<B: Bay + Drop> Hidden<B> {
    ghost use Rattle.ddf_hidden_logs.specs.HiddenBays.{disks_of, inner_of, mask_of, masks_of};

    /// Sees each slot through its mask. A slot past the list has none.
    pub(crate) fn new(inner: B, masks: Vec<Option<Mask>>) -> Hidden<B>
        ensures inner { inner_of result ≡ inner }
        ensures masks { masks_of result ≡ masks.items }
        ensures calls { (disks_of B.disks result).calls ≡ 0 }
    {
        Hidden {
            inner,
            masks,
            made: 0,
        }
    }

    /// Sees each slot as it is, without a look.
    pub fn plain(alloc: Global, inner: B) -> Hidden<B>
        ensures inner { inner_of result ≡ inner }
        ensures plain { (s : ℕ) → mask_of result s ≡ None }
        ensures calls { (disks_of B.disks result).calls ≡ 0 }
    {
        Hidden::new(inner, Vec::new(alloc))
    }

    /// How many entries the log of a slot has, where it shows none of them: its ranges of bad sectors, where the log is honoured.
    pub fn hidden(&self, slot: usize) -> u16
        ensures { result ≡ hidden (mask_of self.now slot) }
    {
        hidden_at(self.masks.as_slice(), slot)
    }

    /// The bay below, to be asked.
    pub fn inner(&self) -> &B
        ensures { result.now ≡ inner_of self.now }
    {
        &self.inner
    }

    /// The bay below.
    pub fn into_inner(self) -> B
        ensures inner { result ≡ inner_of self }

        // What is seen of a sector is what it holds, turned, and the other way round.
        ensures held { (s l : ℕ) → (disks_of B.disks self).held s l ≡ turn (mask_of self s) l ((B.disks result).held s l) }
        ensures back { (s l : ℕ) → (B.disks result).held s l ≡ turn (mask_of self s) l ((disks_of B.disks self).held s l) }
    {
        self.inner
    }
}
