//! A bay over a bay, in which bad sectors and their spare ones are exchanged.
ghost use Rattle.std.specs.Prelude.{◌≡◌, ◌<◌, ℕ, [], List, true, false, length, slice_index, slice_index_or, MatchResult};
ghost use Rattle.ddf_badblocks.specs.Ranges.{are_exchangeable};
ghost use Rattle.ddf_badblocks.specs.Bad.{FirstBad};

use crate::exchange::Exchange;
use ddf_bay::Bay;

/// Why sectors can't be exchanged.
#[derive(Clone, Copy, Debug, PartialEq, Eq)]
pub enum RemapFault {
    /// A range of this slot passes its end.
    BadBlocks(usize),
}

/// A bay over a bay. Of each slot with ranges of bad sectors, each bad sector and its spare one stand for each other: what is read and
/// written where the one is seen is where the other one is below. Which ones these are is fixed when the bay is made. A run that isn't one
/// below is made of several.
#[derive(Drop)]
pub struct Remapped<B: Bay + Drop> {
    pub(crate) inner: B,
    pub(crate) logs: Vec<Exchange>,
    pub(crate) made: u64,
}

impl<B: Bay + Drop> Remapped<B> {
    ghost use Rattle.ddf_badblocks.specs.RemappedBays.{inner_of, logs_of, ranges_of, disks_of};
    ghost use Rattle.ddf_badblocks.specs.State.{place};

    /// Exchanges the sectors of these ranges, slot by slot. A slot past the list has none.
    ///
    /// # Errors
    /// `BadBlocks` with the first slot of which a range passes the end.
    pub fn new(inner: B, logs: Vec<Exchange>) -> Result<Remapped<B>, RemapFault>
        ensures made { MatchResult result
            (λ bay. (inner_of bay ≡ inner) × (logs_of bay ≡ logs.items) × ((disks_of B.disks bay).calls ≡ 0)
            × ((slot : ℕ) → slot < length (B.disks inner).sizes → are_exchangeable (slice_index (B.disks inner).sizes slot) (ranges_of bay slot) ≡ true))
            (λ fault. FirstBad (B.disks inner).sizes logs.items fault) }
    {
        for slot in 0..inner.slots() {
            if !can_at(logs.as_slice(), slot, inner.size(slot)) {
                return Err(RemapFault::BadBlocks(slot));
            }
        }
        Ok(Remapped {
            inner,
            logs,
            made: 0,
        })
    }

    /// The bay below, to be asked.
    pub fn inner(&self) -> &B
        ensures { result.now ≡ inner_of self.now }
    {
        &self.inner
    }

    /// The bay below.
    pub fn into_inner(self) -> B
        ensures inner { result ≡ inner_of self }

        // What is seen of a sector is what stands there, and the other way round.
        ensures held { (s l : ℕ) → (disks_of B.disks self).held s l ≡ (B.disks result).held s (place (B.disks result).sizes (logs_of self) s l) }
        ensures back { (s l : ℕ) → (B.disks result).held s l ≡ (disks_of B.disks self).held s (place (B.disks result).sizes (logs_of self) s l) }
    {
        self.inner
    }
}

/// Whether the ranges of a slot of so many sectors lie on it.
fn can_at(exchanges: &[Exchange], slot: usize, size: u64) -> bool
    ensures { result ≡ are_exchangeable size (slice_index_or exchanges.now slot []) }
{
    match exchanges.get(slot) {
        Some(exchange) => exchange.is_on(size),
        None => true,
    }
}
