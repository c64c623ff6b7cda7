//! The calls of a bay whose slots may be seen shorter: each is the inner one.
ghost use Rattle.std.specs.Prelude.{◌≡◌, ◌<◌, ◌≤◌, ◌+◌, ◌^◌, [], ◌∷◌, ℕ, List, length, refl, OnOk, OnErr, slice_index};
ghost use Rattle.ddf_bytes.specs.Counts.{Rose};
ghost use Rattle.ddf_bay.specs.Sectors.{put_run};
ghost use Rattle.ddf_bay.specs.Moments.{StopsLeave, Remembers, SpendsWrites, Adds, Mixes, IsAmong};
ghost use Rattle.ddf_shortened.specs.Sizes.{few_seen, seen_within, size_if};

use crate::shortened::Shortened;
use ddf_bay::{Bay, BayFailed};
use ddf_bytes::Sector;

/// How many sectors a slot that ends early is seen shorter.
const BEHIND: u64 = 256;

impl<B: Bay + Drop> Bay for Shortened<B> {
    ghost use Rattle.ddf_shortened.specs.ShortenedBays.{disks_of, inner_of, is_shorter, KeepsFrom};

    ghost disks = { disks_of B.disks };

    ghost tells = { B.tells };

    ghost few = { λ t. few_seen t.ends.slots (B.disks t.inner).sizes (B.few t.inner) };

    ghost small = { λ t s. seen_within t.ends.slots (B.disks t.inner).sizes s (2 ^ 55) (B.small t.inner s) };

    ghost told = { λ t.
        let inner = B.told t.inner in
        record { held = inner.held; whole = inner.whole; only_now = inner.only_now; counts = inner.counts; since = inner.since } };

    ghost leads = { λ t. (B.leads t.inner, refl) };

    ghost unasked = { λ t next leads same low.
        let stops = B.unasked t.inner next.inner leads.0 same low in
        record { later = stops.later; since = stops.since } };

    ghost told_before = { λ t next leads told. B.told_before t.inner next.inner leads.0 told };

    ghost stays_gone = { λ t next slot leads gone. B.stays_gone t.inner next.inner slot leads.0 gone };

    fn slots(&self) -> usize {
        self.inner.slots()
    }

    fn size(&self, slot: usize) -> u64
        requires { slot < length (disks_of B.disks self.now).sizes }
        ensures size { result ≡ slice_index (disks_of B.disks self.now).sizes slot }
        ensures small { result ≤ 2 ^ 55 }

        // It is the inner one, or 256 sectors less.
        ensures seen { result ≡ size_if (is_shorter self.now slot) (slice_index (B.disks (inner_of self.now)).sizes slot) }
    {
        let size = self.inner.size(slot);
        if self.is_shorter(slot) {
            size.saturating_sub(BEHIND)
        } else {
            size
        }
    }

    fn read(&mut self, slot: usize, lba: u64, into: &mut Sector) -> Result<(), BayFailed> {
        self.inner.read(slot, lba, into)
    }

    fn read_run(&mut self, slot: usize, lba: u64, into: &mut [Sector]) -> Result<(), BayFailed> {
        self.inner.read_run(slot, lba, into)
    }

    fn write(&mut self, slot: usize, lba: u64, from: &Sector) -> Result<(), BayFailed>
        requires slot { slot < length (disks_of B.disks self.old).sizes }
        requires sector { lba < slice_index (disks_of B.disks self.old).sizes slot }
        ensures held { B.tells → OnOk result ((disks_of B.disks self.new).held ≡ put_run (disks_of B.disks self.old).held slot lba (from.now ∷ [])) }
        ensures held_failed { B.tells → OnErr result (Mixes (disks_of B.disks self.old).held (disks_of B.disks self.new).held slot lba (from.now ∷ [])) }
        ensures left { Adds (disks_of B.disks self.old).may_hold (disks_of B.disks self.new).may_hold slot lba (from.now ∷ []) }
        ensures any_moment { StopsLeave (disks_of B.disks self.old) (disks_of B.disks self.new) (IsAmong (disks_of B.disks self.old).may_hold slot lba (from.now ∷ [])) }
        ensures remembers { Remembers (disks_of B.disks self.old) (disks_of B.disks self.new) }
        ensures ok { OnOk result ((disks_of B.disks self.new).failed_writes ≡ (disks_of B.disks self.old).failed_writes) }
        ensures failed { OnErr result (Rose ((disks_of B.disks self.old).failed_writes slot) ((disks_of B.disks self.new).failed_writes slot)) }
        ensures gone { OnOk result ((disks_of B.disks self.old).gone slot → ⊥) }
        ensures spends { SpendsWrites (disks_of B.disks self.old) (disks_of B.disks self.new) slot 1 1 }

        // No sector at the end that is seen, or behind it, is written.
        ensures behind { KeepsFrom B.tells (B.disks (inner_of self.old)) (B.disks (inner_of self.new)) slot (slice_index (disks_of B.disks self.old).sizes slot) }
    {
        self.inner.write(slot, lba, from)
    }

    fn write_run(&mut self, slot: usize, lba: u64, from: &[Sector]) -> Result<(), BayFailed>
        requires slot { slot < length (disks_of B.disks self.old).sizes }
        requires some { 0 < length from.now }
        requires sectors { lba + length from.now ≤ slice_index (disks_of B.disks self.old).sizes slot }
        ensures held { B.tells → OnOk result ((disks_of B.disks self.new).held ≡ put_run (disks_of B.disks self.old).held slot lba from.now) }
        ensures held_failed { B.tells → OnErr result (Mixes (disks_of B.disks self.old).held (disks_of B.disks self.new).held slot lba from.now) }
        ensures left { Adds (disks_of B.disks self.old).may_hold (disks_of B.disks self.new).may_hold slot lba from.now }
        ensures any_moment { StopsLeave (disks_of B.disks self.old) (disks_of B.disks self.new) (IsAmong (disks_of B.disks self.old).may_hold slot lba from.now) }
        ensures remembers { Remembers (disks_of B.disks self.old) (disks_of B.disks self.new) }
        ensures ok { OnOk result ((disks_of B.disks self.new).failed_writes ≡ (disks_of B.disks self.old).failed_writes) }
        ensures failed { OnErr result (Rose ((disks_of B.disks self.old).failed_writes slot) ((disks_of B.disks self.new).failed_writes slot)) }
        ensures gone { OnOk result ((disks_of B.disks self.old).gone slot → ⊥) }
        ensures spends { SpendsWrites (disks_of B.disks self.old) (disks_of B.disks self.new) slot (length from.now) 1 }

        // No sector at the end that is seen, or behind it, is written.
        ensures behind { KeepsFrom B.tells (B.disks (inner_of self.old)) (B.disks (inner_of self.new)) slot (slice_index (disks_of B.disks self.old).sizes slot) }
    {
        self.inner.write_run(slot, lba, from)
    }

    fn sync(&mut self, slot: usize) -> Result<(), BayFailed> {
        self.inner.sync(slot)
    }
}
