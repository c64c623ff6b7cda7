//! The calls of a bay of exchanged sectors.
ghost use Rattle.std.specs.Prelude.{◌≡◌, ◌≢◌, ◌<◌, ◌≤◌, ◌+◌, [], ◌∷◌, ℕ, List, length, refl, OnOk, OnErr, slice_index};
ghost use Rattle.ddf_bytes.specs.Counts.{Rose};
ghost use Rattle.ddf_bay.specs.Counting.{one_more};
ghost use Rattle.ddf_bay.specs.Sectors.{IsLeft, IsRead, put_run};
ghost use Rattle.ddf_bay.specs.Moments.{StopsLeave, Remembers, SpendsReads, SpendsWrites, Keeps, Adds, Mixes, IsSettled, IsAmong};
ghost use Rattle.ddf_badblocks.specs.State.{place, seen_image};
ghost use Rattle.ddf_badblocks.specs.Seen.{left_below, left_seen, place_twice, since_again};

use crate::pieces::{read_pieces, write_pieces};
use crate::place::swap_at;
use crate::remapped::Remapped;
use ddf_bay::counts::next;
use ddf_bay::{Bay, BayFailed};
use ddf_bytes::Sector;

impl<B: Bay + Drop> Remapped<B> {
    /// The sector that stands where another one of a slot is seen.
    fn place(&self, slot: usize, lba: u64) -> u64
        requires slot { slot < length (B.disks self.now.inner).sizes }
        requires sector { lba < slice_index (B.disks self.now.inner).sizes slot }
        ensures exact { result ≡ place (B.disks self.now.inner).sizes self.now.logs.items slot lba }
        ensures small { result < slice_index (B.disks self.now.inner).sizes slot }
    {
        let size = self.inner.size(slot);
        swap_at(self.logs.as_slice(), slot, size, lba)
    }
}

impl<B: Bay + Drop> Bay for Remapped<B> {
    ghost use Rattle.ddf_badblocks.specs.Pieces.{pieces_below};
    ghost use Rattle.ddf_badblocks.specs.RemappedBays.{calls_of, disks_of, inner_of, ranges_of};

    ghost disks = { disks_of B.disks };

    ghost tells = { B.tells };

    ghost few = { λ r. B.few r.inner };

    ghost small = { λ r s. B.small r.inner s };

    ghost told = { λ r.
        let sizes = (B.disks r.inner).sizes in
        let at = place sizes r.logs.items in
        let twice = place_twice sizes r.logs.items in
        let below = (B.disks r.inner).may_hold in
        let inner = B.told r.inner in
        record {
          held = λ told s l. inner.held told s (at s l);
          whole = λ s l bytes left. inner.whole s (at s l) bytes left;
          only_now = λ image left. left_seen at twice below image (inner.only_now (seen_image at image) left);
          counts = λ u image le left. inner.counts u (seen_image at image) le (left_below at twice below image left);
          since = λ u image left. inner.since u (seen_image at image) left;
        } };

    ghost leads = { λ r. (B.leads r.inner, refl, refl) };

    ghost unasked = { λ r next leads same low.
        let stops = B.unasked r.inner next.inner leads.0 same low in
        record {
          later = stops.later;
          since = since_again (B.disks r.inner).sizes (B.disks next.inner).sizes r.logs.items next.logs.items (B.disks r.inner) (B.disks next.inner) leads.2 leads.1 stops;
        } };

    ghost told_before = { λ r next leads told. B.told_before r.inner next.inner leads.0 told };

    ghost stays_gone = { λ r next slot leads gone. B.stays_gone r.inner next.inner slot leads.0 gone };

    fn slots(&self) -> usize {
        self.inner.slots()
    }

    fn size(&self, slot: usize) -> u64 {
        self.inner.size(slot)
    }

    fn read(&mut self, slot: usize, lba: u64, into: &mut Sector) -> Result<(), BayFailed>
        requires slot { slot < length (disks_of B.disks self.old).sizes }
        requires sector { lba < slice_index (disks_of B.disks self.old).sizes slot }
        ensures bytes { B.tells → OnOk result (into.new ≡ (disks_of B.disks self.old).held slot lba) }
        ensures held { (disks_of B.disks self.new).held ≡ (disks_of B.disks self.old).held }
        ensures left { Keeps (disks_of B.disks self.old).may_hold (disks_of B.disks self.new).may_hold }
        ensures any_moment { StopsLeave (disks_of B.disks self.old) (disks_of B.disks self.new) (IsLeft (disks_of B.disks self.old).may_hold) }
        ensures remembers { Remembers (disks_of B.disks self.old) (disks_of B.disks self.new) }
        ensures ok { OnOk result ((disks_of B.disks self.new).failed_reads ≡ (disks_of B.disks self.old).failed_reads) }
        ensures failed { OnErr result (Rose ((disks_of B.disks self.old).failed_reads slot) ((disks_of B.disks self.new).failed_reads slot)) }
        ensures gone { OnOk result ((disks_of B.disks self.old).gone slot → ⊥) }
        ensures spends { SpendsReads (disks_of B.disks self.old) (disks_of B.disks self.new) slot 1 }

        // It is counted once.
        ensures call { calls_of self.new ≡ one_more (calls_of self.old) }

        // It is one call of the bay below.
        ensures inner { SpendsReads (B.disks (inner_of self.old)) (B.disks (inner_of self.new)) slot 1 }
    {
        self.made = next(self.made);
        let at = self.place(slot, lba);
        self.inner.read(slot, at, into)
    }

    fn read_run(&mut self, slot: usize, lba: u64, into: &mut [Sector]) -> Result<(), BayFailed>
        requires slot { slot < length (disks_of B.disks self.old).sizes }
        requires some { 0 < length into.old }
        requires sectors { lba + length into.old ≤ slice_index (disks_of B.disks self.old).sizes slot }
        ensures bytes { B.tells → OnOk result (IsRead ((disks_of B.disks self.old).held slot) lba into.new) }
        ensures held { (disks_of B.disks self.new).held ≡ (disks_of B.disks self.old).held }
        ensures left { Keeps (disks_of B.disks self.old).may_hold (disks_of B.disks self.new).may_hold }
        ensures any_moment { StopsLeave (disks_of B.disks self.old) (disks_of B.disks self.new) (IsLeft (disks_of B.disks self.old).may_hold) }
        ensures remembers { Remembers (disks_of B.disks self.old) (disks_of B.disks self.new) }
        ensures ok { OnOk result ((disks_of B.disks self.new).failed_reads ≡ (disks_of B.disks self.old).failed_reads) }
        ensures failed { OnErr result (Rose ((disks_of B.disks self.old).failed_reads slot) ((disks_of B.disks self.new).failed_reads slot)) }
        ensures gone { OnOk result ((disks_of B.disks self.old).gone slot → ⊥) }
        ensures spends { SpendsReads (disks_of B.disks self.old) (disks_of B.disks self.new) slot 1 }

        // It is counted once.
        ensures call { calls_of self.new ≡ one_more (calls_of self.old) }

        // It is cut where the sectors below don't follow one another, and nowhere else.
        ensures inner { SpendsReads (B.disks (inner_of self.old)) (B.disks (inner_of self.new)) slot (pieces_below (slice_index (B.disks (inner_of self.old)).sizes slot) (ranges_of self.old slot) lba (length into.old)) }
    {
        self.made = next(self.made);
        read_pieces(self.logs.as_slice(), &mut self.inner, slot, lba, into)
    }

    fn write(&mut self, slot: usize, lba: u64, from: &Sector) -> Result<(), BayFailed>
        requires slot { slot < length (disks_of B.disks self.old).sizes }
        requires sector { lba < slice_index (disks_of B.disks self.old).sizes slot }
        ensures held { B.tells → OnOk result ((disks_of B.disks self.new).held ≡ put_run (disks_of B.disks self.old).held slot lba (from.now ∷ [])) }
        ensures held_failed { B.tells → OnErr result (Mixes (disks_of B.disks self.old).held (disks_of B.disks self.new).held slot lba (from.now ∷ [])) }
        ensures left { Adds (disks_of B.disks self.old).may_hold (disks_of B.disks self.new).may_hold slot lba (from.now ∷ []) }
        ensures any_moment { StopsLeave (disks_of B.disks self.old) (disks_of B.disks self.new) (IsAmong (disks_of B.disks self.old).may_hold slot lba (from.now ∷ [])) }
        ensures remembers { Remembers (disks_of B.disks self.old) (disks_of B.disks self.new) }
        ensures ok { OnOk result ((disks_of B.disks self.new).failed_writes ≡ (disks_of B.disks self.old).failed_writes) }
        ensures failed { OnErr result (Rose ((disks_of B.disks self.old).failed_writes slot) ((disks_of B.disks self.new).failed_writes slot)) }
        ensures gone { OnOk result ((disks_of B.disks self.old).gone slot → ⊥) }
        ensures spends { SpendsWrites (disks_of B.disks self.old) (disks_of B.disks self.new) slot 1 1 }

        // It is counted once.
        ensures call { calls_of self.new ≡ one_more (calls_of self.old) }

        // It is one call of the bay below.
        ensures inner { SpendsWrites (B.disks (inner_of self.old)) (B.disks (inner_of self.new)) slot 1 1 }
    {
        self.made = next(self.made);
        let at = self.place(slot, lba);
        self.inner.write(slot, at, from)
    }

    fn write_run(&mut self, slot: usize, lba: u64, from: &[Sector]) -> Result<(), BayFailed>
        requires slot { slot < length (disks_of B.disks self.old).sizes }
        requires some { 0 < length from.now }
        requires sectors { lba + length from.now ≤ slice_index (disks_of B.disks self.old).sizes slot }
        ensures held { B.tells → OnOk result ((disks_of B.disks self.new).held ≡ put_run (disks_of B.disks self.old).held slot lba from.now) }
        ensures held_failed { B.tells → OnErr result (Mixes (disks_of B.disks self.old).held (disks_of B.disks self.new).held slot lba from.now) }
        ensures left { Adds (disks_of B.disks self.old).may_hold (disks_of B.disks self.new).may_hold slot lba from.now }
        ensures any_moment { StopsLeave (disks_of B.disks self.old) (disks_of B.disks self.new) (IsAmong (disks_of B.disks self.old).may_hold slot lba from.now) }
        ensures remembers { Remembers (disks_of B.disks self.old) (disks_of B.disks self.new) }
        ensures ok { OnOk result ((disks_of B.disks self.new).failed_writes ≡ (disks_of B.disks self.old).failed_writes) }
        ensures failed { OnErr result (Rose ((disks_of B.disks self.old).failed_writes slot) ((disks_of B.disks self.new).failed_writes slot)) }
        ensures gone { OnOk result ((disks_of B.disks self.old).gone slot → ⊥) }
        ensures spends { SpendsWrites (disks_of B.disks self.old) (disks_of B.disks self.new) slot (length from.now) 1 }

        // It is counted once.
        ensures call { calls_of self.new ≡ one_more (calls_of self.old) }

        // It is cut where the sectors below don't follow one another, and nowhere else.
        ensures inner { SpendsWrites (B.disks (inner_of self.old)) (B.disks (inner_of self.new)) slot (length from.now) (pieces_below (slice_index (B.disks (inner_of self.old)).sizes slot) (ranges_of self.old slot) lba (length from.now)) }
    {
        self.made = next(self.made);
        write_pieces(self.logs.as_slice(), &mut self.inner, slot, lba, from)
    }

    fn sync(&mut self, slot: usize) -> Result<(), BayFailed>
        requires { slot < length (disks_of B.disks self.old).sizes }
        ensures durable { OnOk result (IsSettled (disks_of B.disks self.new).may_hold (disks_of B.disks self.new).held slot) }
        ensures held { (disks_of B.disks self.new).held ≡ (disks_of B.disks self.old).held }
        ensures left { Keeps (disks_of B.disks self.old).may_hold (disks_of B.disks self.new).may_hold }
        ensures any_moment { StopsLeave (disks_of B.disks self.old) (disks_of B.disks self.new) (IsLeft (disks_of B.disks self.old).may_hold) }
        ensures remembers { Remembers (disks_of B.disks self.old) (disks_of B.disks self.new) }
        ensures ok { OnOk result ((disks_of B.disks self.new).failed_writes ≡ (disks_of B.disks self.old).failed_writes) }
        ensures failed { OnErr result (Rose ((disks_of B.disks self.old).failed_writes slot) ((disks_of B.disks self.new).failed_writes slot)) }
        ensures gone { OnOk result ((disks_of B.disks self.old).gone slot → ⊥) }
        ensures spends { SpendsWrites (disks_of B.disks self.old) (disks_of B.disks self.new) slot 0 1 }

        // It is counted once.
        ensures call { calls_of self.new ≡ one_more (calls_of self.old) }

        // It is one call of the bay below.
        ensures inner { SpendsWrites (B.disks (inner_of self.old)) (B.disks (inner_of self.new)) slot 0 1 }
    {
        self.made = next(self.made);
        self.inner.sync(slot)
    }
}
