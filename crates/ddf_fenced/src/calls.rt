//! The calls of a bay with fenced slots.
ghost use Rattle.std.specs.Prelude.{◌≡◌, ◌≢◌, ◌<◌, ◌≤◌, ◌+◌, [], ◌∷◌, ℕ, List, length, refl, true, is_err, OnOk, OnErr, slice_index};
ghost use Rattle.ddf_bytes.specs.Counts.{Rose};
ghost use Rattle.ddf_bay.specs.Counting.{one_more, with_one_more};
ghost use Rattle.ddf_bay.specs.Sectors.{IsLeft, IsRead, put_run};
ghost use Rattle.ddf_bay.specs.Moments.{StopsLeave, Remembers, SpendsReads, SpendsWrites, Keeps, Adds, Mixes, IsSettled, IsAmong};
ghost use Rattle.ddf_fenced.specs.Fences.{gone_then};

use crate::fenced::Fenced;
use ddf_bay::counts::{next, raise};
use ddf_bay::{Bay, BayFailed};
use ddf_bytes::Sector;

impl<B: Bay + Drop> Bay for Fenced<B> {
    ghost use Rattle.ddf_fenced.specs.FencedBays.{disks_of, inner_of, is_fenced, IsCall};

    ghost disks = { disks_of B.disks };

    ghost tells = { B.tells };

    ghost few = { λ t. B.few t.inner };

    ghost small = { λ t s. B.small t.inner s };

    ghost told = { λ t.
        let inner = B.told t.inner in
        record { held = inner.held; whole = inner.whole; only_now = inner.only_now; counts = inner.counts; since = inner.since } };

    ghost leads = { λ t. (B.leads t.inner, refl) };

    ghost unasked = { λ t next leads same low.
        let stops = B.unasked t.inner next.inner leads.0 same low in
        record { later = stops.later; since = stops.since } };

    ghost told_before = { λ t next leads told. B.told_before t.inner next.inner leads.0 told };

    ghost stays_gone = { λ t next slot leads gone. gone_then t.shut.items next.shut.items (B.disks t.inner).gone (B.disks next.inner).gone slot leads.1 (B.stays_gone t.inner next.inner slot leads.0) gone };

    fn slots(&self) -> usize {
        self.inner.slots()
    }

    fn size(&self, slot: usize) -> u64 {
        self.inner.size(slot)
    }

    fn read(&mut self, slot: usize, lba: u64, into: &mut Sector) -> Result<(), BayFailed>
        requires slot { slot < length (disks_of B.disks self.old).sizes }
        requires sector { lba < slice_index (disks_of B.disks self.old).sizes slot }
        ensures bytes { B.tells → OnOk result (into.new ≡ (disks_of B.disks self.old).held slot lba) }
        ensures held { (disks_of B.disks self.new).held ≡ (disks_of B.disks self.old).held }
        ensures left { Keeps (disks_of B.disks self.old).may_hold (disks_of B.disks self.new).may_hold }
        ensures any_moment { StopsLeave (disks_of B.disks self.old) (disks_of B.disks self.new) (IsLeft (disks_of B.disks self.old).may_hold) }
        ensures remembers { Remembers (disks_of B.disks self.old) (disks_of B.disks self.new) }
        ensures ok { OnOk result ((disks_of B.disks self.new).failed_reads ≡ (disks_of B.disks self.old).failed_reads) }
        ensures failed { OnErr result (Rose ((disks_of B.disks self.old).failed_reads slot) ((disks_of B.disks self.new).failed_reads slot)) }
        ensures gone { OnOk result ((disks_of B.disks self.old).gone slot → ⊥) }
        ensures spends { SpendsReads (disks_of B.disks self.old) (disks_of B.disks self.new) slot 1 }

        // It is counted once. On a fenced slot it fails without a call of the bay below, and its own count of such
        // failures is one more, up to the last value.
        ensures call { IsCall self.old self.new slot (is_err result) }
        ensures own { is_fenced self.old slot ≡ true → (disks_of B.disks self.new).failed_reads slot ≡ one_more ((disks_of B.disks self.old).failed_reads slot) }

        // It is one call of the bay below, and of a fenced slot none.
        ensures inner { SpendsReads (B.disks (inner_of self.old)) (B.disks (inner_of self.new)) slot 1 }
    {
        self.made = next(self.made);
        if self.is_fenced(slot) {
            return fail(&mut self.read_faults, slot);
        }
        self.inner.read(slot, lba, into)
    }

    fn read_run(&mut self, slot: usize, lba: u64, into: &mut [Sector]) -> Result<(), BayFailed>
        requires slot { slot < length (disks_of B.disks self.old).sizes }
        requires some { 0 < length into.old }
        requires sectors { lba + length into.old ≤ slice_index (disks_of B.disks self.old).sizes slot }
        ensures bytes { B.tells → OnOk result (IsRead ((disks_of B.disks self.old).held slot) lba into.new) }
        ensures held { (disks_of B.disks self.new).held ≡ (disks_of B.disks self.old).held }
        ensures left { Keeps (disks_of B.disks self.old).may_hold (disks_of B.disks self.new).may_hold }
        ensures any_moment { StopsLeave (disks_of B.disks self.old) (disks_of B.disks self.new) (IsLeft (disks_of B.disks self.old).may_hold) }
        ensures remembers { Remembers (disks_of B.disks self.old) (disks_of B.disks self.new) }
        ensures ok { OnOk result ((disks_of B.disks self.new).failed_reads ≡ (disks_of B.disks self.old).failed_reads) }
        ensures failed { OnErr result (Rose ((disks_of B.disks self.old).failed_reads slot) ((disks_of B.disks self.new).failed_reads slot)) }
        ensures gone { OnOk result ((disks_of B.disks self.old).gone slot → ⊥) }
        ensures spends { SpendsReads (disks_of B.disks self.old) (disks_of B.disks self.new) slot 1 }

        // It is counted once. On a fenced slot it fails without a call of the bay below, and its own count of such
        // failures is one more, up to the last value.
        ensures call { IsCall self.old self.new slot (is_err result) }
        ensures own { is_fenced self.old slot ≡ true → (disks_of B.disks self.new).failed_reads slot ≡ one_more ((disks_of B.disks self.old).failed_reads slot) }

        // It is one call of the bay below, and of a fenced slot none.
        ensures inner { SpendsReads (B.disks (inner_of self.old)) (B.disks (inner_of self.new)) slot 1 }
    {
        self.made = next(self.made);
        if self.is_fenced(slot) {
            return fail(&mut self.read_faults, slot);
        }
        self.inner.read_run(slot, lba, into)
    }

    fn write(&mut self, slot: usize, lba: u64, from: &Sector) -> Result<(), BayFailed>
        requires slot { slot < length (disks_of B.disks self.old).sizes }
        requires sector { lba < slice_index (disks_of B.disks self.old).sizes slot }
        ensures held { B.tells → OnOk result ((disks_of B.disks self.new).held ≡ put_run (disks_of B.disks self.old).held slot lba (from.now ∷ [])) }
        ensures held_failed { B.tells → OnErr result (Mixes (disks_of B.disks self.old).held (disks_of B.disks self.new).held slot lba (from.now ∷ [])) }
        ensures left { Adds (disks_of B.disks self.old).may_hold (disks_of B.disks self.new).may_hold slot lba (from.now ∷ []) }
        ensures any_moment { StopsLeave (disks_of B.disks self.old) (disks_of B.disks self.new) (IsAmong (disks_of B.disks self.old).may_hold slot lba (from.now ∷ [])) }
        ensures remembers { Remembers (disks_of B.disks self.old) (disks_of B.disks self.new) }
        ensures ok { OnOk result ((disks_of B.disks self.new).failed_writes ≡ (disks_of B.disks self.old).failed_writes) }
        ensures failed { OnErr result (Rose ((disks_of B.disks self.old).failed_writes slot) ((disks_of B.disks self.new).failed_writes slot)) }
        ensures gone { OnOk result ((disks_of B.disks self.old).gone slot → ⊥) }
        ensures spends { SpendsWrites (disks_of B.disks self.old) (disks_of B.disks self.new) slot 1 1 }

        // It is counted once. On a fenced slot it fails without a call of the bay below, and its own count of such
        // failures is one more, up to the last value.
        ensures call { IsCall self.old self.new slot (is_err result) }
        ensures own { is_fenced self.old slot ≡ true → (disks_of B.disks self.new).failed_writes slot ≡ one_more ((disks_of B.disks self.old).failed_writes slot) }

        // It is one call of the bay below, and of a fenced slot none.
        ensures inner { SpendsWrites (B.disks (inner_of self.old)) (B.disks (inner_of self.new)) slot 1 1 }
    {
        self.made = next(self.made);
        if self.is_fenced(slot) {
            return fail(&mut self.write_faults, slot);
        }
        self.inner.write(slot, lba, from)
    }

    fn write_run(&mut self, slot: usize, lba: u64, from: &[Sector]) -> Result<(), BayFailed>
        requires slot { slot < length (disks_of B.disks self.old).sizes }
        requires some { 0 < length from.now }
        requires sectors { lba + length from.now ≤ slice_index (disks_of B.disks self.old).sizes slot }
        ensures held { B.tells → OnOk result ((disks_of B.disks self.new).held ≡ put_run (disks_of B.disks self.old).held slot lba from.now) }
        ensures held_failed { B.tells → OnErr result (Mixes (disks_of B.disks self.old).held (disks_of B.disks self.new).held slot lba from.now) }
        ensures left { Adds (disks_of B.disks self.old).may_hold (disks_of B.disks self.new).may_hold slot lba from.now }
        ensures any_moment { StopsLeave (disks_of B.disks self.old) (disks_of B.disks self.new) (IsAmong (disks_of B.disks self.old).may_hold slot lba from.now) }
        ensures remembers { Remembers (disks_of B.disks self.old) (disks_of B.disks self.new) }
        ensures ok { OnOk result ((disks_of B.disks self.new).failed_writes ≡ (disks_of B.disks self.old).failed_writes) }
        ensures failed { OnErr result (Rose ((disks_of B.disks self.old).failed_writes slot) ((disks_of B.disks self.new).failed_writes slot)) }
        ensures gone { OnOk result ((disks_of B.disks self.old).gone slot → ⊥) }
        ensures spends { SpendsWrites (disks_of B.disks self.old) (disks_of B.disks self.new) slot (length from.now) 1 }

        // It is counted once. On a fenced slot it fails without a call of the bay below, and its own count of such
        // failures is one more, up to the last value.
        ensures call { IsCall self.old self.new slot (is_err result) }
        ensures own { is_fenced self.old slot ≡ true → (disks_of B.disks self.new).failed_writes slot ≡ one_more ((disks_of B.disks self.old).failed_writes slot) }

        // It is one call of the bay below, and of a fenced slot none.
        ensures inner { SpendsWrites (B.disks (inner_of self.old)) (B.disks (inner_of self.new)) slot (length from.now) 1 }
    {
        self.made = next(self.made);
        if self.is_fenced(slot) {
            return fail(&mut self.write_faults, slot);
        }
        self.inner.write_run(slot, lba, from)
    }

    fn sync(&mut self, slot: usize) -> Result<(), BayFailed>
        requires { slot < length (disks_of B.disks self.old).sizes }
        ensures durable { OnOk result (IsSettled (disks_of B.disks self.new).may_hold (disks_of B.disks self.new).held slot) }
        ensures held { (disks_of B.disks self.new).held ≡ (disks_of B.disks self.old).held }
        ensures left { Keeps (disks_of B.disks self.old).may_hold (disks_of B.disks self.new).may_hold }
        ensures any_moment { StopsLeave (disks_of B.disks self.old) (disks_of B.disks self.new) (IsLeft (disks_of B.disks self.old).may_hold) }
        ensures remembers { Remembers (disks_of B.disks self.old) (disks_of B.disks self.new) }
        ensures ok { OnOk result ((disks_of B.disks self.new).failed_writes ≡ (disks_of B.disks self.old).failed_writes) }
        ensures failed { OnErr result (Rose ((disks_of B.disks self.old).failed_writes slot) ((disks_of B.disks self.new).failed_writes slot)) }
        ensures gone { OnOk result ((disks_of B.disks self.old).gone slot → ⊥) }
        ensures spends { SpendsWrites (disks_of B.disks self.old) (disks_of B.disks self.new) slot 0 1 }

        // It is counted once. On a fenced slot it fails without a call of the bay below, and its own count of such
        // failures is one more, up to the last value.
        ensures call { IsCall self.old self.new slot (is_err result) }
        ensures own { is_fenced self.old slot ≡ true → (disks_of B.disks self.new).failed_writes slot ≡ one_more ((disks_of B.disks self.old).failed_writes slot) }

        // It is one call of the bay below, and of a fenced slot none.
        ensures inner { SpendsWrites (B.disks (inner_of self.old)) (B.disks (inner_of self.new)) slot 0 1 }
    {
        self.made = next(self.made);
        if self.is_fenced(slot) {
            return fail(&mut self.write_faults, slot);
        }
        self.inner.sync(slot)
    }
}

/// Counts a failure on a slot, and answers it.
fn fail(counts: &mut [u64; 64], slot: usize) -> Result<(), BayFailed>
    requires { slot < 64 }
    ensures failed { is_err result ≡ true }
    ensures value { counts.new ≡ with_one_more counts.old slot }
    ensures rose { Rose (slice_index counts.old slot) (slice_index counts.new slot) }
    ensures kept { (s : ℕ) → slice_index counts.old s ≤ slice_index counts.new s }
    ensures others { (s : ℕ) → s ≢ slot → slice_index counts.new s ≡ slice_index counts.old s }
{
    raise(counts, slot);
    Err(BayFailed)
}
