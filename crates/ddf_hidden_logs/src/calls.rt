//! The calls of a bay that is seen through masks.
ghost use Rattle.std.specs.Prelude.{◌≡◌, ◌≢◌, ◌<◌, ◌≤◌, ◌+◌, [], ◌∷◌, ℕ, List, length, refl, OnOk, OnErr, slice_index};
ghost use Rattle.ddf_bytes.specs.Counts.{Rose};
ghost use Rattle.ddf_bay.specs.Counting.{one_more};
ghost use Rattle.ddf_bay.specs.Sectors.{IsLeft, IsRead, put_run};
ghost use Rattle.ddf_bay.specs.Moments.{StopsLeave, Remembers, SpendsReads, SpendsWrites, Keeps, Adds, Mixes, IsSettled, IsAmong};
ghost use Rattle.ddf_hidden_logs.specs.Masks.{mask_of, turn};
ghost use Rattle.ddf_hidden_logs.specs.State.{shown_image};
ghost use Rattle.ddf_hidden_logs.specs.TurnLaws.{shown_left, shown_since, shown_whole};

use crate::hidden::Hidden;
use crate::masks::{turn_at, turn_run_at};
use crate::pieces::write_pieces;
use ddf_bay::counts::next;
use ddf_bay::{Bay, BayFailed};
use ddf_bytes::Sector;
use std::slice;

impl<B: Bay + Drop> Bay for Hidden<B> {
    ghost use Rattle.ddf_hidden_logs.specs.Pieces.{pieces_below};
    ghost use Rattle.ddf_hidden_logs.specs.HiddenBays.{calls_of, disks_of, inner_of, masks_of};

    ghost disks = { disks_of B.disks };

    ghost tells = { B.tells };

    ghost few = { λ h. B.few h.inner };

    ghost small = { λ h s. B.small h.inner s };

    ghost told = { λ h.
        let masks = h.masks.items in
        let inner = B.told h.inner in
        record {
          held = λ told. shown_left masks (B.disks h.inner).may_hold (B.disks h.inner).held (inner.held told);
          whole = λ s l bytes left. shown_whole (mask_of masks s) l bytes (inner.whole s l (turn (mask_of masks s) l bytes) left);
          only_now = λ image left. inner.only_now (shown_image masks image) left;
          counts = λ u image le left. inner.counts u (shown_image masks image) le left;
          since = λ u image left. inner.since u (shown_image masks image) left;
        } };

    ghost leads = { λ h. (B.leads h.inner, refl) };

    ghost unasked = { λ h next leads same low.
        let stops = B.unasked h.inner next.inner leads.0 same low in
        record { later = stops.later; since = shown_since h.masks.items next.masks.items (B.disks h.inner) (B.disks next.inner) leads.1 stops } };

    ghost told_before = { λ h next leads told. B.told_before h.inner next.inner leads.0 told };

    ghost stays_gone = { λ h next slot leads gone. B.stays_gone h.inner next.inner slot leads.0 gone };

    fn slots(&self) -> usize {
        self.inner.slots()
    }

    fn size(&self, slot: usize) -> u64 {
        self.inner.size(slot)
    }

    fn read(&mut self, slot: usize, lba: u64, into: &mut Sector) -> Result<(), BayFailed>
        requires slot { slot < length (disks_of B.disks self.old).sizes }
        requires sector { lba < slice_index (disks_of B.disks self.old).sizes slot }
        ensures bytes { B.tells → OnOk result (into.new ≡ (disks_of B.disks self.old).held slot lba) }
        ensures held { (disks_of B.disks self.new).held ≡ (disks_of B.disks self.old).held }
        ensures left { Keeps (disks_of B.disks self.old).may_hold (disks_of B.disks self.new).may_hold }
        ensures any_moment { StopsLeave (disks_of B.disks self.old) (disks_of B.disks self.new) (IsLeft (disks_of B.disks self.old).may_hold) }
        ensures remembers { Remembers (disks_of B.disks self.old) (disks_of B.disks self.new) }
        ensures ok { OnOk result ((disks_of B.disks self.new).failed_reads ≡ (disks_of B.disks self.old).failed_reads) }
        ensures failed { OnErr result (Rose ((disks_of B.disks self.old).failed_reads slot) ((disks_of B.disks self.new).failed_reads slot)) }
        ensures gone { OnOk result ((disks_of B.disks self.old).gone slot → ⊥) }
        ensures spends { SpendsReads (disks_of B.disks self.old) (disks_of B.disks self.new) slot 1 }

        // It is counted once.
        ensures call { calls_of self.new ≡ one_more (calls_of self.old) }

        // It is one call of the bay below.
        ensures inner { SpendsReads (B.disks (inner_of self.old)) (B.disks (inner_of self.new)) slot 1 }
    {
        self.made = next(self.made);
        self.inner.read(slot, lba, into)?;
        turn_at(self.masks.as_slice(), slot, lba, into);
        Ok(())
    }

    fn read_run(&mut self, slot: usize, lba: u64, into: &mut [Sector]) -> Result<(), BayFailed>
        requires slot { slot < length (disks_of B.disks self.old).sizes }
        requires some { 0 < length into.old }
        requires sectors { lba + length into.old ≤ slice_index (disks_of B.disks self.old).sizes slot }
        ensures bytes { B.tells → OnOk result (IsRead ((disks_of B.disks self.old).held slot) lba into.new) }
        ensures held { (disks_of B.disks self.new).held ≡ (disks_of B.disks self.old).held }
        ensures left { Keeps (disks_of B.disks self.old).may_hold (disks_of B.disks self.new).may_hold }
        ensures any_moment { StopsLeave (disks_of B.disks self.old) (disks_of B.disks self.new) (IsLeft (disks_of B.disks self.old).may_hold) }
        ensures remembers { Remembers (disks_of B.disks self.old) (disks_of B.disks self.new) }
        ensures ok { OnOk result ((disks_of B.disks self.new).failed_reads ≡ (disks_of B.disks self.old).failed_reads) }
        ensures failed { OnErr result (Rose ((disks_of B.disks self.old).failed_reads slot) ((disks_of B.disks self.new).failed_reads slot)) }
        ensures gone { OnOk result ((disks_of B.disks self.old).gone slot → ⊥) }
        ensures spends { SpendsReads (disks_of B.disks self.old) (disks_of B.disks self.new) slot 1 }

        // It is counted once.
        ensures call { calls_of self.new ≡ one_more (calls_of self.old) }

        // It is one call of the bay below.
        ensures inner { SpendsReads (B.disks (inner_of self.old)) (B.disks (inner_of self.new)) slot 1 }
    {
        self.made = next(self.made);
        self.inner.read_run(slot, lba, into)?;
        turn_run_at(self.masks.as_slice(), slot, lba, into);
        Ok(())
    }

    fn write(&mut self, slot: usize, lba: u64, from: &Sector) -> Result<(), BayFailed>
        requires slot { slot < length (disks_of B.disks self.old).sizes }
        requires sector { lba < slice_index (disks_of B.disks self.old).sizes slot }
        ensures held { B.tells → OnOk result ((disks_of B.disks self.new).held ≡ put_run (disks_of B.disks self.old).held slot lba (from.now ∷ [])) }
        ensures held_failed { B.tells → OnErr result (Mixes (disks_of B.disks self.old).held (disks_of B.disks self.new).held slot lba (from.now ∷ [])) }
        ensures left { Adds (disks_of B.disks self.old).may_hold (disks_of B.disks self.new).may_hold slot lba (from.now ∷ []) }
        ensures any_moment { StopsLeave (disks_of B.disks self.old) (disks_of B.disks self.new) (IsAmong (disks_of B.disks self.old).may_hold slot lba (from.now ∷ [])) }
        ensures remembers { Remembers (disks_of B.disks self.old) (disks_of B.disks self.new) }
        ensures ok { OnOk result ((disks_of B.disks self.new).failed_writes ≡ (disks_of B.disks self.old).failed_writes) }
        ensures failed { OnErr result (Rose ((disks_of B.disks self.old).failed_writes slot) ((disks_of B.disks self.new).failed_writes slot)) }
        ensures gone { OnOk result ((disks_of B.disks self.old).gone slot → ⊥) }
        ensures spends { SpendsWrites (disks_of B.disks self.old) (disks_of B.disks self.new) slot 1 1 }

        // It is counted once.
        ensures call { calls_of self.new ≡ one_more (calls_of self.old) }

        // It is one call of the bay below.
        ensures inner { SpendsWrites (B.disks (inner_of self.old)) (B.disks (inner_of self.new)) slot 1 1 }
    {
        self.write_run(slot, lba, slice::from_ref(from))
    }

    fn write_run(&mut self, slot: usize, lba: u64, from: &[Sector]) -> Result<(), BayFailed>
        requires slot { slot < length (disks_of B.disks self.old).sizes }
        requires some { 0 < length from.now }
        requires sectors { lba + length from.now ≤ slice_index (disks_of B.disks self.old).sizes slot }
        ensures held { B.tells → OnOk result ((disks_of B.disks self.new).held ≡ put_run (disks_of B.disks self.old).held slot lba from.now) }
        ensures held_failed { B.tells → OnErr result (Mixes (disks_of B.disks self.old).held (disks_of B.disks self.new).held slot lba from.now) }
        ensures left { Adds (disks_of B.disks self.old).may_hold (disks_of B.disks self.new).may_hold slot lba from.now }
        ensures any_moment { StopsLeave (disks_of B.disks self.old) (disks_of B.disks self.new) (IsAmong (disks_of B.disks self.old).may_hold slot lba from.now) }
        ensures remembers { Remembers (disks_of B.disks self.old) (disks_of B.disks self.new) }
        ensures ok { OnOk result ((disks_of B.disks self.new).failed_writes ≡ (disks_of B.disks self.old).failed_writes) }
        ensures failed { OnErr result (Rose ((disks_of B.disks self.old).failed_writes slot) ((disks_of B.disks self.new).failed_writes slot)) }
        ensures gone { OnOk result ((disks_of B.disks self.old).gone slot → ⊥) }
        ensures spends { SpendsWrites (disks_of B.disks self.old) (disks_of B.disks self.new) slot (length from.now) 1 }

        // It is counted once.
        ensures call { calls_of self.new ≡ one_more (calls_of self.old) }

        // It is cut at sectors that are turned, and nowhere else.
        ensures inner { SpendsWrites (B.disks (inner_of self.old)) (B.disks (inner_of self.new)) slot (length from.now) (pieces_below (mask_of (masks_of self.old) slot) lba from.now (length from.now)) }
    {
        self.made = next(self.made);
        write_pieces(self.masks.as_slice(), &mut self.inner, slot, lba, from)
    }

    fn sync(&mut self, slot: usize) -> Result<(), BayFailed>
        requires { slot < length (disks_of B.disks self.old).sizes }
        ensures durable { OnOk result (IsSettled (disks_of B.disks self.new).may_hold (disks_of B.disks self.new).held slot) }
        ensures held { (disks_of B.disks self.new).held ≡ (disks_of B.disks self.old).held }
        ensures left { Keeps (disks_of B.disks self.old).may_hold (disks_of B.disks self.new).may_hold }
        ensures any_moment { StopsLeave (disks_of B.disks self.old) (disks_of B.disks self.new) (IsLeft (disks_of B.disks self.old).may_hold) }
        ensures remembers { Remembers (disks_of B.disks self.old) (disks_of B.disks self.new) }
        ensures ok { OnOk result ((disks_of B.disks self.new).failed_writes ≡ (disks_of B.disks self.old).failed_writes) }
        ensures failed { OnErr result (Rose ((disks_of B.disks self.old).failed_writes slot) ((disks_of B.disks self.new).failed_writes slot)) }
        ensures gone { OnOk result ((disks_of B.disks self.old).gone slot → ⊥) }
        ensures spends { SpendsWrites (disks_of B.disks self.old) (disks_of B.disks self.new) slot 0 1 }

        // It is counted once.
        ensures call { calls_of self.new ≡ one_more (calls_of self.old) }

        // It is one call of the bay below.
        ensures inner { SpendsWrites (B.disks (inner_of self.old)) (B.disks (inner_of self.new)) slot 0 1 }
    {
        self.made = next(self.made);
        self.inner.sync(slot)
    }
}
