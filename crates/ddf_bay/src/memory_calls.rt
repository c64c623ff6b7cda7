//! The calls of a bay in memory.
ghost use Rattle.std.specs.Prelude.{◌≡◌, ◌≢◌, ◌⊎◌, ◌<◌, ◌≤◌, ◌+◌, ◌-◌, ◌^◌, [], ◌∷◌, ◌||◌, List, ℕ, length, OnOk, OnErr, is_err, slice_index, nat_lt};
ghost use Rattle.ddf_bytes.specs.Counts.{Rose};
ghost use Rattle.ddf_bay.specs.Sectors.{IsLeft, IsRead, put_run};
ghost use Rattle.ddf_bay.specs.Moments.{StopsLeave, Remembers, SpendsReads, SpendsWrites, Keeps, Adds, IsSettled, IsAmong};

use crate::counts::{next, raise};
use crate::{Bay, BayFailed, MemoryBay};
use ddf_bytes::Sector;
use std::slice;

impl Bay for MemoryBay {
    ghost use Rattle.ddf_bay.specs.Memory.{state_of, disks_of};
    ghost use Rattle.ddf_bay.specs.Memory.{fails_next, called, read_failed, write_failed, run_written, sync_failed, synced};
    ghost use Rattle.ddf_bay.specs.MemoryLaws.{becomes_start, gone_then, left_only, left_counts, size_small, told_earlier};
    ghost use Rattle.ddf_bay.specs.LoggedLaws.{held_left, left_whole};

    ghost disks = { disks_of };

    ghost tells = { Unit {0} };

    ghost few = { λ b. b.few };

    ghost small = { λ b s. size_small b.sizes.items s b.small };

    ghost told = { λ b. record {
      held = λ told s l. (told, held_left b.clock b.log.logged.items s l b.past);
      whole = λ s l bytes left. left_whole b.clock b.log.logged.items s l bytes b.log.whole left.1;
      only_now = λ image left. left_only b.clock b.log.logged.items image left;
      counts = λ t image le left. left_counts b.clock b.log.logged.items t image le left;
      since = λ t image left. left.0;
    } };

    ghost leads = { λ b. becomes_start (state_of b) };

    ghost unasked = { λ b next leads same low. record { later = (leads.unasked same low).later; since = (leads.unasked same low).since } };

    ghost told_before = { λ b next leads told. told_earlier b.clock next.clock leads.later told };

    ghost stays_gone = { λ b next slot leads gone. gone_then (state_of b) (state_of next) slot leads gone };

    fn slots(&self) -> usize {
        self.sizes.len()
    }

    fn size(&self, slot: usize) -> u64 {
        self.sizes[slot]
    }

    fn read(&mut self, slot: usize, lba: u64, into: &mut Sector) -> Result<(), BayFailed>
        requires slot { slot < length (disks_of self.old).sizes }
        requires sector { lba < slice_index (disks_of self.old).sizes slot }
        ensures bytes { OnOk result (into.new ≡ (disks_of self.old).held slot lba) }
        ensures held { (disks_of self.new).held ≡ (disks_of self.old).held }
        ensures left { Keeps (disks_of self.old).may_hold (disks_of self.new).may_hold }
        ensures any_moment { StopsLeave (disks_of self.old) (disks_of self.new) (IsLeft (disks_of self.old).may_hold) }
        ensures remembers { Remembers (disks_of self.old) (disks_of self.new) }
        ensures ok { OnOk result ((disks_of self.new).failed_reads ≡ (disks_of self.old).failed_reads) }
        ensures failed { OnErr result (Rose ((disks_of self.old).failed_reads slot) ((disks_of self.new).failed_reads slot)) }
        ensures gone { OnOk result ((disks_of self.old).gone slot → ⊥) }
        ensures spends { SpendsReads (disks_of self.old) (disks_of self.new) slot 1 }

        // Exactly these calls fail, and this is what is left of the bay.
        ensures fails { is_err result ≡ fails_next (state_of self.old) slot }
        ensures state_ok { OnOk result (state_of self.new ≡ called (state_of self.old)) }
        ensures state_failed { OnErr result (state_of self.new ≡ read_failed (state_of self.old) slot) }
    {
        let fails = self.fails(slot);
        self.clock = next(self.clock);
        self.made = next(self.made);
        if fails {
            raise(&mut self.read_faults, slot);
            return Err(BayFailed);
        }
        *into = self.log.newest(slot, lba);
        Ok(())
    }

    fn read_run(&mut self, slot: usize, lba: u64, into: &mut [Sector]) -> Result<(), BayFailed>
        requires slot { slot < length (disks_of self.old).sizes }
        requires some { 0 < length into.old }
        requires sectors { lba + length into.old ≤ slice_index (disks_of self.old).sizes slot }
        ensures bytes { OnOk result (IsRead ((disks_of self.old).held slot) lba into.new) }
        ensures held { (disks_of self.new).held ≡ (disks_of self.old).held }
        ensures left { Keeps (disks_of self.old).may_hold (disks_of self.new).may_hold }
        ensures any_moment { StopsLeave (disks_of self.old) (disks_of self.new) (IsLeft (disks_of self.old).may_hold) }
        ensures remembers { Remembers (disks_of self.old) (disks_of self.new) }
        ensures ok { OnOk result ((disks_of self.new).failed_reads ≡ (disks_of self.old).failed_reads) }
        ensures failed { OnErr result (Rose ((disks_of self.old).failed_reads slot) ((disks_of self.new).failed_reads slot)) }
        ensures gone { OnOk result ((disks_of self.old).gone slot → ⊥) }
        ensures spends { SpendsReads (disks_of self.old) (disks_of self.new) slot 1 }

        // Exactly these calls fail, and this is what is left of the bay.
        ensures fails { is_err result ≡ fails_next (state_of self.old) slot }
        ensures state_ok { OnOk result (state_of self.new ≡ called (state_of self.old)) }
        ensures state_failed { OnErr result (state_of self.new ≡ read_failed (state_of self.old) slot) }
    {
        let fails = self.fails(slot);
        self.clock = next(self.clock);
        self.made = next(self.made);
        if fails {
            raise(&mut self.read_faults, slot);
            return Err(BayFailed);
        }
        self.log.read(slot, lba, into);
        Ok(())
    }

    fn write(&mut self, slot: usize, lba: u64, from: &Sector) -> Result<(), BayFailed>
        requires slot { slot < length (disks_of self.old).sizes }
        requires sector { lba < slice_index (disks_of self.old).sizes slot }
        ensures held { OnOk result ((disks_of self.new).held ≡ put_run (disks_of self.old).held slot lba (from.now ∷ [])) }
        ensures held_failed { OnErr result ((disks_of self.new).held ≡ (disks_of self.old).held) }
        ensures left { Adds (disks_of self.old).may_hold (disks_of self.new).may_hold slot lba (from.now ∷ []) }
        ensures any_moment { StopsLeave (disks_of self.old) (disks_of self.new) (IsAmong (disks_of self.old).may_hold slot lba (from.now ∷ [])) }
        ensures remembers { Remembers (disks_of self.old) (disks_of self.new) }
        ensures ok { OnOk result ((disks_of self.new).failed_writes ≡ (disks_of self.old).failed_writes) }
        ensures failed { OnErr result (Rose ((disks_of self.old).failed_writes slot) ((disks_of self.new).failed_writes slot)) }
        ensures gone { OnOk result ((disks_of self.old).gone slot → ⊥) }
        ensures spends { SpendsWrites (disks_of self.old) (disks_of self.new) slot 1 1 }

        // Exactly these calls fail, and this is what is left of the bay.
        ensures fails { is_err result ≡ fails_next (state_of self.old) slot || nat_lt (state_of self.old).room 1 }
        ensures state_ok { OnOk result (state_of self.new ≡ run_written (state_of self.old) slot lba (from.now ∷ [])) }
        ensures state_failed { OnErr result (state_of self.new ≡ write_failed (state_of self.old) slot 1) }
    {
        self.write_run(slot, lba, slice::from_ref(from))
    }

    fn write_run(&mut self, slot: usize, lba: u64, from: &[Sector]) -> Result<(), BayFailed>
        requires slot { slot < length (disks_of self.old).sizes }
        requires some { 0 < length from.now }
        requires sectors { lba + length from.now ≤ slice_index (disks_of self.old).sizes slot }
        ensures held { OnOk result ((disks_of self.new).held ≡ put_run (disks_of self.old).held slot lba from.now) }
        ensures held_failed { OnErr result ((disks_of self.new).held ≡ (disks_of self.old).held) }
        ensures left { Adds (disks_of self.old).may_hold (disks_of self.new).may_hold slot lba from.now }
        ensures any_moment { StopsLeave (disks_of self.old) (disks_of self.new) (IsAmong (disks_of self.old).may_hold slot lba from.now) }
        ensures remembers { Remembers (disks_of self.old) (disks_of self.new) }
        ensures ok { OnOk result ((disks_of self.new).failed_writes ≡ (disks_of self.old).failed_writes) }
        ensures failed { OnErr result (Rose ((disks_of self.old).failed_writes slot) ((disks_of self.new).failed_writes slot)) }
        ensures gone { OnOk result ((disks_of self.old).gone slot → ⊥) }
        ensures spends { SpendsWrites (disks_of self.old) (disks_of self.new) slot (length from.now) 1 }

        // Exactly these calls fail, and this is what is left of the bay.
        ensures fails { is_err result ≡ fails_next (state_of self.old) slot || nat_lt (state_of self.old).room (length from.now) }
        ensures state_ok { OnOk result (state_of self.new ≡ run_written (state_of self.old) slot lba from.now) }
        ensures state_failed { OnErr result (state_of self.new ≡ write_failed (state_of self.old) slot (length from.now)) }
    {
        let fails = self.fails(slot);
        self.clock = next(self.clock);
        self.made = next(self.made);
        self.asked = self.asked.saturating_add(from.len() as u128);
        if fails || self.log.room < from.len() {
            raise(&mut self.write_faults, slot);
            return Err(BayFailed);
        }
        let now = self.clock;
        self.log.push(slot, lba, now, from);
        self.written += from.len() as u64;
        Ok(())
    }

    fn sync(&mut self, slot: usize) -> Result<(), BayFailed>
        requires { slot < length (disks_of self.old).sizes }
        ensures durable { OnOk result (IsSettled (disks_of self.new).may_hold (disks_of self.new).held slot) }
        ensures held { (disks_of self.new).held ≡ (disks_of self.old).held }
        ensures left { Keeps (disks_of self.old).may_hold (disks_of self.new).may_hold }
        ensures any_moment { StopsLeave (disks_of self.old) (disks_of self.new) (IsLeft (disks_of self.old).may_hold) }
        ensures remembers { Remembers (disks_of self.old) (disks_of self.new) }
        ensures ok { OnOk result ((disks_of self.new).failed_writes ≡ (disks_of self.old).failed_writes) }
        ensures failed { OnErr result (Rose ((disks_of self.old).failed_writes slot) ((disks_of self.new).failed_writes slot)) }
        ensures gone { OnOk result ((disks_of self.old).gone slot → ⊥) }
        ensures spends { SpendsWrites (disks_of self.old) (disks_of self.new) slot 0 1 }

        // Exactly these calls fail, and this is what is left of the bay.
        ensures fails { is_err result ≡ fails_next (state_of self.old) slot }
        ensures state_ok { OnOk result (state_of self.new ≡ synced (state_of self.old) slot) }
        ensures state_failed { OnErr result (state_of self.new ≡ sync_failed (state_of self.old) slot) }
    {
        let fails = self.fails(slot);
        self.clock = next(self.clock);
        self.made = next(self.made);
        if fails {
            raise(&mut self.write_faults, slot);
            return Err(BayFailed);
        }
        let now = self.clock;
        self.log.settle(slot, now);
        Ok(())
    }
}
