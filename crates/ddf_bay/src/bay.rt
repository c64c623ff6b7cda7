//! A bay of disks: numbered slots of sectors, of which a stop leaves some of what was written since the last good sync. Writes have no order but
//! by syncs: a caller that takes one for granted loses what it acknowledged. docs/DISK-MODEL.md#the-model-in-short
ghost use Rattle.std.specs.Prelude.{◌≡◌, ◌<◌, ◌≤◌, ◌+◌, ◌-◌, ◌^◌, [], ◌∷◌, List, ℕ, length, OnOk, OnErr, slice_index};
ghost use Rattle.ddf_bytes.specs.Counts.{Rose};
ghost use Rattle.ddf_bay.specs.Sectors.{IsLeft, IsRead, put_run};
ghost use Rattle.ddf_bay.specs.State.{BayState};
ghost use Rattle.ddf_bay.specs.Told.{IsTold};
ghost use Rattle.ddf_bay.specs.Moments.{StopsLeave, Remembers, SpendsReads, SpendsWrites, Keeps, Adds, Mixes, IsSettled, IsAmong};

use ddf_bytes::Sector;

/// A call on a slot failed. The slot's count of such failures says so too.
#[derive(Clone, Copy, PartialEq, Eq)]
pub struct BayFailed;

/// Numbered slots, each a disk of whole sectors. A stop, as by a power cut, hits all slots at one moment. Between two
/// good syncs of a slot it leaves of each sector, by itself, the bytes of the last good sync or any bytes written
/// since, those of failed writes included: writes have no order, and a sector is whole.
///
/// A bay tells what it holds where its type does so, and what a stop may leave where it can. All clauses on the
/// latter are upper bounds, so one that tells nothing meets them.
pub trait Bay {
    /// What it tells of its disks at this moment.
    ghost disks: { Self → BayState Self };

    /// A bay of this type tells the bytes that it holds.
    ghost tells: { Type 0 };

    /// How many slots there are.
    fn slots(&self) -> usize
        ensures slots { result ≡ length (disks self.now).sizes }
        ensures few { result ≤ 64 };

    /// The size of a slot, in sectors.
    fn size(&self, slot: usize) -> u64
        requires { slot < length (disks self.now).sizes }
        ensures size { result ≡ slice_index (disks self.now).sizes slot }
        ensures small { result ≤ 2 ^ 55 };

    /// Reads a sector. A failed read changes nothing of the bay but its counts. What `into` holds then isn't told.
    fn read(&mut self, slot: usize, lba: u64, into: &mut Sector) -> Result<(), BayFailed>
        requires slot { slot < length (disks self.old).sizes }
        requires sector { lba < slice_index (disks self.old).sizes slot }
        ensures bytes { tells → OnOk result (into.new ≡ (disks self.old).held slot lba) }
        ensures held { (disks self.new).held ≡ (disks self.old).held }
        ensures left { Keeps (disks self.old).may_hold (disks self.new).may_hold }
        ensures any_moment { StopsLeave (disks self.old) (disks self.new) (IsLeft (disks self.old).may_hold) }
        ensures remembers { Remembers (disks self.old) (disks self.new) }
        ensures ok { OnOk result ((disks self.new).failed_reads ≡ (disks self.old).failed_reads) }
        ensures failed { OnErr result (Rose ((disks self.old).failed_reads slot) ((disks self.new).failed_reads slot)) }
        ensures gone { OnOk result ((disks self.old).gone slot → ⊥) }
        ensures spends { SpendsReads (disks self.old) (disks self.new) slot 1 };

    /// Reads a run of sectors in one call.
    fn read_run(&mut self, slot: usize, lba: u64, into: &mut [Sector]) -> Result<(), BayFailed>
        requires slot { slot < length (disks self.old).sizes }
        requires some { 0 < length into.old }
        requires sectors { lba + length into.old ≤ slice_index (disks self.old).sizes slot }
        ensures bytes { tells → OnOk result (IsRead ((disks self.old).held slot) lba into.new) }
        ensures held { (disks self.new).held ≡ (disks self.old).held }
        ensures left { Keeps (disks self.old).may_hold (disks self.new).may_hold }
        ensures any_moment { StopsLeave (disks self.old) (disks self.new) (IsLeft (disks self.old).may_hold) }
        ensures remembers { Remembers (disks self.old) (disks self.new) }
        ensures ok { OnOk result ((disks self.new).failed_reads ≡ (disks self.old).failed_reads) }
        ensures failed { OnErr result (Rose ((disks self.old).failed_reads slot) ((disks self.new).failed_reads slot)) }
        ensures gone { OnOk result ((disks self.old).gone slot → ⊥) }
        ensures spends { SpendsReads (disks self.old) (disks self.new) slot 1 };

    /// Writes a sector. After a failure it holds its old or its new bytes.
    fn write(&mut self, slot: usize, lba: u64, from: &Sector) -> Result<(), BayFailed>
        requires slot { slot < length (disks self.old).sizes }
        requires sector { lba < slice_index (disks self.old).sizes slot }
        ensures held { tells → OnOk result ((disks self.new).held ≡ put_run (disks self.old).held slot lba (from.now ∷ [])) }
        ensures held_failed { tells → OnErr result (Mixes (disks self.old).held (disks self.new).held slot lba (from.now ∷ [])) }
        ensures left { Adds (disks self.old).may_hold (disks self.new).may_hold slot lba (from.now ∷ []) }
        ensures any_moment { StopsLeave (disks self.old) (disks self.new) (IsAmong (disks self.old).may_hold slot lba (from.now ∷ [])) }
        ensures remembers { Remembers (disks self.old) (disks self.new) }
        ensures ok { OnOk result ((disks self.new).failed_writes ≡ (disks self.old).failed_writes) }
        ensures failed { OnErr result (Rose ((disks self.old).failed_writes slot) ((disks self.new).failed_writes slot)) }
        ensures gone { OnOk result ((disks self.old).gone slot → ⊥) }
        ensures spends { SpendsWrites (disks self.old) (disks self.new) slot 1 1 };

    /// Writes a run of sectors in one call. After a failure each of them holds, by itself, its old or its new bytes.
    fn write_run(&mut self, slot: usize, lba: u64, from: &[Sector]) -> Result<(), BayFailed>
        requires slot { slot < length (disks self.old).sizes }
        requires some { 0 < length from.now }
        requires sectors { lba + length from.now ≤ slice_index (disks self.old).sizes slot }
        ensures held { tells → OnOk result ((disks self.new).held ≡ put_run (disks self.old).held slot lba from.now) }
        ensures held_failed { tells → OnErr result (Mixes (disks self.old).held (disks self.new).held slot lba from.now) }
        ensures left { Adds (disks self.old).may_hold (disks self.new).may_hold slot lba from.now }
        ensures any_moment { StopsLeave (disks self.old) (disks self.new) (IsAmong (disks self.old).may_hold slot lba from.now) }
        ensures remembers { Remembers (disks self.old) (disks self.new) }
        ensures ok { OnOk result ((disks self.new).failed_writes ≡ (disks self.old).failed_writes) }
        ensures failed { OnErr result (Rose ((disks self.old).failed_writes slot) ((disks self.new).failed_writes slot)) }
        ensures gone { OnOk result ((disks self.old).gone slot → ⊥) }
        ensures spends { SpendsWrites (disks self.old) (disks self.new) slot (length from.now) 1 };

    /// Makes all that was written to the slot sure: a stop then leaves what the slot holds.
    fn sync(&mut self, slot: usize) -> Result<(), BayFailed>
        requires { slot < length (disks self.old).sizes }
        ensures durable { OnOk result (IsSettled (disks self.new).may_hold (disks self.new).held slot) }
        ensures held { (disks self.new).held ≡ (disks self.old).held }
        ensures left { Keeps (disks self.old).may_hold (disks self.new).may_hold }
        ensures any_moment { StopsLeave (disks self.old) (disks self.new) (IsLeft (disks self.old).may_hold) }
        ensures remembers { Remembers (disks self.old) (disks self.new) }
        ensures ok { OnOk result ((disks self.new).failed_writes ≡ (disks self.old).failed_writes) }
        ensures failed { OnErr result (Rose ((disks self.old).failed_writes slot) ((disks self.new).failed_writes slot)) }
        ensures gone { OnOk result ((disks self.old).gone slot → ⊥) }
        ensures spends { SpendsWrites (disks self.old) (disks self.new) slot 0 1 };

    /// There are few slots.
    ghost few: { (bay : Self) → length (disks bay).sizes ≤ 64 };

    /// Slots are small enough that no sector's number overflows.
    ghost small: { (bay : Self) (slot : ℕ) → slice_index (disks bay).sizes slot ≤ 2 ^ 55 };

    /// What it tells is so.
    ghost told: { (bay : Self) → IsTold (disks bay) };

    /// A bay is one that calls may make of it: none has to change it.
    ghost leads: { (bay : Self) → (disks bay).leads_to bay };

    /// Where calls asked for no write a stop leaves nothing else than before. A count at its last value tells nothing of that.
    ghost unasked: { (bay next : Self) → (disks bay).leads_to next → (disks next).sectors_asked ≡ (disks bay).sectors_asked → (disks next).sectors_asked < 2 ^ 64 - 1
        → StopsLeave (disks bay) (disks next) (IsLeft (disks bay).may_hold) };

    /// What a stop may leave was told before, where it is told behind calls.
    ghost told_before: { (bay next : Self) → (disks bay).leads_to next → (disks next).tells_left → (disks bay).tells_left };

    /// A slot of which every call fails stays so, whatever calls are made.
    ghost stays_gone: { (bay next : Self) (slot : ℕ) → (disks bay).leads_to next → (disks bay).gone slot → (disks next).gone slot };
}
