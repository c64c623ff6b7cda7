//! A bay in memory: logged writes over zeros, calls that fail by their numbers, and what a stop leaves. docs/DISK-MODEL.md#the-bays
ghost use Rattle.std.specs.Prelude.{◌≡◌, ◌≢◌, ◌⊎◌, ◌<◌, ◌≤◌, ◌+◌, ◌-◌, ◌^◌, ◌↔◌, [], ◌∷◌, List, ℕ, length, IfOk, IsTrue, slice_index, nat_le};
ghost use Rattle.std.specs.List.{list_all};
ghost use Rattle.ddf_bytes.specs.Counts.{Rose};
ghost use Rattle.ddf_bay.specs.Sectors.{IsLeft};
ghost use Rattle.ddf_bay.specs.Moments.{StopsLeave, IsSettled};
ghost use Rattle.ddf_bay.specs.Counting.{AreWithin};
ghost use Rattle.ddf_bay.specs.Logged.{are_past, is_reached, zeros};

use crate::Bay;
use crate::log::Log;
use ddf_bytes::NoMemory;
use std::alloc::Global;

/// A bay in memory, for tests: it holds zeros and what was written, tells everything while its clock is below its last
/// value, and fails the calls that it was told to fail, and no others. Calls are numbered from 0 over reads, writes,
/// syncs and runs.
#[derive(Drop)]
pub struct MemoryBay {
    pub(crate) sizes: Vec<u64>,
    pub(crate) log: Log,
    pub(crate) written: u64,
    pub(crate) asked: u128,
    pub(crate) failing: Vec<u64>,
    pub(crate) stop_after: Option<u64>,
    pub(crate) unplugged: [bool; 64],
    pub(crate) read_faults: [u64; 64],
    pub(crate) write_faults: [u64; 64],
    pub(crate) clock: u64,
    pub(crate) made: u64,
    ghost few: { length sizes.items ≤ 64 },
    ghost small: { IsTrue (list_all (λ n. nat_le n (2 ^ 55)) sizes.items) },
    ghost past: { IsTrue (are_past clock log.logged.items) },
    ghost counted: { written + log.room < 2 ^ 64 },
    ghost wanted: { written ≤ asked },
    ghost reads_within: { AreWithin read_faults clock },
    ghost writes_within: { AreWithin write_faults clock },
}

impl MemoryBay {
    ghost use Rattle.ddf_bay.specs.Memory.{state_of, disks_of, blank, fails_next, without, stopped};

    /// Slots of these sizes, in sectors, that hold zeros, with room for so many sectors to be written. The calls with
    /// the listed numbers fail, and all from `stop_after` on.
    pub fn new(
        alloc: Global,
        sizes: &[u64],
        writes: usize,
        failing: Vec<u64>,
        stop_after: Option<u64>,
    ) -> Result<MemoryBay, NoMemory>
        requires few { length sizes.now ≤ 64 }
        requires small { IsTrue (list_all (λ n. nat_le n (2 ^ 55)) sizes.now) }
        ensures state { IfOk result (λ bay. state_of bay ≡ blank sizes.now writes failing.items stop_after) }
        ensures sizes { IfOk result (λ bay. (disks_of bay).sizes ≡ sizes.now) }
        ensures held { IfOk result (λ bay. (s l : ℕ) → (disks_of bay).held s l ≡ zeros) }
        ensures settled { IfOk result (λ bay. (s : ℕ) → IsSettled (disks_of bay).may_hold (disks_of bay).held s) }
    {
        let sizes = sizes.to_vec(alloc)?;
        let log = Log::new(alloc, writes)?;
        Ok(MemoryBay {
            sizes,
            log,
            written: 0,
            asked: 0,
            failing,
            stop_after,
            unplugged: [false; 64],
            read_faults: [0; 64],
            write_faults: [0; 64],
            clock: 0,
            made: 0,
        })
    }

    /// Makes every later call on the slot fail.
    pub fn unplug(&mut self, slot: usize)
        requires { slot < length (disks_of self.old).sizes }
        ensures state { state_of self.new ≡ without (state_of self.old) slot }
        ensures gone { (disks_of self.new).gone slot }
    {
        self.unplugged[slot] = true;
    }

    /// A stop, and a start with other calls that fail. Of the writes that no sync made sure those are dropped whose
    /// place in `keep` isn't true: places count these writes in the order of the calls, and one past the end of `keep`
    /// isn't true. Numbers begin at 0 again, unplugged slots are there again, the room that is left stays, and the
    /// sectors that were asked for are counted anew from those written.
    pub fn crash(self, keep: &[bool], failing: Vec<u64>, stop_after: Option<u64>) -> MemoryBay
        ensures state { state_of result ≡ stopped (state_of self) keep.now failing.items stop_after }
        ensures left { (disks_of self).tells_left → IsLeft (disks_of self).may_hold (disks_of result).held }
        ensures settled { (s : ℕ) → IsSettled (disks_of result).may_hold (disks_of result).held s }
        ensures any_moment { StopsLeave (disks_of self) (disks_of result) (IsLeft (disks_of self).may_hold) }
    {
        let mut bay = self;
        let now = bay.clock;
        bay.log.stop(now, keep);
        bay.failing = failing;
        bay.stop_after = stop_after;
        bay.unplugged = [false; 64];
        bay.asked = u128::from(bay.written);
        bay.made = 0;
        bay
    }

    /// How many calls were made since the start or the last stop.
    pub fn calls(&self) -> u64
        ensures { result ≡ (disks_of self.now).calls }
    {
        self.made
    }

    /// Whether it tells what a stop may leave: it does while its clock, which counts all calls, is below its last value.
    pub fn tells_left(&self) -> bool
        ensures { IsTrue result ↔ (disks_of self.now).tells_left }
    {
        self.clock < u64::MAX
    }

    /// Whether the next call fails if it is on this slot.
    pub(crate) fn fails(&self, slot: usize) -> bool
        requires { slot < length self.now.sizes.items }
        ensures { result ≡ fails_next (state_of self.now) slot }
    {
        self.unplugged[slot] || self.failing.contains(&self.made) || self.is_over()
    }

    fn is_over(&self) -> bool
        ensures { result ≡ is_reached self.now.made self.now.stop_after }
    {
        match self.stop_after {
            Some(number) => self.made >= number,
            None => false,
        }
    }
}
