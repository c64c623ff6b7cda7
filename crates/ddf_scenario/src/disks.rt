//! The disks of a scenario, and what it may ask of them.
ghost use Rattle.std.specs.Prelude.{◌≡◌, ◌≤◌, ◌^◌, IsTrue, length, nat_le};
ghost use Rattle.std.specs.List.{AllPass, list_all};

use crate::numbers::{count, number, numbers};
use crate::program::Sight;
use crate::run::{sync_slot, write_sectors};
use crate::stop::{Failing, WRITES, started, stopped};
use anyhow::bail;
use ddf_bay::{Bay, MemoryBay};
use ddf_bytes::{MemorySource, Sector, Stamp};
use ddf_linux::Turned;
use std::alloc::Global;

/// What takes the output of commands.
#[derive(Clone, Copy)]
pub struct Output {
    /// The bytes that it takes.
    pub room: usize,
    /// The call that fails, if one does. Calls count from 0 in each command.
    pub failing: Option<u64>,
}

/// An output that takes all.
pub const ALL: Output = Output {
    room: 2_000_000,
    failing: None,
};

/// The disks, and what the next commands get beside them.
#[derive(Drop)]
pub struct Disks {
    /// None at first, and while a call has them.
    pub bay: Option<MemoryBay>,
    /// The moment and the chance.
    pub stamp: Stamp,
    pub output: Output,
    /// What the next command gets as its input, if that has any bytes.
    pub input: Option<MemorySource>,
    /// Whether the anchors are lost behind the next command's first look at them.
    pub loses_anchors: bool,
    /// The calls that fail in the next command, where a stop told some.
    failing: Option<Failing>,
    /// The slots that are unplugged.
    unplugged: [bool; 64],
    /// The calls before the bay began to count anew.
    before: u64,
    /// The calls that were told, and those that aren't.
    counted: u64,
}

impl Disks {
    /// No disks yet.
    pub fn new() -> Disks {
        Disks {
            bay: None,
            stamp: Stamp {
                seconds: 1_700_000_000,
                salt: 6 * (1 << 64) + 7,
            },
            output: ALL,
            input: None,
            loses_anchors: false,
            failing: None,
            unplugged: [false; 64],
            before: 0,
            counted: 0,
        }
    }

    pub fn bay(&mut self) -> anyhow::Result<&mut MemoryBay> {
        match &mut self.bay {
            Some(bay) => Ok(bay),
            None => bail!("there are no disks"),
        }
    }

    /// Takes the disks out, to be put back.
    pub fn take(&mut self) -> anyhow::Result<MemoryBay> {
        match self.bay.take() {
            Some(bay) => Ok(bay),
            None => bail!("there are no disks"),
        }
    }

    /// New disks of zeros, of these sizes in sectors. With `room N` behind the sizes so many sectors can be written to them.
    pub fn make(&mut self, alloc: Global, words: &[&str]) -> anyhow::Result<()> {
        let (sizes, room) = match words {
            [sizes @ .., "room", room] => (sizes, count(room)?),
            sizes => (sizes, WRITES),
        };
        let sizes = numbers(alloc, sizes)?;
        self.bay = Some(new_bay(alloc, sizes.as_slice(), room)?);
        self.output = ALL;
        self.input = None;
        self.begin(None);
        Ok(())
    }

    /// Begins to count calls.
    fn begin(&mut self, failing: Option<Failing>) {
        self.failing = failing;
        self.unplugged = [false; 64];
        self.before = 0;
        self.counted = 0;
    }

    /// A stop, and a start: `KEEP`, with `after N` or `failing N..` behind it.
    pub fn stop(&mut self, alloc: Global, words: &[&str]) -> anyhow::Result<()> {
        let bay = self.take()?;
        let (bay, failing) = stopped(alloc, bay, words)?;
        self.bay = Some(bay);
        self.begin(failing);
        Ok(())
    }

    /// Takes the disks out for a command, with its calls that fail. Their calls are told without those that count them.
    pub fn take_for(&mut self, alloc: Global, sight: Sight) -> anyhow::Result<MemoryBay> {
        let bay = self.take()?;
        let Some(failing) = self.failing.take() else {
            return Ok(bay);
        };
        self.before = self.before.saturating_add(bay.calls());
        let mut bay = started(alloc, bay, &failing, sight)?;
        for (slot, is_out) in self.unplugged.iter().enumerate() {
            if *is_out && slot < bay.slots() {
                bay.unplug(slot);
            }
        }
        Ok(bay)
    }

    /// Makes each later call on a slot fail, up to the next stop.
    pub fn unplug(&mut self, words: &[&str]) -> anyhow::Result<()> {
        let slot = match words {
            ["none"] => return Ok(()),
            [slot] => count(slot)?,
            _ => bail!("one slot is unplugged, or none"),
        };
        let bay = self.bay()?;
        if slot >= bay.slots() {
            bail!("there is no such slot");
        }
        bay.unplug(slot);
        if slot < 64 {
            self.unplugged[slot] = true;
        }
        Ok(())
    }

    /// Gives later commands an output of so much room, and with a number behind it one of which this call fails.
    pub fn set_output(&mut self, words: &[&str]) -> anyhow::Result<()> {
        let (room, failing) = match words {
            [room] => (room, None),
            [room, failing] => (room, Some(number(failing)?)),
            _ => bail!("no output is written so"),
        };
        let room = count(room)?;
        self.output = Output { room, failing };
        Ok(())
    }

    /// Gives later commands this moment, in seconds since 1970 began, and the upper and the lower 64 bits of this chance.
    pub fn set_stamp(&mut self, words: &[&str]) -> anyhow::Result<()> {
        let [seconds, upper, lower] = words else {
            bail!("no stamp is written so");
        };
        self.stamp = Stamp {
            seconds: number(seconds)?,
            salt: (u128::from(number(upper)?) << 64) + u128::from(number(lower)?),
        };
        Ok(())
    }

    /// Writes sectors in one call, as a command does, and doesn't make them sure: `SLOT LBA HEX..`, the first bytes of each.
    pub fn write(&mut self, alloc: Global, words: &[&str]) -> anyhow::Result<()> {
        let [slot, lba, rest @ ..] = words else {
            bail!("nothing is written so");
        };
        let sectors = sectors_from(alloc, rest)?;
        let mut bay = Turned::new(self.take()?, None);
        write_sectors(&mut bay, count(slot)?, number(lba)?, sectors.as_slice())?;
        self.bay = Some(bay.into_inner());
        Ok(())
    }

    /// Makes sure what was written to a slot.
    pub fn sync(&mut self, words: &[&str]) -> anyhow::Result<()> {
        let [slot] = words else {
            bail!("one slot is synced");
        };
        sync_slot(self.bay()?, count(slot)?)
    }

    /// Leaves so many calls out of those that are told.
    pub fn pass_over(&mut self, calls: u64) {
        self.counted = self.counted.saturating_add(calls);
    }

    /// How many calls the bay was asked since this was asked last, or since the last stop, but for those that looked for bad block logs.
    pub fn calls(&mut self, alloc: Global) -> anyhow::Result<String> {
        let before = self.before;
        let calls = self.bay()?.calls().saturating_add(before);
        let since = calls.saturating_sub(self.counted);
        self.counted = calls;
        Ok(format!(in alloc; "{since}\n")?)
    }
}

/// Sectors that begin with these bytes each, with zeros behind them.
fn sectors_from(alloc: Global, words: &[&str]) -> anyhow::Result<Vec<Sector>> {
    let mut sectors = Vec::new(alloc);
    for word in words {
        let bytes = hex::decode(alloc, *word)?;
        let count = bytes.len();
        if count > 512 {
            bail!("a sector has 512 bytes");
        }
        let mut sector = [0; 512];
        sector[..count].copy_from_slice(bytes.as_slice());
        sectors.push(sector)?;
    }
    Ok(sectors)
}

/// New disks of zeros, to which so many sectors can be written.
pub fn new_bay(alloc: Global, sizes: &[u64], writes: usize) -> anyhow::Result<MemoryBay> {
    if sizes.len() > 64 || !are_small(sizes) {
        bail!("there are too many or too large disks");
    }
    match MemoryBay::new(alloc, sizes, writes, Vec::new(alloc), None) {
        Ok(bay) => Ok(bay),
        Err(_) => bail!("memory ran out"),
    }
}

#[tactic(auto, using(crate::proofs::Small::all_small))]
fn are_small(sizes: &[u64]) -> bool
    ensures { IsTrue result → IsTrue (list_all (λ n. nat_le n (2 ^ 55)) sizes.now) }
{
    all_pass(sizes)
}

fn all_pass(sizes: &[u64]) -> bool
    ensures { IsTrue result → AllPass (λ n. nat_le n (2 ^ 55)) sizes.now }
{
    sizes.iter().all(|size| *size <= 1 << 55)
}
