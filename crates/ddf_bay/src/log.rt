//! The writes of a bay in memory, one record a sector, kept with the clock of the write and of its sync, so that the bay tells what a stop at
//! any moment might have left. docs/DISK-MODEL.md#the-bays
ghost use Rattle.std.specs.Prelude.{◌≡◌, ◌<◌, ◌≤◌, ◌+◌, ◌-◌, ◌^◌, [], ◌∷◌, ◌++◌, List, length, vec_len, vec_capacity, IfOk, IsTrue, nat_lt};
ghost use Rattle.std.specs.List.{list_all};
ghost use Rattle.std.specs.HashMap.{hash_map_len, spare};
ghost use Rattle.ddf_bay.specs.Sectors.{IsRead};
ghost use Rattle.ddf_bay.specs.Logged.{are_whole, is_whole, held_of, newest, zeros, settled, run_logged, survivors};
ghost use Rattle.ddf_bay.specs.Finding.{noted, Finds, IsWithin};

use crate::index::{Index, Place, note};
use crate::logged::{keep_some, settle_all};
use crate::logged_write::LoggedWrite;
use ddf_bytes::{NoMemory, Sector};
use std::alloc::Global;
use std::collections::HashMap;

/// The logged writes of a bay in memory, with room that was reserved for more, and an index by which a read finds a sector's
/// newest write.
#[derive(Drop)]
pub(crate) struct Log {
    pub logged: Vec<LoggedWrite>,
    pub room: usize,
    index: Index,
    ghost fits: { vec_len logged + room ≤ vec_capacity logged },
    ghost few: { hash_map_len index ≤ vec_len logged },
    ghost spare: { vec_len logged + room ≤ hash_map_len index + spare index },
    ghost finds: { Finds (noted index) logged.items },
    ghost within: { IsWithin (noted index) logged.items },
    ghost whole: { IsTrue (are_whole logged.items) },
}

impl Log {
    pub fn new(alloc: Global, room: usize) -> Result<Log, NoMemory>
        ensures logged { IfOk result (λ log. log.logged.items ≡ []) }
        ensures room { IfOk result (λ log. log.room ≡ room) }
    {
        let logged = Vec::with_capacity(alloc, room)?;
        let index = HashMap::with_capacity(alloc, room)?;
        Ok(Log {
            logged,
            room,
            index,
        })
    }

    pub fn newest(&self, slot: usize, lba: u64) -> Sector
        ensures { result ≡ newest self.now.logged.items slot lba zeros }
    {
        match self.index.get(&Place { slot, lba }) {
            Some(at) => self.logged[*at].bytes,
            None => blank(),
        }
    }

    pub fn read(&self, slot: usize, lba: u64, into: &mut [Sector])
        requires { lba + length into.old ≤ 2 ^ 55 }
        ensures { IsRead (held_of self.now.logged.items slot) lba into.new }
    {
        let mut at = lba;
        for sector in into.iter_mut() {
            *sector = self.newest(slot, at);
            at += 1;
        }
    }

    #[tactic(auto, using(crate::specs::LoggedLaws::whole_added))]
    fn push_one(&mut self, entry: LoggedWrite)
        requires room { 0 < self.old.room }
        requires whole { IsTrue (is_whole entry.bytes) }
        ensures logged { self.new.logged.items ≡ self.old.logged.items ++ entry ∷ [] }
        ensures room { self.new.room + 1 ≡ self.old.room }
    {
        let at = self.logged.len();
        let place = Place {
            slot: entry.slot,
            lba: entry.lba,
        };
        match self.logged.push(entry) {
            Ok(()) => (),
            Err(_) => unreachable!(),
        }
        note(&mut self.index, place, at);
        self.room -= 1;
    }

    /// Adds a write for each sector of a run.
    pub fn push(&mut self, slot: usize, lba: u64, now: u64, sectors: &[Sector])
        requires room { length sectors.now ≤ self.old.room }
        requires last { lba + length sectors.now ≤ 2 ^ 55 }
        ensures logged { self.new.logged.items ≡ self.old.logged.items ++ run_logged slot lba now sectors.now }
        ensures room { self.new.room ≡ self.old.room - length sectors.now }
    {
        let mut rest = sectors;
        let mut at = lba;
        while let [first, after @ ..] = rest {
            self.push_one(LoggedWrite {
                slot,
                lba: at,
                bytes: bytes_of(first),
                at: now,
                settled: None,
            });
            rest = after;
            at += 1;
        }
    }

    /// What a good sync of a slot makes of the logged writes.
    pub fn settle(&mut self, slot: usize, now: u64)
        ensures logged { self.new.logged.items ≡ settled slot now self.old.logged.items }
        ensures room { self.new.room ≡ self.old.room }
    {
        settle_all(&mut self.logged, slot, now);
    }

    /// What a stop makes of the logged writes.
    #[tactic(auto, using(crate::specs::LoggedLaws::whole_stop))]
    pub fn stop(&mut self, now: u64, keep: &[bool])
        ensures logged { self.new.logged.items ≡ survivors now keep.now self.old.logged.items }
        ensures room { self.new.room ≡ self.old.room }
    {
        keep_some(&mut self.logged, now, keep);
        note_all(&mut self.index, self.logged.as_slice());
    }
}

/// The bytes of a sector.
fn bytes_of(sector: &Sector) -> Sector
    ensures value { result ≡ sector.now }
    ensures whole { IsTrue (is_whole result) }
{
    are_bytes(sector);
    *sector
}

/// Each of them is a byte.
fn are_bytes(bytes: &[u8])
    ensures { IsTrue (list_all (λ byte. nat_lt byte 256) bytes.now) }
{}

/// A sector that was never written.
fn blank() -> Sector
    ensures { result ≡ zeros }
{
    [0; 512]
}

/// Notes each write anew.
fn note_all(index: &mut Index, logged: &[LoggedWrite])
    requires { length logged.now ≤ hash_map_len index.old + spare index.old }
    ensures few { hash_map_len index.new ≤ length logged.now }
    ensures room { hash_map_len index.old + spare index.old ≤ hash_map_len index.new + spare index.new }
    ensures finds { Finds (noted index.new) logged.now }
    ensures within { IsWithin (noted index.new) logged.now }
{
    index.clear();
    for (at, entry) in logged.iter().enumerate() {
        let place = Place {
            slot: entry.slot,
            lba: entry.lba,
        };
        note(index, place, at);
    }
}
