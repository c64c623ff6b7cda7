//! A bay over files or block devices, of whose content nothing is told: std's files know no power cuts. docs/DISK-MODEL.md#the-bays
ghost use Rattle.std.specs.Prelude.{◌≡◌, ◌≢◌, ◌<◌, ◌≤◌, ◌+◌, ◌^◌, ◌↔◌, [], List, ℕ, true, false, length, IfOk, IsNone, IsSome, Some, OnOk, OnErr, IsErr, IsTrue, slice_index, nat_le};
ghost use Rattle.std.specs.List.{list_all};
ghost use Rattle.ddf_bytes.specs.Counts.{Rose};
ghost use Rattle.ddf_bay.specs.Moments.{Remembers, SpendsWrites};
ghost use Rattle.ddf_bay.specs.Files.{AreEmptyUnlessOpen, allows_writes};

use crate::access::Access;
use crate::counts::{next, raise};
use crate::opening::open_slot;
use crate::transfer::{read_bytes, sync_file, write_bytes};
use crate::{Bay, BayFailed};
use ddf_bytes::{NoMemory, Sector};
use std::alloc::Global;
use std::rt::Files;
use std::{io, slice};

/// A bay over files or block devices, a slot for each path. It tells nothing of what they hold: that they keep the disk
/// model is trusted. A call that the system interrupted is made again.
#[derive(Drop)]
pub struct FileBay<R: Files> {
    files: Vec<Result<R::File, io::Error>>,
    sizes: Vec<u64>,
    access: Access,
    read_faults: [u64; 64],
    write_faults: [u64; 64],
    written: u64,
    asked: u64,
    made: u64,
    ghost few: { length sizes.items ≤ 64 },
    ghost small: { IsTrue (list_all (λ n. nat_le n (2 ^ 55)) sizes.items) },
    ghost each: { length files.items ≡ length sizes.items },
    ghost closed: { AreEmptyUnlessOpen files.items sizes.items },
}

impl<R: Files> FileBay<R> {
    ghost use Rattle.ddf_bay.specs.FileBays.{disks_of, has_opened, is_writable, why_not_open, CountsFromZero, IsClosed};

    /// Opens each path for reading and writing. One that can't be opened so, or has no end to seek to, is a slot of
    /// size 0 whose syncs fail. A size is that of the file or block device in whole sectors.
    pub fn open(rt: &R, alloc: Global, paths: &[String]) -> Result<FileBay<R>, NoMemory>
        requires { length paths.now ≤ 64 }
        ensures slots { IfOk result (λ bay. length (disks_of bay).sizes ≡ length paths.now) }
        ensures counts { IfOk result (λ bay. CountsFromZero (disks_of bay)) }
        ensures writable { IfOk result (λ bay. is_writable bay ≡ true) }
    {
        FileBay::open_as(rt, alloc, paths, Access::ReadWrite)
    }

    /// Opens each path for reading alone, so that disks that can't be written to are slots too: each write fails, and
    /// nothing is changed. A path that can't be opened is as for `open`.
    pub fn open_to_read(rt: &R, alloc: Global, paths: &[String]) -> Result<FileBay<R>, NoMemory>
        requires { length paths.now ≤ 64 }
        ensures slots { IfOk result (λ bay. length (disks_of bay).sizes ≡ length paths.now) }
        ensures counts { IfOk result (λ bay. CountsFromZero (disks_of bay)) }
        ensures reads { IfOk result (λ bay. is_writable bay ≡ false) }
    {
        FileBay::open_as(rt, alloc, paths, Access::Read)
    }

    fn open_as(
        rt: &R,
        alloc: Global,
        paths: &[String],
        access: Access,
    ) -> Result<FileBay<R>, NoMemory>
        requires { length paths.now ≤ 64 }
        ensures slots { IfOk result (λ bay. length (disks_of bay).sizes ≡ length paths.now) }
        ensures counts { IfOk result (λ bay. CountsFromZero (disks_of bay)) }
        ensures access { IfOk result (λ bay. is_writable bay ≡ allows_writes access) }
    {
        let mut files = Vec::with_capacity(alloc, paths.len())?;
        let mut sizes = Vec::with_capacity(alloc, paths.len())?;
        for path in paths {
            let (file, size) = open_slot(rt, access, path.as_str());
            files.push(file)?;
            sizes.push(size)?;
        }
        Ok(FileBay {
            files,
            sizes,
            access,
            read_faults: [0; 64],
            write_faults: [0; 64],
            written: 0,
            asked: 0,
            made: 0,
        })
    }

    /// Why the slot's path could not be opened, or what the slot was closed for.
    pub fn fault(&self, slot: usize) -> Option<io::Error>
        requires { slot < length (disks_of self.now).sizes }
        ensures opened { IsNone result ↔ (has_opened self.now slot ≡ true) }
        ensures closed { has_opened self.now slot ≡ false → slice_index (disks_of self.now).sizes slot ≡ 0 }
        ensures why { result ≡ why_not_open self.now slot }
    {
        match &self.files[slot] {
            Ok(_) => None,
            Err(why) => Some(*why),
        }
    }

    /// The slot's file, where its path could be opened.
    pub fn file(&self, slot: usize) -> Option<&R::File>
        requires { slot < length (disks_of self.now).sizes }
        ensures { IsSome result ↔ (has_opened self.now slot ≡ true) }
    {
        match &self.files[slot] {
            Ok(file) => Some(file),
            Err(_) => None,
        }
    }

    /// Closes a slot: it is then as one whose path could not be opened, for this reason.
    pub fn close(&mut self, slot: usize, why: io::Error)
        requires { slot < length (disks_of self.old).sizes }
        ensures closed { has_opened self.new slot ≡ false }
        ensures emptied { IsClosed (disks_of self.old) (disks_of self.new) slot }
        ensures others { (s : ℕ) → s ≢ slot → has_opened self.new s ≡ has_opened self.old s }
        ensures why { why_not_open self.new slot ≡ Some why }
        ensures access { is_writable self.new ≡ is_writable self.old }
    {
        self.files[slot] = Err(why);
        self.sizes[slot] = 0;
    }
}

// argued: that a call moves the sectors that it is asked for, of the file of its slot, for each body hands this file and the first sector to one
// transfer, which is proved to move the run from or to there.
impl<R: Files> Bay for FileBay<R> {
    ghost use Rattle.ddf_bay.specs.FileBays.{disks_of, has_opened, is_writable, moment_stays, IsCounted};
    ghost use Rattle.ddf_bay.specs.MemoryLaws.{size_small};
    ghost use Rattle.ddf_bay.specs.Counting.{one_more};

    ghost disks = { disks_of };

    ghost tells = { ⊥ };

    ghost few = { λ b. b.few };

    ghost small = { λ b s. size_small b.sizes.items s b.small };

    ghost told = { λ b. record { held = λ told s l. told; whole = λ s l bytes left. absurd left; only_now = λ image left. absurd left; counts = λ t image le left. left 0 0; since = λ t image left. left } };

    ghost leads = { λ b. record { opened = λ s i. has_opened b s; access = λ i. is_writable b } };

    ghost unasked = { λ b next leads same low. record { later = moment_stays; since = λ t image le left. absurd left } };

    ghost told_before = { λ b next leads told. told };

    ghost stays_gone = { λ b next slot leads gone. gone };

    fn slots(&self) -> usize {
        self.sizes.len()
    }

    fn size(&self, slot: usize) -> u64 {
        self.sizes[slot]
    }

    fn read(&mut self, slot: usize, lba: u64, into: &mut Sector) -> Result<(), BayFailed> {
        self.read_run(slot, lba, slice::from_mut(into))
    }

    fn read_run(&mut self, slot: usize, lba: u64, into: &mut [Sector]) -> Result<(), BayFailed> {
        self.made = next(self.made);
        let outcome = read_bytes(&mut self.files[slot], lba, into.as_flattened_mut());
        if outcome.is_err() {
            raise(&mut self.read_faults, slot);
        }
        outcome
    }

    fn write(&mut self, slot: usize, lba: u64, from: &Sector) -> Result<(), BayFailed>
        requires slot { slot < length (disks_of self.old).sizes }
        requires sector { lba < slice_index (disks_of self.old).sizes slot }
        ensures ok { OnOk result ((disks_of self.new).failed_writes ≡ (disks_of self.old).failed_writes) }
        ensures failed { OnErr result (Rose ((disks_of self.old).failed_writes slot) ((disks_of self.new).failed_writes slot)) }
        ensures remembers { Remembers (disks_of self.old) (disks_of self.new) }
        ensures spends { SpendsWrites (disks_of self.old) (disks_of self.new) slot 1 1 }
        ensures counted { IsCounted (disks_of self.old) (disks_of self.new) 1 }

        // Disks that were opened for reading alone aren't written to.
        ensures reads { is_writable self.old ≡ false → IsErr result }
    {
        self.write_run(slot, lba, slice::from_ref(from))
    }

    fn write_run(&mut self, slot: usize, lba: u64, from: &[Sector]) -> Result<(), BayFailed>
        requires slot { slot < length (disks_of self.old).sizes }
        requires some { 0 < length from.now }
        requires sectors { lba + length from.now ≤ slice_index (disks_of self.old).sizes slot }
        ensures ok { OnOk result ((disks_of self.new).failed_writes ≡ (disks_of self.old).failed_writes) }
        ensures failed { OnErr result (Rose ((disks_of self.old).failed_writes slot) ((disks_of self.new).failed_writes slot)) }
        ensures remembers { Remembers (disks_of self.old) (disks_of self.new) }
        ensures spends { SpendsWrites (disks_of self.old) (disks_of self.new) slot (length from.now) 1 }
        ensures counted { IsCounted (disks_of self.old) (disks_of self.new) (length from.now) }

        // Disks that were opened for reading alone aren't written to.
        ensures reads { is_writable self.old ≡ false → IsErr result }
    {
        self.made = next(self.made);
        self.asked = self.asked.saturating_add(from.len() as u64);
        let outcome = write_bytes(&mut self.files[slot], self.access, lba, from.as_flattened());
        if outcome.is_err() {
            raise(&mut self.write_faults, slot);
        } else {
            self.written = self.written.saturating_add(from.len() as u64);
        }
        outcome
    }

    fn sync(&mut self, slot: usize) -> Result<(), BayFailed>
        requires { slot < length (disks_of self.old).sizes }
        ensures ok { OnOk result ((disks_of self.new).failed_writes ≡ (disks_of self.old).failed_writes) }
        ensures failed { OnErr result (Rose ((disks_of self.old).failed_writes slot) ((disks_of self.new).failed_writes slot)) }
        ensures remembers { Remembers (disks_of self.old) (disks_of self.new) }
        ensures spends { SpendsWrites (disks_of self.old) (disks_of self.new) slot 0 1 }
        ensures counted { (disks_of self.new).calls ≡ one_more (disks_of self.old).calls }

        // One that could not be opened fails.
        ensures closed { has_opened self.old slot ≡ false → IsErr result }
    {
        self.made = next(self.made);
        let outcome = sync_file(&self.files[slot]);
        if outcome.is_err() {
            raise(&mut self.write_faults, slot);
        }
        outcome
    }
}
