//! How a slot is seen, by its last sector. One that could not be read fails each call: it might else look blank, and be written to.
//! docs/LINUX-SEALS.md#a-bay-over-a-bay
ghost use Rattle.std.specs.Prelude.{◌≡◌, ◌↔◌, ◌<◌, ◌≤◌, ◌+◌, ◌-◌, ◌^◌, ℕ, [], IsTrue, true, false, List, length, slice_index_or};
ghost use Rattle.ddf_header.specs.Header.{header_signature};
ghost use Rattle.ddf_update.specs.NewLayouts.{least_sectors};
ghost use Rattle.ddf_linux.specs.Crcs.{IsLinuxSealed};
ghost use Rattle.ddf_linux.specs.Kinds.{kind_by, founded_kind, is_founded, is_turned, is_unread, kind_constant, may_be_founded, turn, turns};
ghost use Rattle.ddf_linux.specs.Pieces.{turns_at};

use crate::crcs::add;
use crate::places::Places;
use crate::zeros::SectorZeros;
use ddf_bytes::{Sector, be32};
use ddf_header::HEADER_SIGNATURE;
use ddf_seal::check;
use ddf_update::NewLayout;

/// How a slot is seen.
#[derive(Clone, Copy)]
pub(crate) enum SlotKind {
    /// As it is.
    Plain,
    /// Its last sector could not be read.
    Unread,
    /// Its anchor is sealed in Linux's kind: these sectors are turned.
    Turned(Places),
}

impl SlotKind {
    /// How a slot of so many sectors is seen by its last one. Where new disks of a layout are founded for Linux, one that may be founded
    /// is turned at the places of such a disk.
    pub fn seen(
        zeros: &SectorZeros,
        size: u64,
        last: &Sector,
        founds: Option<NewLayout>,
    ) -> SlotKind
        requires { 0 < size }
        ensures read { is_unread result ≡ false }
        ensures founded { is_founded founds size last.now ≡ true → result ≡ founded_kind founds size }
        ensures exact { is_founded founds size last.now ≡ false → result ≡ kind_by (size - 1) last.now }
        ensures turned { is_founded founds size last.now ≡ false → IsTrue (is_turned result) ↔ IsLinuxSealed header_signature last.now }
    {
        let Some(layout) = founds else {
            return SlotKind::of(zeros, size - 1, last);
        };
        if may_be_founded(layout, size, last) {
            SlotKind::Turned(Places::of_new_disk(zeros, layout, size))
        } else {
            SlotKind::of(zeros, size - 1, last)
        }
    }

    /// How a slot is seen by its last sector.
    #[tactic(auto, unfolding(crate::specs::Kinds::kind_by))]
    pub fn of(zeros: &SectorZeros, last: u64, bytes: &Sector) -> SlotKind
        ensures exact { result ≡ kind_by last bytes.now }
        ensures read { is_unread result ≡ false }
        ensures turned { IsTrue (is_turned result) ↔ IsLinuxSealed header_signature bytes.now }
    {
        let mut anchor = *bytes;
        add(zeros.constant(1), &mut anchor);
        match check(&anchor, HEADER_SIGNATURE) {
            Ok(()) => SlotKind::Turned(Places::new(zeros, last, &anchor)),
            Err(_) => SlotKind::Plain,
        }
    }

    /// Whether records of the slot are turned.
    pub fn is_turned(&self) -> bool
        ensures { result ≡ is_turned self.now }
    {
        matches!(self, SlotKind::Turned(_))
    }

    /// Whether the slot's last sector could not be read.
    pub fn is_unread(&self) -> bool
        ensures { result ≡ is_unread self.now }
    {
        matches!(self, SlotKind::Unread)
    }

    /// What is added to the CRC of a sector, if it is one of those that are turned.
    fn constant_at(&self, lba: u64, sector: &Sector) -> Option<u32>
        ensures { result ≡ kind_constant self.now lba sector.now }
    {
        match self {
            SlotKind::Turned(places) => places.constant_at(lba, sector),
            SlotKind::Plain | SlotKind::Unread => None,
        }
    }

    /// Whether no sector below an LBA is turned, which is seen without looking at any.
    fn is_plain_below(&self, end: u64) -> bool
        ensures { result ≡ true → (l : ℕ) (bytes : List ℕ) → l < end → turns self.now l bytes ≡ false }
    {
        match self {
            SlotKind::Turned(places) => places.lie_from(end),
            SlotKind::Plain | SlotKind::Unread => true,
        }
    }

    /// How many of the first sectors of a run aren't turned.
    pub fn plain_length(&self, lba: u64, sectors: &[Sector]) -> usize
        requires { lba + length sectors.now < 2 ^ 64 }
        ensures most { result ≤ length sectors.now }
        ensures plain { (k : ℕ) → k < result → turns_at self.now lba sectors.now k ≡ false }
        ensures next { result < length sectors.now → turns_at self.now lba sectors.now result ≡ true }
    {
        if self.is_plain_below(lba + sectors.len() as u64) {
            return sectors.len();
        }
        for (index, sector) in sectors.iter().enumerate() {
            if self.turns(lba + index as u64, sector) {
                return index;
            }
        }
        sectors.len()
    }

    /// Whether a sector is one of those that are turned.
    fn turns(&self, lba: u64, sector: &Sector) -> bool
        ensures { result ≡ turns self.now lba sector.now }
    {
        self.constant_at(lba, sector).is_some()
    }

    /// Turns a sector in its place, if it is one of those that are turned.
    pub fn turn(&self, lba: u64, sector: &mut Sector)
        ensures { sector.new ≡ turn self.now lba sector.old }
    {
        if let Some(constant) = self.constant_at(lba, sector) {
            add(constant, sector);
        }
    }

    /// Turns the sectors of a run.
    pub fn turn_run(&self, lba: u64, sectors: &mut [Sector])
        requires { lba + length sectors.old < 2 ^ 64 }
        ensures length { length sectors.new ≡ length sectors.old }
        ensures each { (k : ℕ) → k < length sectors.old
            → slice_index_or sectors.new k [] ≡ turn self.now (lba + k) (slice_index_or sectors.old k []) }
    {
        if self.is_plain_below(lba + sectors.len() as u64) {
            return;
        }
        let mut at = lba;
        for sector in sectors.iter_mut() {
            self.turn(at, sector);
            at += 1;
        }
    }
}

/// Whether a disk of a layout may be founded on a slot of so many sectors: there is room for one, and the last sector begins as no
/// anchor.
fn may_be_founded(layout: NewLayout, size: u64, last: &Sector) -> bool
    ensures exact { result ≡ may_be_founded layout size last.now }
    ensures large { result ≡ true → least_sectors layout ≤ size }
{
    size >= layout.least_sectors() && be32(last, 0) != HEADER_SIGNATURE
}
