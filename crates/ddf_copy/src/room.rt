//! Whether the two copies lie before the anchor, and apart: an update of one would else write over the other. docs/FORMAT.md#whole-copies
ghost use Rattle.std.specs.Prelude.{◌≡◌, ◌+◌, ◌^◌, ◌<◌, ◌≤◌, IfSome, position};
ghost use Rattle.std.specs.List.{list_any};
ghost use Rattle.ddf_copy.specs.Room.{has_no_room, has_sector_of, is_out_of_room, meets_copy, room_fault, share};

use ddf_header::layout::SECTIONS_AT;
use ddf_header::{Geometry, Section};

/// Where the headers of the two copies stand on a disk, and its last sector.
#[derive(Clone, Copy, PartialEq, Eq)]
pub(crate) struct Room {
    pub last: u64,
    pub own: u64,
    pub other: u64,
}

impl Room {
    /// The first part of the own copy that has no room: 0 for its header, and otherwise the offset in the header of the
    /// section.
    #[tactic(auto, unfolding(crate::specs::Room::room_fault))]
    pub(crate) fn fault(&self, geometry: &Geometry) -> Option<u16>
        ensures { result ≡ room_fault self.now.last self.now.own self.now.other geometry.now.sections }
    {
        if self.is_without(geometry) {
            return Some(0);
        }
        self.bad_section(geometry)
            .map(|index| (SECTIONS_AT + 8 * index) as u16)
    }

    #[tactic(auto, unfolding(crate::specs::Room::has_no_room))]
    fn is_without(&self, geometry: &Geometry) -> bool
        ensures { result ≡ has_no_room self.now.last self.now.own self.now.other geometry.now.sections }
    {
        self.own >= self.last
            || self.other >= self.last
            || meets_copy(self.other, geometry, u128::from(self.own), 1)
    }

    fn bad_section(&self, geometry: &Geometry) -> Option<usize>
        ensures place { result ≡ position (is_out_of_room self.now.last self.now.own self.now.other geometry.now.sections) geometry.now.sections }
        ensures within { IfSome result (λ index. index < 8) }
    {
        geometry
            .sections
            .iter()
            .position(|section| self.is_out(geometry, section))
    }

    #[tactic(auto, unfolding(crate::specs::Room::is_out_of_room))]
    fn is_out(&self, geometry: &Geometry, section: &Section) -> bool
        ensures { result ≡ is_out_of_room self.now.last self.now.own self.now.other geometry.now.sections section.now }
    {
        let end = u128::from(section.offset) + u128::from(section.length);
        section.length != 0
            && (u128::from(self.own) + end > u128::from(self.last)
                || u128::from(self.other) + end > u128::from(self.last)
                || self.meets_other(geometry, section))
    }

    fn meets_other(&self, geometry: &Geometry, section: &Section) -> bool
        ensures { result ≡ meets_copy self.now.other geometry.now.sections (self.now.own + section.now.offset) section.now.length }
    {
        let at = u128::from(self.own) + u128::from(section.offset);
        meets_copy(self.other, geometry, at, u128::from(section.length))
    }
}

/// Whether a run of sectors has one of the header at an LBA or of its sections.
fn meets_copy(lba: u64, geometry: &Geometry, at: u128, many: u128) -> bool
    requires at { at < 2 ^ 65 }
    requires many { many < 2 ^ 32 }
    ensures { result ≡ meets_copy lba geometry.now.sections at many }
{
    share(at, many, u128::from(lba), 1) || meets_sections(lba, geometry, at, many)
}

fn meets_sections(lba: u64, geometry: &Geometry, at: u128, many: u128) -> bool
    requires at { at < 2 ^ 65 }
    requires many { many < 2 ^ 32 }
    ensures { result ≡ list_any (has_sector_of lba at many) geometry.now.sections }
{
    geometry
        .sections
        .iter()
        .any(|section| has_sector_of(lba, at, many, section))
}

fn has_sector_of(lba: u64, at: u128, many: u128, section: &Section) -> bool
    requires at { at < 2 ^ 65 }
    requires many { many < 2 ^ 32 }
    ensures { result ≡ has_sector_of lba at many section.now }
{
    let other = u128::from(lba) + u128::from(section.offset);
    section.length != 0 && share(at, many, other, u128::from(section.length))
}

/// Whether two runs of sectors share one.
fn share(one: u128, many: u128, other: u128, more: u128) -> bool
    requires one { one < 2 ^ 65 }
    requires many { many < 2 ^ 32 }
    requires other { other < 2 ^ 65 }
    requires more { more < 2 ^ 32 }
    ensures { result ≡ share one many other more }
{
    one < other + more && other < one + many
}
