//! The geometry of a header: workspace, sizes of records, and its eight sections. All else on a disk is found by these numbers, so each has
//! its bounds before it is used. docs/FORMAT.md#what-is-wrong-with-a-header
ghost use Rattle.std.specs.Prelude.{◌≡◌, [], ◌∷◌, ◌+◌, ◌<◌, ◌≤◌, length, take, slice_get, Some, IfSome};
ghost use Rattle.std.specs.List.{flat_map, list_any};
ghost use Rattle.std.specs.Int.{w32, to_be_bytes};
ghost use Rattle.ddf_seal.specs.Unread.{placed, written};
ghost use Rattle.ddf_header.specs.declared.layout.TheConstants.{SECTIONS_AT};
ghost use Rattle.ddf_header.specs.Geometry.{
  geometry_at,
  geometry_fields,
  section_numbers,
  section_of,
  geometry_fault,
  section_at,
  is_maximum,
  is_member_maximum,
  record_sectors,
  is_bad_section,
  least_bytes,
  meets,
  is_long,
  is_short,
  bad_section,
};

use crate::layout;
use ddf_bytes::{be16, be32, be64, put16, put32, put64};

/// The place of the controller data among the sections.
pub const CONTROLLER: usize = 0;
/// The place of the physical disk records among the sections.
pub const DISKS: usize = 1;
/// The place of the virtual disk records among the sections.
pub const ARRAYS: usize = 2;
/// The place of the configuration records among the sections.
pub const RECORDS: usize = 3;
/// The place of the physical disk data among the sections.
pub const DISK_DATA: usize = 4;
/// The place of the bad block log among the sections.
pub const BAD_BLOCKS: usize = 5;
/// The place of the diagnostic space among the sections.
pub const DIAGNOSTIC: usize = 6;
/// The place of the vendor logs among the sections.
pub const VENDOR_LOGS: usize = 7;

/// Where a section lies. One of length 0 is absent, whatever its offset.
#[derive(Clone, Copy, PartialEq, Eq)]
pub struct Section {
    /// Sectors from the LBA of the header that names the section.
    pub offset: u32,
    /// How many sectors the section has.
    pub length: u32,
}

/// How a disk is laid out: its workspace, the sizes of the records, and the sections behind a header.
#[derive(Clone, Copy, PartialEq, Eq)]
pub struct Geometry {
    /// Sectors of the workspace.
    pub workspace_length: u32,
    /// The first sector of the workspace.
    pub workspace_lba: u64,
    /// Max_PD_Entries, the entries of the physical disk records.
    pub max_disks: u16,
    /// Max_VD_Entries, the entries of the virtual disk records.
    pub max_arrays: u16,
    /// Max_Partitions, which isn't used in reading.
    pub max_partitions: u16,
    /// Configuration_Record_Length, in sectors.
    pub record_length: u16,
    /// Max_Primary_Element_Entries, the most members that a configuration record may have.
    pub max_members: u16,
    /// The sections in the order of the header, each at its place (`CONTROLLER` to `VENDOR_LOGS`).
    pub sections: [Section; 8],
}

impl Geometry {
    /// The geometry that stands in a header.
    #[tactic(auto, unfolding(crate::specs::Geometry::geometry_at))]
    pub(crate) fn read(header: &[u8]) -> Geometry
        requires { 256 ≤ length header.now }
        ensures { result ≡ geometry_at header.now }
    {
        Geometry {
            workspace_length: be32(header, layout::WORKSPACE_LENGTH_AT),
            workspace_lba: be64(header, layout::WORKSPACE_LBA_AT),
            max_disks: be16(header, layout::MAX_DISKS_AT),
            max_arrays: be16(header, layout::MAX_ARRAYS_AT),
            max_partitions: be16(header, layout::MAX_PARTITIONS_AT),
            record_length: be16(header, layout::RECORD_LENGTH_AT),
            max_members: be16(header, layout::MAX_MEMBERS_AT),
            sections: [
                section_at(header, layout::SECTIONS_AT),
                section_at(header, layout::SECTIONS_AT + 8),
                section_at(header, layout::SECTIONS_AT + 16),
                section_at(header, layout::SECTIONS_AT + 24),
                section_at(header, layout::SECTIONS_AT + 32),
                section_at(header, layout::SECTIONS_AT + 40),
                section_at(header, layout::SECTIONS_AT + 48),
                section_at(header, layout::SECTIONS_AT + 56),
            ],
        }
    }

    /// Writes the geometry into a header.
    pub(crate) fn put(&self, header: &mut [u8])
        requires { 256 ≤ length header.old }
        ensures { header.new ≡ written (geometry_fields self.now) header.old }
    {
        put32(header, layout::WORKSPACE_LENGTH_AT, self.workspace_length);
        put64(header, layout::WORKSPACE_LBA_AT, self.workspace_lba);
        put16(header, layout::MAX_DISKS_AT, self.max_disks);
        put16(header, layout::MAX_ARRAYS_AT, self.max_arrays);
        put16(header, layout::MAX_PARTITIONS_AT, self.max_partitions);
        put16(header, layout::RECORD_LENGTH_AT, self.record_length);
        put16(header, layout::MAX_MEMBERS_AT, self.max_members);
        put_sections(header, &self.sections);
    }

    /// The section at a place (`CONTROLLER` to `VENDOR_LOGS`).
    pub fn section(&self, index: usize) -> Section
        requires { index < 8 }
        ensures value { result ≡ section_of self.now index }
        ensures found { slice_get self.now.sections index ≡ Some result }
    {
        self.sections[index]
    }

    /// The offset in the header of the first field of the geometry that has a value that it may not have. The rules of the
    /// sections' sizes and places are profile.
    #[tactic(auto, unfolding(crate::specs::Geometry::geometry_fault))]
    pub fn fault(&self) -> Option<u16>
        ensures { result ≡ geometry_fault self.now }
    {
        if !is_maximum(self.max_disks) {
            return Some(layout::MAX_DISKS_AT as u16);
        }
        if !is_maximum(self.max_arrays) {
            return Some(layout::MAX_ARRAYS_AT as u16);
        }
        if self.record_length != record_sectors(self.max_members) {
            return Some(layout::RECORD_LENGTH_AT as u16);
        }
        if !is_member_maximum(self.max_members) {
            return Some(layout::MAX_MEMBERS_AT as u16);
        }
        self.bad_section()
            .map(|index| (layout::SECTIONS_AT + 8 * index) as u16)
    }

    fn bad_section(&self) -> Option<usize>
        ensures place { result ≡ bad_section self.now }
        ensures within { IfSome result (λ index. index < 8) }
    {
        self.sections
            .iter()
            .enumerate()
            .position(|(index, section)| self.is_bad_section(index, section))
    }

    #[tactic(auto, unfolding(crate::specs::Geometry::is_bad_section))]
    fn is_bad_section(&self, index: usize, section: &Section) -> bool
        ensures { result ≡ is_bad_section self.now index section.now }
    {
        if section.length == 0 {
            return index <= DISK_DATA;
        }
        section.offset == 0
            || self.is_short(index, section)
            || is_long(index, section)
            || self.meets_earlier(index, section)
    }

    #[tactic(auto, unfolding(crate::specs::Geometry::is_short))]
    fn is_short(&self, index: usize, section: &Section) -> bool
        ensures { result ≡ is_short self.now index section.now }
    {
        512 * u64::from(section.length) < self.least_bytes(index)
    }

    fn meets_earlier(&self, index: usize, section: &Section) -> bool
        ensures { result ≡ list_any (meets section.now) (take index self.now.sections) }
    {
        self.sections
            .iter()
            .take(index)
            .any(|earlier| meets(section, earlier))
    }

    /// The fewest bytes that a section may have.
    #[tactic(auto, unfolding(crate::specs::Geometry::least_bytes))]
    fn least_bytes(&self, index: usize) -> u64
        ensures { result ≡ least_bytes self.now index }
    {
        match index {
            DISKS => 64 + 64 * u64::from(self.max_disks),
            ARRAYS => 64 + 64 * u64::from(self.max_arrays),
            RECORDS => 512 * u64::from(self.record_length),
            _ => 0,
        }
    }
}

/// The most sectors of a section that is kept in memory.
const MOST_SECTORS: u32 = 8192;

fn section_at(header: &[u8], at: usize) -> Section
    requires { at + 8 ≤ length header.now }
    ensures { result ≡ section_at header.now at }
{
    Section {
        offset: be32(header, at),
        length: be32(header, at + 4),
    }
}

fn put_sections(header: &mut [u8], sections: &[Section; 8])
    requires { 256 ≤ length header.old }
    ensures { header.new
        ≡ placed header.old SECTIONS_AT (flat_map (to_be_bytes w32) (section_numbers sections.now)) }
{
    for (index, section) in sections.iter().enumerate() {
        put_section(header, layout::SECTIONS_AT + 8 * index, section);
    }
}

fn put_section(header: &mut [u8], at: usize, section: &Section)
    requires { at + 8 ≤ length header.old }
    ensures { header.new
        ≡ placed header.old at (flat_map (to_be_bytes w32) (section_numbers (section.now ∷ []))) }
{
    put32(header, at, section.offset);
    put32(header, at + 4, section.length);
}

#[tactic(auto, unfolding(crate::specs::Geometry::is_maximum))]
fn is_maximum(entries: u16) -> bool
    ensures { result ≡ is_maximum entries }
{
    matches!(entries, 15 | 63 | 255 | 1023 | 4095)
}

#[tactic(auto, unfolding(crate::specs::Geometry::is_member_maximum))]
fn is_member_maximum(members: u16) -> bool
    ensures { result ≡ is_member_maximum members }
{
    matches!(members, 16 | 64 | 256 | 1024 | 4096)
}

/// A sector, and as many as the members' references and starting LBAs fill.
fn record_sectors(members: u16) -> u16
    ensures { result ≡ record_sectors members }
{
    1 + (12 * u32::from(members)).div_ceil(512) as u16
}

#[tactic(auto, unfolding(crate::specs::Geometry::is_long))]
fn is_long(index: usize, section: &Section) -> bool
    ensures { result ≡ is_long index section.now }
{
    matches!(index, DISKS | ARRAYS | RECORDS | BAD_BLOCKS) && section.length > MOST_SECTORS
}

#[tactic(auto, unfolding(crate::specs::Geometry::meets))]
fn meets(one: &Section, other: &Section) -> bool
    ensures { result ≡ meets one.now other.now }
{
    let one_end = u64::from(one.offset) + u64::from(one.length);
    let other_end = u64::from(other.offset) + u64::from(other.length);
    one.length != 0
        && other.length != 0
        && u64::from(one.offset) < other_end
        && u64::from(other.offset) < one_end
}
