//! Records of one kind of a copy, and where they stand behind its header.
ghost use Rattle.std.specs.Prelude.{◌≡◌};
ghost use Rattle.ddf_header.specs.declared.geometry.Section.{Section};
ghost use Rattle.ddf_linux.specs.Layouts.{records_at, front_of, whole_of};
ghost use Rattle.ddf_linux.specs.Places.{is_first};

use crate::zeros::SectorZeros;
use ddf_header::Section;

/// Records of one kind behind a header, one after another.
#[derive(Clone, Copy)]
pub(crate) struct Records {
    /// Sectors from the header to the first record.
    pub offset: u32,
    /// The sectors of one record, all of which its CRC covers.
    pub stride: u32,
    /// How many records there may be.
    pub count: u32,
    /// By what the two CRCs of a record differ.
    pub constant: u32,
}

impl Records {
    /// Records of so many sectors each.
    pub fn new(zeros: &SectorZeros, offset: u32, stride: u32, count: u32) -> Records
        ensures { result ≡ records_at offset stride count }
    {
        Records {
            offset,
            stride,
            count,
            constant: zeros.constant(stride),
        }
    }

    /// One record of a sector, at the front of a section.
    pub fn front(zeros: &SectorZeros, section: Section) -> Records
        ensures { result ≡ front_of section }
    {
        Records::new(zeros, section.offset, 1, 1)
    }

    /// One record that fills a section.
    pub fn whole(zeros: &SectorZeros, section: Section) -> Records
        ensures { result ≡ whole_of section }
    {
        Records::new(zeros, section.offset, section.length, 1)
    }

    /// Whether a sector is the first of one of the records behind a header.
    #[tactic(auto, unfolding(crate::specs::Places::is_first))]
    pub fn is_first(&self, header: u64, lba: u64) -> bool
        ensures { result ≡ is_first self.now header lba }
    {
        let offset = u64::from(self.offset);
        let stride = u64::from(self.stride);
        if lba < header || lba - header < offset || stride == 0 {
            return false;
        }
        let behind = lba - header - offset;
        behind % stride == 0 && behind / stride < u64::from(self.count)
    }
}
