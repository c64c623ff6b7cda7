//! The sealed records of a copy, by their signatures.
ghost use Rattle.std.specs.Prelude.{◌≡◌};
ghost use Rattle.ddf_linux.specs.Layouts.{layout_of, slots_of, records_with};

use crate::records::Records;
use crate::zeros::SectorZeros;
use ddf_header::{
    ARRAYS, BAD_BLOCKS, CONTROLLER, DISK_DATA, DISKS, Geometry, HEADER_SIGNATURE, RECORDS,
};

/// The signature of the controller data.
const CONTROLLER_DATA: u32 = 0xAD11_1111;

/// The signature of the physical disk records.
const DISK_RECORDS: u32 = 0x2222_2222;

/// The signature of the virtual disk records.
const ARRAY_RECORDS: u32 = 0xDDDD_DDDD;

/// The signature of a configuration record of an array.
const ELEMENT: u32 = 0xEEEE_EEEE;

/// The signature of a configuration record of a spare.
const SPARE: u32 = 0x5555_5555;

/// The signature of a configuration record of a vendor.
const VENDOR: u32 = 0x8888_8888;

/// The signature of the physical disk data.
const DISK: u32 = 0x3333_3333;

/// The signature of the bad block log.
const BAD_BLOCK_LOG: u32 = 0xABAD_B10C;

/// The sealed records of a copy, by the kinds that the standard has.
#[derive(Clone, Copy)]
pub(crate) struct Layout {
    /// The header.
    pub header: Records,
    /// The controller data.
    pub controller: Records,
    /// The physical disk records.
    pub disks: Records,
    /// The virtual disk records.
    pub arrays: Records,
    /// The configuration records.
    pub configs: Records,
    /// The physical disk data.
    pub disk_data: Records,
    /// The bad block log.
    pub bad_blocks: Records,
}

impl Layout {
    /// The records that a geometry lays out.
    #[tactic(auto, unfolding(crate::specs::Layouts::layout_of))]
    pub fn new(zeros: &SectorZeros, geometry: &Geometry) -> Layout
        ensures { result ≡ layout_of geometry.now }
    {
        Layout {
            header: Records::new(zeros, 0, 1, 1),
            controller: Records::front(zeros, geometry.section(CONTROLLER)),
            disks: Records::whole(zeros, geometry.section(DISKS)),
            arrays: Records::whole(zeros, geometry.section(ARRAYS)),
            configs: config_records(zeros, geometry),
            disk_data: Records::front(zeros, geometry.section(DISK_DATA)),
            bad_blocks: Records::whole(zeros, geometry.section(BAD_BLOCKS)),
        }
    }

    /// The records that may begin with a signature.
    #[tactic(auto, unfolding(crate::specs::Layouts::records_with))]
    pub fn records_with(&self, signature: u32) -> Option<Records>
        ensures { result ≡ records_with self.now signature }
    {
        match signature {
            HEADER_SIGNATURE => Some(self.header),
            CONTROLLER_DATA => Some(self.controller),
            DISK_RECORDS => Some(self.disks),
            ARRAY_RECORDS => Some(self.arrays),
            ELEMENT | SPARE | VENDOR => Some(self.configs),
            DISK => Some(self.disk_data),
            BAD_BLOCK_LOG => Some(self.bad_blocks),
            _ => None,
        }
    }
}

/// The configuration records: one in each whole slot of their section.
fn config_records(zeros: &SectorZeros, geometry: &Geometry) -> Records
    ensures { result ≡ slots_of geometry.now }
{
    let section = geometry.section(RECORDS);
    let stride = u32::from(geometry.record_length);
    let count = if stride == 0 {
        0
    } else {
        section.length / stride
    };
    Records::new(zeros, section.offset, stride, count)
}
