//! Why an element or a section of records isn't read. docs/FORMAT.md#configuration-records
ghost use Rattle.std.specs.Prelude.{◌≡◌};
ghost use Rattle.ddf_config_records.specs.declared.fault.SlotFault.TheVariants.{Memory};

use ddf_bytes::NoMemory;
use ddf_seal::SealFault;

/// Why a sealed element record isn't read: the first of these, in this order. The bounds are profile.
#[derive(Clone, Copy, PartialEq, Eq)]
pub enum ElementFault {
    /// There is no member, or there are more than the geometry or this project (64) allows.
    Members(u16),
    /// The stripe size code is over 31, where it isn't taken as one sector.
    Stripe(u8),
    /// The count of secondary elements is 0 or over 16, or the element's place isn't below it. Has the count.
    Secondary(u8),
    /// The block size is none of 0, 512 and FFFF.
    Block(u16),
}

/// Why a section of configuration records isn't read.
#[derive(Clone, Copy, PartialEq, Eq)]
pub enum SlotFault {
    /// The first slot that has one of the three known signatures and another CRC than its bytes.
    Seal {
        /// The slot, from 0.
        slot: usize,
        /// What is wrong with its seal.
        fault: SealFault,
    },
    /// Memory ran out.
    Memory,
}

impl From<NoMemory> for SlotFault {
    ghost from_gives = { λ _ fault. fault ≡ Memory };

    fn from(_error: NoMemory) -> SlotFault {
        SlotFault::Memory
    }
}
