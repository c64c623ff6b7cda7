//! The type and the state of a disk, bit by bit. Bits without a name are kept too. docs/FORMAT.md#physical-disk-records
ghost use Rattle.std.specs.Prelude.{⊤};
ghost use Rattle.ddf_tables.specs.DiskFlags.{state_flags, type_flags};

use bitflags::{Flag, Flags, bitflag_items};

/// The type of a disk as 16 bits (SNIA DDF 2.0). All of them are kept, named or not.
#[derive(Clone, Copy, PartialEq, Eq)]
pub struct DiskType(pub u16);

bitflag_items! {
    impl DiskType: u16 {
        /// The GUID was given to the disk, and is not its own.
        const FORCED_GUID = 0x0001;
        /// The disk takes part in an array.
        const IN_ARRAY = 0x0002;
        /// A spare for every array.
        const GLOBAL_SPARE = 0x0004;
        /// A spare for some arrays only.
        const SPARE = 0x0008;
        /// The disk came from another group.
        const FOREIGN = 0x0010;
        /// The disk is used without this format.
        const LEGACY = 0x0020;
        /// The four bits that say by which interface the disk is attached.
        const INTERFACE = 0x0F00;
    }
}

impl Flags for DiskType {
    type Bits = u16;

    ghost exact = { ⊤ };

    ghost table = { type_flags };

    ghost set_of = { λ bits. bits.0 };

    fn flags<'a>() -> &'a [Flag<DiskType>] {
        DiskType::FLAGS
    }

    fn bits(&self) -> u16 {
        self.0
    }

    fn from_bits_retain(bits: u16) -> DiskType {
        DiskType(bits)
    }
}

/// The state of a disk as 16 bits (SNIA DDF 2.0). All of them are kept, named or not.
#[derive(Clone, Copy, PartialEq, Eq)]
pub struct DiskState(pub u16);

bitflag_items! {
    impl DiskState: u16 {
        /// The disk is used.
        const ONLINE = 0x0001;
        /// The disk failed.
        const FAILED = 0x0002;
        /// The disk is being rebuilt.
        const REBUILDING = 0x0004;
        /// The disk is in transition.
        const TRANSITION = 0x0008;
        /// The disk predicts that it will fail.
        const PREDICTED_FAILURE = 0x0010;
        /// A read error of the disk was not made good.
        const UNRECOVERED_READ_ERROR = 0x0020;
        /// The disk is missing.
        const MISSING = 0x0040;
    }
}

impl Flags for DiskState {
    type Bits = u16;

    ghost exact = { ⊤ };

    ghost table = { state_flags };

    ghost set_of = { λ bits. bits.0 };

    fn flags<'a>() -> &'a [Flag<DiskState>] {
        DiskState::FLAGS
    }

    fn bits(&self) -> u16 {
        self.0
    }

    fn from_bits_retain(bits: u16) -> DiskState {
        DiskState(bits)
    }
}
