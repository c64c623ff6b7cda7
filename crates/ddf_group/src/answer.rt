//! What a look at all slots gives: one group, or why there is none. Where records contradict each other, the slots and the first difference
//! are told, for a person has to choose.
ghost use Rattle.std.specs.Prelude.{◌≡◌};

use ddf_bytes::{Guid, NoMemory, Seq};
use ddf_config::Config;
use ddf_view::Difference;

/// In what two records of one group contradict each other.
#[derive(Clone, Copy, PartialEq, Eq)]
pub enum Differ {
    /// The two copies of one disk.
    Copies,
    /// Two slots are the disk with this reference.
    Twin(u32),
    /// The disk with this reference: in its GUID, type, state, size or place, or one record lacks it.
    Disk(u32),
    /// The array with this GUID: in its number, state, init, name or place, or one record lacks it.
    Array(Guid),
    /// An element of an array, by the array's GUID and its place among the elements.
    Element(Guid, u8),
}

/// Why slots give no group.
#[derive(Clone, Copy, PartialEq, Eq)]
pub enum Assembly {
    /// No slot shows a group, or the named one.
    NoGroup,
    /// No group is named, and these slots show two groups of which none is inside of another.
    SeveralGroups(usize, usize),
    /// Two newest records of the group contradict each other.
    Conflict {
        /// The slot of the one record.
        i: usize,
        /// The slot of the other one.
        j: usize,
        /// The sequence number of the newest records.
        sequence: u32,
        /// In what they do.
        differ: Differ,
    },
    /// An older record lists the disk of a newest one as missing.
    Split {
        /// The slot of the newest record.
        i: usize,
        /// The slot of the older one.
        j: usize,
    },
    /// Memory ran out.
    Memory,
}

impl From<NoMemory> for Assembly {
    ghost use Rattle.ddf_group.specs.declared.answer.Assembly.TheVariants.{Memory};

    ghost from_gives = { λ _ fault. fault ≡ Memory };

    fn from(_error: NoMemory) -> Assembly {
        Assembly::Memory
    }
}

/// The group that slots give together.
#[derive(Drop)]
pub struct Assembled {
    /// Its configuration.
    pub config: Config,
    /// The slots of its current members, in rising order.
    pub seats: Seq<usize>,
    /// The references of its current members that no slot is, in table order.
    pub absent: Seq<u32>,
    /// The slots among its seats that don't hold the configuration in two level copies.
    pub lagging: Seq<usize>,
}

impl From<Difference> for Differ {
    ghost use Rattle.ddf_group.specs.Conflicts.{differ_of};

    ghost from_gives = { λ difference differ. differ ≡ differ_of difference };

    fn from(difference: Difference) -> Differ {
        match difference {
            Difference::Disk(reference) => Differ::Disk(reference),
            Difference::Array(guid) => Differ::Array(guid),
            Difference::Element(array, index) => Differ::Element(array, index),
        }
    }
}
