//! The changes of a configuration, a value each. What each makes of one stands in a file of its own beside this, and why it is refused in
//! `causes.rt`. docs/GROUPS.md#changes
ghost use Rattle.std.specs.Prelude.{◌≡◌, IfOk};

use ddf_bytes::{Guid, NoMemory, Seq};
use ddf_config::{Array, SpareUse};
use std::alloc::Global;

/// A change of a configuration.
#[derive(Drop)]
pub enum Change {
    /// The disks with these references are gone.
    Lose(Seq<u32>),
    /// A new array under this GUID. Its extents get new starts.
    Create(Guid, Array),
    /// The array is no more.
    Delete(Guid),
    /// The member with this reference gets this use as a spare.
    Spare(u32, SpareUse),
    /// The member with this reference counts as failed.
    Fail(u32),
    /// The array is marked as not consistent.
    Mark(Guid),
    /// The mark of the array is cleared. The low two bits tell how far it is initialized.
    Unmark(Guid, u8),
    /// No row of a position of the array counts as rebuilt any more. No command makes this change yet.
    Rewind(Guid),
    /// A position of the array gets another disk, from this start on, and is to be rebuilt.
    Begin {
        /// The GUID of the array.
        array: Guid,
        /// The place of the element in the array.
        element: u8,
        /// The place of the position in the element.
        position: u16,
        /// The reference of the disk, a spare.
        reference: u32,
        /// The LBA of the extent's first sector on it.
        start: u64,
    },
    /// The rebuild of a position has set so many rows.
    Progress {
        /// The GUID of the array.
        array: Guid,
        /// The place of the element in the array.
        element: u8,
        /// The place of the position in the element.
        position: u16,
        /// The rows from row 0 on.
        row: u64,
    },
    /// The rebuild of a position is done.
    Finish {
        /// The GUID of the array.
        array: Guid,
        /// The place of the element in the array.
        element: u8,
        /// The place of the position in the element.
        position: u16,
    },
    /// A position of the array moves to another disk, which holds from this start on what the position holds. The disk that gives it
    /// back is a revertible spare again, where it holds nothing else.
    Return {
        /// The GUID of the array.
        array: Guid,
        /// The place of the element in the array.
        element: u8,
        /// The place of the position in the element.
        position: u16,
        /// The reference of the disk that takes the position.
        reference: u32,
        /// The LBA of the extent's first sector on it.
        start: u64,
    },
}

impl Change {
    /// A second value that equals this one.
    ///
    /// # Errors
    /// Memory ran out.
    pub fn duplicate(&self, alloc: Global) -> Result<Change, NoMemory>
        ensures { IfOk result (λ second. second ≡ self.now) }
    {
        match self {
            Change::Lose(references) => {
                let references = Vec::from_slice(alloc, references.items())?;
                Ok(Change::Lose(Seq::new(references)))
            }
            Change::Create(guid, array) => {
                let array = array.duplicate(alloc)?;
                Ok(Change::Create(*guid, array))
            }
            Change::Delete(guid) => Ok(Change::Delete(*guid)),
            Change::Spare(reference, use_as) => {
                let use_as = use_as.duplicate(alloc)?;
                Ok(Change::Spare(*reference, use_as))
            }
            Change::Fail(reference) => Ok(Change::Fail(*reference)),
            Change::Mark(guid) => Ok(Change::Mark(*guid)),
            Change::Unmark(guid, init) => Ok(Change::Unmark(*guid, *init)),
            Change::Rewind(guid) => Ok(Change::Rewind(*guid)),
            Change::Begin {
                array,
                element,
                position,
                reference,
                start,
            } => Ok(Change::Begin {
                array: *array,
                element: *element,
                position: *position,
                reference: *reference,
                start: *start,
            }),
            Change::Progress {
                array,
                element,
                position,
                row,
            } => Ok(Change::Progress {
                array: *array,
                element: *element,
                position: *position,
                row: *row,
            }),
            Change::Finish {
                array,
                element,
                position,
            } => Ok(Change::Finish {
                array: *array,
                element: *element,
                position: *position,
            }),
            Change::Return {
                array,
                element,
                position,
                reference,
                start,
            } => Ok(Change::Return {
                array: *array,
                element: *element,
                position: *position,
                reference: *reference,
                start: *start,
            }),
        }
    }
}
