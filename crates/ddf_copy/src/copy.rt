//! One whole copy of a disk's records, as a value. docs/FORMAT.md#whole-copies
ghost use Rattle.std.specs.Prelude.{◌≡◌, IfOk};

use ddf_bytes::{NoMemory, Seq};
use ddf_config_records::RecordSlot;
use ddf_header::Header;
use ddf_tables::{ArrayTable, BadBlockLog, Controller, DiskData, DiskTable};
use std::alloc::Global;

/// All records of one copy (SNIA DDF 2.0). Diagnostic space and vendor logs are left out: they stay on the disk, unread.
#[derive(Drop)]
pub struct DiskCopy {
    /// The header of the copy.
    pub header: Header,
    /// The controller data.
    pub controller: Controller,
    /// The physical disk records.
    pub disks: DiskTable,
    /// The virtual disk records.
    pub arrays: ArrayTable,
    /// The slots of the configuration records, as many as the section holds whole.
    pub slots: Seq<RecordSlot>,
    /// The physical disk data.
    pub disk_data: DiskData,
    /// The bad block log, where the disk has one.
    pub bad: Option<BadBlockLog>,
}

impl DiskCopy {
    /// An equal copy.
    pub fn duplicate(&self, alloc: Global) -> Result<DiskCopy, NoMemory>
        ensures { IfOk result (λ copy. copy ≡ self.now) }
    {
        let disks = self.disks.duplicate(alloc)?;
        let arrays = self.arrays.duplicate(alloc)?;
        let slots = second_slots(alloc, self.slots.items())?;
        let bad = second_log(alloc, &self.bad)?;
        Ok(DiskCopy {
            header: self.header,
            controller: self.controller,
            disks,
            arrays,
            slots: Seq::new(slots),
            disk_data: self.disk_data,
            bad,
        })
    }
}

fn second_slots(alloc: Global, slots: &[RecordSlot]) -> Result<Vec<RecordSlot>, NoMemory>
    ensures { IfOk result (λ second. second.items ≡ slots.now) }
{
    let mut second = Vec::with_capacity(alloc, slots.len())?;
    for slot in slots {
        let equal = slot.duplicate(alloc)?;
        second.push(equal)?;
    }
    Ok(second)
}

fn second_log(alloc: Global, log: &Option<BadBlockLog>) -> Result<Option<BadBlockLog>, NoMemory>
    ensures { IfOk result (λ second. second ≡ log.now) }
{
    match log {
        Some(log) => {
            let second = log.duplicate(alloc)?;
            Ok(Some(second))
        }
        None => Ok(None),
    }
}
