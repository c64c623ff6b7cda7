//! The physical disk records as a table of disks. docs/FORMAT.md#physical-disk-records
ghost use Rattle.std.specs.Prelude.{◌≡◌, ◌+◌, ◌*◌, ◌≤◌, ℕ, List, length, replicate, IfOk, Ok};
ghost use Rattle.std.specs.List.{AllByRecursion};
ghost use Rattle.ddf_tables.specs.declared.disks.DiskRow.{DiskRow};
ghost use Rattle.ddf_tables.specs.declared.disks.DiskRow.TheVariants.{Unused};
ghost use Rattle.ddf_tables.specs.Faults.{UpToMemory};
ghost use Rattle.ddf_tables.specs.Tables.{TableValue, blank_table, replaced_table};
ghost use Rattle.ddf_tables.specs.Disks.{
  HaveReferences,
  IsDiskRow,
  IsDiskTable,
  IsDiskTableOf,
  disk_table_bytes,
  decoded_disks,
  is_used_disk,
};

use crate::disks::DiskRow;
use crate::fault::TableFault;
use crate::layout::{ROW_BYTES, ROWS_AT};
use crate::table::Table;
use ddf_bytes::NoMemory;
use std::alloc::Global;
use std::marker::Model;

/// The physical disk records (SNIA DDF 2.0): the rows in order, the populated count as it is stored, and the section's other
/// bytes. Contracts see these three, and zeros in the places of the seal, the counts and the rows.
#[derive(Drop)]
pub struct DiskTable {
    table: Table<DiskRow>,
}

impl Model for DiskTable {
    ghost use Rattle.ddf_tables.specs.Tables.{TableValue};
    ghost use Rattle.ddf_tables.specs.declared.disks.DiskRow.{DiskRow};

    ghost Value = { TableValue DiskRow };

    ghost view = { λ disks. disks.table };
}

impl DiskTable {
    /// A table of `max` unused rows, in a section of so many sectors, which hold them. Its populated count is 0, and all
    /// other bytes are FF (profile).
    pub fn blank(alloc: Global, max: u16, sectors: usize) -> Result<DiskTable, NoMemory>
        requires few { sectors ≤ 8192 }
        requires room { ROWS_AT + ROW_BYTES * max ≤ 512 * sectors }
        ensures exact { IfOk result (λ table.
            table ≡ blank_table (Unused (replicate 64 255)) max (512 * sectors)) }
        ensures writable { IfOk result (IsDiskTable max) }
        ensures size { IfOk result (λ table. length table.rest ≡ 512 * sectors) }
    {
        new_table(alloc, max, sectors)
    }

    /// The table with other rows, as many as it has, and the populated count of the used ones. All other bytes stay.
    pub fn replaced(self, rows: Vec<DiskRow>) -> DiskTable
        requires { length rows.items ≡ length self.rows }
        ensures exact { result ≡ replaced_table is_used_disk self rows.items }
        // A table that can be written still can, where each row can and each used one has a reference of its own.
        ensures writable { (max : ℕ) → IsDiskTable max self → AllByRecursion IsDiskRow rows.items
            → HaveReferences rows.items → IsDiskTable max result }
    {
        DiskTable {
            table: self.table.replaced(rows),
        }
    }

    /// The rows in order.
    pub fn rows(&self) -> &[DiskRow]
        ensures { result.now ≡ self.now.rows }
    {
        self.table.rows()
    }

    /// An equal table.
    pub fn duplicate(&self, alloc: Global) -> Result<DiskTable, NoMemory>
        ensures { IfOk result (λ table. table ≡ self.now) }
    {
        Ok(DiskTable {
            table: self.table.duplicate(alloc)?,
        })
    }
}

/// The physical disk records of `max` rows that stand in a section, or else the first fault. The section has room for the rows
/// behind a head of 64 bytes.
pub fn decode_disks(alloc: Global, section: &[u8], max: u16) -> Result<DiskTable, TableFault>
    requires { ROWS_AT + ROW_BYTES * max ≤ length section.now }
    ensures exact { UpToMemory result (decoded_disks max section.now) }
    // The table is the value of the section, and the only one.
    ensures value { IfOk result (λ table. IsDiskTableOf max table section.now) }
    ensures only { (table : TableValue DiskRow) → IsDiskTableOf max table section.now
        → UpToMemory result (Ok table) }
    ensures writable { IfOk result (IsDiskTable max) }
    ensures size { IfOk result (λ table. length table.rest ≡ length section.now) }
{
    read(alloc, section, max)
}

/// Writes the physical disk records into a section of the same length, and seals it.
pub fn encode_disks(table: &DiskTable, into: &mut [u8])
    requires { length into.old ≡ length table.now.rest }
    ensures exact { into.new ≡ disk_table_bytes table.now }
    // What was decoded is given back.
    ensures back { (max : ℕ) (section : List ℕ) → IsDiskTableOf max table.now section
        → into.new ≡ section }
    // Each table that can be written is the value of the section.
    ensures made { (max : ℕ) → IsDiskTable max table.now → IsDiskTableOf max table.now into.new }
{
    table.table.encode(into);
}

fn read(alloc: Global, section: &[u8], max: u16) -> Result<DiskTable, TableFault>
    requires { ROWS_AT + ROW_BYTES * max ≤ length section.now }
    ensures { UpToMemory result (decoded_disks max section.now) }
{
    Ok(DiskTable {
        table: Table::decode(alloc, section, max)?,
    })
}

fn new_table(alloc: Global, max: u16, sectors: usize) -> Result<DiskTable, NoMemory>
    requires few { sectors ≤ 8192 }
    requires room { ROWS_AT + ROW_BYTES * max ≤ 512 * sectors }
    ensures { IfOk result (λ table.
        table ≡ blank_table (Unused (replicate 64 255)) max (512 * sectors)) }
{
    Ok(DiskTable {
        table: Table::blank(alloc, max, sectors)?,
    })
}
