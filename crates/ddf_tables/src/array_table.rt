//! The virtual disk records as a table of arrays. docs/FORMAT.md#virtual-disk-records
ghost use Rattle.std.specs.Prelude.{◌≡◌, ◌+◌, ◌*◌, ◌≤◌, ℕ, List, length, replicate, IfOk, Ok};
ghost use Rattle.std.specs.List.{AllByRecursion};
ghost use Rattle.ddf_tables.specs.declared.arrays.ArrayRow.{ArrayRow};
ghost use Rattle.ddf_tables.specs.declared.arrays.ArrayRow.TheVariants.{Unused};
ghost use Rattle.ddf_tables.specs.Faults.{UpToMemory};
ghost use Rattle.ddf_tables.specs.Tables.{TableValue, blank_table, replaced_table};
ghost use Rattle.ddf_tables.specs.Arrays.{
  HaveGuids,
  IsArrayRow,
  IsArrayTable,
  IsArrayTableOf,
  array_table_bytes,
  decoded_arrays,
  is_used_array,
};

use crate::arrays::ArrayRow;
use crate::fault::TableFault;
use crate::layout::{ROW_BYTES, ROWS_AT};
use crate::table::Table;
use ddf_bytes::NoMemory;
use std::alloc::Global;
use std::marker::Model;

/// The virtual disk records (SNIA DDF 2.0): the rows in order, the populated count as it is stored, and the section's other
/// bytes. Contracts see these three, and zeros in the places of the seal, the counts and the rows.
#[derive(Drop)]
pub struct ArrayTable {
    table: Table<ArrayRow>,
}

impl Model for ArrayTable {
    ghost use Rattle.ddf_tables.specs.Tables.{TableValue};
    ghost use Rattle.ddf_tables.specs.declared.arrays.ArrayRow.{ArrayRow};

    ghost Value = { TableValue ArrayRow };

    ghost view = { λ arrays. arrays.table };
}

impl ArrayTable {
    /// A table of `max` unused rows, in a section of so many sectors, which hold them. Its populated count is 0, and all
    /// other bytes are FF (profile).
    pub fn blank(alloc: Global, max: u16, sectors: usize) -> Result<ArrayTable, NoMemory>
        requires few { sectors ≤ 8192 }
        requires room { ROWS_AT + ROW_BYTES * max ≤ 512 * sectors }
        ensures exact { IfOk result (λ table.
            table ≡ blank_table (Unused (replicate 64 255)) max (512 * sectors)) }
        ensures writable { IfOk result (IsArrayTable max) }
        ensures size { IfOk result (λ table. length table.rest ≡ 512 * sectors) }
    {
        new_table(alloc, max, sectors)
    }

    /// The table with other rows, as many as it has, and the populated count of the used ones. All other bytes stay.
    pub fn replaced(self, rows: Vec<ArrayRow>) -> ArrayTable
        requires { length rows.items ≡ length self.rows }
        ensures exact { result ≡ replaced_table is_used_array self rows.items }
        // A table that can be written still can, where each row can and each used one has a GUID of its own.
        ensures writable { (max : ℕ) → IsArrayTable max self → AllByRecursion IsArrayRow rows.items
            → HaveGuids rows.items → IsArrayTable max result }
    {
        ArrayTable {
            table: self.table.replaced(rows),
        }
    }

    /// The rows in order.
    pub fn rows(&self) -> &[ArrayRow]
        ensures { result.now ≡ self.now.rows }
    {
        self.table.rows()
    }

    /// An equal table.
    pub fn duplicate(&self, alloc: Global) -> Result<ArrayTable, NoMemory>
        ensures { IfOk result (λ table. table ≡ self.now) }
    {
        Ok(ArrayTable {
            table: self.table.duplicate(alloc)?,
        })
    }
}

/// The virtual disk records of `max` rows that stand in a section, or else the first fault. The section has room for the rows
/// behind a head of 64 bytes.
pub fn decode_arrays(alloc: Global, section: &[u8], max: u16) -> Result<ArrayTable, TableFault>
    requires { ROWS_AT + ROW_BYTES * max ≤ length section.now }
    ensures exact { UpToMemory result (decoded_arrays max section.now) }
    // The table is the value of the section, and the only one.
    ensures value { IfOk result (λ table. IsArrayTableOf max table section.now) }
    ensures only { (table : TableValue ArrayRow) → IsArrayTableOf max table section.now
        → UpToMemory result (Ok table) }
    ensures writable { IfOk result (IsArrayTable max) }
    ensures size { IfOk result (λ table. length table.rest ≡ length section.now) }
{
    read(alloc, section, max)
}

/// Writes the virtual disk records into a section of the same length, and seals it.
pub fn encode_arrays(table: &ArrayTable, into: &mut [u8])
    requires { length into.old ≡ length table.now.rest }
    ensures exact { into.new ≡ array_table_bytes table.now }
    // What was decoded is given back.
    ensures back { (max : ℕ) (section : List ℕ) → IsArrayTableOf max table.now section
        → into.new ≡ section }
    // Each table that can be written is the value of the section.
    ensures made { (max : ℕ) → IsArrayTable max table.now → IsArrayTableOf max table.now into.new }
{
    table.table.encode(into);
}

fn read(alloc: Global, section: &[u8], max: u16) -> Result<ArrayTable, TableFault>
    requires { ROWS_AT + ROW_BYTES * max ≤ length section.now }
    ensures { UpToMemory result (decoded_arrays max section.now) }
{
    Ok(ArrayTable {
        table: Table::decode(alloc, section, max)?,
    })
}

fn new_table(alloc: Global, max: u16, sectors: usize) -> Result<ArrayTable, NoMemory>
    requires few { sectors ≤ 8192 }
    requires room { ROWS_AT + ROW_BYTES * max ≤ 512 * sectors }
    ensures { IfOk result (λ table.
        table ≡ blank_table (Unused (replicate 64 255)) max (512 * sectors)) }
{
    Ok(ArrayTable {
        table: Table::blank(alloc, max, sectors)?,
    })
}
