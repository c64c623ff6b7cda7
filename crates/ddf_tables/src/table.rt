//! A table of rows, read and written: what both tables of the format share. docs/FORMAT.md#tables-that-are-written
ghost use Rattle.std.specs.Prelude.{◌≡◌, ◌+◌, ◌*◌, ◌^◌, ◌<◌, ◌≤◌, length, IfOk, replicate, count_by};
ghost use Rattle.std.specs.List.{flat_map};
ghost use Rattle.ddf_seal.specs.Unread.{AreBytes, placed};
ghost use Rattle.ddf_tables.specs.Faults.{UpToMemory};
ghost use Rattle.ddf_tables.specs.Tables.{
  TableValue,
  blank_table,
  decoded_table,
  replaced_table,
  rows_at,
  table_bytes,
  unread_of_table,
};

use crate::fault::TableFault;
use crate::layout::{MAXIMUM_AT, POPULATED_AT, ROW_BYTES, ROWS_AT};
use crate::row::Row;
use ddf_bytes::{NoMemory, be16, put16};
use ddf_seal::{SEAL, Span, check, clear, place, seal};
use std::alloc::Global;
use std::marker::Model;

/// The rows of a table in order, its populated count as it is stored, and the section with zeros in their places.
#[derive(Drop)]
pub(crate) struct Table<R> {
    populated: u16,
    rows: Vec<R>,
    rest: Vec<u8>,
}

impl<R> Model for Table<R> {
    ghost use Rattle.std.specs.Prelude.{◌+◌, ◌*◌, ◌^◌, ◌<◌, ◌≤◌, length};
    ghost use Rattle.ddf_tables.specs.declared.layout.TheConstants.{ROWS_AT, ROW_BYTES};
    ghost use Rattle.ddf_tables.specs.Tables.{TableValue};

    ghost Value = { TableValue R };

    ghost view = { λ table. record { populated = table.populated; rows = table.rows.items; rest = table.rest.items } };

    ghost invariant = { λ table. (ROWS_AT + ROW_BYTES * length table.rows.items ≤ length table.rest.items)
        × (length table.rows.items < 2 ^ 16) };
}

impl<R: Row> Table<R> {
    pub(crate) fn decode(alloc: Global, section: &[u8], max: u16) -> Result<Table<R>, TableFault>
        requires { ROWS_AT + ROW_BYTES * max ≤ length section.now }
        ensures { UpToMemory result (decoded_table R.SIGNATURE R.row_at R.twice_after max section.now) }
    {
        if let Err(fault) = check(section, R::SIGNATURE) {
            return Err(TableFault::Seal(fault));
        }
        let stated = be16(section, MAXIMUM_AT);
        if stated != max {
            return Err(TableFault::Count { stated, found: max });
        }
        let Ok(rows) = read_rows(alloc, section, max) else {
            return Err(TableFault::Memory);
        };
        let Ok(twice) = R::first_twice(alloc, rows.as_slice()) else {
            return Err(TableFault::Memory);
        };
        if let Some(fault) = twice {
            return Err(fault);
        }
        let Ok(rest) = unread(alloc, section, max) else {
            return Err(TableFault::Memory);
        };
        Ok(Table {
            populated: be16(section, POPULATED_AT),
            rows,
            rest,
        })
    }

    /// Writes the table into a section.
    pub(crate) fn encode(&self, into: &mut [u8])
        requires { length into.old ≡ length self.now.rest }
        ensures exact { into.new ≡ table_bytes R.SIGNATURE R.row_bytes self.now }
        ensures bytes { AreBytes into.new }
    {
        let rows = self.rows.as_slice();
        into.copy_from_slice(self.rest.as_slice());
        put16(into, POPULATED_AT, self.populated);
        put16(into, MAXIMUM_AT, rows.len() as u16);
        put_rows(into, rows);
        seal(into, R::SIGNATURE);
    }

    /// A table of unused rows, all of whose bytes are FF.
    pub(crate) fn blank(alloc: Global, max: u16, sectors: usize) -> Result<Table<R>, NoMemory>
        requires few { sectors ≤ 8192 }
        requires room { ROWS_AT + ROW_BYTES * max ≤ 512 * sectors }
        ensures { IfOk result (λ table. table ≡ blank_table (R.row_at (replicate 64 255)) max (512 * sectors)) }
    {
        let mut rest = vec![in alloc; 0xFF; 512 * sectors]?;
        let rows = read_rows(alloc, rest.as_slice(), max)?;
        clear_table(&mut rest, max);
        Ok(Table {
            populated: 0,
            rows,
            rest,
        })
    }

    /// The table with other rows.
    pub(crate) fn replaced(self, rows: Vec<R>) -> Table<R>
        requires { length rows.items ≡ length self.rows }
        ensures { result ≡ replaced_table R.is_used_row self rows.items }
    {
        Table {
            populated: count_used(rows.as_slice()) as u16,
            rows,
            rest: self.rest,
        }
    }

    /// The same table once more.
    pub(crate) fn duplicate(&self, alloc: Global) -> Result<Table<R>, NoMemory>
        ensures { IfOk result (λ table. table ≡ self.now) }
    {
        let rows = Vec::from_slice(alloc, self.rows.as_slice())?;
        let rest = Vec::from_slice(alloc, self.rest.as_slice())?;
        Ok(Table {
            populated: self.populated,
            rows,
            rest,
        })
    }

    /// The rows in order.
    pub(crate) fn rows(&self) -> &[R]
        ensures { result.now ≡ self.now.rows }
    {
        self.rows.as_slice()
    }
}

/// The rows that stand in a section.
fn read_rows<R: Row>(alloc: Global, section: &[u8], max: u16) -> Result<Vec<R>, NoMemory>
    requires { ROWS_AT + ROW_BYTES * max ≤ length section.now }
    ensures rows { IfOk result (λ rows. rows.items ≡ rows_at R.row_at section.now ROWS_AT max) }
    ensures count { IfOk result (λ rows. length rows.items ≡ max) }
{
    let max = usize::from(max);
    let mut rows = Vec::with_capacity(alloc, max)?;
    for index in 0..max {
        let at = ROWS_AT + ROW_BYTES * index;
        rows.push(R::read(&section[at..at + ROW_BYTES]))?;
    }
    Ok(rows)
}

fn count_used<R: Row>(rows: &[R]) -> usize
    ensures used { result ≡ count_by R.is_used_row rows.now }
    ensures bound { result ≤ length rows.now }
{
    rows.iter().filter(|row| row.is_used()).count()
}

/// Writes the rows into a section, one after another.
fn put_rows<R: Row>(section: &mut [u8], rows: &[R])
    requires { ROWS_AT + ROW_BYTES * length rows.now ≤ length section.old }
    ensures { section.new ≡ placed section.old ROWS_AT (flat_map R.row_bytes rows.now) }
{
    for (index, row) in rows.iter().enumerate() {
        place(section, ROWS_AT + ROW_BYTES * index, &row.bytes());
    }
}

/// The section with zeros in the places of the seal, the counts and the rows.
fn unread(alloc: Global, section: &[u8], max: u16) -> Result<Vec<u8>, NoMemory>
    requires { ROWS_AT + ROW_BYTES * max ≤ length section.now }
    ensures rest { IfOk result (λ rest. rest.items ≡ unread_of_table max section.now) }
    ensures size { IfOk result (λ rest. length rest.items ≡ length section.now) }
{
    let mut rest = Vec::from_slice(alloc, section)?;
    clear_table(&mut rest, max);
    Ok(rest)
}

fn clear_table(section: &mut Vec<u8>, max: u16)
    requires { ROWS_AT + ROW_BYTES * max ≤ length section.old.items }
    ensures rest { section.new.items ≡ unread_of_table max section.old.items }
    ensures size { length section.new.items ≡ length section.old.items }
{
    let rows = Span {
        at: ROWS_AT,
        length: ROW_BYTES * usize::from(max),
    };
    clear(
        section.as_mut_slice(),
        &[SEAL, span16(POPULATED_AT), span16(MAXIMUM_AT), rows],
    );
}

fn span16(at: usize) -> Span
    ensures { result ≡ record { at = at; length = 2 } }
{
    Span { at, length: 2 }
}
