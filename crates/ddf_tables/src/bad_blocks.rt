//! The bad block log of a disk, read and written. docs/FORMAT.md#bad-block-log
ghost use Rattle.std.specs.Prelude.{◌≡◌, ◌+◌, ◌*◌, ◌≤◌, ℕ, List, [], ◌∷◌, length, IfOk, Ok};
ghost use Rattle.ddf_seal.specs.Unread.{AreBytes, cleared, written};
ghost use Rattle.ddf_tables.specs.Faults.{UpToMemory};
ghost use Rattle.ddf_tables.specs.Places.{each_at};
ghost use Rattle.ddf_tables.specs.BadBlocks.{
  IsLog,
  IsLogOf,
  LogValue,
  blank_log,
  decoded_log,
  entry_at,
  entry_fields,
  entry_places,
  entry_spans,
  log_bytes,
  unread_of_log,
};

use crate::fault::TableFault;
use crate::layout::{
    BAD_COUNT_AT, BAD_SPARE_AT, LOG_COUNT_AT, LOG_ENTRIES_AT, LOG_ENTRY_BYTES, LOG_FIRST_SPARE_AT,
    LOG_SPARE_COUNT_AT,
};
use ddf_bytes::{NoMemory, be16, be32, be64, put16, put32, put64};
use ddf_seal::{SEAL, Span, check, clear, seal};
use std::alloc::Global;
use std::marker::Model;

/// An entry of the bad block log: sectors that are bad (SNIA DDF 2.0).
#[derive(Clone, Copy, PartialEq, Eq)]
pub struct BadBlock {
    /// The LBA of the first bad sector.
    pub start: u64,
    /// Where its spare lies, counted from the first spare block. FFFFFFFF marks bad sectors without a spare (profile).
    pub spare: u32,
    /// How many sectors are bad.
    pub count: u16,
}

/// The bad block log (SNIA DDF 2.0): its entries in order, the count and the first LBA of its spare blocks, and the section's
/// other bytes.
#[derive(Drop)]
pub struct BadBlockLog {
    entries: Vec<BadBlock>,
    spare_count: u32,
    first_spare: u64,
    rest: Vec<u8>,
}

impl Model for BadBlockLog {
    ghost use Rattle.std.specs.Prelude.{◌+◌, ◌*◌, ◌^◌, ◌<◌, ◌≤◌, length};
    ghost use Rattle.ddf_tables.specs.declared.layout.TheConstants.{LOG_ENTRIES_AT, LOG_ENTRY_BYTES};
    ghost use Rattle.ddf_tables.specs.BadBlocks.{LogValue};

    ghost Value = { LogValue };

    ghost view = { λ log. record {
      entries = log.entries.items;
      spare_count = log.spare_count;
      first_spare = log.first_spare;
      rest = log.rest.items;
    } };

    ghost invariant = { λ log.
        (LOG_ENTRIES_AT + LOG_ENTRY_BYTES * length log.entries.items ≤ length log.rest.items) × (length log.entries.items < 2 ^ 16) };
}

const SIGNATURE: u32 = 0xABAD_B10C;

impl BadBlockLog {
    /// A log without entries and without spare blocks, in a section of so many sectors. All other bytes are FF (profile).
    pub fn blank(alloc: Global, sectors: usize) -> Result<BadBlockLog, NoMemory>
        requires some { 1 ≤ sectors }
        requires few { sectors ≤ 8192 }
        ensures exact { IfOk result (λ log. log ≡ blank_log (512 * sectors)) }
        ensures writable { IfOk result IsLog }
        ensures size { IfOk result (λ log. length log.rest ≡ 512 * sectors) }
    {
        new_log(alloc, sectors)
    }

    /// The entries in order.
    pub fn entries(&self) -> &[BadBlock]
        ensures { result.now ≡ self.now.entries }
    {
        self.entries.as_slice()
    }

    /// How many entries there are.
    pub fn count(&self) -> u16
        ensures { result ≡ length self.now.entries }
    {
        self.entries.len() as u16
    }

    /// How many spare blocks the disk has.
    pub fn spare_count(&self) -> u32
        ensures { result ≡ self.now.spare_count }
    {
        self.spare_count
    }

    /// The LBA of the first spare block.
    pub fn first_spare(&self) -> u64
        ensures { result ≡ self.now.first_spare }
    {
        self.first_spare
    }

    /// An equal log.
    pub fn duplicate(&self, alloc: Global) -> Result<BadBlockLog, NoMemory>
        ensures { IfOk result (λ log. log ≡ self.now) }
    {
        let entries = Vec::from_slice(alloc, self.entries.as_slice())?;
        let rest = Vec::from_slice(alloc, self.rest.as_slice())?;
        Ok(BadBlockLog {
            entries,
            spare_count: self.spare_count,
            first_spare: self.first_spare,
            rest,
        })
    }
}

/// The bad block log that stands in a section, or else the first fault. The section has at least the 32 bytes in front of
/// the entries.
pub fn decode_bad_blocks(alloc: Global, section: &[u8]) -> Result<BadBlockLog, TableFault>
    requires { LOG_ENTRIES_AT ≤ length section.now }
    ensures exact { UpToMemory result (decoded_log section.now) }
    // The log is the value of the section, and the only one.
    ensures value { IfOk result (λ log. IsLogOf log section.now) }
    ensures only { (log : LogValue) → IsLogOf log section.now → UpToMemory result (Ok log) }
    ensures writable { IfOk result IsLog }
    ensures size { IfOk result (λ log. length log.rest ≡ length section.now) }
{
    read(alloc, section)
}

/// Writes the bad block log into a section of the same length, and seals it.
pub fn encode_bad_blocks(log: &BadBlockLog, into: &mut [u8])
    requires { length into.old ≡ length log.now.rest }
    ensures exact { into.new ≡ log_bytes log.now }
    // What was decoded is given back.
    ensures back { (section : List ℕ) → IsLogOf log.now section → into.new ≡ section }
    // Each log that can be written is the value of the section.
    ensures made { IsLog log.now → IsLogOf log.now into.new }
{
    write(log, into);
}

fn read(alloc: Global, section: &[u8]) -> Result<BadBlockLog, TableFault>
    requires { LOG_ENTRIES_AT ≤ length section.now }
    ensures { UpToMemory result (decoded_log section.now) }
{
    if let Err(fault) = check(section, SIGNATURE) {
        return Err(TableFault::Seal(fault));
    }
    let stated = be16(section, LOG_COUNT_AT);
    let fit = (section.len() - LOG_ENTRIES_AT) / LOG_ENTRY_BYTES;
    if fit < usize::from(stated) {
        return Err(TableFault::Count {
            stated,
            found: fit as u16,
        });
    }
    let Ok(entries) = read_entries(alloc, section, stated) else {
        return Err(TableFault::Memory);
    };
    let Ok(rest) = unread(alloc, section, stated) else {
        return Err(TableFault::Memory);
    };
    Ok(BadBlockLog {
        entries,
        spare_count: be32(section, LOG_SPARE_COUNT_AT),
        first_spare: be64(section, LOG_FIRST_SPARE_AT),
        rest,
    })
}

fn new_log(alloc: Global, sectors: usize) -> Result<BadBlockLog, NoMemory>
    requires some { 1 ≤ sectors }
    requires few { sectors ≤ 8192 }
    ensures { IfOk result (λ log. log ≡ blank_log (512 * sectors)) }
{
    let mut rest = vec![in alloc; 0xFF; 512 * sectors]?;
    clear_log(&mut rest, 0);
    Ok(BadBlockLog {
        entries: Vec::new(alloc),
        spare_count: 0,
        first_spare: 0,
        rest,
    })
}

fn read_entries(alloc: Global, section: &[u8], count: u16) -> Result<Vec<BadBlock>, NoMemory>
    requires { LOG_ENTRIES_AT + LOG_ENTRY_BYTES * count ≤ length section.now }
    ensures entries { IfOk result (λ entries. entries.items ≡ each_at (entry_at section.now) LOG_ENTRY_BYTES LOG_ENTRIES_AT count) }
    ensures count { IfOk result (λ entries. length entries.items ≡ count) }
{
    let count = usize::from(count);
    let mut entries = Vec::with_capacity(alloc, count)?;
    for index in 0..count {
        entries.push(entry_at(section, LOG_ENTRIES_AT + LOG_ENTRY_BYTES * index))?;
    }
    Ok(entries)
}

fn entry_at(section: &[u8], at: usize) -> BadBlock
    requires { at + LOG_ENTRY_BYTES ≤ length section.now }
    ensures { result ≡ entry_at section.now at }
{
    BadBlock {
        start: be64(section, at),
        spare: be32(section, at + BAD_SPARE_AT),
        count: be16(section, at + BAD_COUNT_AT),
    }
}

/// The section with zeros in the places of the seal and of all fields.
fn unread(alloc: Global, section: &[u8], count: u16) -> Result<Vec<u8>, NoMemory>
    requires { LOG_ENTRIES_AT + LOG_ENTRY_BYTES * count ≤ length section.now }
    ensures rest { IfOk result (λ rest. rest.items ≡ unread_of_log count section.now) }
    ensures size { IfOk result (λ rest. length rest.items ≡ length section.now) }
{
    let mut rest = Vec::from_slice(alloc, section)?;
    clear_log(&mut rest, count);
    Ok(rest)
}

fn clear_log(section: &mut Vec<u8>, count: u16)
    requires { LOG_ENTRIES_AT + LOG_ENTRY_BYTES * count ≤ length section.old.items }
    ensures rest { section.new.items ≡ unread_of_log count section.old.items }
    ensures size { length section.new.items ≡ length section.old.items }
{
    let section = section.as_mut_slice();
    clear(section, &HEAD);
    clear_entries(section, count);
}

/// The places of the seal and of the fields before the entries.
const HEAD: [Span; 4] = [
    SEAL,
    Span {
        at: LOG_COUNT_AT,
        length: 2,
    },
    Span {
        at: LOG_SPARE_COUNT_AT,
        length: 4,
    },
    Span {
        at: LOG_FIRST_SPARE_AT,
        length: 8,
    },
];

fn clear_entries(section: &mut [u8], count: u16)
    requires { LOG_ENTRIES_AT + LOG_ENTRY_BYTES * count ≤ length section.old }
    ensures { section.new ≡ cleared (entry_places LOG_ENTRIES_AT count) section.old }
{
    for index in 0..usize::from(count) {
        clear_entry(section, LOG_ENTRIES_AT + LOG_ENTRY_BYTES * index);
    }
}

fn clear_entry(section: &mut [u8], at: usize)
    requires { at + LOG_ENTRY_BYTES ≤ length section.old }
    ensures { section.new ≡ cleared (entry_spans at) section.old }
{
    let spans = [
        Span { at, length: 8 },
        Span {
            at: at + BAD_SPARE_AT,
            length: 4,
        },
        Span {
            at: at + BAD_COUNT_AT,
            length: 2,
        },
    ];
    clear(section, &spans);
}

fn write(log: &BadBlockLog, into: &mut [u8])
    requires { length into.old ≡ length log.now.rest }
    ensures exact { into.new ≡ log_bytes log.now }
    ensures bytes { AreBytes into.new }
{
    let entries = log.entries.as_slice();
    into.copy_from_slice(log.rest.as_slice());
    put16(into, LOG_COUNT_AT, entries.len() as u16);
    put32(into, LOG_SPARE_COUNT_AT, log.spare_count);
    put64(into, LOG_FIRST_SPARE_AT, log.first_spare);
    put_entries(into, entries);
    seal(into, SIGNATURE);
}

fn put_entries(section: &mut [u8], entries: &[BadBlock])
    requires { LOG_ENTRIES_AT + LOG_ENTRY_BYTES * length entries.now ≤ length section.old }
    ensures { section.new ≡ written (entry_fields LOG_ENTRIES_AT entries.now) section.old }
{
    for (index, block) in entries.iter().enumerate() {
        put_entry(section, LOG_ENTRIES_AT + LOG_ENTRY_BYTES * index, block);
    }
}

fn put_entry(section: &mut [u8], at: usize, block: &BadBlock)
    requires { at + LOG_ENTRY_BYTES ≤ length section.old }
    ensures { section.new ≡ written (entry_fields at (block.now ∷ [])) section.old }
{
    put64(section, at, block.start);
    put32(section, at + BAD_SPARE_AT, block.spare);
    put16(section, at + BAD_COUNT_AT, block.count);
}
