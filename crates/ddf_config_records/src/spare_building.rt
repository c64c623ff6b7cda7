//! Spare records over the bytes of others.
ghost use Rattle.std.specs.Prelude.{◌≡◌, ◌≤◌, ◌<◌, ◌^◌, ◌+◌, ◌*◌, ◌∷◌, length, map, option_copied, IfOk};
ghost use Rattle.std.specs.List.{AllByRecursion, range_with_len};
ghost use Rattle.std.specs.Option.{ForSome};
ghost use Rattle.ddf_seal.specs.Seal.{seal_place};
ghost use Rattle.ddf_seal.specs.Unread.{Fits, cleared, places, u16_at, written};
ghost use Rattle.ddf_header.specs.Geometry.{IsSound};
ghost use Rattle.ddf_config_records.specs.declared.spare.SpareRecord.{SpareRecord};
ghost use Rattle.ddf_config_records.specs.declared.layout.TheConstants.{SPARE_POPULATED_AT, SPARE_MAXIMUM_AT, SPARE_ENTRIES_AT, SPARE_ENTRY_BYTES};
ghost use Rattle.ddf_config_records.specs.Elements.{record_size};
ghost use Rattle.ddf_config_records.specs.Spares.{CanBeSpare, entry_place, spare_fields};
ghost use Rattle.ddf_config_records.specs.Building.{secondary_fields, spare_bytes, spare_entries, spare_numbers, spare_over};

use crate::decoding::record_size;
use crate::layout;
use crate::number_bounds::guids_fit;
use crate::rest::clear_more;
use crate::sizes::spare_entries;
use crate::spare::SpareRecord;
use crate::spare_writing::put_arrays;
use ddf_bytes::{NoMemory, Seq, put16, put32};
use ddf_header::Geometry;
use ddf_seal::{Span, place};
use std::alloc::Global;

impl SpareRecord {
    /// This record's fields over the bytes of an old one under one geometry, or over FF where there is none. The populated
    /// count, the maximum and the secondary element of each entry, which is 0, are written; all other bytes that no field
    /// names stay (SNIA DDF 2.0; what is kept is profile). `self.rest` is not read.
    pub fn over(
        self,
        alloc: Global,
        geometry: &Geometry,
        bytes: Option<&SpareRecord>,
    ) -> Result<SpareRecord, NoMemory>
        requires sound { IsSound geometry.now }
        requires room { length self.arrays ≤ spare_entries geometry.now }
        requires size { ForSome (option_copied bytes) (λ old. length old.rest ≡ record_size geometry.now) }
        requires room_before { ForSome (option_copied bytes) (λ old. length old.arrays ≤ spare_entries geometry.now) }
        ensures exact { IfOk result (λ spare. spare ≡ spare_over geometry.now (option_copied bytes.entry) self) }
        ensures writable { IfOk result (CanBeSpare geometry.now) }
    {
        let count = self.arrays.items().len();
        let mut rest = kept_bytes(alloc, geometry, bytes)?;
        set_numbers(&mut rest, count, spare_entries(geometry));
        clear_fields(&mut rest, count);
        Ok(with_rest(self, rest))
    }
}

/// The record with these bytes. Its numbers fit their places.
fn with_rest(spare: SpareRecord, rest: Vec<u8>) -> SpareRecord
    ensures exact { result ≡ record spare { rest = rest.items } }
    ensures fits { AllByRecursion Fits (spare_fields spare) }
{
    guids_fit(spare.arrays.items());
    SpareRecord {
        rest: Seq::new(rest),
        ..spare
    }
}

/// The bytes of an old record but its seal, or else FF.
fn kept_bytes(
    alloc: Global,
    geometry: &Geometry,
    old: Option<&SpareRecord>,
) -> Result<Vec<u8>, NoMemory>
    requires long { 512 ≤ record_size geometry.now }
    requires size { ForSome (option_copied old) (λ old. length old.rest ≡ record_size geometry.now) }
    requires room { ForSome (option_copied old) (λ old. length old.arrays ≤ spare_entries geometry.now) }
    ensures exact { IfOk result (λ bytes. bytes.items ≡ spare_bytes geometry.now (option_copied old.entry)) }
    ensures size { IfOk result (λ bytes. length bytes.items ≡ record_size geometry.now) }
{
    match old {
        Some(old) => bytes_of(alloc, old),
        None => {
            let bytes = vec![in alloc; 0xFF; record_size(geometry)]?;
            Ok(bytes)
        }
    }
}

/// The bytes of a spare record but its seal.
fn bytes_of(alloc: Global, spare: &SpareRecord) -> Result<Vec<u8>, NoMemory>
    requires long { 512 ≤ length spare.now.rest }
    requires whole { SPARE_ENTRIES_AT + SPARE_ENTRY_BYTES * length spare.now.arrays ≤ length spare.now.rest }
    ensures exact { IfOk result (λ bytes. bytes.items ≡ written (spare_fields spare.now) spare.now.rest) }
    ensures size { IfOk result (λ bytes. length bytes.items ≡ length spare.now.rest) }
{
    let mut bytes = Vec::from_slice(alloc, spare.rest.items())?;
    put_fields(&mut bytes, spare);
    Ok(bytes)
}

/// Writes the fields of a spare record.
fn put_fields(into: &mut [u8], spare: &SpareRecord)
    requires long { 512 ≤ length into.old }
    requires whole { SPARE_ENTRIES_AT + SPARE_ENTRY_BYTES * length spare.now.arrays ≤ length into.old }
    ensures { into.new ≡ written (spare_fields spare.now) into.old }
{
    put32(into, layout::SPARE_TIMESTAMP_AT, spare.timestamp);
    place(into, layout::SPARE_KIND_AT, &[spare.kind]);
    put_arrays(into, spare.arrays.items());
}

/// Writes how many entries are populated, how many fit, and secondary element 0 in each populated one.
fn set_numbers(bytes: &mut Vec<u8>, populated: usize, maximum: usize)
    requires long { 512 ≤ length bytes.old.items }
    requires whole { SPARE_ENTRIES_AT + SPARE_ENTRY_BYTES * populated ≤ length bytes.old.items }
    requires few { populated ≤ maximum }
    requires small { maximum < 2 ^ 16 }
    ensures exact { bytes.new.items ≡ written (u16_at SPARE_POPULATED_AT populated ∷ u16_at SPARE_MAXIMUM_AT maximum ∷ secondary_fields populated) bytes.old.items }
    ensures size { length bytes.new.items ≡ length bytes.old.items }
{
    put_numbers(bytes, populated, maximum);
}

fn put_numbers(into: &mut [u8], populated: usize, maximum: usize)
    requires long { 512 ≤ length into.old }
    requires whole { SPARE_ENTRIES_AT + SPARE_ENTRY_BYTES * populated ≤ length into.old }
    requires few { populated ≤ maximum }
    requires small { maximum < 2 ^ 16 }
    ensures { into.new ≡ written (u16_at SPARE_POPULATED_AT populated ∷ u16_at SPARE_MAXIMUM_AT maximum ∷ secondary_fields populated) into.old }
{
    put16(into, layout::SPARE_POPULATED_AT, populated as u16);
    put16(into, layout::SPARE_MAXIMUM_AT, maximum as u16);
    put_secondary(into, populated);
}

fn put_secondary(into: &mut [u8], entries: usize)
    requires { SPARE_ENTRIES_AT + SPARE_ENTRY_BYTES * entries ≤ length into.old }
    ensures { into.new ≡ written (secondary_fields entries) into.old }
{
    for index in 0..entries {
        put16(
            into,
            layout::SPARE_ENTRIES_AT
                + layout::SPARE_ENTRY_BYTES * index
                + layout::SPARE_SECONDARY_AT,
            0,
        );
    }
}

/// Writes zeros in the places of the seal and of the fields of a record with so many arrays.
fn clear_fields(bytes: &mut Vec<u8>, arrays: usize)
    requires long { 512 ≤ length bytes.old.items }
    requires whole { SPARE_ENTRIES_AT + SPARE_ENTRY_BYTES * arrays ≤ length bytes.old.items }
    ensures { (spare : SpareRecord) → length spare.arrays ≡ arrays
        → bytes.new.items ≡ cleared (seal_place ∷ places (spare_fields spare)) bytes.old.items }
{
    clear_more(bytes, &layout::SPARE_HEAD);
    clear_entries(bytes, arrays);
}

fn clear_entries(bytes: &mut Vec<u8>, entries: usize)
    requires { SPARE_ENTRIES_AT + SPARE_ENTRY_BYTES * entries ≤ length bytes.old.items }
    ensures { bytes.new.items ≡ cleared (map entry_place (range_with_len 0 entries)) bytes.old.items }
{
    for index in 0..entries {
        clear_more(
            bytes,
            &[Span {
                at: layout::SPARE_ENTRIES_AT + layout::SPARE_ENTRY_BYTES * index,
                length: 24,
            }],
        );
    }
}
