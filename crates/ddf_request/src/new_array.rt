//! The array that `create` asks for.
ghost use Rattle.std.specs.Prelude.{◌≡◌, ◌≤◌, IfOk, length, map, Some};
ghost use Rattle.std.specs.List.{list_any};
ghost use Rattle.ddf_request.specs.NewArray.{IsCreation, has_number, is_free_number, least_number, new_array, new_array_guid, new_element, new_position, next_sequence, padded, qualifier_of, slots_of};

use crate::slots::reference_on;
use arrayvec::ArrayVec;
use ddf_bytes::{Guid, GuidKind, NoMemory, Seq, Stamp, new_guid};
use ddf_config::{Array, Config, ElementPlan, Position, Seat};
use ddf_plan::GREATEST_SEQUENCE;
use ddf_words::{CreateElement, Creation};
use indexmap::IndexMap;
use std::alloc::Global;

// ---- its GUID and its name

/// The sequence number of the change that creates it. Past the greatest, where it is refused, the number behind the greatest.
fn next_sequence(sequence: u32) -> u32
    ensures { result ≡ next_sequence sequence }
{
    sequence.min(GREATEST_SEQUENCE) + 1
}

/// The GUID of an array that is created.
pub(crate) fn new_array_guid(config: &Config, stamp: &Stamp) -> Guid
    ensures { result ≡ new_array_guid config.now stamp.now }
{
    new_guid(GuidKind::Array, stamp, next_sequence(config.sequence))
}

/// A name of 16 bytes, padded with spaces.
fn padded(name: &[u8]) -> [u8; 16]
    requires { length name.now ≤ 16 }
    ensures { result ≡ padded name.now }
{
    let mut bytes = [b' '; 16];
    bytes[..name.len()].copy_from_slice(name);
    bytes
}

// ---- its number

fn has_number(arrays: &IndexMap<Guid, Array>, number: u16) -> bool
    ensures { result ≡ list_any (has_number number) arrays.now.entries }
{
    arrays.iter().any(|(_, array)| array.number == number)
}

fn is_free_number(arrays: &IndexMap<Guid, Array>, number: u16) -> bool
    ensures { result ≡ is_free_number arrays.now.entries number }
{
    !has_number(arrays, number)
}

/// The least number that no array has.
fn least_number(arrays: &IndexMap<Guid, Array>) -> u16
    ensures { result ≡ least_number arrays.now.entries }
{
    for number in 0..=u16::MAX {
        if is_free_number(arrays, number) {
            return number;
        }
    }
    0
}

// ---- its elements

/// RAID 1 is simple mirroring over two members and multi mirroring over more. Other levels have the qualifier of the words.
fn qualifier_of(level: u8, qualifier: u8, members: usize) -> u8
    ensures { result ≡ qualifier_of level qualifier members }
{
    if level != 0x01 {
        qualifier
    } else if members == 2 {
        0x00
    } else {
        0x01
    }
}

/// A position on the disk of a slot, in sync.
fn new_position(seats: &[Seat], slot: u8) -> Position
    ensures { result ≡ new_position seats.now slot }
{
    Position {
        reference: reference_on(seats, slot),
        start: 0,
        synced: true,
        row: 0,
    }
}

fn new_positions(seats: &[Seat], slots: &[u8]) -> ArrayVec<Position, 64>
    requires { length slots.now ≤ 64 }
    ensures { result.items ≡ map (new_position seats.now) slots.now }
{
    let mut positions = ArrayVec::new();
    for slot in slots {
        positions.push(new_position(seats, *slot));
    }
    positions
}

fn new_element(seats: &[Seat], creation: &Creation, element: &CreateElement) -> ElementPlan
    requires { length element.now.slots ≤ 64 }
    ensures { result ≡ new_element seats.now creation.now element.now }
{
    let slots = element.slots.items();
    ElementPlan {
        level: creation.level,
        qualifier: qualifier_of(creation.level, creation.qualifier, slots.len()),
        strip: creation.code,
        stand_in: 0,
        blocks: element.blocks,
        positions: new_positions(seats, slots),
    }
}

fn new_elements(
    alloc: Global,
    seats: &[Seat],
    creation: &Creation,
) -> Result<Vec<Option<ElementPlan>>, NoMemory>
    requires { IsCreation creation.now }
    ensures { IfOk result (λ parts. parts.items ≡ map (λ element. Some (new_element seats.now creation.now element)) creation.now.elements) }
{
    let elements = creation.elements.items();
    let mut parts = Vec::with_capacity(alloc, elements.len())?;
    for element in elements {
        parts.push(Some(new_element(seats, creation, element)))?;
    }
    Ok(parts)
}

/// The array that the words are for.
pub(crate) fn new_array(
    alloc: Global,
    config: &Config,
    seats: &[Seat],
    creation: &Creation,
) -> Result<Array, NoMemory>
    requires { IsCreation creation.now }
    ensures { IfOk result (λ array. array ≡ new_array config.now seats.now creation.now) }
{
    let elements = new_elements(alloc, seats, creation)?;
    Ok(Array {
        name: padded(creation.name.items()),
        number: least_number(&config.arrays),
        secondary: creation.secondary.unwrap_or(0x00),
        elements: Seq::new(elements),
        state: 0x00,
        init: 0x00,
    })
}

/// The slots of all elements, in the order of the words.
pub(crate) fn slots_of(alloc: Global, elements: &[CreateElement]) -> Result<Vec<u8>, NoMemory>
    ensures { IfOk result (λ slots. slots.items ≡ slots_of elements.now) }
{
    let mut slots = Vec::new(alloc);
    for element in elements {
        slots.extend_from_slice(element.slots.items())?;
    }
    Ok(slots)
}
