//! The record of an element, written: fields into their places, all other bytes stay. docs/FORMAT.md#element-record
ghost use Rattle.std.specs.Prelude.{◌≡◌, ◌++◌, ◌+◌, ◌*◌, ◌≤◌, length, map};
ghost use Rattle.std.specs.List.{flat_map};
ghost use Rattle.std.specs.Int.{w32, w64, to_be_bytes};
ghost use Rattle.ddf_seal.specs.Records.{record_bytes};
ghost use Rattle.ddf_seal.specs.Unread.{AreBytes, placed, written};
ghost use Rattle.ddf_config_records.specs.declared.layout.TheConstants.{SPARES_AT, REFERENCES_AT};
ghost use Rattle.ddf_config_records.specs.Elements.{element_fields, member_fields, name_fields, shape_fields};

use crate::element::Element;
use crate::layout;
use crate::place::Place;
use ddf_bytes::{put16, put32, put64};
use ddf_seal::{place, seal};

/// Writes an element record under a signature.
pub(crate) fn write_element(into: &mut [u8], element: &Element, signature: u32, most: u16)
    requires size { length element.now.rest ≡ length into.old }
    requires few { length element.now.members ≤ most }
    requires whole { REFERENCES_AT + 12 * most ≤ length into.old }
    ensures exact { into.new ≡ record_bytes signature (element_fields most element.now) element.now.rest }
    ensures bytes { AreBytes into.new }
{
    into.copy_from_slice(element.rest.items());
    put_names(into, element);
    put_shape(into, element);
    put_members(into, element, most);
    seal(into, signature);
}

pub(crate) fn put_names(into: &mut [u8], element: &Element)
    requires few { length element.now.members ≤ 65535 }
    requires whole { 512 ≤ length into.old }
    ensures { into.new ≡ written (name_fields element.now) into.old }
{
    place(into, layout::GUID_AT, &element.array.bytes());
    put32(into, layout::TIMESTAMP_AT, element.timestamp);
    put32(into, layout::SEQUENCE_AT, element.sequence);
    put16(into, layout::MEMBERS_AT, element.members.len() as u16);
    place(into, layout::STRIP_AT, &[element.strip]);
    place(into, layout::LEVEL_AT, &[element.level]);
    place(into, layout::QUALIFIER_AT, &[element.qualifier]);
}

pub(crate) fn put_shape(into: &mut [u8], element: &Element)
    requires { 512 ≤ length into.old }
    ensures { into.new ≡ written (shape_fields element.now) into.old }
{
    place(into, layout::ELEMENTS_AT, &[element.elements]);
    place(into, layout::INDEX_AT, &[element.index]);
    place(into, layout::SECONDARY_AT, &[element.secondary]);
    put64(into, layout::BLOCKS_AT, element.blocks);
    put64(into, layout::SIZE_AT, element.size);
    put16(into, layout::BLOCK_SIZE_AT, element.block_size);
    put_spares(into, &element.spares);
}

fn put_spares(into: &mut [u8], spares: &[u32; 8])
    requires { 512 ≤ length into.old }
    ensures { into.new ≡ placed into.old SPARES_AT (flat_map (to_be_bytes w32) spares.now) }
{
    for (index, spare) in spares.iter().enumerate() {
        put32(into, layout::SPARES_AT + 4 * index, *spare);
    }
}

pub(crate) fn put_members(into: &mut [u8], element: &Element, most: u16)
    requires few { length element.now.members ≤ most }
    requires whole { REFERENCES_AT + 12 * most ≤ length into.old }
    ensures { into.new ≡ written (member_fields most element.now) into.old }
{
    put_references(into, element.members.as_slice());
    put_starts(
        into,
        layout::REFERENCES_AT + 4 * usize::from(most),
        element.members.as_slice(),
    );
}

fn put_references(into: &mut [u8], members: &[Place])
    requires { REFERENCES_AT + 4 * length members.now ≤ length into.old }
    ensures { into.new ≡ placed into.old REFERENCES_AT (flat_map (to_be_bytes w32) (map (λ member. member.reference) members.now)) }
{
    for (index, member) in members.iter().enumerate() {
        put32(into, layout::REFERENCES_AT + 4 * index, member.reference);
    }
}

fn put_starts(into: &mut [u8], at: usize, members: &[Place])
    requires { at + 8 * length members.now ≤ length into.old }
    ensures { into.new ≡ placed into.old at (flat_map (to_be_bytes w64) (map (λ member. member.start) members.now)) }
{
    for (index, member) in members.iter().enumerate() {
        put64(into, at + 8 * index, member.start);
    }
}
