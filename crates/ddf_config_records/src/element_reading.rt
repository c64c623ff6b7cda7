//! The record of an element, read. A sealed record whose numbers make no sense is kept by its bytes, and told: read in part, its array would
//! have its blocks at wrong places. docs/FORMAT.md#element-record
ghost use Rattle.std.specs.Prelude.{◌≡◌, ◌+◌, ◌*◌, ◌≤◌, length, None, IfOk};
ghost use Rattle.std.specs.Int.{w16};
ghost use Rattle.ddf_bytes.specs.Bytes.{number_at};
ghost use Rattle.ddf_seal.specs.Unread.{numbers32_at};
ghost use Rattle.ddf_config_records.specs.declared.layout.TheConstants.{MEMBERS_AT, SPARES_AT, REFERENCES_AT};
ghost use Rattle.ddf_config_records.specs.Elements.{
  element_at,
  element_fault_at,
  element_rest,
  element_with,
  has_no_strip,
  member_places,
  members_at,
};

use crate::element::Element;
use crate::fault::ElementFault;
use crate::layout;
use crate::place::Place;
use crate::rest::{clear_more, rest_of};
use arrayvec::ArrayVec;
use ddf_bytes::{NoMemory, Seq, be16, be32, be64};
use ddf_seal::{Span, guid_at};
use std::alloc::Global;

/// The most members of an element (profile).
const MOST_MEMBERS: u16 = 64;

/// What is wrong with the element of a record, where the geometry allows so many members.
#[tactic(auto, unfolding(crate::specs::Elements::fault_of))]
pub(crate) fn element_fault(bytes: &[u8], most: u16) -> Option<ElementFault>
    requires { 512 ≤ length bytes.now }
    ensures { result ≡ element_fault_at most bytes.now }
{
    let members = be16(bytes, layout::MEMBERS_AT);
    if members == 0 || members > most || members > MOST_MEMBERS {
        return Some(ElementFault::Members(members));
    }
    let strip = bytes[layout::STRIP_AT];
    let elements = bytes[layout::ELEMENTS_AT];
    if strip > 31 && !has_no_strip(bytes[layout::LEVEL_AT], elements) {
        return Some(ElementFault::Stripe(strip));
    }
    if elements == 0 || elements > 16 || bytes[layout::INDEX_AT] >= elements {
        return Some(ElementFault::Secondary(elements));
    }
    let block_size = be16(bytes, layout::BLOCK_SIZE_AT);
    if !matches!(block_size, 0 | 512 | 0xFFFF) {
        return Some(ElementFault::Block(block_size));
    }
    None
}

/// Whether the strip is taken as one sector, whatever its code: RAID 1, JBOD and concatenation with one element (profile).
fn has_no_strip(level: u8, elements: u8) -> bool
    ensures { result ≡ has_no_strip level elements }
{
    elements == 1 && matches!(level, 0x01 | 0x0F | 0x1F)
}

/// The element of a record that has none of its faults.
pub(crate) fn read_element(alloc: Global, bytes: &[u8], most: u16) -> Result<Element, NoMemory>
    requires whole { REFERENCES_AT + 12 * most ≤ length bytes.now }
    requires sound { element_fault_at most bytes.now ≡ None }
    ensures { IfOk result (λ element. element ≡ element_at most bytes.now) }
{
    let rest = unread(alloc, bytes, most)?;
    Ok(with_rest(bytes, most, rest))
}

#[tactic(auto, unfolding(crate::specs::Elements::element_with))]
fn with_rest(bytes: &[u8], most: u16, rest: Seq<u8>) -> Element
    requires whole { REFERENCES_AT + 12 * most ≤ length bytes.now }
    requires allowed { number_at w16 bytes.now MEMBERS_AT ≤ most }
    requires few { number_at w16 bytes.now MEMBERS_AT ≤ 64 }
    ensures { result ≡ element_with most bytes.now rest }
{
    Element {
        array: guid_at(bytes, layout::GUID_AT),
        timestamp: be32(bytes, layout::TIMESTAMP_AT),
        sequence: be32(bytes, layout::SEQUENCE_AT),
        strip: bytes[layout::STRIP_AT],
        level: bytes[layout::LEVEL_AT],
        qualifier: bytes[layout::QUALIFIER_AT],
        elements: bytes[layout::ELEMENTS_AT],
        index: bytes[layout::INDEX_AT],
        secondary: bytes[layout::SECONDARY_AT],
        blocks: be64(bytes, layout::BLOCKS_AT),
        size: be64(bytes, layout::SIZE_AT),
        block_size: be16(bytes, layout::BLOCK_SIZE_AT),
        spares: spares(bytes),
        members: members(bytes, most),
        rest,
    }
}

/// The bytes of the record that no field names.
fn unread(alloc: Global, bytes: &[u8], most: u16) -> Result<Seq<u8>, NoMemory>
    requires whole { REFERENCES_AT + 12 * most ≤ length bytes.now }
    requires allowed { number_at w16 bytes.now MEMBERS_AT ≤ most }
    ensures { IfOk result (λ rest. rest ≡ element_rest most bytes.now) }
{
    let count = usize::from(be16(bytes, layout::MEMBERS_AT));
    let mut rest = rest_of(alloc, bytes, &layout::HEAD)?;
    clear_more(&mut rest, &member_spans(most, count));
    Ok(Seq::new(rest))
}

/// The places of the members' references and starting LBAs.
pub(crate) fn member_spans(most: u16, count: usize) -> [Span; 2]
    requires { count ≤ 65535 }
    ensures { result ≡ member_places most count }
{
    [
        Span {
            at: layout::REFERENCES_AT,
            length: 4 * count,
        },
        Span {
            at: layout::REFERENCES_AT + 4 * usize::from(most),
            length: 8 * count,
        },
    ]
}

fn spares(bytes: &[u8]) -> [u32; 8]
    requires { 512 ≤ length bytes.now }
    ensures { result ≡ numbers32_at bytes.now SPARES_AT 8 }
{
    [
        be32(bytes, layout::SPARES_AT),
        be32(bytes, layout::SPARES_AT + 4),
        be32(bytes, layout::SPARES_AT + 8),
        be32(bytes, layout::SPARES_AT + 12),
        be32(bytes, layout::SPARES_AT + 16),
        be32(bytes, layout::SPARES_AT + 20),
        be32(bytes, layout::SPARES_AT + 24),
        be32(bytes, layout::SPARES_AT + 28),
    ]
}

fn members(bytes: &[u8], most: u16) -> ArrayVec<Place, 64>
    requires whole { REFERENCES_AT + 12 * most ≤ length bytes.now }
    requires allowed { number_at w16 bytes.now MEMBERS_AT ≤ most }
    requires few { number_at w16 bytes.now MEMBERS_AT ≤ 64 }
    ensures { result.items ≡ members_at most bytes.now (number_at w16 bytes.now MEMBERS_AT) }
{
    let starts = layout::REFERENCES_AT + 4 * usize::from(most);
    let count = usize::from(be16(bytes, layout::MEMBERS_AT));
    let mut members = ArrayVec::new();
    for index in 0..count {
        members.push(Place {
            reference: be32(bytes, layout::REFERENCES_AT + 4 * index),
            start: be64(bytes, starts + 8 * index),
        });
    }
    members
}
