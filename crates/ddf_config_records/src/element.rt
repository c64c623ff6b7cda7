//! The record of an element, as a value. docs/FORMAT.md#element-record
use crate::place::Place;
use arrayvec::ArrayVec;
use ddf_bytes::{Guid, Seq};
use std::marker::Model;

/// A virtual disk configuration record (SNIA DDF 2.0): one element of an array. Contracts see the members as a list.
#[derive(Drop)]
pub struct Element {
    /// The GUID of the array.
    pub array: Guid,
    /// Seconds since 1980 began.
    pub timestamp: u32,
    /// The sequence number of the update that last altered the record.
    pub sequence: u32,
    /// The stripe size code n, for `2^n` sectors.
    pub strip: u8,
    /// The RAID level.
    pub level: u8,
    /// The qualifier of the level.
    pub qualifier: u8,
    /// How many elements the array has.
    pub elements: u8,
    /// The place of this one among them.
    pub index: u8,
    /// The level over the elements.
    pub secondary: u8,
    /// Sectors of each member.
    pub blocks: u64,
    /// Sectors of the whole array.
    pub size: u64,
    /// Bytes of a block: 512, or 0 or FFFF where it isn't given.
    pub block_size: u16,
    /// The references of associated spares. FFFFFFFF is none.
    pub spares: [u32; 8],
    /// Where the members lie, in order: at least one and at most 64 (profile).
    pub members: ArrayVec<Place, 64>,
    /// The bytes of the record that no field names, and zeros in the places of the seal and the fields.
    pub rest: Seq<u8>,
}

impl Model for Element {
    ghost use Rattle.ddf_config_records.specs.ElementValue.{ElementValue};

    ghost Value = { ElementValue };

    ghost view = { λ element. record {
      array = element.array;
      timestamp = element.timestamp;
      sequence = element.sequence;
      strip = element.strip;
      level = element.level;
      qualifier = element.qualifier;
      elements = element.elements;
      index = element.index;
      secondary = element.secondary;
      blocks = element.blocks;
      size = element.size;
      block_size = element.block_size;
      spares = element.spares;
      members = element.members.items;
      rest = element.rest;
    } };
}
