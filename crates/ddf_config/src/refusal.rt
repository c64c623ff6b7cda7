//! Every refusal, with what is told of it. Their numbers stand in scripts of others, so none is ever given to another cause: docs/REFUSALS.md.
ghost use Rattle.std.specs.Prelude.{◌≡◌};
ghost use Rattle.ddf_config.specs.Refusals.{first_refusal, refuse_if};

use ddf_bytes::Guid;

/// Why a command isn't done though its words are good, or why its words are none. Each has a number.
#[derive(Clone, Copy, PartialEq, Eq)]
pub enum Refusal {
    /// 10: the words are no command's. The place of the first bad word, from 0.
    Words(usize),
    /// 11: a slot that is to be labelled has an anchor.
    NotBlank(usize),
    /// 12: no disk shows a group, or none the group that was named.
    NoGroup,
    /// 13: more than one group is there and none was named. The least slots of two of them.
    SeveralGroups(usize, usize),
    /// 14: there is no such slot.
    NoSlot(usize),
    /// 15: the slot's disk is no current member of the group. 64 where no slot is known.
    NotMember(usize),
    /// 16: no array has the name, or a spare is asked for an array of which no element is known.
    NoArray,
    /// 17: an array with the name is there already.
    NameTaken,
    /// 18: a primary RAID level that isn't served.
    Level(u8),
    /// 19: the numbers of an array make none, or its extents pass their disks or meet others.
    Shape,
    /// 20: the slot's disk has no room for an extent.
    NoExtent(usize),
    /// 21: a table of some disk has too little room.
    Full(FullTable),
    /// 22: an array isn't within its level, or would not be any more.
    Lost,
    /// 23: parity is needed of an array that is marked as not consistent, or of one that isn't all there.
    Unsure,
    /// 24: the array is marked as not consistent.
    Marked,
    /// 25: an element with parity isn't wholly available.
    Degraded,
    /// 26: the blocks pass the array's capacity, which is told in blocks.
    Range(u64),
    /// 27: there is no spare.
    NoSpare,
    /// 28: no spare, or not the disk, has room for so much. For spares in blocks, for disks in sectors.
    Small {
        /// How much is needed.
        needed: u64,
        /// The most that is there.
        found: u64,
    },
    /// 29: disks with tables of different sizes.
    Geometry,
    /// 30: the sequence number would pass the greatest.
    SequenceSpent,
    /// 31: the slot's disk has bad blocks.
    BadBlocks(usize),
    /// 32: the input ended before the bytes of the write. The bytes that were there.
    ShortPayload(u64),
    /// 33: the slot's disk is a spare, holds an extent, or is the last current member.
    InUse(usize),
    /// 34: a GUID, or the disk of this GUID, is there already.
    Clash(Guid),
    /// 35: the state or the access bits of the array forbid it.
    Held,
    /// 37: the slot's disk has no room for the stage of a write. No command gives it yet.
    NoStage(usize),
    /// 38: no disk stands in for one of the array's that it could give its place back to. No command gives it yet.
    NoStandIn,
    /// 39: a disk of the group must not be written over.
    Unsettled,
}

/// A table of a disk with too little room.
#[derive(Clone, Copy, PartialEq, Eq)]
pub enum FullTable {
    /// The physical disk records.
    Disks,
    /// The virtual disk records.
    Arrays,
    /// The configuration records: their slots, or the places of arrays in a spare assignment record.
    Records,
    /// The record with this engine's notes.
    Notes,
    /// The places of spares in a configuration record.
    Spares,
}

/// The first of several refusals, in order.
pub fn first_refusal(checks: &[Option<Refusal>]) -> Option<Refusal>
    ensures { result ≡ first_refusal checks.now }
{
    for check in checks {
        if let Some(refusal) = check {
            return Some(*refusal);
        }
    }
    None
}

/// A refusal where its cause holds.
pub fn refuse_if(holds: bool, refusal: Refusal) -> Option<Refusal>
    ensures { result ≡ refuse_if holds refusal }
{
    if holds { Some(refusal) } else { None }
}
