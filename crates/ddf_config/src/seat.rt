//! A member's slot, and its floor: the sector at which extents have to end. An extent past the floor would lie over the records of its disk.
ghost use Rattle.std.specs.Prelude.{◌≡◌};
ghost use Rattle.ddf_config.specs.Seats.{slot_of, floor_of};

/// The slot of a current member.
#[derive(Clone, Copy, Default, PartialEq, Eq)]
pub struct Seat {
    /// The reference of the member.
    pub reference: u32,
    /// The number of the slot.
    pub slot: usize,
    /// The least LBA of the disk's workspace, primary header and secondary header: extents end at or below it.
    pub floor: u64,
    /// The count of the disk's bad block log.
    pub bad: u16,
}

/// The slot of a member's seat. 64, which is no slot, where it has none.
pub fn slot_of(seats: &[Seat], reference: u32) -> usize
    ensures { result ≡ slot_of seats.now reference }
{
    for seat in seats {
        if seat.reference == reference {
            return seat.slot;
        }
    }
    64
}

/// The floor of a member's seat. None where it has no seat.
pub fn floor_of(seats: &[Seat], reference: u32) -> Option<u64>
    ensures { result ≡ floor_of seats.now reference }
{
    seats
        .iter()
        .find(|seat| seat.reference == reference)
        .map(|seat| seat.floor)
}
