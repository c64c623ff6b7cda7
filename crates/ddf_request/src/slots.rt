//! Which members lie on slots, and why one doesn't.
ghost use Rattle.std.specs.Prelude.{◌≡◌, find, nat_le};
ghost use Rattle.std.specs.List.{list_any};
ghost use Rattle.std.specs.Option.{option_copied};
ghost use Rattle.ddf_config.specs.Refusals.{first_refusal};
ghost use Rattle.ddf_request.specs.Slots.{first_beyond, first_without_seat, has_no_seat, is_on, reference_on, slot_refusals};

use ddf_config::{Refusal, Seat, first_refusal};

/// The seat on a slot.
fn seat_on(seats: &[Seat], slot: u8) -> Option<&Seat>
    ensures { option_copied result ≡ find (is_on slot) seats.now }
{
    seats.iter().find(|seat| seat.slot == usize::from(slot))
}

fn has_seat(seats: &[Seat], slot: u8) -> bool
    ensures { result ≡ list_any (is_on slot) seats.now }
{
    seats.iter().any(|seat| seat.slot == usize::from(slot))
}

/// Whether the disk of a slot is no current member.
fn has_no_seat(seats: &[Seat], slot: u8) -> bool
    ensures { result ≡ has_no_seat seats.now slot }
{
    !has_seat(seats, slot)
}

/// The first of the slots that isn't among so many.
fn slot_beyond(count: usize, slots: &[u8]) -> Option<u8>
    ensures { result ≡ find (nat_le count) slots.now }
{
    slots
        .iter()
        .copied()
        .find(|slot| count <= usize::from(*slot))
}

/// The first of the slots whose disk is no current member.
fn slot_without_seat(seats: &[Seat], slots: &[u8]) -> Option<u8>
    ensures { result ≡ find (has_no_seat seats.now) slots.now }
{
    slots.iter().copied().find(|slot| has_no_seat(seats, *slot))
}

/// The refusal of the first slot that isn't among so many.
fn first_beyond(count: usize, slots: &[u8]) -> Option<Refusal>
    ensures { result ≡ first_beyond count slots.now }
{
    match slot_beyond(count, slots) {
        Some(slot) => Some(Refusal::NoSlot(usize::from(slot))),
        None => None,
    }
}

/// The refusal of the first slot whose disk is no current member.
fn first_without_seat(seats: &[Seat], slots: &[u8]) -> Option<Refusal>
    ensures { result ≡ first_without_seat seats.now slots.now }
{
    match slot_without_seat(seats, slots) {
        Some(slot) => Some(Refusal::NotMember(usize::from(slot))),
        None => None,
    }
}

/// Why slots, of so many, haven't all a current member.
pub fn slots_refusal(count: usize, seats: &[Seat], slots: &[u8]) -> Option<Refusal>
    ensures { result ≡ first_refusal (slot_refusals count seats.now slots.now) }
{
    first_refusal(&[first_beyond(count, slots), first_without_seat(seats, slots)])
}

/// The reference of the member on a slot, 0 where there is none.
pub fn reference_on(seats: &[Seat], slot: u8) -> u32
    ensures { result ≡ reference_on seats.now slot }
{
    match seat_on(seats, slot) {
        Some(seat) => seat.reference,
        None => 0,
    }
}
