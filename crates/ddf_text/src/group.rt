//! The lines that `assemble` and `show` print of a group.
ghost use Rattle.std.specs.Prelude.{◌≡◌, ◌++◌, IfOk};
ghost use Rattle.std.specs.String.{string_bytes};
ghost use Rattle.ddf_config.specs.Extents.{extents};
ghost use Rattle.ddf_text.specs.GroupText.{array_line, array_lines, behind_text, group_text, mark_text, member_lines, shown_text, spare_text, state_by, state_word, text_by, unusable_line, unusable_number, usable_line};

use crate::listing::push;
use crate::standing::{DEGRADED, FAILED, has_seat, state_on_seats};
use ddf_bytes::{Guid, Hex32, NoMemory};
use ddf_config::{
    Array, Config, ExtentsByDisk, Member, Refusal, Seat, SpareUse, array_capacity, low_state,
    slot_of, unusable,
};
use ddf_name::NameText;
use indexmap::IndexMap;
use std::alloc::Global;
use std::fmt;

/// What the states of arrays are told by.
#[derive(Clone, Copy)]
enum Basis {
    /// The configuration alone.
    Members,
    /// The seats of the members.
    Seats,
}

/// A member of the group.
#[derive(Drop)]
struct MemberLine<'a> {
    seats: &'a [Seat],
    lagging: &'a [usize],
    reference: u32,
    member: &'a Member,
}

/// The lines of a group that is recovered: its GUID and sequence number, its members with their slots and sizes in sectors, and
/// its arrays with their blocks and states, or why one can't be used. Members and arrays are in table order.
///
/// # Errors
/// Memory ran out.
pub fn group_text(alloc: Global, config: &Config, seats: &[Seat]) -> Result<String, NoMemory>
    ensures { IfOk result (λ text. string_bytes text ≡ group_text config.now seats.now) }
{
    text_by(alloc, Basis::Members, config, seats, &[])
}

/// The lines of a group as it was assembled, of which the seats on the slots `lagging` lag: the same, but that a current member
/// without a seat is absent, a seat that lags is told as behind, and the states are those by the seats.
///
/// # Errors
/// Memory ran out.
pub fn shown_text(
    alloc: Global,
    config: &Config,
    seats: &[Seat],
    lagging: &[usize],
) -> Result<String, NoMemory>
    ensures { IfOk result (λ text. string_bytes text ≡ shown_text config.now seats.now lagging.now) }
{
    text_by(alloc, Basis::Seats, config, seats, lagging)
}

fn text_by(
    alloc: Global,
    basis: Basis,
    config: &Config,
    seats: &[Seat],
    lagging: &[usize],
) -> Result<String, NoMemory>
    ensures { IfOk result (λ text. string_bytes text ≡ text_by basis config.now seats.now lagging.now) }
{
    let group = config.group;
    let sequence = config.sequence;
    let mut text = format!(in alloc; "group {group} sequence {sequence}\n")?;
    push_members(alloc, &mut text, seats, lagging, &config.members)?;
    push_arrays(
        alloc,
        &mut text,
        basis,
        seats,
        &config.members,
        &config.arrays,
    )?;
    Ok(text)
}

fn push_members(
    alloc: Global,
    text: &mut String,
    seats: &[Seat],
    lagging: &[usize],
    members: &IndexMap<u32, Member>,
) -> Result<(), NoMemory>
    ensures { IfOk result (λ done. string_bytes text.new ≡ string_bytes text.old ++ member_lines seats.now lagging.now members.now.entries) }
{
    for (reference, member) in members {
        let line = MemberLine {
            seats,
            lagging,
            reference: *reference,
            member,
        };
        push(alloc, text, &line)?;
    }
    Ok(())
}

impl fmt::Display for MemberLine<'_> {
    ghost use Rattle.std.specs.Prelude.{Some};
    ghost use Rattle.ddf_text.specs.GroupText.{member_line};

    ghost output = { λ line. Some (member_line line.seats.now line.lagging.now line.reference line.member.now) };

    fn fmt<W: fmt::Write>(&self, f: &mut fmt::Formatter<W>) -> fmt::Result {
        let reference = Hex32(self.reference);
        if self.member.missing {
            return writeln!(f, "member {reference} missing");
        }
        if !has_seat(self.seats, self.reference) {
            return writeln!(f, "member {reference} absent");
        }
        let slot = slot_of(self.seats, self.reference);
        let size = self.member.size;
        let spare = spare_text(&self.member.spare);
        let behind = behind_text(self.lagging, slot);
        writeln!(
            f,
            "member {reference} slot {slot} size {size}{spare}{behind}"
        )
    }
}

/// What a spare may stand in for.
fn spare_text(spare: &SpareUse) -> &'static str
    ensures { result.now ≡ spare_text spare.now }
{
    match spare {
        SpareUse::No => "",
        SpareUse::Global => " spare global",
        SpareUse::Revertible => " spare revertible",
        SpareUse::Dedicated(_) => " spare dedicated",
    }
}

/// Whether the disk on a slot doesn't hold the configuration in both of its copies.
fn behind_text(lagging: &[usize], slot: usize) -> &'static str
    ensures { result.now ≡ behind_text lagging.now slot }
{
    if lagging.contains(&slot) {
        " behind"
    } else {
        ""
    }
}

fn push_arrays(
    alloc: Global,
    text: &mut String,
    basis: Basis,
    seats: &[Seat],
    members: &IndexMap<u32, Member>,
    arrays: &IndexMap<Guid, Array>,
) -> Result<(), NoMemory>
    ensures { IfOk result (λ done. string_bytes text.new
        ≡ string_bytes text.old ++ array_lines basis members.now.entries seats.now (extents arrays.now.entries) arrays.now.entries) }
{
    let all = ExtentsByDisk::new(alloc, arrays)?;
    push_each(alloc, text, basis, seats, members, &all, arrays)
}

/// Adds the line of each array. `all` are the extents of all arrays.
fn push_each(
    alloc: Global,
    text: &mut String,
    basis: Basis,
    seats: &[Seat],
    members: &IndexMap<u32, Member>,
    all: &ExtentsByDisk,
    arrays: &IndexMap<Guid, Array>,
) -> Result<(), NoMemory>
    ensures { IfOk result (λ done. string_bytes text.new
        ≡ string_bytes text.old ++ array_lines basis members.now.entries seats.now all.now arrays.now.entries) }
{
    for (guid, array) in arrays {
        push_array(alloc, text, basis, seats, members, all, guid, array)?;
    }
    Ok(())
}

/// Adds the line of the array of a GUID. `all` are the extents of all arrays.
fn push_array(
    alloc: Global,
    text: &mut String,
    basis: Basis,
    seats: &[Seat],
    members: &IndexMap<u32, Member>,
    all: &ExtentsByDisk,
    guid: &Guid,
    array: &Array,
) -> Result<(), NoMemory>
    ensures { IfOk result (λ done. string_bytes text.new ≡ string_bytes text.old ++ array_line basis members.now.entries seats.now all.now guid.now array.now) }
{
    match unusable(alloc, members, seats, all, guid, array)? {
        Some(refusal) => push_unusable(alloc, text, array, refusal),
        None => push_usable(alloc, text, array, state_by(basis, members, seats, array)),
    }
}

/// The state of an array.
fn state_by(basis: Basis, members: &IndexMap<u32, Member>, seats: &[Seat], array: &Array) -> u8
    ensures { result ≡ state_by basis members.now.entries seats.now array.now }
{
    match basis {
        Basis::Members => low_state(members, array),
        Basis::Seats => state_on_seats(seats, array),
    }
}

/// Adds the line of an array that can be used.
fn push_usable(alloc: Global, text: &mut String, array: &Array, state: u8) -> Result<(), NoMemory>
    ensures { IfOk result (λ done. string_bytes text.new ≡ string_bytes text.old ++ usable_line array.now state) }
{
    let name = NameText(&array.name);
    let blocks = array_capacity(alloc, array)?;
    let state = state_word(state);
    let mark = mark_text(array);
    push(
        alloc,
        text,
        &format!(in alloc; "array {name} blocks {blocks} {state}{mark}\n")?,
    )?;
    Ok(())
}

/// Adds the line of an array that can't be used.
fn push_unusable(
    alloc: Global,
    text: &mut String,
    array: &Array,
    refusal: Refusal,
) -> Result<(), NoMemory>
    ensures { IfOk result (λ done. string_bytes text.new ≡ string_bytes text.old ++ unusable_line array.now refusal) }
{
    let name = NameText(&array.name);
    let number = unusable_number(refusal);
    push(
        alloc,
        text,
        &format!(in alloc; "array {name} unusable {number}\n")?,
    )?;
    Ok(())
}

/// The number of the refusal that keeps an array from use.
fn unusable_number(refusal: Refusal) -> u8
    ensures { result ≡ unusable_number refusal }
{
    match refusal {
        Refusal::Level(_) => 18,
        Refusal::Shape => 19,
        _ => 22,
    }
}

/// A state in a word.
fn state_word(low: u8) -> &'static str
    ensures { result.now ≡ state_word low }
{
    match low {
        FAILED => "failed",
        DEGRADED => "degraded",
        _ => "optimal",
    }
}

/// Whether an array is marked as not consistent.
fn mark_text(array: &Array) -> &'static str
    ensures { result.now ≡ mark_text array.now }
{
    if array.is_marked() { " marked" } else { "" }
}
