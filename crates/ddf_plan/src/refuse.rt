//! Causes that several changes share.
ghost use Rattle.std.specs.Prelude.{◌≡◌, not, find};
ghost use Rattle.ddf_config.specs.Members.{is_current};
ghost use Rattle.ddf_plan.specs.Refusals.{spent, not_current, no_array};

use ddf_bytes::Guid;
use ddf_config::{Config, Member, Refusal, Seat, is_current, slot_of};
use indexmap::IndexMap;

/// The greatest sequence number of a header that a change may give (profile).
pub const GREATEST_SEQUENCE: u32 = 0xFFFF_FFF0;

/// A sequence number that so many steps on would pass the greatest.
pub(crate) fn spent(sequence: u32, steps: u32) -> Option<Refusal>
    ensures { result ≡ spent sequence steps }
{
    let next = u64::from(sequence) + u64::from(steps);
    if next <= u64::from(GREATEST_SEQUENCE) {
        None
    } else {
        Some(Refusal::SequenceSpent)
    }
}

fn first_not_current(members: &IndexMap<u32, Member>, references: &[u32]) -> Option<u32>
    ensures { result ≡ find (λ reference. not (is_current members.now.entries reference)) references.now }
{
    for reference in references {
        if !is_current(members, *reference) {
            return Some(*reference);
        }
    }
    None
}

/// The first reference that no current member has.
pub(crate) fn not_current(config: &Config, seats: &[Seat], references: &[u32]) -> Option<Refusal>
    ensures { result ≡ not_current config.now seats.now references.now }
{
    match first_not_current(&config.members, references) {
        Some(reference) => Some(Refusal::NotMember(slot_of(seats, reference))),
        None => None,
    }
}

/// An array that isn't there.
pub(crate) fn no_array(config: &Config, guid: Guid) -> Option<Refusal>
    ensures { result ≡ no_array config.now guid }
{
    if config.arrays.contains_key(&guid) {
        None
    } else {
        Some(Refusal::NoArray)
    }
}
