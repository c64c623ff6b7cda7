//! The bounds that types give the numbers of a record. These functions do nothing: their contracts are laws.
ghost use Rattle.std.specs.Prelude.{◌≡◌, ◌<◌, ◌^◌, length, map};
ghost use Rattle.std.specs.List.{AllByRecursion};

use crate::place::Place;
use ddf_bytes::Guid;

/// Each reference has 32 bits.
pub(crate) fn references_fit(references: &[u32])
    ensures { AllByRecursion (λ reference. reference < 2 ^ 32) references.now }
{}

/// Each reference of a member has 32 bits, and each starting LBA 64.
pub(crate) fn members_fit(members: &[Place])
    ensures references { AllByRecursion (λ reference. reference < 2 ^ 32) (map (λ member. member.reference) members.now) }
    ensures starts { AllByRecursion (λ start. start < 2 ^ 64) (map (λ member. member.start) members.now) }
{
    for member in members {
        member_fits(*member);
    }
}

fn member_fits(member: Place)
    ensures reference { member.reference < 2 ^ 32 }
    ensures start { member.start < 2 ^ 64 }
{}

/// Each GUID has 24 bytes.
pub(crate) fn guids_fit(guids: &[Guid])
    ensures { AllByRecursion (λ guid. length guid ≡ 24) guids.now }
{
    for guid in guids {
        let _bytes = guid.bytes();
    }
}
