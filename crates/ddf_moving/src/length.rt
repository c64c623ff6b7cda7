//! How many sectors a copy takes.
ghost use Rattle.std.specs.Prelude.{◌≡◌, ◌<◌, ◌^◌, fold, max};
ghost use Rattle.ddf_moving.specs.Places.{copy_length, end_of};

use ddf_header::{Geometry, Section};

/// The sectors of a copy: from its header to the end of the last of the first six sections that are there. Diagnostic space and vendor logs
/// are no part of a copy.
#[tactic(auto, unfolding(crate::specs::Places::copy_length))]
pub fn copy_length(geometry: &Geometry) -> u64
    ensures exact { result ≡ copy_length geometry.now }
    ensures few { result < 2 ^ 33 }
{
    longest(&geometry.sections[..6])
}

/// The sectors of a header and of these sections behind it.
fn longest(sections: &[Section]) -> u64
    ensures exact { result ≡ fold (λ most section. max most (end_of section)) 1 sections.now }
    ensures few { result < 2 ^ 33 }
{
    let mut most = 1;
    for section in sections {
        most = end_of(section).max(most);
    }
    most
}

/// The sectors from a header to the end of a section, none where it is absent.
fn end_of(section: &Section) -> u64
    ensures exact { result ≡ end_of section.now }
    ensures few { result < 2 ^ 33 }
{
    if section.length == 0 {
        0
    } else {
        u64::from(section.offset) + u64::from(section.length)
    }
}
