//! The first position of an array that is out of sync.
ghost use Rattle.std.specs.Prelude.{◌≡◌, ◌<◌, ◌≤◌, ◌^◌, length, find, IfSome};
ghost use Rattle.std.specs.List.{enumerate_from};
ghost use Rattle.ddf_config.specs.States.{is_out};
ghost use Rattle.ddf_repair.specs.First.{out_at, out_in, part_out, out_from, first_out};

use ddf_config::{Array, ElementPlan, Position};
use ddf_plan::element_strip;

/// A position of an array.
#[derive(Clone, Copy, Default, PartialEq, Eq)]
pub struct Target {
    /// The place of the element in the array.
    pub element: u8,
    /// The place of the position in the element.
    pub position: u16,
}

/// A position that is out of sync.
#[derive(Clone, Copy, Default, PartialEq, Eq)]
pub(crate) struct Out {
    pub(crate) target: Target,
    /// The reference of its disk.
    pub(crate) reference: u32,
    /// The sectors of a strip of the element.
    pub(crate) strip: u64,
    /// The sectors that the element takes of each member.
    pub(crate) blocks: u64,
}

/// The first position of an element that is out of sync, with its number.
fn out_in(positions: &[Position]) -> Option<(usize, Position)>
    ensures exact { result ≡ find (λ at. is_out at.1) (enumerate_from 0 positions.now) }
    ensures within { IfSome result (λ at. at.0 < length positions.now) }
{
    positions
        .iter()
        .copied()
        .enumerate()
        .find(|(_, position)| !position.synced)
}

fn part_out(elements: usize, element: usize, part: &Option<ElementPlan>) -> Option<Out>
    requires { element < 2 ^ 8 }
    ensures value { result ≡ part_out elements element part.now }
    ensures some { IfSome result (λ out. 1 ≤ out.strip) }
{
    match part {
        Some(plan) => match out_in(plan.positions.as_slice()) {
            Some((position, held)) => Some(Out {
                target: Target {
                    element: element as u8,
                    position: position as u16,
                },
                reference: held.reference,
                strip: element_strip(elements, plan),
                blocks: plan.blocks,
            }),
            None => None,
        },
        None => None,
    }
}

fn out_among(parts: &[Option<ElementPlan>]) -> Option<Out>
    requires { length parts.now ≤ 2 ^ 8 }
    ensures value { result ≡ out_from (length parts.now) 0 parts.now }
    ensures some { IfSome result (λ out. 1 ≤ out.strip) }
{
    for (element, part) in parts.iter().enumerate() {
        if let Some(out) = part_out(parts.len(), element, part) {
            return Some(out);
        }
    }
    None
}

/// The first position of an array that is out of sync, by element and position.
pub(crate) fn first_out(array: &Array) -> Option<Out>
    requires { length array.now.elements ≤ 2 ^ 8 }
    ensures value { result ≡ first_out array.now }
    ensures some { IfSome result (λ out. 1 ≤ out.strip) }
{
    out_among(array.elements.items())
}
