//! An array as a configuration has it, with what its state byte says. An element of which no disk tells stays in the list as none: left out,
//! the others would move up and their blocks be read at wrong places.
ghost use Rattle.std.specs.Prelude.{◌≡◌, ◌==◌, IfOk, ◌/◌, ◌%◌};
ghost use Rattle.std.specs.List.{list_any};
ghost use Rattle.ddf_config.specs.Within.{is_complete, is_mirrored, has_redundancy, is_redundant};
ghost use Rattle.ddf_config.specs.States.{is_marked, is_deleted};
ghost use Rattle.ddf_config.specs.Shapes.{secondary_level};

use crate::ElementPlan;
use ddf_bytes::{NoMemory, Seq};
use ddf_primary::keeps_more_of;
use std::alloc::Global;

/// An array of the group: a secondary level over elements.
#[derive(Drop)]
pub struct Array {
    /// The name: 16 bytes, as the array's entry in the virtual disk records has it.
    pub name: [u8; 16],
    /// The array's number in the virtual disk records.
    pub number: u16,
    /// The secondary RAID level. It has no meaning where the array has one element.
    pub secondary: u8,
    /// The elements, in order. None is one whose record no disk of the group holds, or none that can be read.
    pub elements: Seq<Option<ElementPlan>>,
    /// The state byte: the low state in bits 0 to 2, the mark of an array that isn't consistent in bit 4.
    pub state: u8,
    /// The init byte: how far the array was initialized in bits 0 and 1, who may access it in bits 6 and 7.
    pub init: u8,
}

impl Array {
    /// A second value that equals this one.
    ///
    /// # Errors
    /// Memory ran out.
    pub fn duplicate(&self, alloc: Global) -> Result<Array, NoMemory>
        ensures { IfOk result (λ second. second ≡ self.now) }
    {
        let elements = second_elements(alloc, self.elements.items())?;
        Ok(Array {
            name: self.name,
            number: self.number,
            secondary: self.secondary,
            elements: Seq::new(elements),
            state: self.state,
            init: self.init,
        })
    }

    /// Whether the disks tell of every element.
    pub fn is_complete(&self) -> bool
        ensures { result ≡ is_complete self.now }
    {
        self.elements.items().iter().all(|part| part.is_some())
    }

    /// Whether the elements are copies of each other.
    pub fn is_mirrored(&self) -> bool
        ensures { result ≡ is_mirrored self.now }
    {
        self.secondary == 0x01 && self.elements.items().len() >= 2
    }

    /// Whether the array keeps what it holds in more than one place.
    pub fn is_redundant(&self) -> bool
        ensures { result ≡ is_redundant self.now }
    {
        self.is_mirrored() || has_redundant_part(self.elements.items())
    }

    /// The secondary level: striped, 00, where there is a single element.
    pub fn secondary_level(&self) -> u8
        ensures { result ≡ secondary_level self.now }
    {
        if self.elements.items().len() == 1 {
            0x00
        } else {
            self.secondary
        }
    }

    /// Whether the array is marked as not consistent: bit 4 of its state.
    pub fn is_marked(&self) -> bool
        ensures { result ≡ is_marked self.now }
    {
        self.state / 16 % 2 == 1
    }

    /// Whether the array's low state is deleted.
    pub fn is_deleted(&self) -> bool
        ensures { result ≡ is_deleted self.now }
    {
        self.state % 8 == 2
    }
}

fn second_elements(
    alloc: Global,
    elements: &[Option<ElementPlan>],
) -> Result<Vec<Option<ElementPlan>>, NoMemory>
    ensures { IfOk result (λ second. second.items ≡ elements.now) }
{
    let mut second = Vec::with_capacity(alloc, elements.len())?;
    for element in elements {
        second.push(second_element(alloc, element)?)?;
    }
    Ok(second)
}

fn second_element(
    alloc: Global,
    element: &Option<ElementPlan>,
) -> Result<Option<ElementPlan>, NoMemory>
    ensures { IfOk result (λ second. second ≡ element.now) }
{
    match element {
        Some(element) => Ok(Some(element.duplicate(alloc)?)),
        None => Ok(None),
    }
}

fn has_redundancy(part: &Option<ElementPlan>) -> bool
    ensures { result ≡ has_redundancy part.now }
{
    match part {
        Some(element) => keeps_more_of(element.level),
        None => false,
    }
}

fn has_redundant_part(parts: &[Option<ElementPlan>]) -> bool
    ensures { result ≡ list_any has_redundancy parts.now }
{
    parts.iter().any(has_redundancy)
}
