//! What the elements of an array are by their numbers, and what they make together.
ghost use Rattle.std.specs.Prelude.{◌≡◌, ◌++◌, ◌≤◌, ◌^◌, option_to_list, length, filter_map, IfOk, IfSome, OnOk};
ghost use Rattle.ddf_secondary.specs.Sizes.{AreSmall};
ghost use Rattle.ddf_config.specs.Shapes.{has_no_strips, strip_sectors, element_shape, shape_size, has_shape, has_shapes, part_size, sizes, array_tiers, array_capacity, has_tiers, IsSmall};

use crate::{Array, ElementPlan};
use ddf_bytes::NoMemory;
use ddf_primary::Shape;
use ddf_secondary::{ElementSize, Tiers};
use std::alloc::Global;

fn has_no_strips(level: u8) -> bool
    ensures { result ≡ has_no_strips level }
{
    matches!(level, 0x01 | 0x0F | 0x1F)
}

/// The sectors of a strip of an element, in an array with so many elements. None where the stripe size code
/// has no meaning there.
pub fn strip_sectors(elements: usize, element: &ElementPlan) -> Option<u64>
    ensures value { result ≡ strip_sectors elements element.now }
    ensures low { IfSome result (λ strip. 1 ≤ strip) }
    ensures high { IfSome result (λ strip. strip ≤ 2 ^ 31) }
{
    if element.strip <= 31 {
        Some(1 << element.strip)
    } else if elements == 1 && has_no_strips(element.level) {
        Some(1)
    } else {
        None
    }
}

/// The shape of an element, in an array with so many elements. None where its numbers make no shape.
pub fn element_shape(elements: usize, element: &ElementPlan) -> Option<Shape>
    ensures value { result ≡ element_shape elements element.now }
    ensures few { IfSome result (λ shape. shape.members ≤ 64) }
{
    let strip = strip_sectors(elements, element)?;
    let positions = element.positions.as_slice();
    match Shape::new(
        element.level,
        element.qualifier,
        positions.len() as u16,
        strip,
        element.blocks,
    ) {
        Ok(shape) => Some(shape),
        Err(_) => None,
    }
}

/// What an element of this shape gives to its array: blocks, unit and rows.
pub fn shape_size(shape: &Shape) -> ElementSize
    requires { shape.now.members ≤ 64 }
    ensures value { result ≡ shape_size shape.now }
    ensures small { IsSmall result }
{
    ElementSize {
        capacity: shape.capacity(),
        unit: shape.unit(),
        rows: shape.rows(),
    }
}

fn has_shape(elements: usize, part: &Option<ElementPlan>) -> bool
    ensures { result ≡ has_shape elements part.now }
{
    match part {
        Some(element) => element_shape(elements, element).is_some(),
        None => true,
    }
}

/// Whether every element that is known has a shape.
pub fn has_shapes(array: &Array) -> bool
    ensures { result ≡ has_shapes array.now }
{
    let parts = array.elements.items();
    parts.iter().all(|part| has_shape(parts.len(), part))
}

fn part_size(elements: usize, part: &Option<ElementPlan>) -> Option<ElementSize>
    ensures value { result ≡ part_size elements part.now }
    ensures small { IfSome result IsSmall }
{
    match part {
        Some(element) => {
            let shape = element_shape(elements, element)?;
            Some(shape_size(&shape))
        }
        None => None,
    }
}

fn sizes(alloc: Global, parts: &[Option<ElementPlan>]) -> Result<Vec<ElementSize>, NoMemory>
    ensures value { IfOk result (λ all. all.items ≡ filter_map (part_size (length parts.now)) parts.now) }
    ensures small { IfOk result (λ all. AreSmall all.items) }
{
    let mut all = Vec::with_capacity(alloc, parts.len())?;
    for part in parts {
        push_size(&mut all, parts.len(), part)?;
    }
    Ok(all)
}

fn push_size(
    all: &mut Vec<ElementSize>,
    elements: usize,
    part: &Option<ElementPlan>,
) -> Result<(), NoMemory>
    ensures value { OnOk result (all.new.items ≡ all.old.items ++ option_to_list (part_size elements part.now)) }
    ensures small { OnOk result (AreSmall all.old.items → AreSmall all.new.items) }
{
    if let Some(size) = part_size(elements, part) {
        all.push(size)?;
    }
    Ok(())
}

/// The tiers of an array: where its blocks lie on the elements that have a shape. None where these make no
/// array together.
///
/// # Errors
/// Memory ran out.
pub fn array_tiers(alloc: Global, array: &Array) -> Result<Option<Tiers>, NoMemory>
    ensures { IfOk result (λ tiers. tiers ≡ array_tiers array.now) }
{
    let sizes = sizes(alloc, array.elements.items())?;
    match Tiers::new(array.secondary_level(), sizes.as_slice()) {
        Ok(tiers) => Ok(Some(tiers)),
        Err(_) => Ok(None),
    }
}

/// The blocks of a complete array: those of its tiers, and 0 where it has none.
///
/// # Errors
/// Memory ran out.
pub fn array_capacity(alloc: Global, array: &Array) -> Result<u64, NoMemory>
    ensures { IfOk result (λ blocks. blocks ≡ array_capacity array.now) }
{
    match array_tiers(alloc, array)? {
        Some(tiers) => Ok(tiers.capacity()),
        None => Ok(0),
    }
}

/// Whether the elements of an array make an array together. Where an element is unknown that can't be told,
/// and it counts as so.
///
/// # Errors
/// Memory ran out.
pub fn has_tiers(alloc: Global, array: &Array) -> Result<bool, NoMemory>
    ensures { IfOk result (λ has. has ≡ has_tiers array.now) }
{
    if !array.is_complete() {
        return Ok(true);
    }
    let tiers = array_tiers(alloc, array)?;
    Ok(tiers.is_some())
}
