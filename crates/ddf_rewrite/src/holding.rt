//! What a disk is to hold of the elements.
ghost use Rattle.std.specs.Prelude.{◌≡◌, ◌==◌, ◌&&◌, find, map, IfOk};
ghost use Rattle.std.specs.Option.{option_copied};
ghost use Rattle.ddf_rewrite.specs.Notes.{find_holding};
ghost use Rattle.ddf_rewrite.specs.Copies.{element_slot, is_copied_on};

use crate::elements::duplicate;
use crate::wanted::Wanted;
use ddf_bytes::{Guid, NoMemory};
use ddf_config_records::{Element, RecordSlot};
use ddf_copy::DiskCopy;
use std::alloc::Global;
use std::marker::Model;

/// An element that a disk is to hold. Contracts see it without the references.
#[derive(Drop)]
pub(crate) struct Holding<'a> {
    /// What it is.
    pub wanted: Wanted<'a>,
    /// Whether the disk is no member of it, and holds a copy of its record.
    pub copied: bool,
    /// The record.
    pub element: Element,
}

impl<'a> Model for Holding<'a> {
    ghost use Rattle.ddf_rewrite.specs.Notes as notes;

    ghost Value = { notes.Holding };

    ghost view = { λ one. record { wanted = one.wanted; copied = one.copied; element = one.element } };
}

/// An element with its record on a disk, which is a copy where the disk is no member of it.
pub(crate) fn holding_on<'a>(old: &DiskCopy, wanted: &Wanted<'a>, element: Element) -> Holding<'a>
    ensures { result ≡ record { wanted = wanted.now; copied = is_copied_on old.now.disk_data.reference wanted.now; element = element } }
{
    Holding {
        wanted: wanted.again(),
        copied: !wanted.refers_to(old.disk_data.reference),
        element,
    }
}

/// The holding of an element of an array.
pub(crate) fn find_holding<'a, 'b>(
    holdings: &'b [Holding<'a>],
    array: &Guid,
    index: usize,
) -> Option<&'b Holding<'a>>
    ensures { option_copied result ≡ find_holding array.now index holdings.now }
{
    holdings.iter().find(|holding| holding.wanted.guid == *array && holding.wanted.index == index)
}

/// The slot of an element that a disk holds.
pub(crate) fn element_slot(alloc: Global, holding: &Holding) -> Result<RecordSlot, NoMemory>
    ensures { IfOk result (λ slot. slot ≡ element_slot holding.now) }
{
    let element = duplicate(alloc, &holding.element)?;
    if holding.copied {
        Ok(RecordSlot::Copied(element))
    } else {
        Ok(RecordSlot::Element(element))
    }
}
