//! What one copy says, read from the copy where it is asked for.
ghost use Rattle.std.specs.Prelude.{◌≡◌, filter_map, map};
ghost use Rattle.std.specs.Option.{option_copied};

use crate::HeldRecord;
use crate::disks::find_entry;
use crate::flags::is_missing;
use crate::held::{find_held, find_note};
use crate::slots::{spare_names, valid_notes};
use ddf_bytes::Guid;
use ddf_config_records::{Notes, RecordSlot, SlotNote};
use ddf_copy::DiskCopy;
use ddf_tables::{ArrayRow, DiskRow};
use std::marker::Model;

/// What one copy says of its disk and of its group. It holds no copy of what it says. Contracts see it as the view of the copy.
#[derive(Drop)]
pub struct View<'a> {
    copy: &'a DiskCopy,
    notes: Option<&'a Notes>,
}

impl<'a> Model for View<'a> {
    ghost use Rattle.std.specs.Prelude.{◌≡◌};
    ghost use Rattle.std.specs.Option.{option_copied};
    ghost use Rattle.ddf_view.specs.View as views;

    ghost Value = { views.View };

    ghost view = { λ view. views.view_of view.copy.now };

    ghost invariant = { λ view. option_copied view.notes ≡ views.notes_of view.copy.now };
}

#[tactic(auto, unfolding(crate::specs::View::view_of, crate::specs::View::lists_current, crate::specs::View::lists_missing))]
impl<'a> View<'a> {
    ghost use Rattle.ddf_view.specs.View.{
      array_of,
      disk_of,
      find_held,
      find_note,
      key_of_slot,
      lists_current,
      lists_itself,
      lists_missing,
      view_of,
    };
    ghost use Rattle.ddf_view.specs.Differ.{key_of};
    ghost use Rattle.ddf_view.specs.Spares.{spare_names};

    /// The view of a copy.
    pub fn new(copy: &'a DiskCopy) -> View<'a>
        ensures { result ≡ view_of copy.now }
    {
        let notes = valid_notes(copy.slots.items(), &copy.header.guid, copy.header.sequence);
        View { copy, notes }
    }

    /// The same view once more.
    pub fn again(&self) -> View<'a>
        ensures { result ≡ self.now }
    {
        View {
            copy: self.copy,
            notes: self.notes,
        }
    }

    /// The GUID of the group.
    pub fn group(&self) -> Guid
        ensures { result ≡ self.now.group }
    {
        self.copy.header.guid
    }

    /// The sequence number.
    pub fn sequence(&self) -> u32
        ensures { result ≡ self.now.sequence }
    {
        self.copy.header.sequence
    }

    /// The GUID of the copy's own disk.
    pub fn guid(&self) -> Guid
        ensures { result ≡ self.now.guid }
    {
        self.copy.disk_data.guid
    }

    /// The reference of the copy's own disk.
    pub fn reference(&self) -> u32
        ensures { result ≡ self.now.reference }
    {
        self.copy.disk_data.reference
    }

    /// Whether there are valid notes.
    pub fn is_noted(&self) -> bool
        ensures { result ≡ self.now.noted }
    {
        self.notes.is_some()
    }

    /// The rows of the physical disk records. The used ones are the disks that the copy lists.
    pub fn disk_rows(&self) -> &'a [DiskRow]
        ensures { filter_map disk_of result.now ≡ self.now.disks }
    {
        self.copy.disks.rows()
    }

    /// The rows of the virtual disk records. The used ones are the arrays that the copy lists.
    pub fn array_rows(&self) -> &'a [ArrayRow]
        ensures { filter_map array_of result.now ≡ self.now.arrays }
    {
        self.copy.arrays.rows()
    }

    /// The slots of the configuration records.
    pub(crate) fn slots(&self) -> &'a [RecordSlot]
        ensures { filter_map key_of_slot result.now ≡ map key_of self.now.elements }
    {
        self.copy.slots.items()
    }

    /// Whether the copy lists a disk as a current member.
    pub fn lists_current(&self, guid: &Guid, reference: u32) -> bool
        ensures { result ≡ lists_current self.now guid.now reference }
    {
        match find_entry(self.copy.disks.rows(), guid, reference) {
            Some(disk) => !is_missing(&disk),
            None => false,
        }
    }

    /// Whether the copy lists a disk as a missing member.
    pub fn lists_missing(&self, guid: &Guid, reference: u32) -> bool
        ensures { result ≡ lists_missing self.now guid.now reference }
    {
        match find_entry(self.copy.disks.rows(), guid, reference) {
            Some(disk) => is_missing(&disk),
            None => false,
        }
    }

    /// Whether the copy lists its own disk as a current member.
    pub fn lists_itself(&self) -> bool
        ensures { result ≡ lists_itself self.now }
    {
        self.lists_current(&self.guid(), self.reference())
    }

    /// The record that counts of an element of an array, with its note.
    pub fn find_held(&self, array: &Guid, index: usize) -> Option<HeldRecord<'a>>
        ensures { result ≡ find_held array.now index self.now.elements }
    {
        find_held(self.notes, self.copy.slots.items(), array, index)
    }

    /// The first note of an element of an array.
    pub fn find_note(&self, array: &Guid, index: usize) -> Option<&'a SlotNote>
        ensures { option_copied result ≡ find_note array.now index self.now.elements }
    {
        find_note(self.notes, self.copy.slots.items(), array, index)
    }

    /// Whether the first spare record names the array.
    pub(crate) fn spare_names(&self, array: &Guid) -> bool
        ensures { result ≡ spare_names array.now self.now }
    {
        spare_names(self.copy.slots.items(), array)
    }
}
