//! What `examine` lists of the newest copy.
ghost use Rattle.std.specs.Prelude.{◌≡◌, ◌++◌, IfOk, IfSome, Some, option_map};
ghost use Rattle.std.specs.List.{flat_map};
ghost use Rattle.std.specs.String.{string_bytes};
ghost use Rattle.ddf_text.specs.CopyText.{listed, newest_text, newest_word};
ghost use Rattle.ddf_text.specs.Records.{
  array_line,
  bad_blocks_line,
  disk_line,
  element_line,
  guid_text,
  member_text,
  record_line,
  record_lines,
  sections_text,
  spare_line,
};

use crate::records::{ArrayLine, DiskLine, ElementLayout, ElementName, MemberText};
use ddf_bytes::{Guid, Hex8, NoMemory};
use ddf_config_records::{Element, Place, RecordSlot, SpareRecord};
use ddf_copy::{DiskCopy, Newest, Which};
use ddf_tables::{ArrayRow, BadBlockLog, DiskRow};
use std::alloc::Global;
use std::fmt;

/// Adds the lines of the newest copy to a text: which one it is, and its records.
#[tactic(auto, unfolding(crate::specs::CopyText::newest_text))]
pub(crate) fn push_newest(alloc: Global, text: &mut String, newest: &Newest) -> Result<(), NoMemory>
    ensures { IfOk result (λ done. string_bytes text.new ≡ string_bytes text.old ++ newest_text newest.now) }
{
    let word = newest_word(newest);
    push(alloc, text, &format!(in alloc; "newest {word}\n")?)?;
    match listed_copy(newest) {
        Some(copy) => push_sections(alloc, text, copy),
        None => Ok(()),
    }
}

/// Which copy is the newest, in one word.
fn newest_word(newest: &Newest) -> &'static str
    ensures { result.now ≡ newest_word newest.now }
{
    match newest {
        Newest::One(Which::Primary, _) => "primary",
        Newest::One(Which::Secondary, _) => "secondary",
        Newest::Level(_) => "level",
        Newest::TwoDiffer(..) => "differ",
        Newest::Neither(..) => "neither",
    }
}

/// The copy whose records are listed.
fn listed_copy(newest: &Newest) -> Option<&DiskCopy>
    ensures { option_map (λ copy. copy.now) result ≡ listed newest.now }
{
    match newest {
        Newest::One(_, copy) | Newest::Level(copy) | Newest::TwoDiffer(copy, _) => Some(copy),
        Newest::Neither(..) => None,
    }
}

fn push_sections(alloc: Global, text: &mut String, copy: &DiskCopy) -> Result<(), NoMemory>
    ensures { IfOk result (λ done. string_bytes text.new ≡ string_bytes text.old ++ sections_text copy.now) }
{
    push_all(alloc, text, copy.disks.rows())?;
    push_all(alloc, text, copy.arrays.rows())?;
    push_records(alloc, text, copy.slots.items())?;
    push_bad_blocks(alloc, text, &copy.bad)?;
    Ok(())
}

fn push_bad_blocks(
    alloc: Global,
    text: &mut String,
    bad_blocks: &Option<BadBlockLog>,
) -> Result<(), NoMemory>
    ensures { IfOk result (λ done. string_bytes text.new ≡ string_bytes text.old ++ bad_blocks_line bad_blocks.now) }
{
    if let Some(log) = bad_blocks {
        let count = log.entries().len();
        push(alloc, text, &format!(in alloc; "bad blocks {count}\n")?)?;
    }
    Ok(())
}

fn push_records(alloc: Global, text: &mut String, slots: &[RecordSlot]) -> Result<(), NoMemory>
    ensures { IfOk result (λ done. string_bytes text.new ≡ string_bytes text.old ++ record_lines 0 slots.now) }
{
    for (number, slot) in slots.iter().enumerate() {
        push_record(alloc, text, number, slot)?;
    }
    Ok(())
}

/// Adds the line of a slot of the configuration records.
fn push_record(
    alloc: Global,
    text: &mut String,
    number: usize,
    slot: &RecordSlot,
) -> Result<(), NoMemory>
    ensures { IfOk result (λ done. string_bytes text.new ≡ string_bytes text.old ++ record_line number slot.now) }
{
    match slot {
        RecordSlot::Element(element) => push_element(alloc, text, number, "element", element),
        RecordSlot::Copied(element) => push_element(alloc, text, number, "copy", element),
        RecordSlot::Spare(spare) => push_spare(alloc, text, number, spare),
        RecordSlot::Notes(notes) => {
            let sequence = notes.sequence;
            push(
                alloc,
                text,
                &format!(in alloc; "record {number} notes sequence {sequence}\n")?,
            )?;
            Ok(())
        }
        RecordSlot::Vendor(guid, _) => {
            push(
                alloc,
                text,
                &format!(in alloc; "record {number} vendor {guid}\n")?,
            )?;
            Ok(())
        }
        RecordSlot::Unread(..) => {
            push(alloc, text, &format!(in alloc; "record {number} unread\n")?)?;
            Ok(())
        }
        RecordSlot::Unused(_) => Ok(()),
    }
}

fn push_element(
    alloc: Global,
    text: &mut String,
    number: usize,
    kind: &str,
    element: &Element,
) -> Result<(), NoMemory>
    ensures { IfOk result (λ done. string_bytes text.new ≡ string_bytes text.old ++ element_line number kind.now element.now) }
{
    let name = ElementName(element);
    let layout = ElementLayout(element);
    push(
        alloc,
        text,
        &format!(in alloc; "record {number} {kind}{name}{layout}")?,
    )?;
    push_all(alloc, text, element.members.as_slice())?;
    text.push_str("\n")?;
    Ok(())
}

fn push_spare(
    alloc: Global,
    text: &mut String,
    number: usize,
    spare: &SpareRecord,
) -> Result<(), NoMemory>
    ensures { IfOk result (λ done. string_bytes text.new ≡ string_bytes text.old ++ spare_line number spare.now) }
{
    let kind = Hex8(spare.kind);
    push(
        alloc,
        text,
        &format!(in alloc; "record {number} spare {kind}")?,
    )?;
    push_all(alloc, text, spare.arrays.items())?;
    text.push_str("\n")?;
    Ok(())
}

/// What is listed item by item.
trait Listed {
    ghost use Rattle.std.specs.Prelude.{ℕ, List};

    ghost text_of: { Self → List ℕ };

    /// Adds the item's own text.
    fn push_to(&self, alloc: Global, text: &mut String) -> Result<(), NoMemory>
        ensures { IfOk result (λ done. string_bytes text.new ≡ string_bytes text.old ++ text_of self.now) };
}

impl Listed for DiskRow {
    ghost text_of = { disk_line };

    fn push_to(&self, alloc: Global, text: &mut String) -> Result<(), NoMemory> {
        match self {
            DiskRow::Entry(disk) => push(alloc, text, &DiskLine(disk)),
            DiskRow::Unused(_) => Ok(()),
        }
    }
}

impl Listed for ArrayRow {
    ghost text_of = { array_line };

    fn push_to(&self, alloc: Global, text: &mut String) -> Result<(), NoMemory> {
        match self {
            ArrayRow::Entry(array) => push(alloc, text, &ArrayLine(array)),
            ArrayRow::Unused(_) => Ok(()),
        }
    }
}

impl Listed for Place {
    ghost text_of = { member_text };

    fn push_to(&self, alloc: Global, text: &mut String) -> Result<(), NoMemory> {
        push(alloc, text, &MemberText(self))
    }
}

impl Listed for Guid {
    ghost text_of = { guid_text };

    fn push_to(&self, alloc: Global, text: &mut String) -> Result<(), NoMemory> {
        text.push_str(" ")?;
        push(alloc, text, self)
    }
}

/// Adds the texts of items, one after another.
fn push_all<T: Listed>(alloc: Global, text: &mut String, items: &[T]) -> Result<(), NoMemory>
    ensures { IfOk result (λ done. string_bytes text.new ≡ string_bytes text.old ++ flat_map T.text_of items.now) }
{
    for item in items {
        item.push_to(alloc, text)?;
    }
    Ok(())
}

/// Adds what an item displays.
pub(crate) fn push<T: fmt::Display>(
    alloc: Global,
    text: &mut String,
    item: &T,
) -> Result<(), NoMemory>
    ensures { IfOk result (λ done. IfSome (T.output item.now) (λ bytes. string_bytes text.new ≡ string_bytes text.old ++ bytes)) }
{
    let line = item.to_string(alloc)?;
    text.push_str(line.as_str())?;
    Ok(())
}
