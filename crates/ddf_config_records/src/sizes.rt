//! How much the records of a geometry hold.
ghost use Rattle.std.specs.Prelude.{◌≡◌, ◌↔◌, ◌≤◌, ◌/◌, List, ℕ, IsTrue, length};
ghost use Rattle.ddf_config_records.specs.Elements.{HasRoom, record_size};
ghost use Rattle.ddf_config_records.specs.NoteRecords.{note_place};
ghost use Rattle.ddf_config_records.specs.Slots.{slot_count};
ghost use Rattle.ddf_config_records.specs.Building.{spare_entries};

use crate::decoding::record_size;
use crate::layout;
use crate::notes_reading::note_size;
use ddf_header::Geometry;

/// How many slots a section of so many bytes holds whole.
pub fn slot_count(geometry: &Geometry, section_bytes: usize) -> usize
    requires { HasRoom geometry.now }
    ensures exact { result ≡ section_bytes / record_size geometry.now }
    ensures section { (section : List ℕ) → length section ≡ section_bytes → result ≡ slot_count geometry.now section }
{
    section_bytes / record_size(geometry)
}

/// Whether a notes record has room for the notes of so many slots (profile).
pub fn notes_fit(geometry: &Geometry, slots: usize) -> bool
    ensures { IsTrue result ↔ (note_place geometry.now.max_members slots ≤ record_size geometry.now) }
{
    let size = record_size(geometry);
    size >= layout::NOTES_AT && slots <= (size - layout::NOTES_AT) / note_size(geometry.max_members)
}

/// How many arrays a spare record has room for.
pub fn spare_entries(geometry: &Geometry) -> usize
    ensures { result ≡ spare_entries geometry.now }
{
    record_size(geometry).saturating_sub(layout::SPARE_ENTRIES_AT) / layout::SPARE_ENTRY_BYTES
}
