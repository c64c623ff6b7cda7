//! The laws of moved copies: functions that do nothing, whose contracts are the laws.
ghost use Rattle.std.specs.Prelude.{◌≡◌, ◌+◌, ◌<◌, ◌≤◌, ℕ, List, Some, false, filter, length, true, is_some, slice_get};
ghost use Rattle.ddf_config.specs.declared.extent.Extent.{Extent};
ghost use Rattle.ddf_header.specs.declared.reading.Header.{Header};
ghost use Rattle.ddf_tables.specs.Arrays.{is_used_array};
ghost use Rattle.ddf_tables.specs.Disks.{is_used_disk};
ghost use Rattle.ddf_config_records.specs.declared.fault.ElementFault.{ElementFault};
ghost use Rattle.ddf_config_records.specs.declared.slot.RecordSlot.TheVariants as slots;
ghost use Rattle.ddf_config_records.specs.ElementValue.{ElementValue};
ghost use Rattle.ddf_config_records.specs.NoteRecords.{is_named};
ghost use Rattle.ddf_copy.specs.declared.copy.DiskCopy.{DiskCopy};
ghost use Rattle.ddf_copy.specs.declared.which.Which.{Which};
ghost use Rattle.ddf_copy.specs.Headers.{IsUnder, anchor_header};
ghost use Rattle.ddf_copy.specs.Which.{place_of};
ghost use Rattle.ddf_update.specs.Update.{IsOfCopy};
ghost use Rattle.ddf_moving.specs.Copies.{moved_copy};
ghost use Rattle.ddf_moving.specs.Numbers.{same_numbers, same_records};
ghost use Rattle.ddf_moving.specs.Moves.{IsInSection, IsUntaken, MayBeMoved};

/// Where nothing stands in the way, a disk with a copy that stands under its anchor has a moved copy. It can be written under an anchor of its
/// own. Each sector of it lies in the workspace, behind the sectors at its front, and is none of the copies that are there, of any of their
/// sections, read or not, and of the extents; those at the front are none of diagnostic space, of a vendor's log, and of the extents. It has the
/// numbers of the disk that it is like, and the workspace begins where it began.
pub fn a_moved_copy_lies_apart()
    ensures made { (size room : ℕ) (anchor : Header) (old like : DiskCopy) (extents : List Extent) → MayBeMoved size room anchor old like extents
        → is_some (moved_copy old like) ≡ true }
    ensures under { (size room : ℕ) (anchor : Header) (old like made : DiskCopy) (extents : List Extent) → MayBeMoved size room anchor old like extents
        → moved_copy old like ≡ Some made → IsUnder size (anchor_header made) made }
    ensures within { (size room : ℕ) (anchor : Header) (old like made : DiskCopy) (extents : List Extent) → MayBeMoved size room anchor old like extents
        → moved_copy old like ≡ Some made → (own : Which) (l : ℕ) → IsOfCopy (place_of own made.header) made.header.geometry l
        → (old.header.geometry.workspace_lba + 18 ≤ l) × (l < old.header.geometry.workspace_lba + old.header.geometry.workspace_length) }
    ensures apart { (size room : ℕ) (anchor : Header) (old like made : DiskCopy) (extents : List Extent) → MayBeMoved size room anchor old like extents
        → moved_copy old like ≡ Some made → (own which : Which) (l : ℕ) → IsOfCopy (place_of own made.header) made.header.geometry l
        → IsOfCopy (place_of which anchor) old.header.geometry l → ⊥ }
    ensures sections { (size room : ℕ) (anchor : Header) (old like made : DiskCopy) (extents : List Extent) → MayBeMoved size room anchor old like extents
        → moved_copy old like ≡ Some made → (own which : Which) (l : ℕ) → IsOfCopy (place_of own made.header) made.header.geometry l
        → (section : ℕ) → section < 8 → IsInSection (place_of which anchor) old.header.geometry section l → ⊥ }
    ensures front { (size room : ℕ) (anchor : Header) (old like : DiskCopy) (extents : List Extent) → MayBeMoved size room anchor old like extents
        → (l : ℕ) → old.header.geometry.workspace_lba ≤ l → l < old.header.geometry.workspace_lba + 18 → IsUntaken anchor old extents l }
    ensures extents { (size room : ℕ) (anchor : Header) (old like made : DiskCopy) (extents : List Extent) → MayBeMoved size room anchor old like extents
        → moved_copy old like ≡ Some made → (own : Which) (l : ℕ) → IsOfCopy (place_of own made.header) made.header.geometry l
        → (k : ℕ) (extent : Extent) → slice_get extents k ≡ Some extent → extent.start ≤ l → l < extent.start + extent.blocks → ⊥ }
    ensures numbers { (old like made : DiskCopy) → moved_copy old like ≡ Some made → same_numbers made like ≡ true }
    ensures workspace { (old like made : DiskCopy) → moved_copy old like ≡ Some made → made.header.geometry.workspace_lba ≡ old.header.geometry.workspace_lba }
{}

/// What a moved copy keeps: the used rows of both tables, in their order, where they fit; at its slot, where there is one, each element of the disk
/// whose members fit, but for unread bytes, and, where records have the same size, each record of a vendor that isn't called as notes are, and each
/// that isn't read; the controller data, the disk data, the group and its sequence number.
pub fn what_a_moved_copy_keeps()
    ensures disks { (old like made : DiskCopy) → moved_copy old like ≡ Some made → length (filter is_used_disk old.disks.rows) ≤ like.header.geometry.max_disks
        → filter is_used_disk made.disks.rows ≡ filter is_used_disk old.disks.rows }
    ensures arrays { (old like made : DiskCopy) → moved_copy old like ≡ Some made → length (filter is_used_array old.arrays.rows) ≤ like.header.geometry.max_arrays
        → filter is_used_array made.arrays.rows ≡ filter is_used_array old.arrays.rows }
    ensures element { (old like made : DiskCopy) (k : ℕ) (element : ElementValue) → moved_copy old like ≡ Some made → k < length like.slots
        → slice_get old.slots k ≡ Some (slots.Element element) → length element.members ≤ like.header.geometry.max_members
        → (rest : List ℕ) × (slice_get made.slots k ≡ Some (slots.Element (record element { rest = rest }))) }
    ensures vendor { (old like made : DiskCopy) (k : ℕ) (guid rest : List ℕ) → moved_copy old like ≡ Some made → k < length like.slots
        → slice_get old.slots k ≡ Some (slots.Vendor guid rest) → same_records old.header.geometry like.header.geometry ≡ true → is_named rest ≡ false
        → slice_get made.slots k ≡ Some (slots.Vendor guid rest) }
    ensures unread { (old like made : DiskCopy) (k : ℕ) (fault : ElementFault) (kept : List ℕ) → moved_copy old like ≡ Some made → k < length like.slots
        → slice_get old.slots k ≡ Some (slots.Unread fault kept) → same_records old.header.geometry like.header.geometry ≡ true
        → slice_get made.slots k ≡ Some (slots.Unread fault kept) }
    ensures stays { (old like made : DiskCopy) → moved_copy old like ≡ Some made → (made.controller ≡ old.controller) × (made.disk_data ≡ old.disk_data)
        × (made.header.guid ≡ old.header.guid) × (made.header.sequence ≡ old.header.sequence) }
{}
