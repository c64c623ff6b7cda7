//! Laws of disks that are founded for Linux: functions that do nothing, whose contracts are the laws.
ghost use Rattle.std.specs.Prelude.{◌≡◌, ◌⊎◌, ◌-◌, ◌<◌, ◌≤◌, ℕ, false, List, Some, Err, slice_get, slice_index};
ghost use Rattle.ddf_bytes.specs.declared.stamp.Stamp.{Stamp};
ghost use Rattle.ddf_bay.specs.ReadsOnly.{ReadsOnly};
ghost use Rattle.ddf_bay.specs.Sectors.{Image, IsLeft, IsWhole};
ghost use Rattle.ddf_bay.specs.State.{size_of};
ghost use Rattle.ddf_seal.specs.Seal.{IsSealed};
ghost use Rattle.ddf_header.specs.declared.kind.Revision.{Revision};
ghost use Rattle.ddf_header.specs.Header.{header_signature};
ghost use Rattle.ddf_copy.specs.declared.copy.DiskCopy.{DiskCopy};
ghost use Rattle.ddf_copy.specs.declared.fault.AnchorFault.TheVariants.{Blank};
ghost use Rattle.ddf_copy.specs.Anchor.{anchor_at};
ghost use Rattle.ddf_copy.specs.Headers.{anchor_header};
ghost use Rattle.ddf_update.specs.declared.new_layout.NewLayout.{NewLayout};
ghost use Rattle.ddf_update.specs.Group.{IsLeftFoundingAll};
ghost use Rattle.ddf_update.specs.NewCopies.{new_copy};
ghost use Rattle.ddf_update.specs.NewLayouts.{least_sectors};
ghost use Rattle.ddf_update.specs.Update.{AreBoth};
ghost use Rattle.ddf_linux.specs.declared.kind.SlotKind.{SlotKind};
ghost use Rattle.ddf_linux.specs.declared.turned.Turned.{Turned};
ghost use Rattle.ddf_linux.specs.Founded.{IsBlankOrWhole, IsDiskForLinux, IsOnNewDisk, below};
ghost use Rattle.ddf_linux.specs.declared.places.Places.{Places};
ghost use Rattle.ddf_linux.specs.Kinds.{IsSeenAs, kind_of_sectors, turn};
ghost use Rattle.ddf_linux.specs.Places.{names, new_places, signature_of};
ghost use Rattle.ddf_linux.specs.TurnedBays.{disks_of, inner_of, kind_of};

use ddf_bay::Bay;

/// Where new disks of a layout are founded for Linux, a slot that is seen blank, and has room for one, is seen at the places of such a disk.
/// There lie the records of each new copy.
pub fn a_blank_slot_is_seen_as_a_new_disk<B: Bay + Drop>()
    ensures kind { (layout : NewLayout) (inner : B) (bay : Turned B) (slot : ℕ) → ReadsOnly (B.disks inner) (B.disks (inner_of bay)) → IsSeenAs (Some layout) (B.disks inner) slot (kind_of bay slot)
        → least_sectors layout ≤ size_of (B.disks inner) slot → anchor_at (size_of (B.disks inner) slot) ((disks_of B.disks bay).held slot) ≡ Err Blank
        → kind_of bay slot ≡ SlotKind.Turned (new_places layout (size_of (B.disks inner) slot)) }
    ensures places { (layout : NewLayout) (revision : Revision) (stamp : Stamp) (sizes : List ℕ) (place : ℕ) → IsOnNewDisk layout (slice_index sizes place) (new_copy layout revision stamp sizes place).header }
{}

/// A copy that is seen in both places of such a slot is sealed in Linux's kind below: each of its records in both places, and the anchor. So it is
/// of whatever a stop may leave.
// promise:linux
pub fn a_founded_disk_is_sealed_for_linux<B: Bay + Drop>()
    ensures { (layout : NewLayout) (bay : Turned B) (image : Image) → IsLeft (disks_of B.disks bay).may_hold image → (slot : ℕ) (copy : DiskCopy)
        → least_sectors layout ≤ size_of (B.disks (inner_of bay)) slot → kind_of bay slot ≡ SlotKind.Turned (new_places layout (size_of (B.disks (inner_of bay)) slot))
        → IsOnNewDisk layout (size_of (B.disks (inner_of bay)) slot) copy.header
        → AreBoth (size_of (B.disks (inner_of bay)) slot) (image slot) (anchor_header copy) copy
        → IsDiskForLinux layout (size_of (B.disks (inner_of bay)) slot) (below (kind_of bay slot) (image slot)) }
{}

/// An anchor that names other places than those by which its slot is turned is left as it is. Where it is sealed as the standard says, a bay that
/// is made anew sees the whole slot as it is. So a disk whose copies are moved is none of Linux's any more.
pub fn an_anchor_of_other_places_is_left<B: Bay + Drop>()
    ensures left { (bay : Turned B) (slot : ℕ) (places : Places) (anchor : List ℕ) → kind_of bay slot ≡ SlotKind.Turned places
        → signature_of anchor ≡ header_signature → names places anchor ≡ false → turn (kind_of bay slot) places.anchor anchor ≡ anchor }
    ensures anew { (size : ℕ) (sector : ℕ → List ℕ) → IsWhole (sector (size - 1)) → IsSealed header_signature (sector (size - 1))
        → kind_of_sectors size sector ≡ SlotKind.Plain }
{}

/// What a stop leaves of a founding, a bay that is made anew sees blank, or with its copy in both places and turned at the places of a new disk, but
/// for a slot that is as it might have been left before.
// promise:linux
pub fn a_founding_cut_short_is_seen_blank_or_whole<B: Bay + Drop>()
    ensures { (layout : NewLayout) (bay : Turned B) (slots : List ℕ) (copy : ℕ → DiskCopy) (image : Image) → IsLeftFoundingAll (disks_of B.disks bay) slots copy image
        → (place slot : ℕ) → slice_get slots place ≡ Some slot
        → least_sectors layout ≤ size_of (B.disks (inner_of bay)) slot → kind_of bay slot ≡ SlotKind.Turned (new_places layout (size_of (B.disks (inner_of bay)) slot))
        → IsOnNewDisk layout (size_of (B.disks (inner_of bay)) slot) (copy place).header
        → ((l : ℕ) → (disks_of B.disks bay).may_hold slot l (image slot l))
        ⊎ IsBlankOrWhole layout (size_of (B.disks (inner_of bay)) slot) (below (kind_of bay slot) (image slot)) (copy place) }
{}
