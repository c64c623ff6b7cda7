//! What a bay of hidden logs keeps of the bay below: functions that do nothing, whose contracts are the laws.
ghost use Rattle.std.specs.Prelude.{◌≡◌, ◌-◌, ℕ, List, Ok, Some, length, option_map, slice_get};
ghost use Rattle.ddf_bay.specs.Sectors.{Image, IsLeft, IsWhole};
ghost use Rattle.ddf_bay.specs.State.{size_of};
ghost use Rattle.ddf_header.specs.declared.reading.Header.{Header};
ghost use Rattle.ddf_tables.specs.BadBlocks.{LogValue};
ghost use Rattle.ddf_copy.specs.declared.copy.DiskCopy.{DiskCopy};
ghost use Rattle.ddf_copy.specs.declared.which.Which.{Which};
ghost use Rattle.ddf_copy.specs.Anchor.{anchor_at};
ghost use Rattle.ddf_copy.specs.Copies.{copies_of, copy_of, newest_of, standing_copy};
ghost use Rattle.ddf_update.specs.declared.prepared.Mode.TheVariants.{Change};
ghost use Rattle.ddf_update.specs.declared.prepared.Prepared.{Prepared};
ghost use Rattle.ddf_update.specs.Changes.{IsLeftChangingAll, MayChangeAll, SlotChange};
ghost use Rattle.ddf_update.specs.Update.{AreBoth, IsChanging};
ghost use Rattle.ddf_logs.specs.Logs.{bad_in, configured_size, exchange_at};
ghost use Rattle.ddf_hidden_logs.specs.Lasting.{CarryLog, exchanged_at};
ghost use Rattle.ddf_hidden_logs.specs.declared.hidden.Hidden.{Hidden};
ghost use Rattle.ddf_hidden_logs.specs.HiddenBays.{disks_of, inner_of, mask_of, masks_of};
ghost use Rattle.ddf_hidden_logs.specs.Masks.{turn};
ghost use Rattle.ddf_hidden_logs.specs.Recounts.{recounted_copy, recounted_log, with_log};
ghost use Rattle.ddf_hidden_logs.specs.Shown.{mask_at, shown_at};
ghost use Rattle.ddf_hidden_logs.specs.WasShown.{WasShown};

use crate::hidden::Hidden;
use ddf_bay::Bay;

/// The anchor of a slot is seen as it is. The copy that stands for its disk is seen where it stands, with a log that counts what counts against
/// the disk: all else of it is as it is, and it is seen standing for the disk, whatever the other copy is. What is seen through a mask and turned
/// once more is what stands there.
pub fn a_disk_shows_what_counts_against_it()
    ensures anchor { (size : ℕ) (sector : ℕ → List ℕ) → anchor_at size (shown_at size sector) ≡ anchor_at size sector }
    ensures copy { (size : ℕ) (sector : ℕ → List ℕ) (anchor : Header) (which : Which) (copy : DiskCopy) → ((l : ℕ) → IsWhole (sector l)) → anchor_at size sector ≡ Ok anchor
        → copy_of size sector anchor which ≡ Ok copy → standing_copy (newest_of size sector anchor) ≡ Some copy
        → copy_of size (shown_at size sector) anchor which ≡ Ok (recounted_copy (bad_in (size - 1) anchor (copies_of size sector anchor)) copy) }
    ensures newest { (size : ℕ) (sector : ℕ → List ℕ) (anchor : Header) → ((l : ℕ) → IsWhole (sector l)) → anchor_at size sector ≡ Ok anchor
        → standing_copy (newest_of size (shown_at size sector) anchor) ≡ option_map (recounted_copy (bad_in (size - 1) anchor (copies_of size sector anchor))) (standing_copy (newest_of size sector anchor)) }
    ensures count { (size : ℕ) (sector : ℕ → List ℕ) (anchor : Header) (which : Which) (copy : DiskCopy) → ((l : ℕ) → IsWhole (sector l))
        → copy_of size sector anchor which ≡ Ok copy → (log : LogValue) → copy.bad ≡ Some log
        → length (recounted_log (bad_in (size - 1) anchor (copies_of size sector anchor)) log).entries ≡ bad_in (size - 1) anchor (copies_of size sector anchor) }
    ensures twice { (size : ℕ) (sector : ℕ → List ℕ) (l : ℕ) → turn (mask_at size sector) l (shown_at size sector l) ≡ sector l }
{}

/// What is written of a disk as it is seen stands there with the log that is there: a copy that is read of it later, through the same mask, with
/// the log that is shown is read below with the log that is hidden, and all else of it is what is seen.
pub fn what_is_written_keeps_the_log()
    ensures { (size : ℕ) (before now : ℕ → List ℕ) (anchor : Header) (which again : Which) (copy seen : DiskCopy)
        → ((l : ℕ) → IsWhole (before l)) → ((l : ℕ) → IsWhole (now l)) → anchor_at size before ≡ Ok anchor
        → copy_of size before anchor which ≡ Ok copy → standing_copy (newest_of size before anchor) ≡ Some copy
        → copy_of size (λ l. turn (mask_at size before) l (now l)) anchor again ≡ Ok seen
        → seen.bad ≡ (recounted_copy (bad_in (size - 1) anchor (copies_of size before anchor)) copy).bad
        → copy_of size now anchor again ≡ Ok (with_log copy.bad seen) }
{}

/// Where all whole copies of a disk carry one log, and so do those of what is written of it as it is seen, with the log that is shown and as many
/// sectors for arrays, what stands there gives the mask and the exchange that were there: the next look finds what this one found.
pub fn what_is_written_keeps_the_mask()
    ensures shown { (size : ℕ) (before now : ℕ → List ℕ) (anchor : Header) (which : Which) (copy : DiskCopy)
        → ((l : ℕ) → IsWhole (before l)) → ((l : ℕ) → IsWhole (now l))
        → copy_of size before anchor which ≡ Ok copy → standing_copy (newest_of size before anchor) ≡ Some copy
        → CarryLog size before anchor copy.bad (configured_size copy)
        → CarryLog size (λ l. turn (mask_at size before) l (now l)) anchor (recounted_copy (bad_in (size - 1) anchor (copies_of size before anchor)) copy).bad (configured_size copy)
        → CarryLog size now anchor copy.bad (configured_size copy) × (mask_at size now ≡ mask_at size before) × (exchange_at size now ≡ exchange_at size before) }

    // So it is of a disk whose bad sectors are exchanged below: both looks of the next command find what these found.
    ensures exchanged { (size : ℕ) (before now : ℕ → List ℕ) (anchor : Header) (which : Which) (copy : DiskCopy)
        → ((l : ℕ) → IsWhole (before l)) → ((l : ℕ) → IsWhole (now l))
        → copy_of size (exchanged_at size before before) anchor which ≡ Ok copy → standing_copy (newest_of size (exchanged_at size before before) anchor) ≡ Some copy
        → CarryLog size (exchanged_at size before before) anchor copy.bad (configured_size copy)
        → CarryLog size (λ l. turn (mask_at size (exchanged_at size before before)) l (exchanged_at size before now l)) anchor
        (recounted_copy (bad_in (size - 1) anchor (copies_of size (exchanged_at size before before) anchor)) copy).bad (configured_size copy)
        → (exchange_at size now ≡ exchange_at size before) × (mask_at size (exchanged_at size before now) ≡ mask_at size (exchanged_at size before before)) }
{}

/// Where all whole copies of a disk carry one log, to the byte, all that are seen through its mask carry the one that is shown. Where they and the
/// new copy carry one log, whatever a stop leaves of a change carries it: with the old copy, the new one, or both.
pub fn a_change_keeps_the_log<B: Bay>()
    ensures shown { (size : ℕ) (before : ℕ → List ℕ) (anchor : Header) (which : Which) (copy : DiskCopy) → ((l : ℕ) → IsWhole (before l))
        → copy_of size before anchor which ≡ Ok copy → standing_copy (newest_of size before anchor) ≡ Some copy
        → CarryLog size before anchor copy.bad (configured_size copy)
        → CarryLog size (shown_at size before) anchor (recounted_copy (bad_in (size - 1) anchor (copies_of size before anchor)) copy).bad (configured_size copy) }
    ensures stopped { (size : ℕ) (before now : ℕ → List ℕ) (update : Prepared) (anchor : Header) (last : Which) (old new : DiskCopy)
        → CarryLog size before anchor new.bad (configured_size new) → copy_of size before anchor last ≡ Ok old → IsChanging size before now update anchor last old new
        → CarryLog size now anchor new.bad (configured_size new) }
    ensures changed { (size : ℕ) (before now : ℕ → List ℕ) (anchor : Header) (new : DiskCopy)
        → CarryLog size before anchor new.bad (configured_size new) → AreBoth size now anchor new → CarryLog size now anchor new.bad (configured_size new) }
    ensures all { (bay : B) (slots : List ℕ) (seat : ℕ → SlotChange) (updates : List Prepared) (image : Image)
        → MayChangeAll (B.disks bay) slots seat updates → IsLeftChangingAll (B.disks bay) slots seat updates image
        → (place slot : ℕ) (update : Prepared) → slice_get slots place ≡ Some slot → slice_get updates place ≡ Some update → (seat place).mode ≡ Change
        → CarryLog (size_of (B.disks bay) slot) ((B.disks bay).held slot) (seat place).anchor (seat place).new.bad (configured_size (seat place).new)
        → CarryLog (size_of (B.disks bay) slot) (image slot) (seat place).anchor (seat place).new.bad (configured_size (seat place).new) }
{}

/// A bay of hidden logs goes on from another one of the same masks as the bay below it does: it is left what might be left, and where the bay
/// below is left one image, it is left the one that is seen there. With other masks it goes on so too, where all is seen through them that was
/// seen through the others.
pub fn a_bay_of_hidden_logs_goes_on_where_the_bay_below_does<B: Bay + Drop>()
    ensures stopped { (old new : Hidden B) → masks_of new ≡ masks_of old
        → ((image : Image) → IsLeft (B.disks (inner_of new)).may_hold image → IsLeft (B.disks (inner_of old)).may_hold image)
        → (image : Image) → IsLeft (disks_of B.disks new).may_hold image → IsLeft (disks_of B.disks old).may_hold image }
    ensures cut { (old new : Hidden B) → masks_of new ≡ masks_of old → (image : Image)
        → ((left : Image) → IsLeft (B.disks (inner_of new)).may_hold left → left ≡ (λ s l. turn (mask_of old s) l (image s l)))
        → (left : Image) → IsLeft (disks_of B.disks new).may_hold left → left ≡ image }
    ensures shown { (old new : Hidden B)
        → ((image : Image) → IsLeft (B.disks (inner_of new)).may_hold image → WasShown (IsLeft (B.disks (inner_of old)).may_hold) (masks_of old) (masks_of new) image)
        → (image : Image) → IsLeft (disks_of B.disks new).may_hold image → IsLeft (disks_of B.disks old).may_hold image }
{}
