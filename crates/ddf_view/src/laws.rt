//! Laws of what copies say: functions that do nothing, whose contracts are the laws.
ghost use Rattle.std.specs.Prelude.{◌≡◌, ◌∷◌, false, true, List};
ghost use Rattle.std.specs.List.{AllByRecursion};
ghost use Rattle.std.specs.Int.RustNames.{bit_or};
ghost use Rattle.ddf_tables.specs.DiskFlags.{spare};
ghost use Rattle.ddf_tables.specs.declared.disks.DiskEntry.{DiskEntry};
ghost use Rattle.ddf_copy.specs.declared.copy.DiskCopy.{DiskCopy};
ghost use Rattle.ddf_copy.specs.Shows.{IsSame};
ghost use Rattle.ddf_copy.specs.Written.{CanBeCopy};
ghost use Rattle.ddf_config.specs.Configuration.{Configuration};
ghost use Rattle.ddf_view.specs.View.{View, has_bit, view_of};
ghost use Rattle.ddf_view.specs.Reading.{read, spare_in};
ghost use Rattle.ddf_view.specs.Alike.{NoneDiffers, are_alike};
ghost use Rattle.ddf_view.specs.Shows.{shows, shows_fully};
ghost use Rattle.ddf_view.specs.Readable.{AreReadable, DoNamesDiffer, HasNotes};
ghost use Rattle.ddf_view.specs.Readings.{IsAsRead};

/// What a disk shows is determined up to level copies: these have one view.
pub fn level_copies_have_one_view()
    ensures { (one other : DiskCopy) → IsAsRead one → IsAsRead other
        → one.header.geometry ≡ other.header.geometry → IsSame one other → view_of one ≡ view_of other }
{}

/// Of copies that are alike none differs from another one.
pub fn alike_copies_agree()
    ensures { (views : List View) → are_alike views ≡ true → NoneDiffers views }
{}

/// No two disks that a copy lists have one reference, and no two arrays one GUID, where the copy was read or can be written.
pub fn names_differ()
    ensures { (copy : DiskCopy) (views : List View) → CanBeCopy copy → DoNamesDiffer (view_of copy ∷ views) }
{}

/// Bit 3 of the type alone makes no disk a spare: records alone tell for which arrays a disk stands in. So a disk that has the bit because
/// it is being filled is no spare.
pub fn a_disk_that_is_being_filled_is_no_spare()
    ensures { (views : List View) (disk : DiskEntry) → has_bit disk.kind.0 2 ≡ false → spare_in views (record disk { kind = record { 0 = bit_or disk.kind.0 spare } }) ≡ spare_in views disk }
{}

/// Views of which the first shows a configuration fully, and the others show it, give it together.
pub fn views_give_what_they_show()
    ensures { (config : Configuration) (view : View) (views : List View) → AreReadable config → HasNotes view
        → shows_fully config view ≡ true → AllByRecursion (λ one. shows config one ≡ true) views
        → read config.group config.sequence (view ∷ views) ≡ config }
{}
