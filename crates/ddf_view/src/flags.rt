//! The flags of a disk's entry.
ghost use Rattle.std.specs.Prelude.{◌≡◌, ◌||◌};
ghost use Rattle.ddf_view.specs.View.{has_bit, is_missing};
ghost use Rattle.ddf_view.specs.Reading.{is_good};

use bitflags::Flags;
use ddf_tables::{DiskEntry, DiskState, DiskType};

fn is_failed(state: DiskState) -> bool
    ensures { result ≡ has_bit state.0 1 }
{
    state.contains(DiskState::FAILED)
}

fn is_absent(state: DiskState) -> bool
    ensures { result ≡ has_bit state.0 6 }
{
    state.contains(DiskState::MISSING)
}

fn is_online(state: DiskState) -> bool
    ensures { result ≡ has_bit state.0 0 }
{
    state.contains(DiskState::ONLINE)
}

/// Whether a state says that the disk is being rebuilt.
pub fn is_rebuilding(state: DiskState) -> bool
    ensures { result ≡ has_bit state.0 2 }
{
    state.contains(DiskState::REBUILDING)
}

/// Whether the type says that the disk is a spare for every array.
pub fn is_global(kind: DiskType) -> bool
    ensures { result ≡ has_bit kind.0 2 }
{
    kind.contains(DiskType::GLOBAL_SPARE)
}

/// Whether the type says that the disk is a spare for some arrays, or, of one for every array, that it gives its place back.
pub(crate) fn is_spare(kind: DiskType) -> bool
    ensures { result ≡ has_bit kind.0 3 }
{
    kind.contains(DiskType::SPARE)
}

/// Whether a disk is failed or missing.
pub(crate) fn is_missing(disk: &DiskEntry) -> bool
    ensures { result ≡ is_missing disk.now }
{
    is_failed(disk.state) || is_absent(disk.state)
}

/// Whether a disk is a current member that is online and isn't being rebuilt.
pub(crate) fn is_good(disk: &DiskEntry) -> bool
    ensures { result ≡ is_good disk.now }
{
    !is_missing(disk) && is_online(disk.state) && !is_rebuilding(disk.state)
}
