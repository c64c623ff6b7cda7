//! Disks that hold a position of an array for the time being.
use crate::filling::name_filling;
use crate::going_back::name_standing;
use crate::shown::group_shown;
use ddf_bay::Bay;
use ddf_bytes::Guid;

/// Names on standard error each disk that a rebuild has begun to fill and that doesn't count yet, how far it is, and how it goes on; and each revertible
/// spare that stands in for a lost disk, and how it gives its place back. The group is assembled once for both.
pub fn name_interim<R, B: Bay>(rt: &R, bay: &mut B, paths: &[String], named: Option<Guid>)
where
    R: Eprint + AllocGlobal,
{
    if let Ok(Some(group)) = group_shown(rt, bay, named) {
        name_filling(rt, paths, &group);
        name_standing(rt, paths, &group);
    }
}
