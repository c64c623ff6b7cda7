//! Disks whose records end before their last sectors, as some controllers write them. docs/RESCUE.md#disks-of-controllers
use ddf_edge::OneLine;
use ddf_shortened::Ends;

/// Names on standard error each slot that is seen 256 sectors shorter than it is. Whether a command that may write is to be asked about: no
/// controller has been seen to take what is written to such a disk.
pub fn name_early<R: Eprint>(rt: &R, ends: Ends, paths: &[String], writes: bool) -> bool {
    let mut any = false;
    for (slot, path) in paths.iter().enumerate() {
        if ends.is_early(slot) {
            any = true;
            tell_early(rt, slot, path, writes);
        }
    }
    any && writes
}

/// Says so of one.
fn tell_early<R: Eprint>(rt: &R, slot: usize, path: &str, writes: bool) {
    let path = OneLine(path);
    let what = if writes {
        "nobody tried on such a controller what is written here"
    } else {
        "it is served so"
    };
    let _ = eprintln!(rt;
        "ddf: slot {slot} ({path}): its records end 256 sectors before its end, as some controllers write them; {what}"
    );
}
