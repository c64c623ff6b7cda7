//! What standard error says of a bad block log that isn't honoured. docs/REFUSALS.md#31-bad-blocks-on-slot-s
use ddf_badblocks::{EntryFault, Unfit};
use ddf_bay::Bay;
use ddf_edge::OneLine;
use ddf_logs::{LogDefect, defect_at};

/// The way out where a log doesn't fit.
const LEAVE_OUT: &str =
    "read without this image, where the array can do without its disk, loses nothing";

/// Says why the log of a disk isn't honoured, behind a command that was refused for it, and the way out. The disks are seen as they are written.
pub(crate) fn name_log<R, B>(rt: &R, bay: &mut B, paths: &[String], slot: usize)
where
    R: Eprint + AllocGlobal,
    B: Bay,
{
    let Some(path) = paths.get(slot) else {
        return;
    };
    if slot >= bay.slots() {
        return;
    }
    let path = OneLine(path);
    let _ = match defect_at(rt.alloc(), bay, slot) {
        Ok(Some(defect)) => {
            let (what, way) = text_of(defect);
            match place_of(defect) {
                Some(place) => eprintln!(rt;
                    "ddf: slot {slot} ({path}): entry {place} of its bad block log, counted from 0, {what}; {way}"
                ),
                None => eprintln!(rt; "ddf: slot {slot} ({path}): {what}; {way}"),
            }
        }
        Ok(None) => eprintln!(rt;
            "ddf: slot {slot} ({path}): its bad block log can be served by now; give the command again"
        ),
        Err(_) => eprintln!(rt;
            "ddf: slot {slot} ({path}): its bad block log can't be read by now"
        ),
    };
}

/// The entry that doesn't fit, where it is one.
fn place_of(defect: LogDefect) -> Option<usize> {
    match defect {
        LogDefect::Unfit(Unfit::Entry(place, _) | Unfit::Shared(place)) => Some(place),
        _ => None,
    }
}

/// What is wrong, and the way out.
fn text_of(defect: LogDefect) -> (&'static str, &'static str) {
    match defect {
        LogDefect::Differ => (
            "its two copies carry different bad block logs",
            "assemble its own group first: that makes them alike",
        ),
        LogDefect::Unlisted => (
            "its bad block log has entries, and its table of disks doesn't list the disk itself",
            LEAVE_OUT,
        ),
        LogDefect::Unfit(unfit) => (unfit_text(unfit), LEAVE_OUT),
    }
}

fn unfit_text(unfit: Unfit) -> &'static str {
    match unfit {
        Unfit::SpareArea => {
            "the spare area of its bad block log lies among the sectors of arrays or of records, or passes the anchor"
        }
        Unfit::Entry(_, EntryFault::NoSpare) => "has no spare sectors",
        Unfit::Entry(_, EntryFault::BehindArrays) => "has sectors behind those of arrays",
        Unfit::Entry(_, EntryFault::OnRecords) => "has sectors among the disk's records",
        Unfit::Entry(_, EntryFault::PastSpares) => "has spare sectors behind the spare area",
        Unfit::Shared(_) => "has a sector in common with one before it",
    }
}
