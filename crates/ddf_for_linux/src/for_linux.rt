//! What standard error says of Linux: disks and arrays that it doesn't take, and arrays whose first resync it hadn't finished.
//! docs/LINUX.md#what-linux-starts
use crate::linux_bay::LinuxBay;
use ddf_arrays_left::{failed_array, group_shown, slot_filled};
use ddf_assembly::Group;
use ddf_bay::Bay;
use ddf_bytes::Guid;
use ddf_config::{Array, slot_of};
use ddf_disk_commands::layout_for;
use ddf_edge::OneLine;
use ddf_name::NameText;
use ddf_update::NewLayout;
use ddf_words::{Command, Creation, DiskStyle, Wish};

/// The most sectors of a disk that is too small for Linux.
const TOO_SMALL: u64 = 65_536;

/// The least stripe size code that Linux starts: strips of 4 KiB.
const LEAST_CODE: u8 = 3;

/// The least stripe size code of a RAID 0 whose blocks Linux finds where they are: strips of 2 KiB.
const LEAST_STRIPED: u8 = 2;

/// The most disks of a mirror that Linux starts.
const MOST_MIRRORS: usize = 3;

/// The init state of an array that was wholly initialised, in bits 0 and 1.
const INITIALISED: u8 = 2;

/// The layout of the disks that a command makes for Linux, of so many that are there, if it makes any.
pub fn made_for_linux(command: &Command, disks: usize) -> Option<NewLayout> {
    match command {
        Command::Label {
            style: DiskStyle::Linux,
            large,
            slots,
        } => Some(layout_for(*large, slots.items(), disks)),
        _ => None,
    }
}

/// Names on standard error what a command that is done made for Linux, and Linux doesn't take.
pub fn name_untaken<R: Eprint, B: LinuxBay>(rt: &R, bay: &B, paths: &[String], command: &Command) {
    match command {
        Command::Label {
            style: DiskStyle::Linux,
            slots,
            ..
        } => name_small(rt, bay, paths, slots.items()),
        Command::Change(Wish::Create(creation)) if is_on_linux(bay, creation) => {
            name_unstarted(rt, creation, is_on_small(bay, creation));
        }
        _ => {}
    }
}

/// Names each of these slots, or of all where there are none, whose disk is too small.
fn name_small<R: Eprint, B: LinuxBay>(rt: &R, bay: &B, paths: &[String], slots: &[u8]) {
    for (slot, path) in paths.iter().enumerate() {
        let is_named = slots.is_empty() || slots.iter().any(|other| usize::from(*other) == slot);
        if is_named && is_small(bay, slot) {
            let path = OneLine(path);
            let _ = eprintln!(rt;
                "ddf: slot {slot} ({path}): Linux doesn't take it: it has no more than {TOO_SMALL} sectors"
            );
        }
    }
}

/// Whether the disk of a slot is too small for Linux, where there is such a slot.
fn is_small<B: LinuxBay>(bay: &B, slot: usize) -> bool {
    slot < bay.slots() && bay.size(slot) <= TOO_SMALL
}

/// Whether a new array has an element on a disk that is too small for Linux.
fn is_on_small<B: LinuxBay>(bay: &B, creation: &Creation) -> bool {
    let mut is_on = false;
    for element in creation.elements.items() {
        for slot in element.slots.items() {
            is_on |= is_small(bay, usize::from(*slot));
        }
    }
    is_on
}

/// Whether a new array has an element on a disk of Linux's kind.
fn is_on_linux<B: LinuxBay>(bay: &B, creation: &Creation) -> bool {
    let mut is_on = false;
    for element in creation.elements.items() {
        for slot in element.slots.items() {
            is_on |= bay.turns(usize::from(*slot));
        }
    }
    is_on
}

/// Names a new array that Linux doesn't start, and why. A disk of it may be too small.
fn name_unstarted<R: Eprint>(rt: &R, creation: &Creation, is_on_small: bool) {
    if let Some(why) = obstacle_of(creation, is_on_small) {
        let name = padded(creation);
        let name = NameText(&name);
        let _ = eprintln!(rt; "ddf: array {name}: Linux doesn't start it{why}");
    }
}

/// Names on standard error a new array on disks of Linux's kind that Linux would read as something else. Whether it is one.
pub fn name_misread<R: Eprint, B: LinuxBay>(rt: &R, bay: &B, creation: &Creation) -> bool {
    if !is_on_linux(bay, creation) {
        return false;
    }
    let Some(why) = misreading_of(creation) else {
        return false;
    };
    let name = padded(creation);
    let name = NameText(&name);
    let _ = eprintln!(rt; "ddf: array {name}: {why}");
    true
}

/// What Linux makes of a new array that it reads as something else.
fn misreading_of(creation: &Creation) -> Option<&'static str> {
    let elements = creation.elements.items();
    match creation.secondary {
        Some(0x00 | 0x03) if are_of_different_sizes(creation) => Some(
            "its elements give different BLOCKS, and Linux reads such an array as something else: what it writes there destroys blocks of this array and of others",
        ),
        None if creation.level == 0x00 && creation.code < LEAST_STRIPED => Some(
            "its strips are shorter than 2 KiB, and Linux reads such an array as something else; take code 3 or more",
        ),
        None if creation.level == 0x01 && elements.iter().any(|one| one.blocks % 2 == 1) => Some(
            "its BLOCKS are an odd number, and Linux counts whole KiB: it neither serves nor rebuilds the last block; take an even number",
        ),
        _ => None,
    }
}

/// Whether elements give different numbers of blocks.
fn are_of_different_sizes(creation: &Creation) -> bool {
    match creation.elements.items() {
        [first, others @ ..] => others.iter().any(|other| other.blocks != first.blocks),
        [] => false,
    }
}

/// The name of a new array with blanks after it.
fn padded(creation: &Creation) -> [u8; 16] {
    let mut padded = [b' '; 16];
    for (byte, character) in padded.iter_mut().zip(creation.name.items()) {
        *byte = *character;
    }
    padded
}

/// Why Linux doesn't start a new array, or not whole, if it doesn't.
fn obstacle_of(creation: &Creation, is_on_small: bool) -> Option<&'static str> {
    match (obstacle_of_shape(creation), creation.level) {
        (Some(why), _) => Some(why),
        (None, _) if is_on_small => {
            Some(" with all its disks: it takes none of 65536 sectors or less")
        }
        (None, 0x04 | 0x05) => Some(
            " without --force: nothing has made its parity agree with its data yet",
        ),
        (None, _) => None,
    }
}

/// Why Linux starts no array of this shape, if it doesn't.
fn obstacle_of_shape(creation: &Creation) -> Option<&'static str> {
    let elements = creation.elements.items();
    let is_single = elements.len() == 1;
    let is_wide = elements
        .iter()
        .any(|element| element.slots.items().len() > MOST_MIRRORS);
    match (creation.level, creation.qualifier) {
        (0x0F, _) => Some(": it has no JBOD"),
        (0x1F, _) => Some(": it has no concatenation"),
        (0x04, 0) => Some(": it has no RAID 4 with its parity first"),
        (0x01, _) if is_wide => Some(": it has no RAID 1 of four disks and more"),
        (0x01, _) if is_single => None,
        _ if !is_single && is_foreign(creation) => {
            Some(": of several elements it has those of RAID 1 alone, striped or spanned")
        }
        _ if !is_single && is_uneven(creation) => {
            Some(": of several elements it has those of equally many disks alone")
        }
        (0x00, _) => None,
        _ if creation.code < LEAST_CODE => Some(": it has no strips of less than 4 KiB (code 3)"),
        _ => None,
    }
}

/// Whether Linux doesn't take several elements so.
fn is_foreign(creation: &Creation) -> bool {
    creation.level != 0x01 || !matches!(creation.secondary, Some(0x00 | 0x03))
}

/// Whether the elements have different numbers of disks.
fn is_uneven(creation: &Creation) -> bool {
    match creation.elements.items() {
        [first, others @ ..] => {
            let count = first.slots.items().len();
            others
                .iter()
                .any(|element| element.slots.items().len() != count)
        }
        [] => false,
    }
}

/// The group that a command is over, where a disk of Linux's kind is there.
fn group_on_linux<R, B: LinuxBay>(rt: &R, bay: &mut B, named: Option<Guid>) -> Option<Group>
where
    R: AllocGlobal,
{
    if !(0..bay.slots()).any(|slot| bay.turns(slot)) {
        return None;
    }
    match group_shown(rt, bay, named) {
        Ok(group) => group,
        Err(_) => None,
    }
}

/// Names on standard error each array on disks of Linux's kind that Linux left before its first resync had ended: its records
/// call it consistent.
pub fn name_unfinished<R, B: LinuxBay>(rt: &R, bay: &mut B, named: Option<Guid>)
where
    R: Eprint + AllocGlobal,
{
    let Some(group) = group_on_linux(rt, bay, named) else {
        return;
    };
    for (_, array) in &group.config().arrays {
        if is_unfinished(array) && lies_on_linux(bay, &group, array) {
            let name = NameText(&array.name);
            let _ = eprintln!(rt;
                "ddf: array {name}: Linux had not finished its first resync; blocks that need parity may be wrong"
            );
        }
    }
}

/// Whether an array that keeps its data twice is called consistent, and was never wholly initialised.
fn is_unfinished(array: &Array) -> bool {
    array.is_redundant() && !array.is_marked() && array.init % 4 < INITIALISED
}

/// Whether a position of an array lies on a disk of Linux's kind.
fn lies_on_linux<B: LinuxBay>(bay: &B, group: &Group, array: &Array) -> bool {
    let mut lies = false;
    for element in array.elements.items().iter().flatten() {
        for position in element.positions.as_slice() {
            lies |= bay.turns(slot_of(group.seats(), position.reference));
        }
    }
    lies
}

/// Says on standard error what is to be done with a lost disk before Linux sees the others, where a group on disks of Linux's kind
/// lists one as missing.
pub fn name_lost_on_linux<R, B: LinuxBay>(rt: &R, bay: &mut B, named: Option<Guid>)
where
    R: Eprint + AllocGlobal,
{
    let Some(group) = group_on_linux(rt, bay, named) else {
        return;
    };
    if has_missing(&group) {
        tell_lost(rt, &group);
    }
}

/// Says what is to be done with the lost disks of a group before Linux sees the others.
fn tell_lost<R: Eprint + AllocGlobal>(rt: &R, group: &Group) {
    let _ = match failed_array(rt, group) {
        Ok(Some(name)) => {
            let name = NameText(&name);
            eprintln!(rt;
                "ddf: before Linux sees these disks take each lost one out of the machine: Linux believes its records, old as they are. Wipe none of them: array {name} is failed, and a lost disk may be all that has some of its blocks (docs/STOPS.md, under 'A disk wasn't named')"
            )
        }
        Ok(None) => eprintln!(rt;
            "ddf: before Linux sees these disks take each lost one out of the machine, or wipe its records (wipefs -a -t ddf_raid_member): Linux believes them, old as they are"
        ),
        Err(_) => Ok(()),
    };
}

/// Names on standard error each array on disks of Linux's kind of which a rebuild has begun and hasn't ended.
pub fn name_unrebuilt<R, B: LinuxBay>(rt: &R, bay: &mut B, named: Option<Guid>)
where
    R: Eprint + AllocGlobal,
{
    let Some(group) = group_on_linux(rt, bay, named) else {
        return;
    };
    for (_, array) in &group.config().arrays {
        if slot_filled(&group, array).is_some() && lies_on_linux(bay, &group, array) {
            let name = NameText(&array.name);
            let _ = eprintln!(rt;
                "ddf: array {name}: a rebuild has begun and hasn't ended; end it (rebuild {name}) before Linux sees these disks"
            );
        }
    }
}

/// Whether a group lists a member as missing.
fn has_missing(group: &Group) -> bool {
    for (_, member) in &group.config().members {
        if member.missing {
            return true;
        }
    }
    false
}

/// Names on standard error each slot whose checksums are turned.
pub fn name_turned<R: Eprint, B: LinuxBay>(rt: &R, bay: &B) {
    for slot in 0..bay.slots() {
        if bay.turns(slot) {
            let _ = eprintln!(rt; "ddf: slot {slot}: checksums as Linux's mdadm counts them");
        }
    }
}
