//! Why commands are refused, and the way out: made by scripts/refusals.py of docs/refusals.tsv.

/// A cause of a refusal: its number, the command that meets it or `any`, why it comes and the way out.
struct Cause {
    number: u16,
    command: &'static str,
    why: &'static str,
    way: &'static str,
}

/// Why a command is refused with this number, and the way out.
pub fn cause_of(number: u16, command: &str) -> Option<(&'static str, &'static str)> {
    let mut found = None;
    for cause in &CAUSES {
        if cause.number == number && (cause.command == command || cause.command == "any") {
            found = Some((cause.why, cause.way));
            if cause.command == command {
                return found;
            }
        }
    }
    found
}

const CAUSES: [Cause; 49] = [
    Cause {
        number: 10,
        command: "any",
        why: "The arguments are no command's, or name one disk twice; P is the place of the first wrong one, from 0 (in a batch, within its line).",
        way: "Read ddf --help.",
    },
    Cause {
        number: 11,
        command: "label",
        why: "The disk's last sector begins as an anchor: it is or was a member of a group.",
        way: "Leave it out if a group needs it. If it is really free, wipe its records first: wipefs -a -t ddf_raid_member DISK.",
    },
    Cause {
        number: 12,
        command: "any",
        why: "No disk shows a group, or none shows the group that was named.",
        way: "Check the images, and compare the GUID with what examine prints.",
    },
    Cause {
        number: 13,
        command: "any",
        why: "The disks show several groups, and none was named: slots A and B show different ones.",
        way: "Name one, by @ and its GUID, or the first digits of it; examine prints it.",
    },
    Cause {
        number: 14,
        command: "any",
        why: "There is no such slot: slots are the images in their order, from 0.",
        way: "Use a number below the number of images, or name the image itself.",
    },
    Cause {
        number: 15,
        command: "any",
        why: "The disk in the slot is no current member of the group.",
        way: "Use a disk that show lists with a slot. A new disk comes in by label and import.",
    },
    Cause {
        number: 16,
        command: "any",
        why: "No array has the name. Where it is # and a number, none stands at that place.",
        way: "Use a name that show lists. # and the array's place there, from 0, names it too; a shell wants that in quotes.",
    },
    Cause {
        number: 17,
        command: "create",
        why: "The name of an array of the group prints as this one; or it is # and digits, the word for a place in show.",
        way: "Take another name.",
    },
    Cause {
        number: 17,
        command: "import",
        why: "The name of an array of the group prints as that of one that joins.",
        way: "No command renames an array: copy the blocks of one of the two by read, delete it, import, and create it anew.",
    },
    Cause {
        number: 18,
        command: "create",
        why: "The RAID level isn't served; or it is raid1e.offset on a disk that Linux reads: Linux keeps blocks at other places under its number.",
        way: "Take a level that ddf --help lists, and on disks of Linux's kind another one than raid1e.offset.",
    },
    Cause {
        number: 18,
        command: "copyback",
        why: "The RAID level isn't served; or it is RAID 1E with offset copies, and Linux reads the disk in the slot, or another tool made the array: Linux keeps blocks at other places under its number.",
        way: "Take a disk of the standard's kind. What another controller made with this level can't be read here.",
    },
    Cause {
        number: 18,
        command: "any",
        why: "The array's RAID level isn't served; or it is RAID 1E with the number of offset copies, and ddf hasn't made it: Linux keeps blocks at other places under it.",
        way: "What another controller made with this level can't be read here.",
    },
    Cause {
        number: 19,
        command: "create",
        why: "The numbers make no array: the level wants another number of disks, the blocks are less than a strip, or two in RAID 1E, a disk is named twice, the elements don't go together, or SECONDARY doesn't fit their number.",
        way: "Check the numbers by PLACING.md.",
    },
    Cause {
        number: 19,
        command: "any",
        why: "The array's records make no array, or one of its extents passes the space of its disk or meets another extent.",
        way: "Compare its record with what examine prints of the other disks. It can be deleted, and not be used.",
    },
    Cause {
        number: 20,
        command: "create",
        why: "The disk in the slot has no free run of so many sectors.",
        way: "Ask for fewer blocks, take another disk, or delete an array that lies on it.",
    },
    Cause {
        number: 20,
        command: "copyback",
        why: "The disk in the slot has no free run as long as the position.",
        way: "Take a larger disk, or delete an array that lies on it.",
    },
    Cause {
        number: 21,
        command: "label",
        why: "A group has at most 63 disks.",
        way: "Label at most 63 disks together.",
    },
    Cause {
        number: 21,
        command: "any",
        why: "A table has no room on some disk: disks, arrays, records, notes or spares.",
        way: "Delete arrays that aren't needed. A missing disk leaves the table of disks with an import, once no array lies on it.",
    },
    Cause {
        number: 22,
        command: "fail",
        why: "An array would be lost with the disk.",
        way: "Rebuild or resync that array first, or delete it.",
    },
    Cause {
        number: 22,
        command: "any",
        why: "Too many of the array's disks are away or out of sync, or no disk holds the record of one of its elements.",
        way: "Bring the missing disks back, and name every disk of the group.",
    },
    Cause {
        number: 23,
        command: "resync",
        why: "A disk of a RAID 4 or 5 is away or out of sync: with its parity set anew nothing would tell what that disk held.",
        way: "Bring the disk back. If it is gone for good, accept the array, then rebuild it.",
    },
    Cause {
        number: 23,
        command: "read",
        why: "The array is marked, and blocks of a missing disk could only come from its parity, which may be wrong.",
        way: "Bring the disk back and resync. If it is gone for good, accept the array. Blocks of the other disks can be read.",
    },
    Cause {
        number: 24,
        command: "any",
        why: "The array is marked: its copies or its parity may not agree with its data.",
        way: "Resync it first. A RAID 4 or 5 that lacks a disk can't be resynced: accept it.",
    },
    Cause {
        number: 25,
        command: "write",
        why: "A disk of a RAID 4 or 5 is away or out of sync.",
        way: "Rebuild it first.",
    },
    Cause {
        number: 26,
        command: "any",
        why: "The blocks pass the end of the array, which has so many.",
        way: "Ask for blocks below that number.",
    },
    Cause {
        number: 27,
        command: "rebuild",
        why: "The array has lost a disk, and there is no spare for it, or only one on which it lies already, or for raid1e.offset one that Linux reads: Linux keeps blocks at other places under its number.",
        way: "Make a disk a spare: spare SLOT global; for raid1e.offset one of the standard's kind. A new disk comes in by label and import.",
    },
    Cause {
        number: 28,
        command: "label",
        why: "A disk has FOUND sectors, and needs at least NEEDED: 33000, or 33320 with large, or for more than 15 disks.",
        way: "Take a larger disk, or label 15 disks at most, without large.",
    },
    Cause {
        number: 28,
        command: "any",
        why: "No spare that may be taken has a free run of NEEDED sectors; the most that one has is FOUND.",
        way: "Make a larger disk a spare, or delete an array that lies on a spare.",
    },
    Cause {
        number: 29,
        command: "import",
        why: "The tables of two disks have different sizes: of disks, arrays, an element's members, records or their sectors.",
        way: "They can't be in one group: copy the data by read and write. A new disk can be made with tables that fit: docs/NEW-DISK.md, under '1. A new disk'.",
    },
    Cause {
        number: 30,
        command: "any",
        why: "The group's sequence number is spent: 4294967280 is the last.",
        way: "Copy its data to a new group. An import is possible the other way round, where the other group goes on.",
    },
    Cause {
        number: 31,
        command: "rebuild",
        why: "The disk in the slot, one of the array's or the spare, lists bad blocks in its log that can't be served at spare places.",
        way: "Make another disk the spare; or fail the slot, where the array can do without it, and rebuild. Where the disk's two copies list different ones, assemble first.",
    },
    Cause {
        number: 31,
        command: "copyback",
        why: "The disk in the slot, one of the array's or the one that the position would go to, lists bad blocks in its log that can't be served at spare places.",
        way: "Take another disk. Where its two copies list different ones, assemble first. A disk of the array is failed and rebuilt, where the array can do without it.",
    },
    Cause {
        number: 31,
        command: "import",
        why: "A disk that joins lists bad blocks in its log that can't be served at spare places.",
        way: "Where its two copies list different ones, assemble its own group first. Else fail its slot there and rebuild, or copy the data by read and write.",
    },
    Cause {
        number: 31,
        command: "any",
        why: "A disk of the array lists bad blocks in its log that can't be served at spare places.",
        way: "Where the disk's two copies list different ones, assemble first. Else read without that disk, where the array can do without it; to go on for good, fail its slot and rebuild.",
    },
    Cause {
        number: 32,
        command: "write",
        why: "The input ended before the bytes of the write: it has so many.",
        way: "Give 512 bytes for each block.",
    },
    Cause {
        number: 33,
        command: "create",
        why: "The disk in the slot is a spare.",
        way: "Take another disk, or give spare SLOT off first.",
    },
    Cause {
        number: 33,
        command: "copyback",
        why: "The disk in the slot is a spare, or the array lies on it.",
        way: "Was a copyback to it cut short before, give assemble first. Else take a new disk, or give spare SLOT off first.",
    },
    Cause {
        number: 33,
        command: "spare",
        why: "An array lies on the disk in the slot.",
        way: "Take a disk on which no array lies, or delete the array.",
    },
    Cause {
        number: 33,
        command: "fail",
        why: "The disk in the slot is the last current member of the group.",
        way: "A group can't lose its last disk. If it isn't needed any more, wipe its records: wipefs -a -t ddf_raid_member DISK.",
    },
    Cause {
        number: 34,
        command: "create",
        why: "An array has the new array's GUID.",
        way: "Give the command again: a GUID comes from the clock and a random number.",
    },
    Cause {
        number: 34,
        command: "import",
        why: "A disk that joins is a member here already, a missing one too, or has its reference; or an array with this GUID is here; or an array lies on a disk that only the other group lists.",
        way: "Where the import was stopped, assemble the group that goes on. A lost disk or a copy of one is to be left out. Of two new disks with one reference label one again.",
    },
    Cause {
        number: 35,
        command: "any",
        why: "The array's state or access bits forbid it: it is being reshaped or deleted, is blocked, or (write) is read only.",
        way: "Whoever set these bits has to clear them: the controller or tool that wrote the records.",
    },
    Cause {
        number: 36,
        command: "batch",
        why: "The input has more than 65536 bytes; no line was run.",
        way: "Give the lines to several calls.",
    },
    Cause {
        number: 38,
        command: "copyback",
        why: "No position of the array is held by a revertible spare that is here and in sync.",
        way: "Was a copyback cut short before, leave each disk where it is, give assemble with all of them, and look at show once that has ended with status 0. Else there is nothing to move: show and assemble name on standard error each spare that stands in. A position that a spare of another kind has filled stays there; one that is being filled is rebuilt first.",
    },
    Cause {
        number: 39,
        command: "any",
        why: "A disk of the group must not be written over: its records are older or newer than a crash leaves them, or it shows another group.",
        way: "See by examine which, and take it away, or name its own group; docs/REFUSALS.md has each case. The group goes on without it then, for good.",
    },
    Cause {
        number: 902,
        command: "any",
        why: "The two copies on the disk have one sequence number and differ: another tool wrote one of them.",
        way: "Take the disk away. The next command that writes goes on without it, for good.",
    },
    Cause {
        number: 903,
        command: "any",
        why: "One disk is there twice: an image beside its copy, or a device under two names.",
        way: "Take one of the two away.",
    },
    Cause {
        number: 900,
        command: "any",
        why: "Two disks of one sequence number disagree: each was changed while the other was away.",
        way: "Keep the disks of one side and take the others away; examine prints what each says, and the data tell which was used last. The next command that writes goes on without the others, for good.",
    },
    Cause {
        number: 901,
        command: "any",
        why: "The disk in slot I was taken away, the others went on without it, and it was changed elsewhere, more often than they were.",
        way: "Keep one side and take the other away; examine prints what each says. The next command that writes goes on without the others, for good.",
    },
];
