//! What the program says of itself. docs/COMMANDS.md#arguments
use crate::command_help::part_of;

/// The first line of what `--help` prints.
pub const FIRST_LINE: &str =
    "Usage: ddf [--careful | --yes] IMAGE.. -- [@GROUP] COMMAND [ARGUMENT..]";

/// The arguments, and what becomes of them.
pub const USAGE: &str = "\
Usage: ddf [--careful | --yes] IMAGE.. -- [@GROUP] COMMAND [ARGUMENT..]

Reads, repairs and changes groups of disks in the SNIA DDF RAID format. IMAGE.. are ALL disks
of the group, disk images or block devices: a command that changes the group drops a disk that
isn't named from it, for good. A SLOT is the number of an image, from 0, or the image itself.
A block is 512 bytes. ddf COMMAND --help tells more of a command.

Look, and write nothing:
  examine          what each disk holds
  show             the group as its disks record it: its disks and arrays, what is missing
  read NAME START COUNT
                   blocks of an array, to standard output
  scrub NAME       whether the copies and the parity of an array agree

Put in order, and replace a disk:
  assemble         finish what a crash cut short; members that are missing are dropped
  spare SLOT global | spare SLOT revertible | spare SLOT for NAME.. | spare SLOT off
                   what a disk may stand in for
  rebuild NAME     fill a spare in place of a lost disk; goes on where it was stopped
  copyback NAME SLOT
                   move what a revertible spare holds to a new disk; it is a spare again
  fail SLOT        take a disk out of use, for good
  import GUID      take in a new disk, or the disks and arrays of another group

Make and fill:
  label [linux] [large] [SLOT..]
                   a new group of blank disks; with linux one that Linux's mdadm takes, with
                   large one with room for 63 disks, and not for 15
  create NAME LEVEL CODE SECONDARY SLOT,SLOT..@BLOCKS..
                   a new array, as: create home raid5.rnc 7 single 0,1,2@8192
  resync NAME      make the copies and the parity of a new array agree; do it once
  accept NAME      or take them to agree, on your word
  write NAME START COUNT
                   blocks of an array, from standard input
  delete NAME      take an array out of the records

And:
  batch            do the commands on the lines of standard input
  exercise SEED ROUNDS
                   try the commands on disks in memory; no image is touched

LEVEL is raid0, raid1, raid1e.adjacent, raid1e.offset, raid4.first, raid4.last, raid5.r0,
raid5.rn, raid5.rnc, jbod or concat. mdadm's right-asymmetric is raid5.r0, left-asymmetric
raid5.rn, left-symmetric raid5.rnc, and its RAID 10 of an odd number of disks raid1e.adjacent.
CODE is n for strips of 2^n sectors: 7 is 64 KiB, 10 is 512 KiB. SECONDARY is single, or over
several elements striped (RAID 10, 50), mirrored, concat or spanned. BLOCKS are those that each
disk gives: 2048 are 1 MiB. Sizes with K, M, G or T are taken too, as 64K for CODE 7, and 100% for
all that is free in one piece.

@GROUP is @ and the 48 digits of a group's GUID, or the first of them, where the disks show more
than one group.
Before a command loses a member, writes over a disk that isn't empty, fails a disk, or deletes or
accepts an array, standard error says so, and you are asked where any of the three standard
streams is a terminal. --yes asks nothing. --careful, or DDF_CAREFUL=1 in the environment, does
nothing there, and ends with status 3.

Disks are opened for reading alone by commands that write nothing. Others don't touch a disk
that is mounted, swapped to, part of another device, or protected from writes. Each disk is
locked as long as a command runs.

Exit status: 0 done, 1 refused, 2 wrong arguments, 3 a disk failed or can't be opened, or you
said no, 4 records contradict each other, 5 out of memory, 6 input or output failed, 7 input
ended early. At 1, 2, 4 and 5 nothing was written, but by other lines of a batch.

The manual is ddf(8): each refusal with the way out.
";

const VERSION: &str = "ddf 0.2.0\n";

/// The text for `--help`, `--version` or another word for them alone, and for a command whose help is asked for.
pub fn answer(words: &[String]) -> Option<&'static str> {
    match words {
        [word] => answer_to(word),
        [first, second] if is_help(first) => part_of(second),
        _ => help_of_command(words),
    }
}

fn answer_to(word: &str) -> Option<&'static str> {
    match word {
        "--help" | "-h" | "help" => Some(USAGE),
        "--version" | "-V" | "version" => Some(VERSION),
        _ => None,
    }
}

fn is_help(word: &str) -> bool {
    matches!(word, "--help" | "-h" | "help")
}

/// The help of the last word but one, where that is a command that stands alone or after the dashes, and the last word asks for help.
fn help_of_command(words: &[String]) -> Option<&'static str> {
    match words {
        [.., before, command, last] if is_asked(before, last) => part_of(command),
        [command, last] if is_asked("--", last) => part_of(command),
        _ => None,
    }
}

/// Whether a command's help is asked for by the word after it, where the one before it is the dashes or a group.
fn is_asked(before: &str, last: &str) -> bool {
    matches!(last, "--help" | "-h") && (before == "--" || before.starts_with('@'))
}
