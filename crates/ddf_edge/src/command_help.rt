//! What `--help` says of each command; the whole is in docs/COMMANDS.md, and `scripts/man.py --check` compares the two.

/// What `--help` after a command prints: its arguments in the first line, what it does, an example, its statuses.
pub fn part_of(command: &str) -> Option<&'static str> {
    match command {
        "examine" | "show" | "read" | "scrub" => part_of_look(command),
        "assemble" | "spare" | "rebuild" | "copyback" | "fail" | "import" => part_of_repair(
            command,
        ),
        "label" | "create" | "resync" | "accept" | "write" | "delete" => part_of_making(command),
        "batch" => Some(BATCH),
        "exercise" => Some(EXERCISE),
        _ => None,
    }
}

/// The arguments of a command, as the first line of its help has them.
pub fn synopsis_of(command: &str) -> Option<&'static str> {
    match part_of(command) {
        Some(part) => part.lines().next(),
        None => None,
    }
}

fn part_of_look(command: &str) -> Option<&'static str> {
    match command {
        "examine" => Some(EXAMINE),
        "show" => Some(SHOW),
        "read" => Some(READ),
        "scrub" => Some(SCRUB),
        _ => None,
    }
}

fn part_of_repair(command: &str) -> Option<&'static str> {
    match command {
        "assemble" => Some(ASSEMBLE),
        "spare" => Some(SPARE),
        "rebuild" => Some(REBUILD),
        "copyback" => Some(COPYBACK),
        "fail" => Some(FAIL),
        "import" => Some(IMPORT),
        _ => None,
    }
}

fn part_of_making(command: &str) -> Option<&'static str> {
    match command {
        "label" => Some(LABEL),
        "create" => Some(CREATE),
        "resync" => Some(RESYNC),
        "accept" => Some(ACCEPT),
        "write" => Some(WRITE),
        "delete" => Some(DELETE),
        _ => None,
    }
}

const EXAMINE: &str = "\
ddf IMAGE.. -- examine

Prints what each disk holds: its anchor, its two copies of the records, and each record of the
newest copy. Writes nothing. A disk that can't be read is status 3; the others are printed.

  ddf d0.img d1.img -- examine
";

const SHOW: &str = "\
ddf IMAGE.. -- [@GROUP] show

Prints the group as its disks record it: its members with their slots, its arrays with their
blocks and states, and what is missing or behind. Writes nothing. Begin with it.

  ddf d0.img d1.img d2.img -- show
";

const READ: &str = "\
ddf IMAGE.. -- [@GROUP] read NAME START COUNT

Prints COUNT blocks of an array, from block START on, and nothing else: 512 bytes each. Both may
be sizes: 1M is 2048 blocks. A block is taken from another copy or from parity where a disk is
missing or can't be read. Writes nothing. Status 1: nothing was printed but the refusal. Status 3:
a block can't be read.

  ddf d0.img d1.img d2.img -- read home 0 16384 >home.img
";

const SCRUB: &str = "\
ddf IMAGE.. -- [@GROUP] scrub NAME

Prints whether the copies and the parity of an array agree, or the first row that differs. That
they differ is status 0 too. Writes nothing.

  ddf d0.img d1.img d2.img -- scrub home
";

const ASSEMBLE: &str = "\
ddf IMAGE.. -- [@GROUP] assemble

Writes: it finishes what a crash cut short, and drops members whose disks are missing, for good.
Then it prints the group, as show does. Where all is in order nothing is written. Name every
disk of the group.

  ddf d0.img d1.img d2.img -- assemble
";

const SPARE: &str = "\
ddf IMAGE.. -- [@GROUP] spare SLOT global | spare SLOT revertible | spare SLOT for NAME.. | spare SLOT off

Writes: it makes a disk without arrays a spare for all arrays, or for those that are named, or
no spare any more. rebuild fills it in place of a lost disk. A revertible one is for all arrays,
and gives its place back: copyback moves what it holds to a new disk, and it is a spare again.

  ddf d0.img d1.img d2.img d3.img -- spare 3 global
";

const REBUILD: &str = "\
ddf IMAGE.. -- [@GROUP] rebuild NAME

Writes: it fills a spare in place of a disk that an array has lost. Stopped half way, the same
command goes on where it was. It fills one disk a call: give it until show says optimal.

  ddf d0.img d2.img d3.img -- rebuild home
";

const COPYBACK: &str = "\
ddf IMAGE.. -- [@GROUP] copyback NAME SLOT

Writes: it copies what a revertible spare holds in place of a lost disk to the disk in SLOT, and
puts the array there in one step. The spare is a spare again. The array can do without as many
disks as before at any moment. Stopped half way it has changed no block: give assemble, and take
no disk away before that has ended with status 0. Where the spare holds it still begin anew.

  ddf d0.img d1.img spare.img new.img -- copyback home new.img
";

const FAIL: &str = "\
ddf IMAGE.. -- [@GROUP] fail SLOT

Writes: it takes a disk out of use, for good. Nothing is read from it any more, and arrays on it
are degraded until rebuild has filled a spare. At a terminal you are asked.

  ddf d0.img d1.img d2.img d3.img -- fail d1.img
";

const IMPORT: &str = "\
ddf IMAGE.. -- [@GROUP] import GUID

Writes: it takes the disks and the arrays of the group GUID into the group: a new disk that was
labelled alone, or another machine's disks. GUID is the 48 digits after 'group' in what examine
prints. Members that are missing on either side are lost to the group. Name @GROUP too.

  ddf d0.img d1.img new.img -- @GROUP import GUID
";

const LABEL: &str = "\
ddf IMAGE.. -- label [linux] [large] [SLOT..]

Writes: it makes a new group of these blank disks, or of all that are named: at most 63. Up to 15
need 33,000 sectors each, and their group has room for 15 disks and 15 arrays. More than 15, and
all with large, need 33,320, for 63 disks and 59 arrays. With linux it is a group that Linux's
mdadm takes. What is on a disk is lost; one that isn't empty is named, and at a terminal you are
asked.

  ddf d0.img d1.img d2.img -- label
";

const CREATE: &str = "\
ddf IMAGE.. -- [@GROUP] create NAME LEVEL CODE SECONDARY SLOT,SLOT..@BLOCKS..

Writes: it makes an array NAME (1 to 16 printable ASCII characters without space) of LEVEL.
CODE is n for strips of 2^n sectors: 7 is 64 KiB. SECONDARY is single for one element, and
striped, mirrored, concat or spanned for several. Each element is its disks, as numbers or
images with commas between, @, and the blocks of each disk: a number (2048 are 1 MiB), a size as
4G, or 100% for all that is free in one piece. CODE may be a size too, as 64K. An array that keeps
its data twice begins marked: resync it, or accept it where its disks agree.

  RAID 5, 3 disks   ddf d0.img d1.img d2.img -- create home raid5.rnc 64K single 0,1,2@4M
  RAID 1, 2 disks   ddf d0.img d1.img -- create root raid1 0 single d0.img,d1.img@8192
  RAID 10, 4 disks  ddf d?.img -- create fast raid1 7 striped 0,1@8192 2,3@8192
";

const RESYNC: &str = "\
ddf IMAGE.. -- [@GROUP] resync NAME

Writes: it makes the copies and the parity of an array agree, and takes its mark away. Do it once
for a new array, and after a crash while blocks were written. Stopped half way, give it again.

  ddf d0.img d1.img d2.img -- resync home
";

const ACCEPT: &str = "\
ddf IMAGE.. -- [@GROUP] accept NAME

Writes: it takes the copies and the parity of a marked array to agree, on your word, and takes
its mark away. Right for new disks of zeros alone, or where a lost disk leaves no other way:
parity that is wrong gives wrong blocks then. At a terminal you are asked.

  ddf d0.img d1.img -- accept root
";

const WRITE: &str = "\
ddf IMAGE.. -- [@GROUP] write NAME START COUNT

Writes COUNT blocks of an array, from block START on, with the bytes of standard input: 512 for
each. Status 7: the input ended early, and the first blocks are written. Cut by a crash, each
block is old or new, and the array may be marked: resync it, then write again.

  ddf d0.img d1.img d2.img -- write home 0 2048 <part.img
";

const DELETE: &str = "\
ddf IMAGE.. -- [@GROUP] delete NAME

Writes: it takes an array out of the records. Its blocks stay as they are until something else is
written there, and no command finds them again. At a terminal you are asked.

  ddf d0.img d1.img d2.img -- delete home
";

const BATCH: &str = "\
ddf IMAGE.. -- [@GROUP] batch

Does the commands on the lines of standard input, one after another, each without IMAGE.. and
@GROUP: any but examine, label, read, write, batch and exercise. A line that is refused ends
nothing, and the status is 1 then; one that ends with a status from 3 on is the last.

  printf '%s\\n' 'spare 3 global' 'fail 1' 'rebuild home' | ddf d?.img -- batch
";

const EXERCISE: &str = "\
ddf -- exercise SEED ROUNDS

Tries the commands on disks in memory: SEED is a number below 2^64, ROUNDS one up to 256. Arrays
are made, disks are lost, and what was written is read. No image is touched.

  ddf -- exercise 1 100
";
