//! Every command with its words, as a value. What its words are is in the files beside this, and what it may do in `traits.rt`.
//! docs/COMMANDS.md
ghost use Rattle.std.specs.Prelude.{◌≡◌};

use ddf_bytes::{Guid, Seq};

/// What the words ask for.
#[derive(Drop)]
pub struct Asked {
    /// The group that the command is to take, where the words name one.
    pub group: Option<Guid>,
    /// The command.
    pub command: Command,
}

/// A command of the program.
#[derive(Drop)]
pub enum Command {
    /// Shows what the disks hold.
    Examine,
    /// Makes the first copies of the disks of a new group. Without slots it takes all.
    Label {
        /// How the disks are made.
        style: DiskStyle,
        /// Whether the group is to be a large one, whatever the number of its disks.
        large: bool,
        /// The slots, each from 0 to 63, in the order of the words.
        slots: Seq<u8>,
    },
    /// Recovers a group, and shows its members and arrays.
    Assemble,
    /// Shows the members and the arrays of a group as its disks record them.
    Show,
    /// Reads blocks of an array.
    Read {
        /// The name of the array, as the words give it: its plain bytes, or `hex:` and the digits of all its bytes.
        name: Seq<u8>,
        /// The first block, at most 2^60.
        start: u64,
        /// How many blocks, at most 2^60.
        count: u64,
    },
    /// Tells whether the copies and the parity of an array agree.
    Scrub {
        /// The name of the array, as the words give it.
        name: Seq<u8>,
    },
    /// Makes the copies and the parity of an array agree.
    Resync {
        /// The name of the array, as the words give it.
        name: Seq<u8>,
    },
    /// Fills a position of an array that is out of sync.
    Rebuild {
        /// The name of the array, as the words give it.
        name: Seq<u8>,
    },
    /// Moves a position of an array back from a revertible spare onto the disk of a slot.
    Copyback {
        /// The name of the array, as the words give it.
        name: Seq<u8>,
        /// The slot, from 0 to 63.
        slot: u8,
    },
    /// Writes blocks of an array, with bytes that it takes from the input.
    Write {
        /// The name of the array, as the words give it.
        name: Seq<u8>,
        /// The first block, at most 2^60.
        start: u64,
        /// How many blocks, at most 2^60.
        count: u64,
    },
    /// Takes the disks and the arrays of another group into a group.
    Import {
        /// The other group.
        group: Guid,
    },
    /// Changes a group.
    Change(Wish),
}

/// How the disks of a new group are made.
#[derive(Clone, Copy)]
pub enum DiskStyle {
    /// As the standard says, in its latest revision.
    Standard,
    /// As Linux's mdadm takes them: of the revision that it takes, and sealed as it counts checksums.
    Linux,
}

/// What a change of a group is asked for.
#[derive(Drop)]
pub enum Wish {
    /// Creates an array.
    Create(Creation),
    /// Deletes an array.
    Delete {
        /// The name of the array, as the words give it.
        name: Seq<u8>,
    },
    /// Takes the copies and the parity of an array to agree.
    Accept {
        /// The name of the array, as the words give it.
        name: Seq<u8>,
    },
    /// Makes the disk of a slot a spare, or no spare.
    Spare {
        /// The slot, from 0 to 63.
        slot: u8,
        /// What the disk is to be a spare for.
        word: SpareWord,
    },
    /// Takes the disk of a slot for failed.
    Fail {
        /// The slot, from 0 to 63.
        slot: u8,
    },
}

/// An array that is to be created.
#[derive(Drop)]
pub struct Creation {
    /// Its name: 1 to 16 bytes of 21 to 7E.
    pub name: Seq<u8>,
    /// The code of its primary level.
    pub level: u8,
    /// The qualifier of the level, 00 where the word of the level tells none.
    pub qualifier: u8,
    /// The stripe size code n, at most 15: strips of 2^n sectors.
    pub code: u8,
    /// The code of its secondary level, none where the words say `single`.
    pub secondary: Option<u8>,
    /// Its elements in their order, 1 to 16.
    pub elements: Seq<CreateElement>,
}

/// What a disk is to be a spare for.
#[derive(Drop)]
pub enum SpareWord {
    /// All arrays of the group.
    Global,
    /// All arrays of the group, to give its place back once another disk is there.
    Revertible,
    /// No array.
    Off,
    /// These arrays, 1 or more, by their names as the words give them. No two names are equal.
    For(Seq<Seq<u8>>),
}

/// An element of an array that is to be created.
#[derive(Drop)]
pub struct CreateElement {
    /// The slots of its members in their order, 1 to 64 of them, each from 0 to 63. A slot may stand there twice.
    pub slots: Seq<u8>,
    /// How many blocks each member gives, 1 to 2^48.
    pub blocks: u64,
}
