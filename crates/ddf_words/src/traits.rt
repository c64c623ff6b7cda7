//! What a command may do: one row for each, on which rests whether disks are opened for writing, and which statuses there are.
//! docs/DECISIONS-COMMANDS.md#words-and-commands
ghost use Rattle.std.specs.Prelude.{◌≡◌};

use crate::command::{Command, Wish};

/// What a command may do, as a row of a table over the commands.
#[derive(Clone, Copy)]
pub struct Traits {
    /// It is done to one group, which the words may name.
    pub takes_group: bool,
    /// It may write to the disks.
    pub may_write: bool,
    /// It may be refused though its words are good.
    pub may_refuse: bool,
    /// It makes new GUIDs, which takes chance.
    pub makes_names: bool,
    /// It takes bytes from the input.
    pub takes_input: bool,
}

impl Command {
    ghost use Rattle.ddf_words.specs.Traits.{traits_of};

    /// What it may do.
    pub fn traits(&self) -> Traits
        ensures { result ≡ traits_of self.now }
    {
        match self {
            Command::Examine => Traits {
                takes_group: false,
                may_write: false,
                may_refuse: false,
                makes_names: false,
                takes_input: false,
            },
            Command::Label { .. } => Traits {
                takes_group: false,
                may_write: true,
                may_refuse: true,
                makes_names: true,
                takes_input: false,
            },
            Command::Show | Command::Read { .. } | Command::Scrub { .. } => Traits {
                takes_group: true,
                may_write: false,
                may_refuse: true,
                makes_names: false,
                takes_input: false,
            },
            Command::Assemble
            | Command::Resync { .. }
            | Command::Rebuild { .. }
            | Command::Copyback { .. }
            | Command::Import { .. } => Traits {
                takes_group: true,
                may_write: true,
                may_refuse: true,
                makes_names: false,
                takes_input: false,
            },
            Command::Write { .. } => Traits {
                takes_group: true,
                may_write: true,
                may_refuse: true,
                makes_names: false,
                takes_input: true,
            },
            Command::Change(wish) => Traits {
                takes_group: true,
                may_write: true,
                may_refuse: true,
                makes_names: matches!(wish, Wish::Create(_)),
                takes_input: false,
            },
        }
    }
}
