//! What the program asks before a command, and of whom: what the command would lose or write over, and the lines of a batch that put an end to something; and what
//! it says that a command did.
//!
//! argued: that what is named and asked before a command is what it would lose or write over, and what is said after it is what it did, for each is a few lines
//! over the words of the command.
#![tactic(auto)]

mod asking;
mod done;
mod lines;
mod risks;

pub use asking::{Person, consents};
pub use done::tell_end;
pub use lines::name_lines;
pub use risks::{Risks, name_risks};
