//! Which change of a group its words ask for, and what an array that they name can't be used for.
#![tactic(auto)]

mod accepting;
mod creating;
mod laws;
mod named;
mod new_array;
mod requests;
mod slots;
mod spare;
mod usable;

pub use laws::a_new_array_is_named_by_its_word;
pub use named::named_array;
pub use requests::request;
pub use slots::{reference_on, slots_refusal};
pub use usable::{bad_blocks, is_held, is_held_from_writes, useless};
