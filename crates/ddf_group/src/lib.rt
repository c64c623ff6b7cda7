//! Which group the slots of a bay give together, by what each of them shows, or why there is none.
#![tactic(auto)]

mod answer;
mod choice;
mod conflict;
mod disks;
mod group;
mod pairs;
mod shown;
mod slots;
mod split;
mod taking;
mod views;

pub use answer::{Assembled, Assembly, Differ};
pub use group::assembled;
pub use shown::{Shown, shown_of};
pub use slots::Slots;
pub use taking::shows_untaken;
