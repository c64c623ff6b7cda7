//! What the program does with its words where they may ask for a batch: the calls of its lines one after another, and the laws of them.
#![tactic(auto)]

mod batch;
mod dispatch;
mod laws;
mod line;
mod running;
mod serving;

pub use dispatch::run_line;
pub use laws::{a_line_is_an_event_of_its_history, what_lines_acknowledged_is_held};
pub use running::run;
pub use serving::serve;
