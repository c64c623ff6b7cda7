//! Every line that `ddf` prints.
#![tactic(auto)]

mod conflict;
mod done;
mod fault;
mod group;
mod level;
mod listing;
mod reason;
mod records;
mod refusal;
mod report;
mod standing;
mod view;

pub use conflict::{ConflictText, SplitText};
pub use done::{cut_line, sequence_line};
pub use fault::disk_fault_line;
pub use group::{group_text, shown_text};
pub use refusal::RefusalText;
pub use report::slot_text;
pub use view::{DiskView, HeaderView, Headers};
