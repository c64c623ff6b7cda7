//! What each change makes of the configuration of a group, and why a change is refused.
#![tactic(auto)]

mod applying;
mod arrays;
mod causes;
mod change;
mod create;
mod create_refusal;
mod delete;
mod fail;
mod fault;
mod floors;
mod laws;
mod lose;
mod mark;
mod members;
mod rebuild;
mod refuse;
mod same;
mod spare;
mod standing;

pub use applying::{apply, changed_at};
pub use causes::{cause, steps_of};
pub use change::Change;
pub use create::element_strip;
pub use create_refusal::{has_named, references};
pub use ddf_config::{
    Array, Config, ElementPlan, FullTable, Member, Position, Refusal, Seat, SpareUse, least_start,
};
pub use fault::PlanFault;
pub use floors::extents_refusal;
pub use laws::{
    a_change_keeps_the_members, a_change_raises_the_sequence, a_new_extent_meets_no_other,
    no_change_makes_a_member_current,
};
pub use lose::is_among;
pub use refuse::GREATEST_SEQUENCE;
pub use same::same_tables;
pub use spare::holds_extent;
