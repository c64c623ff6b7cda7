//! Slots that fail each call: a bay over a bay, some of whose slots are fenced.
#![tactic(auto)]

mod calls;
mod fenced;

pub use fenced::Fenced;
