//! A bay on the heap, which is handed on without a copy of what it holds.
#![tactic(auto)]

mod boxed;
mod calls;

pub use boxed::Boxed;
