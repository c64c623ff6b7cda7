//! What no scenario of `ddf_rig` says: files as disks, a bay in health, and a change that is applied by itself.
#![tactic(auto)]

#[cfg(test)]
mod changes;
#[cfg(test)]
mod files;
mod health;

pub use health::write_in_health;
