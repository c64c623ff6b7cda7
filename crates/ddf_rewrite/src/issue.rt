//! A configuration and the time at which it is issued: what all records of one step are made of.
use ddf_config::Config;

/// A configuration as a change or a recovery issues it.
#[derive(Drop)]
pub(crate) struct Issue<'a> {
    /// The configuration.
    pub config: &'a Config,
    /// When it is issued: seconds since 1980 began.
    pub timestamp: u32,
}
