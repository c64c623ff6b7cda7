//! How long a command that reads waits for one that writes: a disk that is locked for a moment would look absent.
//! docs/FAULTS.md#looks-beside-a-command-that-writes
use std::rt::Clock;
use std::thread;
use std::time::{Duration, Instant};

/// For how long a lock is tried for.
const SECONDS: u64 = 2;

/// The milliseconds between two tries.
const PAUSE: u64 = 50;

/// The most tries there are, whatever the clock says.
pub const TRIES: u32 = 100;

/// When the tries began, where there is a clock.
#[derive(Clone, Copy)]
pub struct Patience {
    began: Option<Instant>,
}

impl Patience {
    /// Tries begin now.
    pub fn new<R: Clock>(rt: &R) -> Patience {
        match Instant::now(rt) {
            Ok(now) => Patience { began: Some(now) },
            Err(_) => Patience { began: None },
        }
    }

    /// Waits for the next try, and answers whether there was time for it.
    pub fn waits<R: Clock>(&self, rt: &R) -> bool {
        let Some(began) = self.began else {
            return false;
        };
        match began.elapsed(rt) {
            Ok(since) if since.as_secs() < SECONDS => {
                thread::sleep(rt, Duration::from_millis(PAUSE));
                true
            }
            _ => false,
        }
    }
}
