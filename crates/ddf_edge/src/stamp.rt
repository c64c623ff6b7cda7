//! The moment and the chance for new names: two groups of one name would be taken for one. docs/GROUPS.md#which-group-the-disks-are
use ddf_bytes::Stamp;
use std::fs::File;
use std::io;
use std::io::Read;
use std::rt::{Clock, Files};
use std::time::{SystemTime, UNIX_EPOCH};

/// The clock's seconds, 0 where it can't be read, and 16 random bytes where names are made. None are made without chance.
pub fn stamp_for<R: Clock + Files>(rt: &R, makes_names: bool) -> io::Result<Stamp> {
    let salt = if makes_names {
        u128::from_be_bytes(chance(rt)?)
    } else {
        0
    };
    Ok(Stamp {
        seconds: seconds(rt),
        salt,
    })
}

fn seconds<R: Clock>(rt: &R) -> u64 {
    let Ok(now) = SystemTime::now(rt) else {
        return 0;
    };
    match now.duration_since(UNIX_EPOCH) {
        Ok(since) => since.as_secs(),
        Err(_) => 0,
    }
}

fn chance<R: Files>(rt: &R) -> io::Result<[u8; 16]> {
    let mut bytes = [0; 16];
    File::open(rt, "/dev/urandom")?.read_exact(&mut bytes)?;
    Ok(bytes)
}
