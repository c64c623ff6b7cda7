//! A life that is lived on disks in memory.
ghost use Rattle.std.specs.Prelude.{◌≤◌, IsTrue};
ghost use Rattle.ddf_exercise_life.specs.Lived.{HasLived};

use ddf_bay::MemoryBay;
use ddf_bytes::{MemorySink, NoMemory, Stamp};
use ddf_exercise::exercise;
use std::alloc::Global;

/// Whether an exercise on new disks lives: each of its calls is done, and the disks still tell behind it what a stop may leave. For want of memory it doesn't.
pub fn lives(alloc: Global, seed: u64, rounds: u64, stamp: Stamp) -> bool
    requires { rounds ≤ 256 }
    ensures { IsTrue result → HasLived stamp seed rounds }
{
    let room = 25_000 + 2_100 * rounds as usize;
    let mut bay = match MemoryBay::new(alloc, &[65_536; 5], room, Vec::new(alloc), None) {
        Ok(bay) => bay,
        Err(NoMemory) => return false,
    };
    let mut sink = match MemorySink::new(alloc, 160, Vec::new(alloc)) {
        Ok(sink) => sink,
        Err(NoMemory) => return false,
    };
    let status = exercise(alloc, &mut bay, seed, rounds, &mut sink, stamp);
    if status.code() != 0 {
        return false;
    }
    bay.tells_left()
}

#[cfg(test)]
mod tests {
    use super::lives;
    use ddf_bytes::Stamp;

    #[test]
    fn one_lives(rt: HostRuntime) {
        assert!(rt;
            lives(
                rt.alloc(),
                1,
                1,
                Stamp {
                    seconds: 0,
                    salt: 0
                }
            )
        );
    }
}
