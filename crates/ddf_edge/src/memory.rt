//! Memory that serves one slot after another.
use std::alloc::Global;

/// The bytes of the block that `keep_freed` takes: more than a copy of most disks.
const BLOCK: usize = 1 << 22;

/// Has the memory of one slot serve the next: once a large block was freed, GNU's C library keeps twice as much of what is
/// freed later, where it would give the memory of each slot back to the system and take it again.
pub fn keep_freed(alloc: Global) {
    let _ = Vec::<u8>::with_capacity(alloc, BLOCK);
}
