//! The standard streams, held open: a disk with the descriptor of a closed one would get the output.
//! docs/DECISIONS-COMMANDS.md#the-program-and-the-system
use std::fs::File;
use std::io;
use std::rt::Files;

/// Keeps the descriptors of the three standard streams in use, so that no disk gets one of them where a stream is
/// closed: a file that is opened gets the least descriptor that is free. Each file is the root folder, which can be
/// neither read nor written, so that a stream that was closed fails still.
pub fn hold_streams<R: Files>(rt: &R) -> io::Result<[R::File; 3]> {
    let first = File::open(rt, "/")?;
    let second = File::open(rt, "/")?;
    let third = File::open(rt, "/")?;
    Ok([first, second, third])
}
