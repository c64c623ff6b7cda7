//! The exercise. docs/COMMANDS.md#exercise
ghost use Rattle.std.specs.Prelude.{◌≡◌, ◌⊎◌, ◌≤◌, ◌++◌, IsTrue, length};
ghost use Rattle.std.specs.List.{list_all};
ghost use Rattle.ddf_bytes.specs.declared.stamp.Stamp.{Stamp};
ghost use Rattle.ddf_bytes.specs.Streams.{SinkRose};
ghost use Rattle.ddf_bay.specs.Memory.{disks_of, state_of};
ghost use Rattle.ddf_update.specs.NewCopies.{group_of as name_of};
ghost use Rattle.ddf_answer.specs.Call.{answer_of};
ghost use Rattle.ddf_answer.specs.Status.{code_of};
ghost use Rattle.ddf_exercise.specs.Blocks.{bytes_behind};
ghost use Rattle.ddf_exercise.specs.Exercise.{EndsAs, IsDoneOnNew, IsExerciseDone, IsExercised, IsTriedRead, exercise_line, new_disks};
ghost use Rattle.ddf_exercise.specs.Steps.{all_steps, fits};

use crate::blocks::{blocks_behind, blocks_in, bytes_of_blocks, sum_of_blocks};
use crate::line::line_saying;
use crate::steps::{Step, steps};
use crate::taking::{NAME, counted, is_told, take_all};
use ddf_answer::{Status, tell};
use ddf_bay::MemoryBay;
use ddf_bytes::{Guid, GuidKind, MemorySink, NoMemory, Sink, Stamp, new_guid};
use ddf_read_commands::read;
use std::alloc::Global;

/// How many blocks the array has.
const BLOCKS: u64 = 8192;

/// What an exercise found.
#[derive(Clone, Copy)]
pub struct Found {
    /// How many blocks were written.
    pub blocks: u64,
    /// The sum of the bytes of all blocks of the array.
    pub sum: u64,
}

/// Exercises the program's commands on new disks in memory: all are labelled, an array of three is created and resynced, and the other two are its
/// spares. So many writes follow, by numbers that come from the seed; then a disk is lost and the array rebuilt, twice, with so many writes behind
/// each; it is scrubbed, and all of its blocks are read. Each command has to be done and to tell what it should, and the blocks have to be those that
/// were written: then it tells how many there were, the sum of their bytes, and the sequence number of the group. Else its status is that of the
/// command that wasn't done, or 3 where one told something else; for want of memory it is 5, and where the output fails 6, and no other comes.
pub fn exercise<K: Sink>(
    alloc: Global,
    bay: &mut MemoryBay,
    seed: u64,
    rounds: u64,
    sink: &mut K,
    stamp: Stamp,
) -> Status
    requires new { state_of bay.old ≡ new_disks rounds }
    requires few { rounds ≤ 256 }
    ensures done { IsExerciseDone stamp seed rounds bay.old bay.new (answer_of K.tells (K.output sink.old) (K.output sink.new) (code_of result)) }
    ensures told { code_of result ≡ 0 → K.tells → (K.output sink.new).taken ≡ (K.output sink.old).taken ++ exercise_line seed rounds }
    ensures stream { code_of result ≡ 6 → SinkRose (K.output sink.old) (K.output sink.new) }
    ensures complete { (code_of result ≡ 0) ⊎ (code_of result ≡ 5) ⊎ (code_of result ≡ 6) }
{
    match exercised(alloc, bay, seed, rounds, &stamp) {
        Ok(found) => {
            let line = line_saying(3 * rounds, found.blocks, found.sum, 13 + 6 * rounds);
            tell(sink, line.as_bytes(), Status::Ok)
        }
        Err(status) => status,
    }
}

/// The same on disks that it makes.
pub fn exercise_new_disks<K: Sink>(
    alloc: Global,
    seed: u64,
    rounds: u64,
    sink: &mut K,
    stamp: Stamp,
) -> Status
    requires { rounds ≤ 256 }
    ensures done { IsDoneOnNew stamp seed rounds (answer_of K.tells (K.output sink.old) (K.output sink.new) (code_of result)) }
    ensures told { code_of result ≡ 0 → K.tells → (K.output sink.new).taken ≡ (K.output sink.old).taken ++ exercise_line seed rounds }
    ensures stream { code_of result ≡ 6 → SinkRose (K.output sink.old) (K.output sink.new) }
    ensures complete { (code_of result ≡ 0) ⊎ (code_of result ≡ 5) ⊎ (code_of result ≡ 6) }
{
    let room = 25_000 + 2_100 * rounds as usize;
    match MemoryBay::new(alloc, &[65_536; 5], room, Vec::new(alloc), None) {
        Ok(mut bay) => exercise(alloc, &mut bay, seed, rounds, sink, stamp),
        Err(NoMemory) => Status::Memory,
    }
}

/// The same without the answer: what was found, or how it ended.
fn exercised(
    alloc: Global,
    bay: &mut MemoryBay,
    seed: u64,
    rounds: u64,
    stamp: &Stamp,
) -> Result<Found, Status>
    requires five { length (disks_of bay.old).sizes ≡ 5 }
    requires few { rounds ≤ 256 }
    ensures { EndsAs (IsExercised stamp.now seed rounds bay.old bay.new) (all_steps seed rounds) result }
{
    let steps = match steps(alloc, seed, rounds) {
        Ok(steps) => steps,
        Err(NoMemory) => return Err(Status::Memory),
    };
    let group = new_guid(GuidKind::Group, stamp, 0);
    let status = take_all(alloc, steps.as_slice(), group, bay, stamp);
    if status.code() != 0 {
        return Err(status);
    }
    read_back(alloc, steps.as_slice(), group, bay)
}

/// Finds that the array has the blocks that these steps wrote.
fn read_back(
    alloc: Global,
    steps: &[Step],
    group: Guid,
    bay: &mut MemoryBay,
) -> Result<Found, Status>
    requires few { length steps.now ≤ 1024 }
    requires fit { IsTrue (list_all fits steps.now) }
    ensures { (stamp : Stamp) → group ≡ name_of stamp → EndsAs (IsTriedRead stamp (bytes_behind steps.now) bay.old bay.new) steps.now result }
{
    let blocks = match blocks_behind(alloc, BLOCKS as usize, steps) {
        Ok(blocks) => blocks,
        Err(NoMemory) => return Err(Status::Memory),
    };
    let bytes = match bytes_of_blocks(alloc, blocks.as_slice()) {
        Ok(bytes) => bytes,
        Err(NoMemory) => return Err(Status::Memory),
    };
    let mut sink = match MemorySink::new(alloc, bytes.len(), Vec::new(alloc)) {
        Ok(sink) => sink,
        Err(NoMemory) => return Err(Status::Memory),
    };
    let status = read(alloc, Some(group), NAME, 0, BLOCKS, bay, &mut sink);
    let status = counted(status, is_told(sink.bytes(), bytes.as_slice()));
    if status.code() != 0 {
        return Err(status);
    }
    Ok(Found {
        blocks: blocks_in(steps),
        sum: sum_of_blocks(blocks.as_slice()),
    })
}
