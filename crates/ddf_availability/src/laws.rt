//! Laws of availability: functions that do nothing, whose contracts are the laws. docs/PROOF.md#proved
ghost use Rattle.std.specs.Prelude.{◌≡◌, ◌⊎◌, ℕ, ◌+◌, ◌-◌, ◌^◌, ◌<◌, ◌≤◌, List, Option, None, Ok, false, length};
ghost use Rattle.ddf_bytes.specs.Streams.{SinkState};
ghost use Rattle.ddf_bay.specs.Memory.{disks_of};
ghost use Rattle.ddf_bay.specs.declared.memory.MemoryBay.{MemoryBay};
ghost use Rattle.ddf_config.specs.declared.seat.Seat.{Seat};
ghost use Rattle.ddf_config.specs.Configuration.{Configuration};
ghost use Rattle.ddf_read.specs.Reading.{NoneFailed};
ghost use Rattle.ddf_read.specs.Stretches.{HaveCopies};
ghost use Rattle.ddf_write.specs.RowWrites.{keeps_parity_anywhere};
ghost use Rattle.ddf_seats.specs.Group.{GroupValue};
ghost use Rattle.ddf_assembly.specs.Group.{group_of};
ghost use Rattle.ddf_recovery.specs.Recovery.{trusted_seats};
ghost use Rattle.ddf_request.specs.Named.{named_array};
ghost use Rattle.ddf_answer.specs.Call.{answer_of, input_of, work_of};
ghost use Rattle.ddf_read_commands.specs.Read.{HasRead, IsReadDone, Outcome, read_refusal};
ghost use Rattle.ddf_write_commands.specs.Planned.{IsPlanned};
ghost use Rattle.ddf_write_commands.specs.Write as writes;
ghost use Rattle.ddf_history_memory.specs.Histories.{GoesWell};
ghost use Rattle.ddf_availability.specs.Serving.{GivesBlocks, IsServing, IsToldAll, most_reads, most_writes, positions_of};

use ddf_bay::Bay;
use ddf_bytes::Source;

/// Nothing refuses a read of blocks of an array that its disks serve: as it is recorded it can be used, the blocks lie within its capacity, none of its disks lists bad blocks, its
/// state forbids nothing, it is within its level by the seats, and it isn't marked.
pub fn a_read_of_an_array_that_is_served_is_not_refused()
    ensures { (config : Configuration) (seats : List Seat) (word : List ℕ) (start count : ℕ) → IsServing config seats word start count
        → read_refusal config seats (named_array config.arrays word) start count ≡ None }
{}

/// Such a read gives each block with its value where no read fails of a disk of the array, by the seats that blocks may be read from: all of them, unless memory runs out before
/// any is printed, or the output gives out.
pub fn a_read_of_an_array_that_is_served_gives_its_blocks<B: Bay>()
    ensures gives { (told : B.tells) (old new : B) (named : Option (List ℕ)) (word : List ℕ) (start count : ℕ) (outcome : Outcome)
        → (read : HasRead (work_of B.tells (B.disks old) (B.disks new)) named word start count outcome) → (found : GroupValue) → group_of read.newest named ≡ Ok found
        → (serving : IsServing found.config (trusted_seats found) word start count) → NoneFailed serving.volume (B.disks old) (B.disks new)
        → GivesBlocks (B.disks old).held serving.volume start count outcome }
    ensures tells { (told : B.tells) (old new : B) (named : Option (List ℕ)) (word : List ℕ) (start count : ℕ) (before after : SinkState) (status : ℕ)
        → (done : IsReadDone (work_of B.tells (B.disks old) (B.disks new)) named word start count (answer_of (Unit {0}) before after status)) → (found : GroupValue)
        → group_of done.has.newest named ≡ Ok found → (serving : IsServing found.config (trusted_seats found) word start count) → NoneFailed serving.volume (B.disks old) (B.disks new)
        → (status ≡ 5) ⊎ (status ≡ 6) ⊎ IsToldAll (B.disks old).held serving.volume start count (answer_of (Unit {0}) before after status) }
{}

/// So does one over disks in memory of which no call is listed to fail, whichever of them are unplugged: none of these counts as a disk that serves the array.
pub fn a_read_over_disks_in_memory_gives_its_blocks()
    ensures { (old exit : MemoryBay) → GoesWell old exit → (disks_of old).tells_left → (named : Option (List ℕ)) (word : List ℕ) (start count : ℕ) (outcome : Outcome)
        → (read : HasRead (work_of (Unit {0}) (disks_of old) (disks_of exit)) named word start count outcome) → (found : GroupValue) → group_of read.newest named ≡ Ok found
        → (serving : IsServing found.config (trusted_seats found) word start count) → GivesBlocks (disks_of old).held serving.volume start count outcome }
{}

/// Where each block has an available cell such a read makes at most 15 calls on each slot and one for each block. So the bay still tells behind it what a stop
/// may leave, while its clock and its count of calls have room for so many.
pub fn a_read_over_disks_in_memory_is_counted()
    ensures calls { (old exit : MemoryBay) → GoesWell old exit → (disks_of old).tells_left → (named : Option (List ℕ)) (word : List ℕ) (start count : ℕ) (outcome : Outcome)
        → (read : HasRead (work_of (Unit {0}) (disks_of old) (disks_of exit)) named word start count outcome) → (found : GroupValue) → group_of read.newest named ≡ Ok found
        → (serving : IsServing found.config (trusted_seats found) word start count) → HaveCopies serving.volume start count
        → (disks_of exit).calls ≤ (disks_of old).calls + most_reads (length (disks_of old).sizes) count }
    ensures tells { (old exit : MemoryBay) → GoesWell old exit → (disks_of old).tells_left → (named : Option (List ℕ)) (word : List ℕ) (start count : ℕ) (outcome : Outcome)
        → (read : HasRead (work_of (Unit {0}) (disks_of old) (disks_of exit)) named word start count outcome) → (found : GroupValue) → group_of read.newest named ≡ Ok found
        → (serving : IsServing found.config (trusted_seats found) word start count) → HaveCopies serving.volume start count
        → (disks_of old).calls + most_reads (length (disks_of old).sizes) count < 2 ^ 64 - 1 → (disks_of old).moment + most_reads (length (disks_of old).sizes) count < 2 ^ 64 - 1
        → (disks_of exit).tells_left }
{}

/// A write to an array of which no element keeps parity makes at most 92 calls on each slot, and one for each block on each position of the array, however it ends: 15 look at a
/// slot, and the others write what stands around the blocks, the recovery of the group among them.
pub fn a_write_without_parity_is_counted<B: Bay, S: Source>()
    ensures { (old new : B) (source_old source_new : S) (named : Option (List ℕ)) (timestamp : ℕ) (word : List ℕ) (start count : ℕ) (outcome : writes.Outcome)
        → (written : writes.HasWrittenArray (work_of B.tells (B.disks old) (B.disks new)) (input_of S.tells (S.input source_old) (S.input source_new)) named timestamp word start count outcome) → (found : GroupValue)
        → group_of written.taken.newest named ≡ Ok found → (plan : IsPlanned found timestamp word (writes.write_request word start count)) → keeps_parity_anywhere plan.volume ≡ false
        → (B.disks new).calls ≤ (B.disks old).calls + most_writes (length (B.disks old).sizes) (positions_of plan.volume) count }
{}

/// So a bay in memory still tells behind such a write what a stop may leave, while its clock and its count of calls have room for so many.
pub fn a_write_over_disks_in_memory_is_counted<S: Source>()
    ensures { (old exit : MemoryBay) → GoesWell old exit → (source_old source_new : S) (named : Option (List ℕ)) (timestamp : ℕ) (word : List ℕ) (start count : ℕ) (outcome : writes.Outcome)
        → (written : writes.HasWrittenArray (work_of (Unit {0}) (disks_of old) (disks_of exit)) (input_of S.tells (S.input source_old) (S.input source_new)) named timestamp word start count outcome) → (found : GroupValue)
        → group_of written.taken.newest named ≡ Ok found → (plan : IsPlanned found timestamp word (writes.write_request word start count)) → keeps_parity_anywhere plan.volume ≡ false
        → (disks_of old).calls + most_writes (length (disks_of old).sizes) (positions_of plan.volume) count < 2 ^ 64 - 1
        → (disks_of old).moment + most_writes (length (disks_of old).sizes) (positions_of plan.volume) count < 2 ^ 64 - 1 → (disks_of exit).tells_left }
{}
