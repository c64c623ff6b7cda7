//! How the steps of an exercise are taken: each is a command of the program, or the loss of a disk.
ghost use Rattle.std.specs.Prelude.{◌≡◌, ◌≢◌, ◌≤◌, ◌↔◌, ◌*◌, IfOk, IsTrue, length};
ghost use Rattle.std.specs.List.{list_all};
ghost use Rattle.ddf_bytes.specs.Memory.{output_of};
ghost use Rattle.ddf_bay.specs.Memory.{disks_of};
ghost use Rattle.ddf_update.specs.NewCopies.{group_of as name_of};
ghost use Rattle.ddf_words.specs.declared.command.Wish.{Wish};
ghost use Rattle.ddf_answer.specs.Status.{code_of};
ghost use Rattle.ddf_exercise.specs.Steps.{fits};
ghost use Rattle.ddf_exercise.specs.Taking.{AreTaken, IsTaken, IsTried, array_asked, array_name, counted, line_of};

use crate::draws::Fill;
use crate::steps::Step;
use ddf_answer::Status;
use ddf_bay::MemoryBay;
use ddf_bytes::{Guid, MemorySink, MemorySource, NoMemory, Seq, Stamp};
use ddf_disk_commands::label;
use ddf_group_commands::change;
use ddf_read_commands::scrub_disks;
use ddf_rebuild_command::rebuild;
use ddf_text::sequence_line;
use ddf_words::{CreateElement, Creation, DiskStyle, SpareWord, Wish};
use ddf_write_commands::{resync_disks, write};
use std::alloc::Global;

/// The name of the array.
pub const NAME: &[u8] = b"ex";

/// Takes steps one after another, up to the first that isn't done, and answers how the last one counts.
pub fn take_all(
    alloc: Global,
    steps: &[Step],
    group: Guid,
    bay: &mut MemoryBay,
    stamp: &Stamp,
) -> Status
    requires few { length steps.now ≤ 1024 }
    requires fit { IsTrue (list_all fits steps.now) }
    requires five { length (disks_of bay.old).sizes ≡ 5 }
    requires named { group ≡ name_of stamp.now }
    ensures taken { AreTaken stamp.now 0 steps.now bay.old bay.new (code_of result) }
    ensures no_stream { code_of result ≢ 6 }
{
    let mut sequence = 0;
    for step in steps {
        sequence += step.rise();
        let status = try_step(alloc, *step, sequence, group, bay, stamp);
        if status.code() != 0 {
            return status;
        }
    }
    Status::Ok
}

/// Takes a step behind which the group has this sequence number, and answers how it counts.
fn try_step(
    alloc: Global,
    step: Step,
    sequence: u32,
    group: Guid,
    bay: &mut MemoryBay,
    stamp: &Stamp,
) -> Status
    requires fits { IsTrue (fits step) }
    requires five { length (disks_of bay.old).sizes ≡ 5 }
    requires named { group ≡ name_of stamp.now }
    ensures tried { IsTried stamp.now step sequence bay.old bay.new (code_of result) }
    ensures no_stream { code_of result ≢ 6 }
    ensures same_sizes { (disks_of bay.new).sizes ≡ (disks_of bay.old).sizes }
{
    let mut sink = match MemorySink::new(alloc, 64, Vec::new(alloc)) {
        Ok(sink) => sink,
        Err(NoMemory) => return Status::Memory,
    };
    let status = take(alloc, step, group, bay, &mut sink, stamp);
    let as_it_should = is_line_of(sink.bytes(), step, sequence);
    counted(status, as_it_should)
}

/// How a call counts that ended so.
pub fn counted(status: Status, as_it_should: bool) -> Status
    ensures { code_of result ≡ counted (code_of status) as_it_should }
{
    match status {
        Status::Ok if !as_it_should => Status::DiskFault,
        Status::Stream => Status::Memory,
        other => other,
    }
}

/// Whether a call told what it should.
pub fn is_told(told: &[u8], expected: &[u8]) -> bool
    ensures { IsTrue result ↔ (told.now ≡ expected.now) }
{
    told == expected
}

/// Whether a text is what a step should tell that is done, with the sequence number of the group behind it.
fn is_line_of(text: &[u8], step: Step, sequence: u32) -> bool
    ensures { IsTrue result ↔ (text.now ≡ line_of step sequence) }
{
    match step {
        Step::Unplug(_) => text == b"".as_slice(),
        Step::Scrub => text == b"clean\n".as_slice(),
        _ => text == sequence_line(sequence).as_bytes(),
    }
}

/// Takes a step.
fn take(
    alloc: Global,
    step: Step,
    group: Guid,
    bay: &mut MemoryBay,
    sink: &mut MemorySink,
    stamp: &Stamp,
) -> Status
    requires fits { IsTrue (fits step) }
    requires five { length (disks_of bay.old).sizes ≡ 5 }
    requires named { group ≡ name_of stamp.now }
    ensures taken { IsTaken stamp.now step bay.old bay.new (output_of sink.old) (output_of sink.new) (code_of result) }
    ensures same_sizes { (disks_of bay.new).sizes ≡ (disks_of bay.old).sizes }
{
    match step {
        Step::Label => label(alloc, DiskStyle::Standard, false, &[], bay, sink, stamp),
        Step::Create => create(alloc, group, bay, sink, stamp),
        Step::Resync => resync_disks(alloc, Some(group), NAME, bay, sink, stamp),
        Step::Spare(slot) => {
            let wish = Wish::Spare {
                slot,
                word: SpareWord::Global,
            };
            change(alloc, Some(group), &wish, bay, sink, stamp)
        }
        Step::Write(fill) => write_fill(alloc, fill, group, bay, sink, stamp),
        Step::Unplug(slot) => {
            bay.unplug(slot);
            Status::Ok
        }
        Step::Rebuild => rebuild(alloc, Some(group), NAME, bay, sink, stamp),
        Step::Scrub => scrub_disks(alloc, Some(group), NAME, bay, sink),
    }
}

/// Creates the array.
fn create(
    alloc: Global,
    group: Guid,
    bay: &mut MemoryBay,
    sink: &mut MemorySink,
    stamp: &Stamp,
) -> Status
    requires named { group ≡ name_of stamp.now }
    ensures taken { IsTaken stamp.now Step.Create bay.old bay.new (output_of sink.old) (output_of sink.new) (code_of result) }
    ensures same_sizes { (disks_of bay.new).sizes ≡ (disks_of bay.old).sizes }
{
    match creation(alloc) {
        Ok(wish) => change(alloc, Some(group), &wish, bay, sink, stamp),
        Err(NoMemory) => Status::Memory,
    }
}

/// The wish for the array: RAID 5 of three disks, in strips of 8 sectors.
fn creation(alloc: Global) -> Result<Wish, NoMemory>
    ensures { IfOk result (λ wish. wish ≡ Wish.Create array_asked) }
{
    let name = NAME.to_vec(alloc)?;
    let slots = [0, 1, 2].to_vec(alloc)?;
    let mut elements = Vec::new(alloc);
    elements.push(CreateElement {
        slots: Seq::new(slots),
        blocks: 4096,
    })?;
    Ok(Wish::Create(Creation {
        name: Seq::new(name),
        level: 0x05,
        qualifier: 0x03,
        code: 3,
        secondary: None,
        elements: Seq::new(elements),
    }))
}

/// Fills blocks of the array with a byte.
fn write_fill(
    alloc: Global,
    fill: Fill,
    group: Guid,
    bay: &mut MemoryBay,
    sink: &mut MemorySink,
    stamp: &Stamp,
) -> Status
    requires fits { IsTrue (fits (Step.Write fill)) }
    requires named { group ≡ name_of stamp.now }
    ensures taken { IsTaken stamp.now (Step.Write fill) bay.old bay.new (output_of sink.old) (output_of sink.new) (code_of result) }
    ensures same_sizes { (disks_of bay.new).sizes ≡ (disks_of bay.old).sizes }
{
    let bytes = match vec![in alloc; fill.byte; 512 * fill.count as usize] {
        Ok(bytes) => bytes,
        Err(_) => return Status::Memory,
    };
    let mut source = MemorySource::new(bytes, Vec::new(alloc));
    write(
        alloc,
        Some(group),
        NAME,
        fill.start,
        fill.count,
        bay,
        &mut source,
        sink,
        stamp,
    )
}
