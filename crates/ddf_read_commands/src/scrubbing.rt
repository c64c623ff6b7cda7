//! `scrub`: whether the copies and the parity of an array agree. docs/COMMANDS.md#scrub
ghost use Rattle.std.specs.Prelude.{◌≡◌};
ghost use Rattle.ddf_bytes.specs.Streams.{SinkRose};
ghost use Rattle.ddf_bay.specs.ReadsOnly.{ReadsOnly};
ghost use Rattle.ddf_config.specs.Seats.{SeatsFit};
ghost use Rattle.ddf_recovery.specs.Recovery.{trusted_seats};
ghost use Rattle.ddf_read.specs.Reading.{OnlyReads};
ghost use Rattle.ddf_answer.specs.Call.{answer_of, work_of};
ghost use Rattle.ddf_answer.specs.Ends.{Ends};
ghost use Rattle.ddf_answer.specs.Status.{code_of};
ghost use Rattle.ddf_words.specs.Traits.{traits_of};
ghost use Rattle.ddf_words.specs.declared.command.Command.{Command};
ghost use Rattle.ddf_read_commands.specs.Scrub.{HasScrubbed, IsScrubDone, IsScrubOf, IsScrubTold};

use crate::using::{failure_of, readable_in};
use ddf_answer::{Failure, Status, tell_failure, tell_line};
use ddf_assembly::{Group, assemble};
use ddf_bay::Bay;
use ddf_bytes::{Guid, Sink};
use ddf_resync::{Scrub, scrub};
use std::alloc::Global;
use std::fmt;

/// What a scrub found, as a line tells it.
#[derive(Drop)]
struct ScrubText(Scrub);

impl fmt::Display for ScrubText {
    ghost use Rattle.std.specs.Prelude.{Some};
    ghost use Rattle.ddf_read_commands.specs.Scrub.{scrub_text};

    ghost output = { λ text. Some (scrub_text text.0) };

    fn fmt<W: fmt::Write>(&self, f: &mut fmt::Formatter<W>) -> fmt::Result {
        match self.0 {
            Scrub::Clean => write!(f, "clean"),
            Scrub::Differs { element, row } => write!(f, "differs element {element} row {row}"),
        }
    }
}

/// Tells whether the copies and the parity of an array agree, and else the first row that doesn't: on those disks of the group alone that recovery may
/// write over.
// argued: that a scrub reads all that it tells of, for its contract says that this is so of what the disks hold, and the body learns that by reads.
pub fn scrub_disks<B: Bay, K: Sink>(
    alloc: Global,
    named: Option<Guid>,
    name: &[u8],
    bay: &mut B,
    sink: &mut K,
) -> Status
    // promise:scrubbed
    ensures done { IsScrubDone (work_of B.tells (B.disks bay.old) (B.disks bay.new)) named name.now (answer_of K.tells (K.output sink.old) (K.output sink.new) (code_of result)) }
    ensures ends { Ends (traits_of (Command.Scrub name.now)) (work_of B.tells (B.disks bay.old) (B.disks bay.new)) (answer_of K.tells (K.output sink.old) (K.output sink.new) (code_of result)) }
{
    match scrubbed(alloc, named, name, bay) {
        Ok(found) => tell_line(alloc, &ScrubText(found), Status::Ok, sink),
        Err(failure) => tell_failure(alloc, failure, sink),
    }
}

/// The same, without the answer.
fn scrubbed<B: Bay>(
    alloc: Global,
    named: Option<Guid>,
    name: &[u8],
    bay: &mut B,
) -> Result<Scrub, Failure>
    ensures scrubbed { HasScrubbed (work_of B.tells (B.disks bay.old) (B.disks bay.new)) named name.now result }
    ensures reads { ReadsOnly (B.disks bay.old) (B.disks bay.new) }
{
    match assemble(alloc, bay, named) {
        Ok(group) => scrub_array(alloc, &group, name, bay),
        Err(fault) => Err(Failure::from(fault)),
    }
}

/// What is found of an array of this group, or why it isn't scrubbed.
fn scrub_array<B: Bay>(
    alloc: Global,
    group: &Group,
    name: &[u8],
    bay: &mut B,
) -> Result<Scrub, Failure>
    requires { SeatsFit (B.disks bay.old).sizes group.now.seats }
    ensures scrubbed { IsScrubOf (work_of B.tells (B.disks bay.old) (B.disks bay.new)) group.now.config (trusted_seats group.now) name.now result }
    ensures reads { OnlyReads (B.disks bay.old) (B.disks bay.new) }
{
    let (_, view) = readable_in(alloc, group, name, 0, 0)?;
    match scrub(bay, &view) {
        Ok(found) => Ok(found),
        Err(fault) => Err(failure_of(fault)),
    }
}
