//! Every change of a group that words ask for, by one body: read, recover, ask, write, tell. docs/DECISIONS-COMMANDS.md#words-and-commands
ghost use Rattle.std.specs.Prelude.{◌≡◌, length};
ghost use Rattle.std.specs.Option.{option_to_list};
ghost use Rattle.ddf_bay.specs.Moments.{GoesOn};
ghost use Rattle.ddf_bytes.specs.Stamps.{timestamp_of};
ghost use Rattle.ddf_answer.specs.Call.{answer_of, work_of};
ghost use Rattle.ddf_answer.specs.Ends.{Ends};
ghost use Rattle.ddf_answer.specs.Status.{code_of};
ghost use Rattle.ddf_words.specs.Commands.{FitsWish};
ghost use Rattle.ddf_words.specs.Traits.{traits_of};
ghost use Rattle.ddf_words.specs.declared.command.Command.{Command};
ghost use Rattle.ddf_group_commands.specs.Requests.{HasByteCodes, HasWished, IsWished, request_for};

use crate::linux::linux_members;
use crate::writing::{read_group, recovered, write_changes};
use ddf_answer::{Failure, Status, tell, tell_failure};
use ddf_bay::Bay;
use ddf_bytes::{Guid, Sink, Stamp};
use ddf_plan::Change;
use ddf_recovery::loss;
use ddf_request::request;
use ddf_text::sequence_line;
use ddf_words::Wish;
use std::alloc::Global;
use std::slice;

/// Recovers the group that the disks are, changes it as it is wished, and prints its new sequence number.
pub fn change<B: Bay, K: Sink>(
    alloc: Global,
    named: Option<Guid>,
    wish: &Wish,
    bay: &mut B,
    sink: &mut K,
    stamp: &Stamp,
) -> Status
    requires { FitsWish wish.now }
    // promise:unread, promise:raised, promise:extents, promise:unmarked
    ensures done { IsWished (work_of B.tells (B.disks bay.old) (B.disks bay.new)) named (timestamp_of stamp.now) (request_for (length (B.disks bay.old).sizes) stamp.now wish.now) (answer_of K.tells (K.output sink.old) (K.output sink.new) (code_of result)) }
    ensures ends { Ends (traits_of (Command.Change wish.now)) (work_of B.tells (B.disks bay.old) (B.disks bay.new)) (answer_of K.tells (K.output sink.old) (K.output sink.new) (code_of result)) }
{
    match changed(alloc, named, wish, bay, stamp) {
        Ok(sequence) => tell(sink, sequence_line(sequence).as_bytes(), Status::Ok),
        Err(failure) => tell_failure(alloc, failure, sink),
    }
}

/// The same, without the answer: the sequence number of the group behind the change.
fn changed<B: Bay>(
    alloc: Global,
    named: Option<Guid>,
    wish: &Wish,
    bay: &mut B,
    stamp: &Stamp,
) -> Result<u32, Failure>
    requires { FitsWish wish.now }
    ensures changed { HasWished (work_of B.tells (B.disks bay.old) (B.disks bay.new)) named (timestamp_of stamp.now) (request_for (length (B.disks bay.old).sizes) stamp.now wish.now) result }
    ensures goes_on { GoesOn (B.disks bay.old) (B.disks bay.new) }
    ensures same_sizes { (B.disks bay.new).sizes ≡ (B.disks bay.old).sizes }
{
    have_byte_codes(wish);
    let mut group = read_group(alloc, named, bay)?;
    let loss = loss(alloc, &group)?;
    let linux = linux_members(alloc, &group)?;
    let change = request(
        alloc,
        bay.slots(),
        recovered(&group, &loss),
        group.seats(),
        linux.as_slice(),
        stamp,
        wish,
    )?;
    write_changes(alloc, &mut group, listed(&change), stamp.timestamp(), bay)
}

/// The change as a list of changes.
fn listed(change: &Option<Change>) -> &[Change]
    ensures { result.now ≡ option_to_list change.now }
{
    match change {
        Some(change) => slice::from_ref(change),
        None => &[],
    }
}

/// The codes of a new array's levels are bytes, as their types say.
fn have_byte_codes(wish: &Wish)
    ensures { HasByteCodes wish.now }
{
    if let Wish::Create(creation) = wish {
        let _level = creation.level;
        let _qualifier = creation.qualifier;
        let _secondary = creation.secondary.unwrap_or(0);
    }
}
