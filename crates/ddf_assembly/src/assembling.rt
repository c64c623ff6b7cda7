//! Assembly: which group the disks of a bay are. It only reads: what it finds is told before anything may be written.
//! docs/GROUPS.md#which-group-the-disks-are
ghost use Rattle.std.specs.Prelude.{◌≡◌, ◌+◌, ◌*◌, ◌≤◌, ℕ, List, [], false, length, map, slice_index_or, IfOk};
ghost use Rattle.ddf_bay.specs.ReadsOnly.{ReadsOnly};
ghost use Rattle.ddf_config.specs.Seats.{SeatsFit};
ghost use Rattle.ddf_group.specs.Assembled.{UpToMemory as FoundUpToMemory, assembled};
ghost use Rattle.ddf_group.specs.Shown.{shown_of};
ghost use Rattle.ddf_assembly.specs.Assembled.{IsAssembledGroup};
ghost use Rattle.ddf_assembly.specs.Group.{UpToMemory, group_of};
ghost use Rattle.ddf_assembly.specs.Reading.{AreNewest, HaveAnchors};
ghost use Rattle.ddf_assembly.specs.Settled.{IsSettledGroup};
ghost use Rattle.ddf_assembly.specs.Slots.{IsAssembled, IsAssembledLeavingOut, LeaveNone, first_left_out};
ghost use Rattle.ddf_assembly.specs.Held.{StandUnder};

use crate::group::Group;
use crate::reading::read_slots;
use ddf_bay::Bay;
use ddf_bytes::{Guid, NoMemory, Seq};
use ddf_config::Seat;
use ddf_copy::Newest;
use ddf_group::{Assembled, Assembly, Shown, assembled, shown_of};
use ddf_seats::seats_of;
use std::alloc::Global;

/// What slots with these newest copies show.
pub fn shown(alloc: Global, newest: &[Option<Newest>]) -> Result<Vec<Shown<'_>>, NoMemory>
    ensures { IfOk result (λ shown. shown.items ≡ map shown_of newest.now) }
{
    let mut all = Vec::with_capacity(alloc, newest.len())?;
    for one in newest {
        all.push(shown_of(one))?;
    }
    Ok(all)
}

/// The group that newest copies give, where one is named or not.
fn found(
    alloc: Global,
    newest: &[Option<Newest>],
    named: Option<Guid>,
) -> Result<Assembled, Assembly>
    requires { AreNewest newest.now }
    ensures { FoundUpToMemory result (assembled (map shown_of newest.now) named) }
{
    let shown = shown(alloc, newest)?;
    assembled(alloc, &shown, named)
}

/// Equal references.
fn second_references(alloc: Global, references: &[u32]) -> Result<Vec<u32>, NoMemory>
    ensures { IfOk result (λ second. second.items ≡ references.now) }
{
    let second = Vec::from_slice(alloc, references)?;
    Ok(second)
}

/// Equal slots.
fn second_slots(alloc: Global, slots: &[usize]) -> Result<Vec<usize>, NoMemory>
    ensures { IfOk result (λ second. second.items ≡ slots.now) }
{
    let second = Vec::from_slice(alloc, slots)?;
    Ok(second)
}

/// The group that newest copies give, with its seats.
#[tactic(auto, unfolding(crate::specs::Group::group_of))]
fn group_of(
    alloc: Global,
    newest: Vec<Option<Newest>>,
    named: Option<Guid>,
) -> Result<Group, Assembly>
    requires { AreNewest newest.items }
    ensures group { UpToMemory result (group_of newest.items named) }
    ensures newest { IfOk result (λ group. group.newest ≡ newest.items) }
    ensures under { (sizes : List ℕ) → HaveAnchors sizes newest.items → IfOk result (λ group. HaveAnchors sizes group.newest) }
    ensures seats { (sizes : List ℕ) → HaveAnchors sizes newest.items → IfOk result (λ group. SeatsFit sizes group.seats) }
    ensures assembled { IfOk result IsAssembledGroup }
    ensures settled { IfOk result (λ group. group.absent ≡ [] → group.lagging ≡ [] → IsSettledGroup group) }
{
    let found = found(alloc, &newest, named)?;
    let seats = seats_of(alloc, &newest, found.seats.items())?;
    let absent = second_references(alloc, found.absent.items())?;
    let lagging = second_slots(alloc, found.lagging.items())?;
    Ok(Group {
        config: found.config,
        seats: Seq::new(seats),
        absent,
        lagging,
        newest,
    })
}

/// A group, and which slots of the bay its assembly left out.
#[derive(Drop)]
pub struct AssembledGroup {
    /// The group.
    pub group: Group,
    /// Of each slot of the bay whether it was left out, since a call on it failed.
    pub left_out: Seq<bool>,
}

fn is_left_out(left_out: &[bool], slot: usize) -> bool
    ensures { result ≡ slice_index_or left_out.now slot false }
{
    match left_out.get(slot) {
        Some(out) => *out,
        None => false,
    }
}

/// The first of these seats' slots that an assembly left out.
pub fn first_left_out(left_out: &[bool], seats: &[Seat]) -> Option<usize>
    ensures { result ≡ first_left_out left_out.now seats.now }
{
    match seats.iter().find(|seat| is_left_out(left_out, seat.slot)) {
        Some(seat) => Some(seat.slot),
        None => None,
    }
}

/// Reads the newest copy of each slot of a bay and answers the group that they give together (SNIA DDF 2.0, and profile where it is
/// silent): the named one, or the only one that no other absorbs. Nothing is written. A slot is left out where one of its reads
/// failed in this call, or where it has no sector and failed its sync.
///
/// # Errors
/// No slot shows the group; no group is named and there are several; two newest records contradict each other; an older record lists
/// the disk of a newest one as missing; or memory ran out.
pub fn assemble<B: Bay>(alloc: Global, bay: &mut B, group: Option<Guid>) -> Result<Group, Assembly>
    // promise:newest
    ensures assembled { IsAssembled B.tells (B.disks bay.old) (B.disks bay.new) group result }

    // Each newest copy can be written again, in both places under the anchor of its slot, and each seat is on a slot that has room
    // for its extents.
    ensures under { IfOk result (λ group. HaveAnchors (B.disks bay.old).sizes group.newest) }
    ensures stand { B.tells → IfOk result (λ group. StandUnder (B.disks bay.old) group.newest) }
    ensures seats { IfOk result (λ group. SeatsFit (B.disks bay.old).sizes group.seats) }

    // The group can be recovered. One of which nothing is absent and nothing lags can be changed.
    ensures recovers { IfOk result IsAssembledGroup }
    ensures settled { IfOk result (λ group. group.absent ≡ [] → group.lagging ≡ [] → IsSettledGroup group) }

    // Counts of failures never fall, and nothing is written.
    ensures never_falls { (slot : ℕ) → (B.disks bay.old).failed_reads slot ≤ (B.disks bay.new).failed_reads slot }
    ensures writes_never_fall { (slot : ℕ) → (B.disks bay.old).failed_writes slot ≤ (B.disks bay.new).failed_writes slot }
    ensures reads { ReadsOnly (B.disks bay.old) (B.disks bay.new) }

    // At most so many calls are made.
    ensures calls { (B.disks bay.new).calls ≤ (B.disks bay.old).calls + 15 * length (B.disks bay.old).sizes }
{
    match assemble_with_left_out(alloc, bay, group) {
        Ok(made) => Ok(made.group),
        Err(fault) => Err(fault),
    }
}

/// Assembles a group as `assemble` does, and answers too of each slot whether it was left out.
///
/// # Errors
/// Those of `assemble`.
pub fn assemble_with_left_out<B: Bay>(
    alloc: Global,
    bay: &mut B,
    group: Option<Guid>,
) -> Result<AssembledGroup, Assembly>
    // promise:newest
    ensures assembled { IsAssembledLeavingOut B.tells (B.disks bay.old) (B.disks bay.new) group result }
    ensures none { IfOk result (λ made. LeaveNone made.left_out made.group.newest) }

    // What is said of the group that `assemble` answers.
    ensures under { IfOk result (λ made. HaveAnchors (B.disks bay.old).sizes made.group.newest) }
    ensures stand { B.tells → IfOk result (λ made. StandUnder (B.disks bay.old) made.group.newest) }
    ensures seats { IfOk result (λ made. SeatsFit (B.disks bay.old).sizes made.group.seats) }
    ensures recovers { IfOk result (λ made. IsAssembledGroup made.group) }
    ensures settled { IfOk result (λ made. made.group.absent ≡ [] → made.group.lagging ≡ [] → IsSettledGroup made.group) }

    // Counts of failures never fall, nothing is written, and at most so many calls are made.
    ensures never_falls { (slot : ℕ) → (B.disks bay.old).failed_reads slot ≤ (B.disks bay.new).failed_reads slot }
    ensures writes_never_fall { (slot : ℕ) → (B.disks bay.old).failed_writes slot ≤ (B.disks bay.new).failed_writes slot }
    ensures reads { ReadsOnly (B.disks bay.old) (B.disks bay.new) }
    ensures calls { (B.disks bay.new).calls ≤ (B.disks bay.old).calls + 15 * length (B.disks bay.old).sizes }
{
    let slots = read_slots(alloc, bay)?;
    let made = group_of(alloc, slots.newest, group)?;
    Ok(AssembledGroup {
        group: made,
        left_out: Seq::new(slots.left_out),
    })
}
