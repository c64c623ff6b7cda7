//! The steps of an exercise.
ghost use Rattle.std.specs.Prelude.{◌≡◌, ◌≤◌, ◌++◌, IfOk, OnOk};
ghost use Rattle.ddf_exercise.specs.Draws.{behind_fills};
ghost use Rattle.ddf_exercise.specs.Steps.{all_steps, loss_steps, rise, write_steps};

use crate::draws::{Draws, Fill};
use ddf_bytes::NoMemory;
use std::alloc::Global;

/// A step of an exercise.
#[derive(Clone, Copy)]
pub enum Step {
    /// All disks are labelled.
    Label,
    /// The array is created.
    Create,
    /// Its parity is made to agree.
    Resync,
    /// The disk of a slot becomes a spare for all arrays.
    Spare(u8),
    /// Blocks of the array are written.
    Write(Fill),
    /// A slot is unplugged: its disk is lost.
    Unplug(usize),
    /// The position of the array whose disk was lost is filled on a spare.
    Rebuild,
    /// The parity of the array is compared.
    Scrub,
}

impl Step {
    /// By how much it raises the sequence number of the group.
    pub fn rise(self) -> u32
        ensures rise { result ≡ rise self }
        ensures few { result ≤ 4 }
    {
        match self {
            Step::Label | Step::Create | Step::Resync | Step::Spare(_) => 1,
            Step::Write(_) => 2,
            Step::Rebuild => 4,
            Step::Unplug(_) | Step::Scrub => 0,
        }
    }
}

/// The steps of an exercise, in their order.
pub fn steps(alloc: Global, seed: u64, rounds: u64) -> Result<Vec<Step>, NoMemory>
    ensures { IfOk result (λ steps. steps.items ≡ all_steps seed rounds) }
{
    let mut draws = Draws::new(seed);
    let first = [
        Step::Label,
        Step::Create,
        Step::Resync,
        Step::Spare(3),
        Step::Spare(4),
    ];
    let mut steps = Vec::from_array(alloc, first)?;
    add_writes(&mut steps, &mut draws, rounds)?;
    add_loss(&mut steps, 1)?;
    add_writes(&mut steps, &mut draws, rounds)?;
    add_loss(&mut steps, 2)?;
    add_writes(&mut steps, &mut draws, rounds)?;
    steps.push(Step::Scrub)?;
    Ok(steps)
}

/// Adds so many writes.
fn add_writes(steps: &mut Vec<Step>, draws: &mut Draws, rounds: u64) -> Result<(), NoMemory>
    ensures steps { OnOk result (steps.new.items ≡ steps.old.items ++ write_steps rounds draws.old.state) }
    ensures state { OnOk result (draws.new.state ≡ behind_fills rounds draws.old.state) }
{
    for _ in 0..rounds {
        steps.push(Step::Write(draws.fill()))?;
    }
    Ok(())
}

/// Adds the loss of a slot's disk, and the rebuild behind it.
fn add_loss(steps: &mut Vec<Step>, slot: usize) -> Result<(), NoMemory>
    ensures { OnOk result (steps.new.items ≡ steps.old.items ++ loss_steps slot) }
{
    steps.push(Step::Unplug(slot))?;
    steps.push(Step::Rebuild)?;
    Ok(())
}
