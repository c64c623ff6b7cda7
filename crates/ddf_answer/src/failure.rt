//! Why a command isn't done.
ghost use Rattle.std.specs.Prelude.{◌≡◌};
ghost use Rattle.ddf_answer.specs.Answers.{IsToldFailure};
ghost use Rattle.ddf_bytes.specs.Streams.{SinkRose};
ghost use Rattle.ddf_answer.specs.Call.{answer_of};
ghost use Rattle.ddf_answer.specs.Status.{code_of};

use crate::status::Status;
use crate::telling::{tell, tell_line};
use ddf_bay::DiskFault;
use ddf_bytes::{NoMemory, Sink};
use ddf_config::Refusal;
use ddf_group::{Assembly, Differ};
use ddf_plan::PlanFault;
use ddf_text::{ConflictText, RefusalText, SplitText, disk_fault_line};
use std::alloc::Global;

/// Why a command isn't done though its words are good.
#[derive(Clone, Copy)]
pub enum Failure {
    /// It is refused.
    Refused(Refusal),
    /// A call on a slot failed.
    Disk(usize),
    /// Two newest records of the group, of the slots i and j, contradict each other.
    Conflict {
        /// The slot of the one record.
        i: usize,
        /// The slot of the other.
        j: usize,
        /// The sequence number of both.
        sequence: u32,
        /// What they differ in.
        differ: Differ,
    },
    /// The record of the slot j is older, and lists the disk of the slot i as missing.
    Split {
        /// The slot of the disk that is listed as missing.
        i: usize,
        /// The slot of the older record.
        j: usize,
    },
    /// Memory ran out.
    Memory,
}

impl From<Assembly> for Failure {
    ghost use Rattle.ddf_answer.specs.Answers.{failure_of};

    ghost from_gives = { λ fault failure. failure ≡ failure_of fault };

    fn from(fault: Assembly) -> Failure {
        match fault {
            Assembly::NoGroup => Failure::Refused(Refusal::NoGroup),
            Assembly::SeveralGroups(first, second) => {
                Failure::Refused(Refusal::SeveralGroups(first, second))
            }
            Assembly::Conflict {
                i,
                j,
                sequence,
                differ,
            } => Failure::Conflict {
                i,
                j,
                sequence,
                differ,
            },
            Assembly::Split { i, j } => Failure::Split { i, j },
            Assembly::Memory => Failure::Memory,
        }
    }
}

impl From<Refusal> for Failure {
    ghost use Rattle.ddf_answer.specs.declared.failure.Failure.TheVariants.{Refused};

    ghost from_gives = { λ refusal failure. failure ≡ Refused refusal };

    fn from(refusal: Refusal) -> Failure {
        Failure::Refused(refusal)
    }
}

impl From<PlanFault> for Failure {
    ghost use Rattle.ddf_answer.specs.Answers.{failure_of_plan};

    ghost from_gives = { λ fault failure. failure ≡ failure_of_plan fault };

    fn from(fault: PlanFault) -> Failure {
        match fault {
            PlanFault::Refused(refusal) => Failure::Refused(refusal),
            PlanFault::Memory => Failure::Memory,
        }
    }
}

impl From<NoMemory> for Failure {
    ghost use Rattle.ddf_answer.specs.declared.failure.Failure.TheVariants.{Memory};

    ghost from_gives = { λ _ failure. failure ≡ Memory };

    fn from(_error: NoMemory) -> Failure {
        Failure::Memory
    }
}

impl From<DiskFault> for Failure {
    ghost use Rattle.ddf_answer.specs.declared.failure.Failure.TheVariants.{Disk};

    ghost from_gives = { λ fault failure. failure ≡ Disk fault.0 };

    fn from(fault: DiskFault) -> Failure {
        Failure::Disk(fault.0)
    }
}

/// Prints why a command isn't done, and answers its status. It takes memory for all but a failed call.
pub fn tell_failure<K: Sink>(alloc: Global, failure: Failure, sink: &mut K) -> Status
    ensures told { IsToldFailure failure (answer_of K.tells (K.output sink.old) (K.output sink.new) (code_of result)) }
    ensures stream { code_of result ≡ 6 → SinkRose (K.output sink.old) (K.output sink.new) }
{
    match failure {
        Failure::Refused(refusal) => {
            tell_line(alloc, &RefusalText(refusal), Status::Refused, sink)
        }
        Failure::Conflict {
            i,
            j,
            sequence,
            differ,
        } => {
            let conflict = ConflictText {
                i,
                j,
                sequence,
                differ,
            };
            tell_line(alloc, &conflict, Status::Contradicted, sink)
        }
        Failure::Split { i, j } => {
            tell_line(alloc, &SplitText { i, j }, Status::Contradicted, sink)
        }
        Failure::Disk(slot) => tell(sink, disk_fault_line(slot).as_bytes(), Status::DiskFault),
        Failure::Memory => Status::Memory,
    }
}
