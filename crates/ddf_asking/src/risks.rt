//! What a command is about to lose or to write over. What isn't named here isn't asked about, and is gone.
//! docs/COMMANDS.md#what-is-told-on-standard-error
use ddf_bytes::NoMemory;
use ddf_contents::name_filled;
use ddf_for_linux::{LinuxBay, name_misread, name_unfinished};
use ddf_losses::{name_accepting, name_deleting, name_difference, name_failing, name_losses};
use ddf_words::{Asked, Command, Wish};

/// What was named before a command.
#[derive(Clone, Copy, PartialEq, Eq)]
pub struct Risks {
    /// Members would be lost.
    pub losses: bool,
    /// Or something else that somebody may want to keep: what a disk holds, a disk, an array.
    pub others: bool,
}

impl Risks {
    const NONE: Risks = Risks {
        losses: false,
        others: false,
    };

    /// Whether anything was named.
    pub fn any(&self) -> bool {
        self.losses || self.others
    }
}

/// Names on standard error what a command would lose or write over that somebody may want to keep.
pub fn name_risks<R, B: LinuxBay>(
    rt: &R,
    bay: &mut B,
    paths: &[String],
    asked: &Asked,
) -> Result<Risks, NoMemory>
where
    R: Eprint + AllocGlobal,
{
    if let Command::Label { slots, .. } = &asked.command {
        let others = name_filled(rt, bay, paths, slots.items());
        return Ok(Risks {
            losses: false,
            others,
        });
    }
    let traits = asked.command.traits();
    if !traits.takes_group || !traits.may_write {
        return Ok(Risks::NONE);
    }
    let losses = lost_by(rt, bay, paths, asked)?;
    let others = named_by(rt, bay, paths, asked)?;
    let takes_a_disk = matches!(&asked.command, Command::Change(Wish::Fail { .. }));
    if losses || (others && takes_a_disk) {
        name_unfinished(rt, bay, asked.group);
    }
    Ok(Risks { losses, others })
}

/// Names the members that a command would lose, of an import those of both groups. Whether there are any.
fn lost_by<R, B: LinuxBay>(
    rt: &R,
    bay: &mut B,
    paths: &[String],
    asked: &Asked,
) -> Result<bool, NoMemory>
where
    R: Eprint + AllocGlobal,
{
    let Command::Import { group } = &asked.command else {
        return name_losses(rt, bay, paths, asked.group);
    };
    name_difference(rt, bay, paths, asked.group, *group)?;
    let own = name_losses(rt, bay, paths, asked.group)?;
    let its = name_losses(rt, bay, paths, Some(*group))?;
    Ok(own || its)
}

/// Names what else a change would put an end to, or what it would make that Linux misreads. Whether there is any.
fn named_by<R, B: LinuxBay>(
    rt: &R,
    bay: &mut B,
    paths: &[String],
    asked: &Asked,
) -> Result<bool, NoMemory>
where
    R: Eprint + AllocGlobal,
{
    match &asked.command {
        Command::Change(Wish::Fail { slot }) => {
            name_failing(rt, bay, paths, asked.group, usize::from(*slot))
        }
        Command::Change(Wish::Delete { name }) => {
            name_deleting(rt, bay, asked.group, name.items())
        }
        Command::Change(Wish::Accept { name }) => {
            name_accepting(rt, bay, asked.group, name.items())
        }
        Command::Change(Wish::Create(creation)) => Ok(name_misread(rt, bay, creation)),
        _ => Ok(false),
    }
}
