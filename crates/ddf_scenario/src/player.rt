//! A scenario, played step by step.
use crate::answer::answer;
use crate::disks::Disks;
use crate::program::Program;
use crate::report::Report;
use crate::script::Step;
use crate::sweep::sweep;
use anyhow::{Context, bail};
use std::alloc::Global;

/// A scenario that is being played.
#[derive(Drop)]
struct Player {
    disks: Disks,
    report: Report,
    /// The place of the step that began the sweep that is under way, if one is.
    begun: Option<usize>,
}

/// Plays a scenario.
pub fn play<P: Program>(alloc: Global, program: &P, steps: &[Step]) -> anyhow::Result<Report> {
    let mut player = Player {
        disks: Disks::new(),
        report: Report::new(alloc),
        begun: None,
    };
    for (place, step) in steps.iter().enumerate() {
        player
            .follow(alloc, program, steps, place, step)
            .with_context(|| format!(in alloc; "line {}", step.line))?;
    }
    if player.begun.is_some() {
        bail!("the last sweep has no end");
    }
    Ok(player.report)
}

impl Player {
    /// Follows the step at a place: it begins a sweep, is a part of one, ends it, or is one by itself.
    fn follow<P: Program>(
        &mut self,
        alloc: Global,
        program: &P,
        steps: &[Step],
        place: usize,
        step: &Step,
    ) -> anyhow::Result<()> {
        let asked = step.asked.as_str();
        let told = match self.begun {
            Some(first) if asked == "% end" => {
                self.begun = None;
                let swept = steps.get(first..place).unwrap_or(&[]);
                sweep(alloc, program, &mut self.disks, swept, &mut self.report)?
            }
            Some(_) => return Ok(()),
            None if asked.starts_with("% each ") => {
                self.begun = Some(place);
                return Ok(());
            }
            None => answer(alloc, program, &mut self.disks, asked)?,
        };
        self.report.compare(alloc, step, asked, told.as_str())
    }
}
