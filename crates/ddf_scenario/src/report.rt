//! What came of a scenario.
use crate::script::Step;
use std::alloc::Global;

/// How many steps were played, and which of them were answered otherwise than is written.
#[derive(Drop)]
pub struct Report {
    pub steps: u64,
    /// The steps that were answered otherwise.
    pub wrong: u64,
    /// What these were answered.
    pub text: String,
}

impl Report {
    pub fn new(alloc: Global) -> Report {
        Report {
            steps: 0,
            wrong: 0,
            text: String::new(alloc),
        }
    }

    /// Counts a step, and tells what it was answered where it isn't what is written.
    pub fn compare(
        &mut self,
        alloc: Global,
        step: &Step,
        asked: &str,
        told: &str,
    ) -> anyhow::Result<()> {
        self.steps = self.steps.saturating_add(1);
        if step.told.as_str() != told {
            self.wrong = self.wrong.saturating_add(1);
            let text = format!(in alloc; "line {}: {asked}\n{told}", step.line)?;
            self.text.push_str(text.as_str())?;
        }
        Ok(())
    }
}
