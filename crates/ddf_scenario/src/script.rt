//! A scenario as it is written: lines that ask for something, and behind each the lines that it is answered with.
use crate::lines::lines_of;
use anyhow::bail;
use std::alloc::Global;

/// Something that is asked for, and the text that is written as its answer.
#[derive(Drop)]
pub struct Step {
    /// The number of its line, from 1 on.
    pub line: usize,
    pub asked: String,
    pub told: String,
}

/// The steps of a scenario, and of the texts whose parts it shares. A line that begins with `$` is a command of `ddf`, one that begins with `%` is
/// for the disks, and one that begins with `#` is for readers.
pub fn steps_of(alloc: Global, shared: &[String], text: &str) -> anyhow::Result<Vec<Step>> {
    let mut steps = Vec::new(alloc);
    for line in lines_of(alloc, shared, text)? {
        if line.text.starts_with('$') || line.text.starts_with('%') {
            steps.push(Step {
                line: line.number,
                asked: String::from_str(alloc, line.text)?,
                told: String::new(alloc),
            })?;
        } else if !line.text.is_empty() && !line.text.starts_with('#') {
            add_told(&mut steps, line.text)?;
        }
    }
    Ok(steps)
}

/// Adds a line to the answer of the last step.
fn add_told(steps: &mut Vec<Step>, line: &str) -> anyhow::Result<()> {
    let Some(step) = steps.last_mut() else {
        bail!("`{line}` answers nothing");
    };
    step.told.push_str(line)?;
    step.told.push('\n')?;
    Ok(())
}
