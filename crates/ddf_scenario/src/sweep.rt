//! Steps that are played again and again, with other values.
use crate::answer::answer;
use crate::disks::Disks;
use crate::outcomes::Outcomes;
use crate::program::Program;
use crate::report::Report;
use crate::script::Step;
use crate::variables::{Variable, filled, rounds_of, variables_of};
use anyhow::bail;
use std::alloc::Global;

/// Plays the steps behind the first, which names the values, in each way, and gives the different outcomes. An outcome is the answers
/// of the steps that are told as `?`. One that is told as `...` may be answered as it likes.
pub fn sweep<P: Program>(
    alloc: Global,
    program: &P,
    disks: &mut Disks,
    steps: &[Step],
    report: &mut Report,
) -> anyhow::Result<String> {
    let [head, body @ ..] = steps else {
        bail!("a sweep has no head");
    };
    let variables = variables_of(alloc, head.asked.as_str())?;
    let mut outcomes = Outcomes::new(alloc);
    for number in 0..rounds_of(variables.as_slice()) {
        let outcome = round(
            alloc,
            program,
            disks,
            variables.as_slice(),
            number,
            body,
            report,
        )?;
        outcomes.add(outcome)?;
    }
    Ok(outcomes.text(alloc)?)
}

/// Plays a round, and gives its outcome.
fn round<P: Program>(
    alloc: Global,
    program: &P,
    disks: &mut Disks,
    variables: &[Variable],
    number: usize,
    body: &[Step],
    report: &mut Report,
) -> anyhow::Result<String> {
    let mut outcome = String::new(alloc);
    for step in body {
        let asked = filled(alloc, step.asked.as_str(), variables, number)?;
        let told = answer(alloc, program, disks, asked.as_str())?;
        match step.told.as_str() {
            "?\n" => outcome.push_str(told.as_str())?,
            "...\n" => (),
            _ => report.compare(alloc, step, asked.as_str(), told.as_str())?,
        }
    }
    Ok(outcome)
}
