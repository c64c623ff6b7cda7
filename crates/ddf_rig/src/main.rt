//! Plays written scenarios: calls of `ddf` over disks in memory, and tells where one is answered otherwise than is written.
#![tactic(auto)]

mod ddf;

use crate::ddf::Ddf;
use anyhow::Context;
use ddf_scenario::{Report, play, steps_of};
use std::process::ExitCode;
use std::rt::{Env, Files};
use std::{env, fs};

fn main(rt: HostRuntime) -> ExitCode {
    match play_all(&rt) {
        Ok(true) => ExitCode::SUCCESS,
        Ok(false) => ExitCode::FAILURE,
        Err(error) => {
            let _ = eprintln!(rt; "ddf_rig: {error:#}");
            ExitCode::from(2)
        }
    }
}

/// Plays the scenarios of the files that the words name, and tells of each file how many steps it has and which are answered
/// otherwise. Answers whether none is.
fn play_all<R: Files + Env + Print + AllocGlobal>(rt: &R) -> anyhow::Result<bool> {
    let alloc = rt.alloc();
    let mut is_well = true;
    for path in env::args(rt)?.skip(1) {
        let report = report_of(rt, path.as_str()).with_context(|| format!(in alloc; "{path}"))?;
        println!(rt;
            "{path}: {} steps, {} otherwise",
            report.steps, report.wrong
        )?;
        rt.print(report.text.as_str())?;
        is_well = is_well && report.wrong == 0;
    }
    Ok(is_well)
}

/// Plays the scenario of a file.
fn report_of<R: Files + AllocGlobal>(rt: &R, path: &str) -> anyhow::Result<Report> {
    let alloc = rt.alloc();
    let text = fs::read_to_string(rt, path)?;
    let shared = shared_by(rt, text.as_str())?;
    let steps = steps_of(alloc, shared.as_slice(), text.as_str())?;
    play(alloc, &Ddf, steps.as_slice())
}

/// The texts of the files that a scenario names by `% from FILE`, to play their parts.
fn shared_by<R: Files + AllocGlobal>(rt: &R, text: &str) -> anyhow::Result<Vec<String>> {
    let mut shared = Vec::new(rt.alloc());
    for line in text.lines() {
        if let Some(path) = line.strip_prefix("% from ") {
            shared.push(fs::read_to_string(rt, path)?)?;
        }
    }
    Ok(shared)
}
