//! Names that stand for each of some values, one after another.
use crate::numbers::number;
use anyhow::bail;
use std::alloc::Global;

#[derive(Drop)]
pub struct Variable {
    /// The name in braces, as it stands in the lines.
    name: String,
    values: Vec<String>,
}

/// The variables of a line `% each NAME=VALUES..`, where VALUES are numbers A..B, with /STEP behind it or not, or words with commas between.
pub fn variables_of(alloc: Global, line: &str) -> anyhow::Result<Vec<Variable>> {
    let mut variables = Vec::new(alloc);
    for word in line.split_whitespace().skip(2) {
        let Some((name, values)) = word.split_once('=') else {
            bail!("`{word}` has no values");
        };
        variables.push(Variable {
            name: format!(in alloc; "{{{name}}}")?,
            values: values_of(alloc, values)?,
        })?;
    }
    Ok(variables)
}

fn values_of(alloc: Global, text: &str) -> anyhow::Result<Vec<String>> {
    let Some((first, rest)) = text.split_once("..") else {
        return words_of(alloc, text);
    };
    let (last, step) = match rest.split_once('/') {
        Some((last, step)) => (number(last)?, number(step)?),
        None => (number(rest)?, 1),
    };
    numbers_of(alloc, number(first)?, last, step)
}

fn words_of(alloc: Global, text: &str) -> anyhow::Result<Vec<String>> {
    let mut values = Vec::new(alloc);
    for word in text.split(',') {
        values.push(String::from_str(alloc, word)?)?;
    }
    Ok(values)
}

fn numbers_of(alloc: Global, first: u64, last: u64, step: u64) -> anyhow::Result<Vec<String>> {
    let mut values = Vec::new(alloc);
    if step == 0 || first > last {
        bail!("{first}..{last}/{step} are no numbers");
    }
    for value in first..=last {
        if (value - first) % step == 0 {
            values.push(format!(in alloc; "{value}")?)?;
        }
    }
    Ok(values)
}

/// In how many ways the names can stand for values.
pub fn rounds_of(variables: &[Variable]) -> usize {
    let mut rounds: usize = 1;
    for variable in variables {
        rounds = rounds.saturating_mul(variable.values.len());
    }
    rounds
}

/// A line in which each name is replaced by its value in a round.
pub fn filled(
    alloc: Global,
    line: &str,
    variables: &[Variable],
    round: usize,
) -> anyhow::Result<String> {
    let mut text = String::from_str(alloc, line)?;
    let mut left = round;
    for variable in variables {
        let count = variable.values.len();
        if count == 0 {
            bail!("{} has no values", variable.name);
        }
        let value = &variable.values[left % count];
        left /= count;
        text = text.replace(alloc, variable.name.as_str(), value.as_str())?;
    }
    Ok(text)
}
