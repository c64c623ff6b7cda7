//! Questions to whoever started the program, where a terminal is there to ask at. docs/COMMANDS.md#what-is-told-on-standard-error
use ddf_edge::{Care, Failure};
use std::fs::{File, OpenOptions};
use std::io;
use std::io::{BufRead, BufReader, Write};
use std::rt::Files;

/// The terminal that a program was started from, whatever its standard streams are.
const TERMINAL: &str = "/dev/tty";

/// What is asked where what it is about stands above.
const QUESTION: &str = "ddf: go on? (y or n) ";

/// And where that went elsewhere.
const QUESTION_APART: &str =
    "ddf: standard error, which isn't this terminal, says what would be lost; go on? (y or n) ";

/// Who started the program, as far as the words and the standard streams tell.
#[derive(Clone, Copy)]
pub struct Person {
    /// Standard error is a terminal.
    pub sees: bool,
    /// Standard input is one.
    pub types: bool,
    /// Standard output is one.
    pub reads: bool,
    /// How careful the program is to be.
    pub care: Care,
}

impl Person {
    /// Whether one of the standard streams is a terminal, so that somebody may be there.
    fn may_be_there(&self) -> bool {
        self.sees || self.types || self.reads
    }

    /// What is asked.
    fn question(&self) -> &'static str {
        if self.sees { QUESTION } else { QUESTION_APART }
    }
}

/// Asks whether to go on, where there is somebody to be asked.
pub fn consents<R>(rt: &R, person: Person) -> Result<(), Failure>
where
    R: Files<File = File> + Input + Eprint + AllocGlobal,
{
    match person.care {
        Care::Yes => Ok(()),
        Care::Careful => Err(Failure::Careful),
        Care::Ask if person.may_be_there() => ask(rt, person),
        Care::Ask => Ok(()),
    }
}

/// Asks at the terminal that the program was started from. Where it can't be opened, as in a rescue shell that has none of its own,
/// standard error and standard input take its place if both are one, and else nobody is asked.
fn ask<R>(rt: &R, person: Person) -> Result<(), Failure>
where
    R: Files<File = File> + Input + Eprint + AllocGlobal,
{
    let mut how = OpenOptions::new();
    how.read(true).write(true);
    match how.open(rt, TERMINAL) {
        Ok(terminal) => ask_terminal(rt, terminal, person.question()),
        Err(_) if person.sees && person.types => ask_input(rt),
        Err(_) => Ok(()),
    }
}

/// Asks at a terminal. A question that can't be put is answered by no.
fn ask_terminal<R>(rt: &R, terminal: File, question: &str) -> Result<(), Failure>
where
    R: AllocGlobal,
{
    let mut terminal = terminal;
    if terminal.write_all(question.as_bytes()).is_err() {
        return Err(Failure::Declined);
    }
    let Ok(mut lines) = BufReader::new(rt.alloc(), terminal) else {
        return Err(Failure::Memory);
    };
    let mut answer = String::new(rt.alloc());
    let outcome = lines.read_line(&mut answer);
    judge(&outcome, &answer)
}

/// Asks on standard error, and takes the answer from standard input.
fn ask_input<R: Input + Eprint + AllocGlobal>(rt: &R) -> Result<(), Failure> {
    let mut answer = String::new(rt.alloc());
    let _ = rt.eprint(QUESTION);
    let outcome = rt.read_line(&mut answer);
    judge(&outcome, &answer)
}

/// `y`, `Y` and `yes` are a yes, and all else is none.
fn judge(outcome: &io::Result<usize>, answer: &str) -> Result<(), Failure> {
    if outcome.is_ok() && matches!(answer.trim(), "y" | "Y" | "yes") {
        Ok(())
    } else {
        Err(Failure::Declined)
    }
}
