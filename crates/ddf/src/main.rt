//! The program `ddf`: it opens the images that its words name, and does what they ask for.
//! docs/ARCHITECTURE.md#one-command-from-its-words-to-the-sectors
#![tactic(auto)]

ghost use Rattle.std.specs.Prelude.{◌≡◌, ◌≤◌, length, IfOk};
ghost use Rattle.ddf_words.specs.Words.{words_of, slot_count};

use ddf_arrays_left::{
    Fault, name_half_moved, name_interim, name_marked, name_stand_in, tell_back, tell_cut,
    tell_faulted,
};
use ddf_asking::{Person, Risks, consents, name_lines, name_risks, tell_end};
use ddf_batch::serve;
use ddf_bay::Bay;
use ddf_bytes::{NoMemory, Stamp, StdSink, StdSource};
use ddf_command::{Asked, Command, Wish, refuse_words, slot_paths};
use ddf_contents::{name_early, name_odd};
use ddf_disks::{ends_of, name_failed_of, name_ranges, open};
use ddf_edge::{
    CountingSink, Failure, Given, LastCall, Length, Meter, NO_MEMORY, NotingSource, Patient,
    STREAM_FAULT, USAGE, answer, care_of_environment, care_word, command_word, explain,
    hold_streams, keep_freed, lines_of_input, name_failed, name_no_texts, name_rest, number_sizes,
    number_slots, same_disk, stamp_for,
};
use ddf_exercise::exercise_new_disks;
use ddf_for_linux::{
    LinuxBay, made_for_linux, name_lost_on_linux, name_turned, name_unfinished, name_unrebuilt,
    name_untaken,
};
use ddf_losses::{name_away, name_strays};
use ddf_progress::Watched;
use ddf_refusals::{Ear, HearingSink, Refused};
use ddf_shortened::Ends;
use ddf_sizes::{complete, is_short, length_of, name_numbers, name_sizes};
use ddf_words::{Asking, asking_of};
use std::fs::File;
use std::io::IsTerminal;
use std::process::ExitCode;
use std::rt::{Clock, Env, Files};
use std::{env, io, str};

fn main(rt: HostRuntime) -> ExitCode {
    let person = Person {
        sees: rt.stderr().is_terminal(),
        types: rt.stdin().is_terminal(),
        reads: rt.stdout().is_terminal(),
        care: care_of_environment(&rt),
    };
    ExitCode::from(status(&rt, person))
}

/// What the words ask for.
#[derive(Clone, Copy, PartialEq, Eq)]
enum Kind {
    /// One command.
    Command,
    /// A batch: before its lines are known it counts as `assemble`, over the same group.
    Batch,
}

impl Kind {
    /// Why the program ends where the input failed.
    fn input_failure(self) -> Failure {
        match self {
            Kind::Command => Failure::Input,
            Kind::Batch => Failure::Batch,
        }
    }
}

/// How a command ended.
#[derive(Clone, Copy)]
struct Ending {
    /// Its status.
    status: u8,
    /// The slot of the disk that failed, where its output names one.
    fault: Option<u16>,
    /// The last call of it on a disk.
    last: LastCall,
    /// Why it was refused, where it was.
    refused: Option<Refused>,
    /// How many bytes of its output were taken.
    taken: u64,
    /// Whether its input failed.
    is_cut: bool,
    /// The slot of the spare that held the position which a `copyback` takes.
    holder: Option<usize>,
}

/// The refusal of a disk whose bad block log can't be honoured.
const BAD_BLOCKS: u16 = 31;

/// When a batch loses what was named.
const BATCH_LOSSES: &str =
    "ddf: a batch does so at its first line that changes the group, and else not at all\n";

/// What is said where a command that was refused would have lost members.
const NOTHING_LOST: &str = "ddf: nothing was written, so no member was lost\n";

/// Does what the words ask for, or says on standard error why not.
fn status<R>(rt: &R, person: Person) -> u8
where
    R: Files<File = File> + Env + Clock + Input + Print + Eprint + AllocGlobal + Clone + Drop,
{
    match obey_words(rt, person) {
        Ok(status) => status,
        Err(failure) => {
            let _ = eprintln!(rt; "ddf: {failure}");
            failure.status()
        }
    }
}

/// Reads the words, and does what they ask for. No disk is opened before the standard streams have their descriptors.
fn obey_words<R>(rt: &R, person: Person) -> Result<u8, Failure>
where
    R: Files<File = File> + Env + Clock + Input + Print + Eprint + AllocGlobal + Clone + Drop,
{
    let held = hold_streams(rt).map_err(Failure::Streams)?;
    let mut person = person;
    let outcome = match words(rt, &mut person) {
        Ok(mut words) => obey(rt, &mut words, person),
        Err(why) if why.kind() == io::ErrorKind::OutOfMemory => Err(Failure::Memory),
        Err(why) => {
            let _ = eprintln!(rt; "ddf: the arguments can't be read: {why}");
            name_no_texts(rt);
            refuse(rt, 0)
        }
    };
    drop(held);
    outcome
}

/// The words after the program's name, but for a first one that says how careful to be.
fn words<R>(rt: &R, person: &mut Person) -> io::Result<Vec<String>>
where
    R: Env + Eprint + AllocGlobal,
{
    let mut words = Vec::new(rt.alloc());
    for (place, word) in env::args(rt)?.skip(1).enumerate() {
        match care_word(&word) {
            Some(care) if place == 0 => person.care = care,
            _ => words.push(word)?,
        }
    }
    number_slots(rt, &mut words)?;
    number_sizes(rt, &mut words)?;
    Ok(words)
}

/// Does what the words ask for.
fn obey<R>(rt: &R, words: &mut Vec<String>, person: Person) -> Result<u8, Failure>
where
    R: Files<File = File> + Clock + Input + Print + Eprint + AllocGlobal + Clone + Drop,
{
    if let Some(text) = answer(words) {
        return match rt.print(text) {
            Ok(()) => Ok(0),
            Err(_) => Err(Failure::Stream),
        };
    }
    if is_short(words) {
        complete_words(rt, words)?;
    }
    match asking_of(rt.alloc(), words)? {
        Asking::Command(asked) => perform(rt, words, &asked, Kind::Command, person),
        Asking::Batch(group) => {
            let asked = Asked {
                group,
                command: Command::Assemble,
            };
            perform(rt, words, &asked, Kind::Batch, person)
        }
        Asking::Exercise { seed, rounds } => exercise_commands(rt, seed, rounds),
        Asking::Wrong(place) => explain_refusal(rt, words, place),
    }
}

/// Looks at the disks, and puts what they show in the place of the words that name it in short.
#[inline(never)]
fn complete_words<R>(rt: &R, words: &mut Vec<String>) -> Result<(), Failure>
where
    R: Files<File = File> + Clock + Eprint + AllocGlobal + Clone + Drop,
{
    let founds = made_for_linux(&Command::Show, 0);
    let mut disks = open(rt, slot_paths(words), &Command::Show, founds)?;
    complete(rt, &mut disks, words)?;
    Ok(())
}

/// Exercises the program's commands on disks in memory. No image is touched.
fn exercise_commands<R>(rt: &R, seed: u64, rounds: u64) -> Result<u8, Failure>
where
    R: Files + Clock + Print + AllocGlobal,
    requires { rounds ≤ 256 }
{
    let stamp = stamp_for(rt, true).map_err(Failure::Chance)?;
    let mut sink = StdSink::new(io::writer(rt));
    let status = exercise_new_disks(rt.alloc(), seed, rounds, &mut sink, stamp);
    answered(status.code(), false)
}

/// Refuses words that are no command's, and says what is wrong with them. No disk is opened.
fn explain_refusal<R>(rt: &R, words: &[String], place: usize) -> Result<u8, Failure>
where
    R: Print + Eprint + AllocGlobal,
{
    let _ = if words.is_empty() {
        rt.eprint(USAGE)
    } else {
        let wrong = explain(words, place);
        match wrong.synopsis() {
            Some(line) => eprintln!(rt; "ddf: {wrong}; the arguments are: {line}"),
            None => eprintln!(rt; "ddf: {wrong}; ddf --help shows the arguments"),
        }
    };
    refuse(rt, place)
}

/// Prints that the words go wrong at a place.
fn refuse<R: Print + AllocGlobal>(rt: &R, place: usize) -> Result<u8, Failure> {
    let mut sink = StdSink::new(io::writer(rt));
    answered(refuse_words(rt.alloc(), place, &mut sink), false)
}

/// The status of a call that may write to disks or not, or why it was cut short.
fn answered(status: u8, writes: bool) -> Result<u8, Failure> {
    match status {
        NO_MEMORY => Err(Failure::Memory),
        STREAM_FAULT if writes => Err(Failure::StreamAfter),
        STREAM_FAULT => Err(Failure::Stream),
        _ => Ok(status),
    }
}

/// Opens the disks, and hands them to the command. A group isn't changed where a disk that is named can't be opened, and isn't looked
/// at where one is locked.
// argued: that a command gets the images that its words name, and that one which changes a group isn't run where an image can't be opened, nor one that
// looks at a group where an image is locked, for the steps before `serve` are one call each, in this order.
fn perform<R>(
    rt: &R,
    words: &[String],
    asked: &Asked,
    kind: Kind,
    person: Person,
) -> Result<u8, Failure>
where
    R: Files<File = File> + Clock + Input + Print + Eprint + AllocGlobal + Clone + Drop,
{
    keep_freed(rt.alloc());
    let paths = slot_paths(words);
    if let Some(place) = same_disk(rt, paths)? {
        return refuse(rt, place);
    }
    let makes_names = kind == Kind::Batch || asked.command.traits().makes_names;
    let stamp = stamp_for(rt, makes_names).map_err(Failure::Chance)?;

    // argued: that the program makes the bay for `label linux`, and for nothing else, for these lines alone make the bay that a command gets, by the
    // command itself.
    let founds = made_for_linux(&asked.command, paths.len());
    let disks = open(rt, paths, &asked.command, founds)?;
    name_ranges(rt, &disks, paths, &asked.command);
    let ends = ends_of(&disks);
    let (disks, ending) = serve_on(rt, words, asked, kind, person, disks, ends, stamp)?;
    let unserved = unserved_slot(ending.refused);
    name_failed_of(rt, disks, paths, unserved);
    if ending.is_cut {
        return Err(kind.input_failure());
    }
    answered(ending.status, asked.command.traits().may_write)
}

/// The slot of the disk for whose bad block log a command was refused.
fn unserved_slot(refused: Option<Refused>) -> Option<usize> {
    let refused = refused?;
    match refused.last {
        Some(slot) if refused.number == BAD_BLOCKS => Some(usize::from(slot)),
        _ => None,
    }
}

/// What a command is given beside its disks.
#[derive(Drop)]
struct Task<S> {
    /// What it takes.
    given: Given<S>,
    /// The lines of a batch once more, for what is said of them.
    lines: Option<Vec<u8>>,
    /// How long it will be, where a person sees how far it has come.
    length: Option<Length>,
}

/// Says what has to be known before the command, hands the disks to it, and says what it left. Answers the disks, and how it ended.
fn serve_on<R, B>(
    rt: &R,
    words: &[String],
    asked: &Asked,
    kind: Kind,
    person: Person,
    bay: B,
    ends: Ends,
    stamp: Stamp,
) -> Result<(B, Ending), Failure>
where
    R: Files<File = File> + Clock + Input + Print + Eprint + AllocGlobal + Clone + Drop,
    B: LinuxBay + Drop,
{
    let mut bay = bay;
    let paths = slot_paths(words);
    let (holder, risks, task) = ready(rt, &mut bay, ends, words, asked, kind, person)?;
    let (mut bay, ending) = serve_disks(rt, words, bay, task, stamp, holder);
    tell_served(rt, &mut bay, paths, asked, kind, person, ending, risks)?;
    Ok((bay, ending))
}

/// Says what has to be known before the command, asks, and takes the lines of a batch. Answers too the slot of the spare that holds the position which a
/// `copyback` takes. What this puts on the stack is gone before the command puts on its own.
#[inline(never)]
fn ready<R, B>(
    rt: &R,
    bay: &mut B,
    ends: Ends,
    words: &[String],
    asked: &Asked,
    kind: Kind,
    person: Person,
) -> Result<(Option<usize>, Risks, Task<R::Reader>), Failure>
where
    R: Files<File = File> + Input + Eprint + AllocGlobal + Clone + Drop,
    B: LinuxBay,
    ensures { IfOk result (λ x. length (B.disks bay.new).sizes ≡ slot_count (words_of words.now)) }
{
    let paths = slot_paths(words);
    let holder = name_stand_in(rt, bay, paths, asked);
    let risks = name_before(rt, bay, ends, paths, asked, kind, person)?;
    let task = task_of(rt, bay, asked, kind, person)?;

    // A look keeps the slots, and no clause of it says so.
    if bay.slots() == paths.len() {
        Ok((holder, risks, task))
    } else {
        Err(Failure::Declined)
    }
}

/// What the command is given beside its disks.
fn task_of<R, B>(
    rt: &R,
    bay: &mut B,
    asked: &Asked,
    kind: Kind,
    person: Person,
) -> Result<Task<R::Reader>, Failure>
where
    R: Files<File = File> + Input + Eprint + AllocGlobal,
    B: Bay,
{
    let given = input_of(rt, kind, person)?;
    let lines = lines_in(rt, &given)?;
    let length = if person.sees {
        length_of(rt, bay, asked)
    } else {
        None
    };
    Ok(Task {
        given,
        lines,
        length,
    })
}

/// Hands the disks to the command. Answers them, and how it ended.
fn serve_disks<R, B>(
    rt: &R,
    words: &[String],
    bay: B,
    task: Task<R::Reader>,
    stamp: Stamp,
    holder: Option<usize>,
) -> (B, Ending)
where
    R: Files<File = File> + Clock + Input + Print + Eprint + AllocGlobal + Clone + Drop,
    B: Bay + Drop,
    requires { length (B.disks bay).sizes ≡ slot_count (words_of words.now) }
{
    let Task {
        given,
        lines,
        length,
    } = task;
    let mut bay = Watched::new(bay, Meter::new(rt, length));
    let mut source = NotingSource::new(StdSource::new(given));
    let output = CountingSink::new(StdSink::new(Patient(io::writer(rt))));
    let ear = Ear::new(rt, command_word(words), text_of(&lines));
    let mut sink = HearingSink::new(output, ear);
    let status = serve(rt.alloc(), words, &mut bay, &mut source, &mut sink, stamp);
    let (bay, meter) = bay.into_parts();
    meter.end();
    let ending = Ending {
        status,
        fault: sink.fault(),
        last: meter.last(),
        refused: sink.refused(),
        taken: sink.sink().taken(),
        is_cut: status == STREAM_FAULT && source.failed(),
        holder,
    };
    (bay, ending)
}

/// Says on standard error what a command came to, and what it left.
#[inline(never)]
fn tell_served<R, B>(
    rt: &R,
    bay: &mut B,
    paths: &[String],
    asked: &Asked,
    kind: Kind,
    person: Person,
    ending: Ending,
    risks: Risks,
) -> Result<(), Failure>
where
    R: Files<File = File> + Eprint + AllocGlobal + Clone + Drop,
    B: LinuxBay,
{
    if kind == Kind::Command {
        name_refused(rt, bay, paths, asked, ending.refused)?;
    }
    tell_end(rt, &asked.command, paths, ending.status, ending.taken)?;
    name_after(rt, bay, paths, asked, ending, risks);
    if person.sees && matches!(asked.command, Command::Show) {
        name_sizes(rt, bay, paths, asked.group)?;
    }
    Ok(())
}

/// Names what a command would lose or write over, and disks of controllers that it may write to, and asks. Names too what is odd about disks that are looked at.
fn name_before<R, B>(
    rt: &R,
    bay: &mut B,
    ends: Ends,
    paths: &[String],
    asked: &Asked,
    kind: Kind,
    person: Person,
) -> Result<Risks, Failure>
where
    R: Files<File = File> + Input + Eprint + AllocGlobal + Clone + Drop,
    B: LinuxBay,
{
    let early = name_early(rt, ends, paths, asked.command.traits().may_write);
    if let Command::Examine | Command::Show = asked.command {
        name_odd(rt, bay, paths);
    }
    if let Command::Show | Command::Read { .. } | Command::Scrub { .. } = asked.command {
        name_away(rt, bay, paths, asked.group)?;
    } else if asked.command.traits().takes_group {
        name_strays(rt, bay, paths, asked.group)?;
    }
    let risks = name_risks(rt, bay, paths, asked)?;
    if risks.losses && kind == Kind::Batch {
        let _ = rt.eprint(BATCH_LOSSES);
    }
    if early || risks.any() {
        consents(rt, person)?;
    }
    Ok(risks)
}

/// What the command is given: standard input, or of a batch its lines. Lines that put an end to something are asked for.
fn input_of<R>(rt: &R, kind: Kind, person: Person) -> Result<Given<R::Reader>, Failure>
where
    R: Files<File = File> + Input + Eprint + AllocGlobal,
{
    if kind == Kind::Command {
        return Ok(Given::Stream(Patient(rt.reader())));
    }
    let lines = lines_of_input(rt)?;
    if name_lines(rt, lines.as_slice()) {
        consents(rt, person)?;
    }
    Ok(Given::Lines(lines, 0))
}

/// The lines of a batch once more, for what is said of them.
fn lines_in<R, S>(rt: &R, given: &Given<S>) -> Result<Option<Vec<u8>>, NoMemory>
where
    R: AllocGlobal,
{
    match given {
        Given::Stream(_) => Ok(None),
        Given::Lines(lines, _) => Ok(Some(Vec::from_slice(rt.alloc(), lines.as_slice())?)),
    }
}

/// The lines of a batch as text, nothing of what isn't text.
fn text_of(lines: &Option<Vec<u8>>) -> Option<&str> {
    match lines {
        Some(lines) => match str::from_utf8(lines.as_slice()) {
            Ok(text) => Some(text),
            Err(_) => Some(""),
        },
        None => None,
    }
}

/// Says why a command was refused, as far as the disks tell it.
fn name_refused<R, B>(
    rt: &R,
    bay: &mut B,
    paths: &[String],
    asked: &Asked,
    refused: Option<Refused>,
) -> Result<(), NoMemory>
where
    R: Files<File = File> + Eprint + AllocGlobal + Clone + Drop,
    B: Bay,
{
    if let Some(refused) = refused {
        name_numbers(rt, bay, paths, asked, refused)?;
        name_marked(rt, bay, asked, refused.number);
        name_half_moved(rt, bay, paths, asked, refused.number);
    }
    Ok(())
}

/// Says what a command left that somebody has to know.
fn name_after<R, B>(
    rt: &R,
    bay: &mut B,
    paths: &[String],
    asked: &Asked,
    ending: Ending,
    risks: Risks,
)
where
    R: Files<File = File> + Eprint + AllocGlobal + Clone + Drop,
    B: LinuxBay,
{
    if let Command::Examine | Command::Assemble | Command::Show = asked.command {
        name_turned(rt, bay);
    }
    if asked.command.traits().takes_group && !risks.any() {
        name_unfinished(rt, bay, asked.group);
    }
    if let Command::Assemble | Command::Show = asked.command {
        name_interim(rt, bay, paths, asked.group);
    }
    if let Command::Assemble | Command::Show | Command::Rebuild { .. } = asked.command {
        name_unrebuilt(rt, bay, asked.group);
    }
    if ending.status == 0 {
        name_done(rt, bay, paths, asked, risks);
        tell_back(rt, bay, paths, asked, ending.holder);
    } else if risks.losses && matches!(ending.status, 1 | 4) {
        let _ = rt.eprint(NOTHING_LOST);
    }
    let last = ending.last;
    match ending.fault {
        Some(slot) => {
            let slot = usize::from(slot);
            tell_faulted(rt, bay, paths, asked, ending.holder, Fault { slot, last });
        }
        None if ending.status == STREAM_FAULT => tell_cut(rt, bay, asked),
        None => {}
    }
}

/// Says what a command that is done left that somebody has to know.
fn name_done<R, B>(rt: &R, bay: &mut B, paths: &[String], asked: &Asked, risks: Risks)
where
    R: Files<File = File> + Eprint + AllocGlobal + Clone + Drop,
    B: LinuxBay,
{
    name_untaken(rt, bay, paths, &asked.command);
    let takes_a_disk = matches!(
        &asked.command,
        Command::Change(Wish::Fail { .. }) | Command::Import { .. }
    );
    if risks.losses || takes_a_disk {
        name_lost_on_linux(rt, bay, asked.group);
    }
    if let Command::Write { .. } = asked.command {
        name_rest(rt);
    }
}
