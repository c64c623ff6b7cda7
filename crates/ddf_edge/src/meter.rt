//! How far a long command has come, for somebody at a terminal, and what its last call was. docs/COMMANDS.md#what-is-told-on-standard-error
use crate::sizes::Size;
use ddf_progress::Progress;
use std::rt::Clock;
use std::time::Instant;

/// How many seconds lie between two lines.
const PAUSE: u64 = 1;

/// About how many sectors a long command asks for.
#[derive(Clone, Copy, PartialEq, Eq)]
pub enum Length {
    /// It reads so many.
    Reads(u64),
    /// It writes so many.
    Writes(u64),
}

/// The last call of a command on a disk, as far as reads and writes are counted.
#[derive(Clone, Copy, PartialEq, Eq)]
pub enum LastCall {
    /// A read, or a sync, and nothing was written before.
    First,
    /// A read, once something was written.
    Read,
    /// A write, or a sync of what was written.
    Write,
}

/// Tells on standard error how many sectors were read or written, of how many, how fast, and how long the others take at that speed. Each line takes
/// the place of the one before, and none stays.
#[derive(Drop)]
pub struct Meter<'r, R> {
    rt: &'r R,
    length: Option<Length>,
    done: u64,
    began: Option<Instant>,
    told: u64,
    last: LastCall,
}

impl<'r, R: Clock + Eprint> Meter<'r, R> {
    /// Counts from now on. It tells where a length is given, and there is a clock.
    pub fn new(rt: &'r R, length: Option<Length>) -> Meter<'r, R> {
        let began = match Instant::now(rt) {
            Ok(now) => Some(now),
            Err(_) => None,
        };
        Meter {
            rt,
            length,
            done: 0,
            began,
            told: 0,
            last: LastCall::First,
        }
    }

    /// The last call so far.
    pub fn last(&self) -> LastCall {
        self.last
    }

    /// Takes the line away, where one was begun.
    pub fn end(&self) {
        if self.told > 0 {
            let _ = self.rt.eprint("\r\x1b[K");
        }
    }

    /// Counts sectors, of so many.
    fn count(&mut self, sectors: u64, all: u64) {
        self.done = self.done.saturating_add(sectors);
        let Some(elapsed) = self.elapsed() else {
            return;
        };
        if elapsed >= self.told.saturating_add(PAUSE) {
            self.told = elapsed;
            self.tell(all, elapsed);
        }
    }

    /// The seconds since it began.
    fn elapsed(&self) -> Option<u64> {
        let began = self.began?;
        match began.elapsed(self.rt) {
            Ok(since) => Some(since.as_secs()),
            Err(_) => None,
        }
    }

    /// Writes the line anew.
    fn tell(&self, all: u64, elapsed: u64) {
        let done = self.done.min(all);
        let part = percent(done, all);
        let rate = (self.done / elapsed.max(1)).max(1);
        let left = all.saturating_sub(done) / rate;
        let (minutes, seconds) = (left / 60, left % 60);
        let (done, all, rate) = (Size(done), Size(all), Size(rate));
        let _ = eprint!(self.rt;
            "\r\x1b[Kddf: {part} %, {done} of {all}, {rate}/s, {minutes}:{seconds:02} to go "
        );
    }
}

/// A part of a number in hundredths.
fn percent(part: u64, all: u64) -> u64 {
    part.saturating_mul(100) / all.max(1)
}

impl<R: Clock + Eprint> Progress for Meter<'_, R> {
    fn read(&mut self, sectors: u64) {
        if self.last == LastCall::Write {
            self.last = LastCall::Read;
        }
        if let Some(Length::Reads(all)) = self.length {
            self.count(sectors, all);
        }
    }

    fn wrote(&mut self, sectors: u64) {
        self.last = LastCall::Write;
        if let Some(Length::Writes(all)) = self.length {
            self.count(sectors, all);
        }
    }
}
