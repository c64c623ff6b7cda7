//! Who hears what commands print, and tells people why one is refused.
use crate::answers::{CONFLICT, Refused, fault_in, refusal_in};
use crate::causes::cause_of;
use ddf_edge::OneLine;

/// The refusal of a batch as a whole.
const TOO_LONG: u16 = 36;

/// What is known of the commands whose output is heard.
#[derive(Drop)]
pub struct Ear<'a, R> {
    rt: &'a R,
    command: &'a str,
    lines: Option<&'a str>,
    done: usize,
    amid: bool,
    refused: Option<Refused>,
    fault: Option<u16>,
}

impl<'a, R: Eprint> Ear<'a, R> {
    /// Hears one command, or where there are lines those of a batch.
    pub fn new(rt: &'a R, command: &'a str, lines: Option<&'a str>) -> Ear<'a, R> {
        Ear {
            rt,
            command,
            lines,
            done: 0,
            amid: false,
            refused: None,
            fault: None,
        }
    }

    /// The last refusal, if there was any.
    pub fn refused(&self) -> Option<Refused> {
        self.refused
    }

    /// The slot of the last disk that failed, if one did.
    pub fn fault(&self) -> Option<u16> {
        self.fault
    }

    /// Hears a piece, of which so many bytes were taken. A rest that is given once more isn't another one.
    pub fn hear(&mut self, piece: &[u8], count: usize) {
        if !self.amid {
            self.hear_whole(piece);
        }
        self.amid = count < piece.len();
    }

    /// Hears what a command printed. What `examine` prints is a piece for each slot.
    fn hear_whole(&mut self, piece: &[u8]) {
        if piece.starts_with(b"slot ") && !piece.starts_with(b"slot 0 ") {
            return;
        }
        let place = self.done;
        self.done = place.saturating_add(1);
        if let Some(refused) = refusal_in(piece) {
            self.refused = Some(refused);
            self.tell(refused.number, place);
        } else if let Some(slot) = fault_in(piece) {
            self.fault = Some(slot);
        }
    }

    /// Says why a command was refused, or a line of a batch.
    fn tell(&self, number: u16, place: usize) {
        match self.lines {
            Some(lines) if number != TOO_LONG => self.tell_line(lines, number, place),
            None if number == 10 => {}
            _ => tell_cause(self.rt, number, self.command),
        }
    }

    /// Says which line of a batch was refused, and why.
    fn tell_line(&self, lines: &str, number: u16, place: usize) {
        let line = match lines.split('\n').nth(place) {
            Some(line) => line,
            None => "",
        };
        let text = OneLine(line);
        let count = place.saturating_add(1);
        let _ = eprintln!(self.rt; "ddf: line {count} ({text}) was refused");
        tell_cause(self.rt, number, command_in(line));
    }
}

/// Says why commands are refused so, and the way out.
fn tell_cause<R: Eprint>(rt: &R, number: u16, command: &str) {
    if let Some((why, way)) = cause_of(number, command) {
        let _ = eprintln!(rt; "ddf: {why} {way}");
    }
    if number >= CONFLICT {
        let _ = eprintln!(rt; "ddf: nothing was written");
    }
}

/// The command of a line.
fn command_in(line: &str) -> &str {
    match line.split(' ').next() {
        Some(command) => command,
        None => "",
    }
}
