//! Texts from outside in a line of standard error: a control character in one could pass for a line of the program's own.
use std::fmt;
use std::fmt::Write;

/// A text as it stands within a line: each control character is escaped, so that it neither ends the line nor moves the
/// cursor of a terminal.
#[derive(Clone, Copy, Drop)]
pub struct OneLine<'a>(pub &'a str);

impl fmt::Display for OneLine<'_> {
    fn fmt<W: fmt::Write>(&self, f: &mut fmt::Formatter<W>) -> fmt::Result {
        for character in self.0.chars() {
            if character.is_control() {
                write!(f, "{}", character.escape_default())?;
            } else {
                f.write_char(character)?;
            }
        }
        Ok(())
    }
}
