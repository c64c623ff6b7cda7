//! How careful the program is to be: a word before the images, or the environment. docs/COMMANDS.md#what-is-told-on-standard-error
use std::env::FillError;
use std::rt::Env;

/// The variable that makes every call careful.
const VARIABLE: &str = "DDF_CAREFUL";

/// What the program does where somebody may want to stop it.
#[derive(Clone, Copy, PartialEq, Eq)]
pub enum Care {
    /// It asks where it was started from a terminal, and goes on elsewhere.
    Ask,
    /// It does nothing, and says why.
    Careful,
    /// It goes on, and asks nothing.
    Yes,
}

/// What a first word says, where it says anything.
pub fn care_word(word: &str) -> Option<Care> {
    match word {
        "--careful" => Some(Care::Careful),
        "--yes" => Some(Care::Yes),
        _ => None,
    }
}

/// What the environment says: careful where the variable is set, and neither empty nor 0.
pub fn care_of_environment<R: Env>(rt: &R) -> Care {
    let mut value = [0; 2];
    match rt.var(VARIABLE, &mut value) {
        Ok(count) if count == 0 || (count == 1 && value[0] == b'0') => Care::Ask,
        Err(FillError::NotPresent) => Care::Ask,
        Ok(_) | Err(FillError::TooLong) => Care::Careful,
    }
}
