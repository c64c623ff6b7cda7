//! The mark of an array that is accepted.
ghost use Rattle.std.specs.Prelude.{◌≡◌};
ghost use Rattle.ddf_repair.specs.Accept.{accepted};

use ddf_bytes::Guid;
use ddf_config::Config;
use ddf_plan::Change;

/// The change that clears the mark of an array. None exactly where the array isn't there or isn't marked.
pub fn accept(config: &Config, array: &Guid) -> Option<Change>
    // promise:unmarked
    ensures { result ≡ accepted config.now array.now }
{
    match config.arrays.get(array) {
        Some(found) => {
            if found.is_marked() {
                Some(Change::Unmark(*array, found.init))
            } else {
                None
            }
        }
        None => None,
    }
}
