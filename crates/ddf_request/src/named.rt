//! The array that the words name, by the word that its name prints as, or by its place. docs/COMMANDS.md#arguments
ghost use Rattle.std.specs.Prelude.{◌≡◌, option_map};
ghost use Rattle.std.specs.Str.{bytes_eq};
ghost use Rattle.ddf_request.specs.Named.{named_array, named_guid, place_word, placed_guid, printed_guid};

use ddf_bytes::Guid;
use ddf_config::Array;
use ddf_name::prints_as;
use indexmap::IndexMap;
use itoa::Buffer;

/// The GUID of the first array of the table whose name prints as this word.
fn printed_guid(arrays: &IndexMap<Guid, Array>, word: &[u8]) -> Option<Guid>
    ensures { result ≡ printed_guid arrays.now.entries word.now }
{
    for (guid, array) in arrays {
        if prints_as(&array.name, word) {
            return Some(*guid);
        }
    }
    None
}

/// Whether a word is `#` and this number.
fn is_place_word(word: &[u8], place: usize) -> bool
    ensures { result ≡ bytes_eq (place_word place) word.now }
{
    match word.split_first() {
        Some((b'#', digits)) => Buffer::new().format(place).as_bytes() == digits,
        _ => false,
    }
}

/// The GUID of the array whose place in the table this word is.
#[tactic(auto, unfolding(crate::specs::Named::placed_guid))]
fn placed_guid(arrays: &IndexMap<Guid, Array>, word: &[u8]) -> Option<Guid>
    ensures { result ≡ placed_guid arrays.now.entries word.now }
{
    let mut place = 0usize;
    for (guid, _) in arrays {
        if is_place_word(word, place) {
            return Some(*guid);
        }
        place += 1;
    }
    None
}

/// The GUID of the array that a word names: the first one whose name prints so, or else the one whose place in the table it is.
pub(crate) fn named_guid(arrays: &IndexMap<Guid, Array>, word: &[u8]) -> Option<Guid>
    ensures { result ≡ named_guid arrays.now.entries word.now }
{
    match printed_guid(arrays, word) {
        Some(guid) => Some(guid),
        None => placed_guid(arrays, word),
    }
}

/// The array that a word names, with its GUID: the first of the table whose name prints so; where there is none and the word is `#` with a
/// number, the one at this place of the table, from 0 on.
pub fn named_array<'a>(arrays: &'a IndexMap<Guid, Array>, word: &[u8]) -> Option<(Guid, &'a Array)>
    ensures { option_map (λ entry. (entry.0, entry.1.now)) result ≡ named_array arrays.now.entries word.now }
{
    match named_guid(arrays, word) {
        Some(guid) => match arrays.get(&guid) {
            Some(array) => Some((guid, array)),
            None => None,
        },
        None => None,
    }
}
