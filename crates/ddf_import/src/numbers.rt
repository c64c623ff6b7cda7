//! The numbers of joining arrays.
ghost use Rattle.std.specs.Prelude.{◌≡◌, ◌<◌, ◌^◌, length, map, IfOk};
ghost use Rattle.ddf_import.specs.Joined.{is_taken, least_free, number_of, numbers_of};

use ddf_bytes::{Guid, NoMemory};
use ddf_config::Array;
use indexmap::IndexMap;
use std::alloc::Global;

fn is_taken(taken: &[u16], number: u16) -> bool
    ensures { result ≡ is_taken taken.now number }
{
    taken.iter().any(|other| number == *other)
}

/// The least number that none of these is.
fn least_free(taken: &[u16]) -> u16
    requires { length taken.now < 2 ^ 16 }
    ensures { result ≡ least_free taken.now }
{
    let mut number = 0;
    while number < taken.len() && is_taken(taken, number as u16) {
        number += 1;
    }
    number as u16
}

/// The number of a joining array, where these are taken.
pub(crate) fn number_of(taken: &[u16], number: u16) -> u16
    requires { length taken.now < 2 ^ 16 }
    ensures { result ≡ number_of taken.now number }
{
    if is_taken(taken, number) {
        least_free(taken)
    } else {
        number
    }
}

/// The numbers of arrays.
pub(crate) fn numbers_of(
    alloc: Global,
    arrays: &IndexMap<Guid, Array>,
) -> Result<Vec<u16>, NoMemory>
    ensures { IfOk result (λ numbers. numbers.items ≡ numbers_of arrays.now.entries) }
{
    let mut numbers = Vec::new(alloc);
    for (_guid, array) in arrays {
        numbers.push(array.number)?;
    }
    Ok(numbers)
}
