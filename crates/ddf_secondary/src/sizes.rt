//! Sums and leasts over the sizes of elements, which the secondary levels share.
ghost use Rattle.std.specs.Prelude.{◌≡◌, ◌<◌, ◌≤◌, ◌^◌, ◌==◌, length, sum_by};
ghost use Rattle.std.specs.List.{list_all};
ghost use Rattle.ddf_secondary.specs.Sizes.{share_a_unit, unit_of, least_of};

use crate::ElementSize;

/// Whether all elements have one unit, which isn't 0.
pub(crate) fn share_a_unit(sizes: &[ElementSize]) -> bool
    requires { 0 < length sizes.now }
    ensures { result ≡ share_a_unit sizes.now }
{
    let unit = unit_of(sizes);
    unit > 0 && all_have(sizes, unit)
}

/// The unit of the first element, which is that of all where they share one.
pub(crate) fn unit_of(sizes: &[ElementSize]) -> u64
    requires { 0 < length sizes.now }
    ensures { result ≡ unit_of sizes.now }
{
    sizes[0].unit
}

fn all_have(sizes: &[ElementSize], unit: u64) -> bool
    ensures { result ≡ list_all (λ size. size.unit == unit) sizes.now }
{
    sizes.iter().all(|size| size.unit == unit)
}

/// The rows of the element with the fewest.
pub(crate) fn least_rows(sizes: &[ElementSize]) -> u64
    requires { 0 < length sizes.now }
    ensures { result ≡ least_of (λ size. size.rows) sizes.now }
{
    let mut least = sizes[0].rows;
    for size in sizes {
        least = least.min(size.rows);
    }
    least
}

/// The capacity of the least element.
pub(crate) fn least_capacity(sizes: &[ElementSize]) -> u64
    requires { 0 < length sizes.now }
    ensures { result ≡ least_of (λ size. size.capacity) sizes.now }
{
    let mut least = sizes[0].capacity;
    for size in sizes {
        least = least.min(size.capacity);
    }
    least
}

/// The capacities of all elements together.
pub(crate) fn capacity_of_all(sizes: &[ElementSize]) -> u64
    requires { sum_by (λ size. size.capacity) sizes.now < 2 ^ 64 }
    ensures { result ≡ sum_by (λ size. size.capacity) sizes.now }
{
    let mut capacity = 0;
    for size in sizes {
        capacity += size.capacity;
    }
    capacity
}

/// The rows of all elements together.
pub(crate) fn rows_of_all(sizes: &[ElementSize]) -> u64
    requires { sum_by (λ size. size.rows) sizes.now < 2 ^ 64 }
    ensures { result ≡ sum_by (λ size. size.rows) sizes.now }
{
    let mut rows = 0;
    for size in sizes {
        rows += size.rows;
    }
    rows
}
