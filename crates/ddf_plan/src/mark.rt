//! The mark of an array that isn't consistent, and the rows that count as rebuilt: what setting and clearing the mark and forgetting the rows
//! make of the array. Rows that a rebuild has filled are forgotten as an array is marked: they may be written. docs/GROUPS.md#changes
ghost use Rattle.std.specs.Prelude.{◌≡◌, ◌≤◌, length, map, option_map, IfOk};
ghost use Rattle.ddf_plan.specs.Mark.{marked_state, unmarked_state, without_row, without_rows, marked, rewound, with_init, unmarked};

use arrayvec::ArrayVec;
use ddf_bytes::{NoMemory, Seq};
use ddf_config::{Array, ElementPlan, Position};
use std::alloc::Global;

/// The mark of an array that isn't consistent: bit 4 of its state.
pub(crate) const MARK: u8 = 0x10;

fn marked_state(array: &Array) -> u8
    ensures { result ≡ marked_state array.now }
{
    if array.is_marked() {
        array.state
    } else {
        array.state + MARK
    }
}

fn unmarked_state(array: &Array) -> u8
    ensures { result ≡ unmarked_state array.now }
{
    if array.is_marked() {
        array.state - MARK
    } else {
        array.state
    }
}

fn positions_without_row(positions: &[Position]) -> ArrayVec<Position, 64>
    requires { length positions.now ≤ 64 }
    ensures { result.items ≡ map without_row positions.now }
{
    let mut without = ArrayVec::new();
    for position in positions {
        without.push(Position {
            row: 0,
            ..*position
        });
    }
    without
}

fn without_rows(part: &Option<ElementPlan>) -> Option<ElementPlan>
    ensures { result ≡ option_map without_rows part.now }
{
    match part {
        Some(element) => {
            Some(element.with_positions(positions_without_row(element.positions.as_slice())))
        }
        None => None,
    }
}

fn parts_without_rows(
    alloc: Global,
    parts: &[Option<ElementPlan>],
) -> Result<Vec<Option<ElementPlan>>, NoMemory>
    ensures { IfOk result (λ without. without.items ≡ map (option_map without_rows) parts.now) }
{
    let mut without = Vec::with_capacity(alloc, parts.len())?;
    for part in parts {
        without.push(without_rows(part))?;
    }
    Ok(without)
}

/// The array with its mark, and with no row rebuilt.
pub(crate) fn marked(alloc: Global, array: &Array) -> Result<Array, NoMemory>
    ensures { IfOk result (λ marked_one. marked_one ≡ marked array.now) }
{
    let parts = parts_without_rows(alloc, array.elements.items())?;
    Ok(Array {
        name: array.name,
        number: array.number,
        secondary: array.secondary,
        elements: Seq::new(parts),
        state: marked_state(array),
        init: array.init,
    })
}

/// The array with no row rebuilt.
pub(crate) fn rewound(alloc: Global, array: &Array) -> Result<Array, NoMemory>
    ensures { IfOk result (λ rewound_one. rewound_one ≡ rewound array.now) }
{
    let parts = parts_without_rows(alloc, array.elements.items())?;
    Ok(Array {
        name: array.name,
        number: array.number,
        secondary: array.secondary,
        elements: Seq::new(parts),
        state: array.state,
        init: array.init,
    })
}

/// The init byte with these two low bits.
fn with_init(init: u8, given: u8) -> u8
    ensures { result ≡ with_init init given }
{
    init / 4 * 4 + given % 4
}

/// The array without its mark, initialized so far.
pub(crate) fn unmarked(alloc: Global, init: u8, array: &Array) -> Result<Array, NoMemory>
    ensures { IfOk result (λ unmarked_one. unmarked_one ≡ unmarked init array.now) }
{
    let mut next = array.duplicate(alloc)?;
    next.state = unmarked_state(array);
    next.init = with_init(array.init, init);
    Ok(next)
}
