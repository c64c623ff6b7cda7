//! The copies that stand for slots.
ghost use Rattle.std.specs.Prelude.{◌≡◌, filter_map, IfOk};
ghost use Rattle.ddf_group.specs.Slots.{slot_at, view_in};

use crate::slots::Slots;
use ddf_bytes::NoMemory;
use ddf_view::View;
use std::alloc::Global;

/// The copy that stands for a slot.
fn view_of<'b>(slots: &Slots<'_, 'b>, slot: usize) -> Option<View<'b>>
    ensures { result ≡ view_in (slot_at slots.now slot) }
{
    match slots.view(slot) {
        Some(view) => Some(view.again()),
        None => None,
    }
}

/// The copies that stand for these slots.
pub(crate) fn views_of<'b>(
    alloc: Global,
    slots: &Slots<'_, 'b>,
    leading: &[usize],
) -> Result<Vec<View<'b>>, NoMemory>
    ensures { IfOk result (λ views. views.items ≡ filter_map (λ slot. view_in (slot_at slots.now slot)) leading.now) }
{
    let views = leading
        .iter()
        .filter_map(|slot| view_of(slots, *slot))
        .collect(alloc)?;
    Ok(views)
}
