//! What a disk is to hold after a recovery in which nothing is lost.
ghost use Rattle.std.specs.Prelude.{◌≡◌, IfOk};
ghost use Rattle.ddf_config_records.specs.Elements.{CanBeElement};
ghost use Rattle.ddf_config.specs.Configuration.{Configuration};
ghost use Rattle.ddf_copy.specs.Written.{CanBeCopy};
ghost use Rattle.ddf_view.specs.View.{HeldRecord};
ghost use Rattle.ddf_view.specs.Reading.{are_noted};
ghost use Rattle.ddf_rewrite.specs.Before.{before};
ghost use Rattle.ddf_rewrite.specs.Wanted.{all_wanted};
ghost use Rattle.ddf_rewrite.specs.Copies.{led_holding, recovered_holding, recovered_holdings};
ghost use Rattle.ddf_rewrite.specs.Hold.{AreHeld};

use crate::elements::recovered_record;
use crate::holding::{Holding, holding_on};
use crate::leading::leading_record;
use crate::wanted::Wanted;
use ddf_bytes::NoMemory;
use ddf_config_records::Element;
use ddf_copy::DiskCopy;
use ddf_view::View;
use std::alloc::Global;

/// Whether a leader has valid notes.
pub(crate) fn are_noted(leaders: &[View]) -> bool
    ensures { result ≡ are_noted leaders.now }
{
    leaders.iter().any(|leader| leader.is_noted())
}

/// What a disk is to hold of an element of which a leader has this record.
fn led_holding<'a>(
    alloc: Global,
    old: &DiskCopy,
    wanted: &Wanted<'a>,
    leader: &Element,
) -> Result<Holding<'a>, NoMemory>
    requires old { CanBeCopy old.now }
    requires leader { CanBeElement old.now.header.geometry leader.now }
    ensures { (held : HeldRecord) → held.element ≡ leader.now → IfOk result (λ holding. holding ≡ led_holding old.now wanted.now held) }
{
    let own = View::new(old).find_held(&wanted.guid, wanted.index);
    let element = recovered_record(alloc, &old.header.geometry, own.as_ref(), leader)?;
    Ok(holding_on(old, wanted, element))
}

/// What a disk is to hold of an element after a recovery.
fn recovered_holding<'a>(
    alloc: Global,
    old: &DiskCopy,
    leaders: &[View],
    wanted: &Wanted<'a>,
) -> Result<Option<Holding<'a>>, NoMemory>
    requires old { CanBeCopy old.now }
    requires leaders { AreHeld old.now.header.geometry (before leaders.now) }
    ensures { IfOk result (λ holding. holding ≡ recovered_holding old.now (before leaders.now) wanted.now) }
{
    if !are_noted(leaders) && !wanted.refers_to(old.disk_data.reference) {
        return Ok(None);
    }
    match leading_record(leaders, &wanted.guid, wanted.index) {
        Some(leader) => Ok(Some(led_holding(alloc, old, wanted, leader.element)?)),
        None => Ok(None),
    }
}

/// What a disk is to hold of all elements after a recovery.
#[tactic(auto, unfolding(crate::specs::Copies::recovered_holdings))]
pub(crate) fn recovered_holdings<'a>(
    alloc: Global,
    old: &DiskCopy,
    leaders: &[View],
    all: &[Wanted<'a>],
) -> Result<Vec<Holding<'a>>, NoMemory>
    requires old { CanBeCopy old.now }
    requires leaders { AreHeld old.now.header.geometry (before leaders.now) }
    ensures { (config : Configuration) → all.now ≡ all_wanted config
        → IfOk result (λ holdings. holdings.items ≡ recovered_holdings old.now (before leaders.now) config) }
{
    let mut holdings = Vec::new(alloc);
    for wanted in all {
        if let Some(holding) = recovered_holding(alloc, old, leaders, wanted)? {
            holdings.push(holding)?;
        }
    }
    Ok(holdings)
}
