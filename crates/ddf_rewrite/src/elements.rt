//! The records of elements after a change or a recovery.
ghost use Rattle.std.specs.Prelude.{◌≡◌, ◌≤◌, ◌<◌, ◌^◌, [], length, map, None, IfOk};
ghost use Rattle.std.specs.Option.{ForSome, option_copied};
ghost use Rattle.ddf_config_records.specs.Elements.{CanBeElement, HasRoom};
ghost use Rattle.ddf_config_records.specs.Building.{element_over};
ghost use Rattle.ddf_config.specs.Shapes.{array_capacity};
ghost use Rattle.ddf_rewrite.specs.Elements.{altered, changed_over, changed_record, created, created_over, keeping, place_in, planned, recovered_record, spares_of};

use crate::associated::{NO_REFERENCE, spares_after, spares_of};
use crate::disks::block_size_of;
use crate::issue::Issue;
use crate::wanted::Wanted;
use arrayvec::ArrayVec;
use ddf_bytes::{NoMemory, Seq};
use ddf_config::{Config, Position, array_capacity};
use ddf_config_records::{Element, Place};
use ddf_header::{Geometry, Header, Revision};
use ddf_view::{HeldRecord, same_record};
use std::alloc::Global;

/// The members of a record, where its element has these positions.
fn places_in(positions: &[Position]) -> ArrayVec<Place, 64>
    requires { length positions.now ≤ 64 }
    ensures { result.items ≡ map place_in positions.now }
{
    let mut places = ArrayVec::new();
    for position in positions {
        places.push(Place {
            reference: position.reference,
            start: position.start,
        });
    }
    places
}

/// Equal members.
fn second_members(members: &[Place]) -> ArrayVec<Place, 64>
    requires { length members.now ≤ 64 }
    ensures { result.items ≡ members.now }
{
    let mut second = ArrayVec::new();
    for member in members {
        second.push(*member);
    }
    second
}

/// The named fields of a record.
fn fields_of(alloc: Global, leader: &Element) -> Element
    ensures { result ≡ record leader.now { rest = [] } }
{
    Element {
        array: leader.array,
        timestamp: leader.timestamp,
        sequence: leader.sequence,
        strip: leader.strip,
        level: leader.level,
        qualifier: leader.qualifier,
        elements: leader.elements,
        index: leader.index,
        secondary: leader.secondary,
        blocks: leader.blocks,
        size: leader.size,
        block_size: leader.block_size,
        spares: leader.spares,
        members: second_members(leader.members.as_slice()),
        rest: Seq::new(Vec::new(alloc)),
    }
}

/// An equal element.
pub(crate) fn duplicate(alloc: Global, element: &Element) -> Result<Element, NoMemory>
    ensures { IfOk result (λ second. second ≡ element.now) }
{
    let rest = Vec::from_slice(alloc, element.rest.items())?;
    Ok(Element {
        rest: Seq::new(rest),
        ..fields_of(alloc, element)
    })
}

/// A record with the fields that the configuration gives, where the array has these dedicated spares.
fn planned(config: &Config, wanted: &Wanted, dedicated: &[u32], element: Element) -> Element
    requires spares { dedicated.now ≡ spares_of config.now wanted.now.guid }
    requires elements { length wanted.now.array.elements ≤ 16 }
    requires index { wanted.now.index < 2 ^ 8 }
    ensures { result ≡ planned config.now wanted.now element }
{
    let array = wanted.array;
    let plan = wanted.plan;
    Element {
        array: wanted.guid,
        strip: plan.strip,
        level: plan.level,
        qualifier: plan.qualifier,
        elements: array.elements.items().len() as u8,
        index: wanted.index as u8,
        secondary: array.secondary,
        blocks: plan.blocks,
        spares: spares_after(config, dedicated, &element.spares),
        members: places_in(plan.positions.as_slice()),
        ..element
    }
}

/// A record with the timestamp and the sequence of a change.
fn stamped(issue: &Issue, element: Element) -> Element
    ensures { result ≡ record element { timestamp = issue.now.timestamp; sequence = issue.now.config.now.sequence } }
{
    let config = issue.config;
    Element {
        timestamp: issue.timestamp,
        sequence: config.sequence,
        ..element
    }
}

/// The leader's record as the configuration has it now. Where that alters it, it has the timestamp and the sequence of the change.
fn altered(
    alloc: Global,
    issue: &Issue,
    wanted: &Wanted,
    dedicated: &[u32],
    leader: &Element,
) -> Element
    requires spares { dedicated.now ≡ spares_of issue.now.config.now wanted.now.guid }
    requires elements { length wanted.now.array.elements ≤ 16 }
    requires index { wanted.now.index < 2 ^ 8 }
    ensures { result ≡ record (altered issue.now.config.now issue.now.timestamp wanted.now leader.now) { rest = [] } }
{
    let next = planned(issue.config, wanted, dedicated, fields_of(alloc, leader));
    if same_record(leader, &next) {
        fields_of(alloc, leader)
    } else {
        stamped(issue, next)
    }
}

/// The fields of a new record.
fn created(
    alloc: Global,
    issue: &Issue,
    wanted: &Wanted,
    dedicated: &[u32],
    revision: Revision,
) -> Result<Element, NoMemory>
    requires spares { dedicated.now ≡ spares_of issue.now.config.now wanted.now.guid }
    requires elements { length wanted.now.array.elements ≤ 16 }
    requires index { wanted.now.index < 2 ^ 8 }
    ensures exact { IfOk result (λ element. element ≡ created issue.now.config.now issue.now.timestamp revision wanted.now) }
    ensures size { IfOk result (λ element. array_capacity wanted.now.array < 2 ^ 64) }
{
    let config = issue.config;
    let size = array_capacity(alloc, wanted.array)?;
    let blank = Element {
        array: wanted.guid,
        timestamp: issue.timestamp,
        sequence: config.sequence,
        strip: 0,
        level: 0,
        qualifier: 0,
        elements: 0,
        index: 0,
        secondary: 0,
        blocks: 0,
        size,
        block_size: block_size_of(revision),
        spares: [NO_REFERENCE; 8],
        members: ArrayVec::new(),
        rest: Seq::new(Vec::new(alloc)),
    };
    Ok(planned(config, wanted, dedicated, blank))
}

/// What a disk keeps of its own record where it was the leader's: its block size, and its timestamp where the record isn't altered.
fn keeping(own: &Element, leader: &Element, element: Element) -> Element
    ensures { result ≡ keeping own.now leader.now element }
{
    if !same_record(own, leader) {
        return element;
    }
    let timestamp = if same_record(leader, &element) {
        own.timestamp
    } else {
        element.timestamp
    };
    Element {
        timestamp,
        block_size: own.block_size,
        ..element
    }
}

/// The record over the disk's own one.
fn over_own(
    alloc: Global,
    geometry: &Geometry,
    own: &Element,
    leader: &Element,
    element: Element,
) -> Result<Element, NoMemory>
    requires room { HasRoom geometry.now }
    requires own { CanBeElement geometry.now own.now }
    requires few { length element.members ≤ geometry.now.max_members }
    ensures { IfOk result (λ over. over ≡ element_over geometry.now own.now (keeping own.now leader.now element)) }
{
    keeping(own, leader, element).over(alloc, geometry, own)
}

/// The record over the disk's own one, where it has one, and else over the leader's.
fn changed_over(
    alloc: Global,
    geometry: &Geometry,
    own: Option<&HeldRecord>,
    leader: &Element,
    element: Element,
) -> Result<Element, NoMemory>
    requires room { HasRoom geometry.now }
    requires leader { CanBeElement geometry.now leader.now }
    requires own { ForSome (option_copied own) (λ held. CanBeElement geometry.now held.element) }
    requires few { length element.members ≤ geometry.now.max_members }
    ensures { IfOk result (λ over. over ≡ changed_over geometry.now (option_copied own.entry) leader.now element) }
{
    match own {
        Some(held) => over_own(alloc, geometry, held.element, leader, element),
        None => element.over(alloc, geometry, leader),
    }
}

/// The fields of a new record over the disk's own one, where it has one, and else in a new one.
fn created_over(
    alloc: Global,
    geometry: &Geometry,
    own: Option<&HeldRecord>,
    element: Element,
) -> Result<Element, NoMemory>
    requires room { HasRoom geometry.now }
    requires own { ForSome (option_copied own) (λ held. CanBeElement geometry.now held.element) }
    requires few { length element.members ≤ geometry.now.max_members }
    ensures { IfOk result (λ over. over ≡ created_over geometry.now (option_copied own.entry) element) }
{
    match own {
        Some(held) => element.over(alloc, geometry, held.element),
        None => element.fresh(alloc, geometry),
    }
}

/// The record of an element on a disk with this header, by its own record and by what the leaders record of it. Where they record
/// nothing all named fields are those of a new record.
#[tactic(auto, unfolding(crate::specs::Elements::changed_record))]
pub(crate) fn changed_record(
    alloc: Global,
    issue: &Issue,
    wanted: &Wanted,
    header: &Header,
    own: Option<&HeldRecord>,
    leader: Option<&HeldRecord>,
) -> Result<Element, NoMemory>
    requires room { HasRoom header.now.geometry }
    requires elements { length wanted.now.array.elements ≤ 16 }
    requires index { wanted.now.index < 2 ^ 8 }
    requires few { length wanted.now.plan.positions ≤ header.now.geometry.max_members }
    requires own { ForSome (option_copied own) (λ held. CanBeElement header.now.geometry held.element) }
    requires leader { ForSome (option_copied leader) (λ held. CanBeElement header.now.geometry held.element) }
    ensures exact { IfOk result (λ element. element
        ≡ changed_record issue.now.config.now issue.now.timestamp header.now.geometry header.now.revision (option_copied own.entry) (option_copied leader.entry) wanted.now) }
    ensures size { IfOk result (λ element. option_copied leader.entry ≡ None → array_capacity wanted.now.array < 2 ^ 64) }
{
    let geometry = &header.geometry;
    let dedicated = spares_of(alloc, issue.config, &wanted.guid)?;
    match leader {
        Some(held) => {
            let element = altered(alloc, issue, wanted, &dedicated, held.element);
            changed_over(alloc, geometry, own, held.element, element)
        }
        None => {
            let element = created(alloc, issue, wanted, &dedicated, header.revision)?;
            created_over(alloc, geometry, own, element)
        }
    }
}

/// The record of an element on a disk after a recovery: what the leader's record says, over the disk's own record, where it has one.
#[tactic(auto, unfolding(crate::specs::Elements::recovered_record))]
pub(crate) fn recovered_record(
    alloc: Global,
    geometry: &Geometry,
    own: Option<&HeldRecord>,
    leader: &Element,
) -> Result<Element, NoMemory>
    requires room { HasRoom geometry.now }
    requires own { ForSome (option_copied own) (λ held. CanBeElement geometry.now held.element) }
    requires leader { CanBeElement geometry.now leader.now }
    ensures { IfOk result (λ element. element ≡ recovered_record geometry.now (option_copied own.entry) leader.now) }
{
    let element = fields_of(alloc, leader);
    match own {
        Some(held) => element.over(alloc, geometry, held.element),
        None => element.over(alloc, geometry, leader),
    }
}
