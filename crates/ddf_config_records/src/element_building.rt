//! Elements over the bytes of other records.
ghost use Rattle.std.specs.Prelude.{◌≡◌, ◌≤◌, ◌<◌, ◌^◌, ◌+◌, ◌*◌, ◌∷◌, ℕ, None, length, replicate, IfOk};
ghost use Rattle.std.specs.List.{AllByRecursion};
ghost use Rattle.ddf_seal.specs.Seal.{seal_place};
ghost use Rattle.ddf_seal.specs.Unread.{Fits, cleared, placed, places, written};
ghost use Rattle.ddf_config_records.specs.declared.layout.TheConstants.{CACHE_AT, REFERENCES_AT};
ghost use Rattle.ddf_config_records.specs.ElementValue.{ElementValue};
ghost use Rattle.ddf_config_records.specs.Elements.{CanBeElement, HasRoom, element_fault, element_fields, record_size};
ghost use Rattle.ddf_config_records.specs.Building.{element_over, fresh_element, new_record_bytes};

use crate::decoding::record_size;
use crate::element::Element;
use crate::element_reading::member_spans;
use crate::element_writing::{put_members, put_names, put_shape};
use crate::layout;
use crate::number_bounds::{members_fit, references_fit};
use crate::rest::clear_more;
use ddf_bytes::{NoMemory, Seq};
use ddf_header::Geometry;
use ddf_seal::place;
use std::alloc::Global;

impl Element {
    /// This element's fields over the bytes of another's record under one geometry. All bytes that none of its fields names
    /// stay, among them those of members that the other has beyond its own (SNIA DDF 2.0; what is kept is profile).
    /// `self.rest` is not read.
    pub fn over(
        self,
        alloc: Global,
        geometry: &Geometry,
        bytes: &Element,
    ) -> Result<Element, NoMemory>
        requires room { HasRoom geometry.now }
        requires size { length bytes.now.rest ≡ record_size geometry.now }
        requires few { length self.members ≤ geometry.now.max_members }
        requires few_before { length bytes.now.members ≤ geometry.now.max_members }
        ensures exact { IfOk result (λ element. element ≡ element_over geometry.now bytes.now self) }

        // It can be written, where the fields have no fault.
        ensures writable { element_fault geometry.now.max_members self ≡ None
            → IfOk result (CanBeElement geometry.now) }
    {
        let mut rest = bytes_of(alloc, bytes, geometry.max_members)?;
        clear_fields(&mut rest, self.members.len(), geometry.max_members);
        Ok(with_rest(self, rest))
    }

    /// This element's fields in a new record: FF in all other bytes, and zeros in the cache bytes 128 to 135 (profile).
    /// `self.rest` is not read.
    pub fn fresh(self, alloc: Global, geometry: &Geometry) -> Result<Element, NoMemory>
        requires room { HasRoom geometry.now }
        requires few { length self.members ≤ geometry.now.max_members }
        ensures exact { IfOk result (λ element. element ≡ fresh_element geometry.now self) }
        ensures writable { element_fault geometry.now.max_members self ≡ None
            → IfOk result (CanBeElement geometry.now) }
    {
        let mut rest = new_record(alloc, geometry)?;
        clear_fields(&mut rest, self.members.len(), geometry.max_members);
        Ok(with_rest(self, rest))
    }
}

/// The element with these bytes. Its numbers fit their places.
fn with_rest(element: Element, rest: Vec<u8>) -> Element
    ensures exact { result ≡ record element { rest = rest.items } }
    ensures fits { (most : ℕ) → length element.members < 2 ^ 16 → AllByRecursion Fits (element_fields most element) }
{
    references_fit(&element.spares);
    members_fit(element.members.as_slice());
    Element {
        rest: Seq::new(rest),
        ..element
    }
}

/// The bytes of an element's record but its seal.
fn bytes_of(alloc: Global, element: &Element, most: u16) -> Result<Vec<u8>, NoMemory>
    requires few { length element.now.members ≤ most }
    requires whole { REFERENCES_AT + 12 * most ≤ length element.now.rest }
    ensures exact { IfOk result (λ bytes.
        bytes.items ≡ written (element_fields most element.now) element.now.rest) }
    ensures size { IfOk result (λ bytes. length bytes.items ≡ length element.now.rest) }
{
    let mut bytes = Vec::from_slice(alloc, element.rest.items())?;
    put_fields(&mut bytes, element, most);
    Ok(bytes)
}

/// Writes the fields of an element.
fn put_fields(into: &mut [u8], element: &Element, most: u16)
    requires few { length element.now.members ≤ most }
    requires whole { REFERENCES_AT + 12 * most ≤ length into.old }
    ensures { into.new ≡ written (element_fields most element.now) into.old }
{
    put_names(into, element);
    put_shape(into, element);
    put_members(into, element, most);
}

/// Writes zeros in the places of the seal and of the fields of an element with so many members.
fn clear_fields(bytes: &mut Vec<u8>, members: usize, most: u16)
    requires few { members ≤ most }
    requires whole { REFERENCES_AT + 12 * most ≤ length bytes.old.items }
    ensures { (element : ElementValue) → length element.members ≡ members
        → bytes.new.items ≡ cleared (seal_place ∷ places (element_fields most element)) bytes.old.items }
{
    clear_more(bytes, &layout::HEAD);
    clear_more(bytes, &member_spans(most, members));
}

/// The bytes of a new record.
#[tactic(auto, unfolding(crate::specs::Building::new_record_bytes))]
fn new_record(alloc: Global, geometry: &Geometry) -> Result<Vec<u8>, NoMemory>
    requires { HasRoom geometry.now }
    ensures exact { IfOk result (λ bytes. bytes.items ≡ new_record_bytes geometry.now) }
    ensures size { IfOk result (λ bytes. length bytes.items ≡ record_size geometry.now) }
{
    let mut bytes = vec![in alloc; 0xFF; record_size(geometry)]?;
    clear_cache(&mut bytes);
    Ok(bytes)
}

fn clear_cache(bytes: &mut [u8])
    requires { 512 ≤ length bytes.old }
    ensures { bytes.new ≡ placed bytes.old CACHE_AT (replicate 8 0) }
{
    place(bytes, layout::CACHE_AT, &[0; 8]);
}
