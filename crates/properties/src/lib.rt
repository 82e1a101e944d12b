// An element's properties and its ENDEL (`write_element_tail_to_file` of write/mod.rs), from their place in the block.
#![tactic(auto)]

ghost use Rattle.std.specs.Prelude.{◌≡◌, ◌+◌, ◌≤◌, length};
ghost use Rattle.big_endian.specs.Big.{number_at};
ghost use Rattle.cell.specs.Limits.{max_sheet_length, max_value_length};
ghost use Rattle.conversion.specs.code.Answer.{made_of};
ghost use Rattle.cell.specs.Write.{attribute_and_length, write_properties};
ghost use Rattle.block_places.specs.code.Place.{place_from, property_at, property_end};
ghost use Rattle.block_places.specs.code.Places.{properties_at};
ghost use Rattle.records.specs.code.Bytes.{Placed};
ghost use Rattle.steps.specs.code.Steps.{Measures, Succeeds, Writes};
ghost use Rattle.properties.specs.code.Tail.{said, property_bytes, property_length, tail_bytes, tail_length};

use block_places::{NUMBER, PropertyPlaces};
use conversion::Entry;
use refusal::Refusal;
use steps::{Measured, Written};

// The manual's attributes.
const MIN_ATTRIBUTE: usize = 1;

const MAX_ATTRIBUTE: usize = 127;

// Its longest value.
const MAX_VALUE_LENGTH: usize = 126;

// The bytes of a PROPATTR, and of the head of its PROPVALUE.
const PROPERTY_FRONT: usize = 10;

// From a property's attribute to the bytes of its value.
const PROPERTY_VALUE: usize = NUMBER + NUMBER;

// How many bytes the value of the property at a place has.
fn value_length(b: &[u8], at: usize) -> usize
    requires { at + 4 ≤ length b.now }
    ensures { result ≡ number_at 2 b.now (at + 2) }
{
    block_places::string_length(b, at + NUMBER)
}

// The attribute, then the length of the value.
fn check_property(attribute: u16, size: usize) -> Result<(), Refusal>
    ensures { made_of result ≡ attribute_and_length attribute size }
{
    let admitted = validation::within(MIN_ATTRIBUTE, attribute as usize, MAX_ATTRIBUTE);
    let short = size <= MAX_VALUE_LENGTH;
    if !admitted {
        return Err(Refusal::Attribute);
    }
    if !short {
        return Err(Refusal::StringLength);
    }
    Ok(())
}

// The first attribute or value that is refused, or the length of all records to the ENDEL.
#[tactic(auto, using(crate::proofs::TailLaws::value_in, crate::proofs::TailLaws::place_in))]
pub fn measure_tail(b: &[u8], properties: PropertyPlaces, entry: Entry) -> Result<Measured, Refusal>
    requires b_len_bound { length b.now ≤ max_sheet_length }
    requires place_in_bounds { place_from property_end properties.count b.now properties.place ≤ length b.now }
    ensures { Measures tail_bytes entry (write_properties (properties_at b.now properties)) result }
{
    let mut at = properties.place;
    let mut size: usize = 0;
    for _ in 0..properties.count {
        let m = value_length(b, at);
        check_property(big_endian::u16_at(b, at), m)?;
        size = size + PROPERTY_FRONT + m + m % 2;
        at = at + PROPERTY_VALUE + m;
    }
    Ok(Measured {
        length: size + records::RECORD_HEAD,
        entry,
    })
}

// PROPATTR and PROPVALUE of the property at a place of the block.
fn put_property_at(out: &mut [u8], to: usize, b: &[u8], at: usize) -> usize
    requires value_fits { number_at 2 b.now (at + 2) ≤ max_value_length }
    requires value_in_bounds { at + 4 + number_at 2 b.now (at + 2) ≤ length b.now }
    requires records_in_bounds { to + property_length (number_at 2 b.now (at + 2)) ≤ length out.old }
    ensures { Placed (property_bytes (said (property_at b.now at))) (property_length (number_at 2 b.now (at + 2))) out.old out.new to result }
{
    let attribute = big_endian::u16_at(b, at);
    let a = records::put_word_at(out, to, records::PROPATTR, records::TWO_BYTE, attribute);
    let value = block_places::string_at(b, at + NUMBER);
    records::put_string_at(out, a, records::PROPVALUE, value)
}

// All of them, then ENDEL.
#[tactic(auto, using(crate::proofs::TailLaws::value_in, crate::proofs::TailLaws::place_in))]
pub fn put_tail(
    b: &[u8],
    properties: PropertyPlaces,
    out: &mut [u8],
    start: usize,
    entry: Entry,
) -> Written
    requires place_in_bounds { place_from property_end properties.count b.now properties.place ≤ length b.now }
    requires succeeds { Succeeds (write_properties (properties_at b.now properties)) }
    requires place_in_bounds_2 { start + tail_length properties.count b.now properties.place ≤ length out.old }
    ensures { Writes tail_bytes entry (write_properties (properties_at b.now properties)) start out.old out.new result }
{
    let mut at = properties.place;
    let mut to = start;
    for _ in 0..properties.count {
        let m = value_length(b, at);
        to = put_property_at(out, to, b, at);
        at = at + PROPERTY_VALUE + m;
    }
    Written {
        to: records::put_empty_at(out, to, records::ENDEL),
        entry,
    }
}
