// One element: a block of the sheet measured, and written (`write_element_with_field_prefix` of write/mod.rs). Its flags and its plex number, where it has them, are two records behind its first.
#![tactic(auto)]

ghost use Rattle.std.specs.Prelude.{◌≡◌, ◌+◌, ◌≤◌, length};
ghost use Rattle.conversion.specs.code.Fold.{Spare};
ghost use Rattle.sheet.specs.Element.{element_of};
ghost use Rattle.cell.specs.Limits.{max_sheet_length};
ghost use Rattle.cell.specs.Write.{flags_fit};
ghost use Rattle.block_places.specs.code.Places.{body_at, properties_at, flags_of, ElementIn};
ghost use Rattle.records.specs.code.Bytes.{record_head};
ghost use Rattle.steps.specs.code.Steps.{max_deviations, Measures, Succeeds, Writes};
ghost use Rattle.properties.specs.code.Tail.{tail_length};
ghost use Rattle.bodies.specs.code.Body.{body_length};
ghost use Rattle.elements.specs.code.Block.{write_parts, parts_bytes, options_length, max_options_length, longer, PutsOptions, measured_block, Short, Fits, WritesBlock};

use block_places::{BodyPlaces, Options, PropertyPlaces};
use conversion::{CoordinateConverter, Entry};
use records::{BIT_ARRAY, ELFLAGS, LONG_RECORD, PLEX, WORD_RECORD};
use refusal::Refusal;
use steps::{Measured, Written};

// "26 flags above 3".
const MAX_FLAGS: u16 = 3;

// ---- the options

fn flags_fit(options: Options) -> bool
    ensures { result ≡ flags_fit (flags_of options) }
{
    options.flags.is_none_or(|flags| flags <= MAX_FLAGS)
}

// The bytes of their records.
fn options_length(options: Options) -> usize
    ensures { (result ≡ options_length options) × (result ≤ max_options_length) }
{
    let flags = block_places::size_if(options.flags.is_some(), WORD_RECORD);
    flags + block_places::size_if(options.plex.is_some(), LONG_RECORD)
}

// ---- measuring

// Its body, then its properties.
#[tactic(auto, using(crate::proofs::PartLaws::body_stops))]
fn measure_parts(
    converter: CoordinateConverter,
    b: &[u8],
    body: BodyPlaces,
    properties: PropertyPlaces,
    entry: Entry,
) -> Result<Measured, Refusal>
    requires b_len_bound { length b.now ≤ max_sheet_length }
    requires element_in { ElementIn b.now body properties }
    requires spare { Spare max_deviations entry }
    ensures measures { Measures parts_bytes entry (write_parts converter.policy converter.d (body_at b.now body) (properties_at b.now properties)) result }
    ensures short { Short (length b.now) result }
{
    let front = bodies::measure_body(converter, b, body, entry)?;
    let tail = properties::measure_tail(b, properties, front.entry)?;
    let length = front.length + tail.length;
    Ok(Measured { length, ..tail })
}

// The block's form first, then its flags; then the parts, with the options' records.
pub fn measure_element(
    converter: CoordinateConverter,
    b: &[u8],
    index: u32,
) -> Result<Measured, Refusal>
    requires { length b.now ≤ max_sheet_length }
    ensures value { result ≡ measured_block converter.policy converter.d index (element_of b.now) }
    ensures short { Short (length b.now) result }
{
    let element = forms::element(b).ok_or(Refusal::Form)?;
    let options = element.options;
    if !flags_fit(options) {
        return Err(Refusal::Flags);
    }
    let rest = block_places::block_from(b, options.shift);
    let blank = Entry::blank(index, block_places::plain_kind(b));
    let parts = measure_parts(converter, rest, element.body, element.properties, blank)?;
    let length = parts.length + options_length(options);
    Ok(Measured { length, ..parts })
}

// ---- writing

// Its body, then its properties, at the start of the part.
fn put_parts(
    converter: CoordinateConverter,
    b: &[u8],
    body: BodyPlaces,
    properties: PropertyPlaces,
    part: &mut [u8],
    entry: Entry,
) -> Written
    requires element_in { ElementIn b.now body properties }
    requires succeeds { Succeeds (write_parts converter.policy converter.d (body_at b.now body) (properties_at b.now properties)) }
    requires spare { Spare max_deviations entry }
    requires place_in_bounds { body_length b.now body + tail_length properties.count b.now properties.place ≤ length part.old }
    ensures { Writes parts_bytes entry (write_parts converter.policy converter.d (body_at b.now body) (properties_at b.now properties)) 0 part.old part.new result }
{
    let written = bodies::put_body(converter, b, body, part, entry);
    properties::put_tail(b, properties, part, written.to, written.entry)
}

// The options behind the first record: the parts stand as many bytes further on as these take, and their first record goes to the start.
fn put_options(options: Options, part: &mut [u8]) -> usize
    requires options_in_bounds { record_head + options_length options ≤ length part.old }
    ensures { PutsOptions options part.old part.new result }
{
    let first = big_endian::u32_at(part, options_length(options));
    let a = big_endian::put_u32_at(part, 0, first);
    let b = records::put_opt_two_at(part, a, ELFLAGS, BIT_ARRAY, options.flags);
    records::put_opt_long_at(part, b, PLEX, options.plex.map(u32::cast_signed))
}

// The block's element into the part of the output that starts where the last one ended. Measuring has checked the form, so its parts are read by their places alone.
pub fn put_element(converter: CoordinateConverter, b: &[u8], index: u32, part: &mut [u8]) -> Written
    requires { Fits converter.policy converter.d b.now (length part.old) }
    ensures { WritesBlock converter.policy converter.d index b.now part.old part.new result }
{
    let element = block_places::element_places(b);
    let options = element.options;
    let body = element.body;
    let properties = element.properties;
    let rest = block_places::block_from(b, options.shift);
    let kind = block_places::plain_kind(b);
    let blank = Entry::blank(index, kind);
    let from = options_length(options);
    let written = put_parts(converter, rest, body, properties, &mut part[from..], blank);
    put_options(options, part);
    let to = from + written.to;
    let entry = written.entry;
    Written { to, entry }
}
