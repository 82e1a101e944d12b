// One value, and one point: converted to the grid with the element's report entry, and a point into the lent output (`write_points_to_file` of write/mod.rs).
#![tactic(auto)]

ghost use Rattle.std.specs.Prelude.{◌≡◌, [], ◌∷◌, ◌+◌, ◌≤◌, length};
ghost use Rattle.big_endian.specs.Buffer.{WroteAt};
ghost use Rattle.conversion.specs.code.Answer.{outcome, grid_point_of};
ghost use Rattle.conversion.specs.code.Fold.{Spare};
ghost use Rattle.conversion.specs.Convert.{Spot, convert_unit};
ghost use Rattle.conversion.specs.Points.{spot, write_point};
ghost use Rattle.stream.specs.Records.{point_bytes, xy_record};
ghost use Rattle.records.specs.code.Bytes.{xy_point_length, Recorded};
ghost use Rattle.block_places.specs.code.Place.{unit_at, point_at, coordinate_length, point_length};
ghost use Rattle.coordinate.specs.code.Coordinate.{GivesValue, GivesPoint, both, plain_of, xy_length};

use conversion::{Conversion, CoordinateConverter, DatabasePoint, Deviation, Entry};
use refusal::Refusal;

// The bytes of an XY of one point.
const XY_LENGTH: u16 = 12;

// A value of the grid, with the element's entry after it. (Its own type, and a point's too, since clauses and callers name the field: it says what is converted.)
#[derive(Clone, Copy)]
pub struct Valued {
    pub value: i32,
    pub entry: Entry,
}

// A point of the grid, with the element's entry after it.
#[derive(Clone, Copy)]
pub struct Pointed {
    pub point: DatabasePoint,
    pub entry: Entry,
}

// A conversion's answer, in its place: the entry is touched only where a deviation counts. Field, axis and place come apart, as `Deviation` and `Entry` have them among their other fields.
pub fn record_quantization(
    c: Result<Conversion, Refusal>,
    field: u8,
    axis: u8,
    place: u16,
    entry: Entry,
) -> Result<Valued, Refusal>
    requires { Spare 1 entry }
    ensures { GivesValue entry (outcome (spot field axis place) c) result }
{
    match c? {
        Conversion::Converted { value } => Ok(Valued { value, entry }),
        Conversion::Quantized {
            value,
            physical,
            error,
        } => Ok(Valued {
            value,
            entry: entry.note(Deviation {
                field,
                axis,
                place,
                physical,
                database: value,
                error,
            }),
        }),
    }
}

// The coordinate at a place of the block, to the grid.
pub fn convert_at(
    converter: CoordinateConverter,
    b: &[u8],
    at: usize,
) -> Result<Conversion, Refusal>
    requires { at + coordinate_length ≤ length b.now }
    ensures { (s : Spot) → outcome s result ≡ convert_unit converter.policy converter.d s (unit_at b.now at) }
{
    converter.convert_unit(block_places::unit_at(b, at))
}

// Both coordinates of a point, in their places, x before y.
pub fn record_point(
    cx: Result<Conversion, Refusal>,
    cy: Result<Conversion, Refusal>,
    field: u8,
    place: u16,
    entry: Entry,
) -> Result<Pointed, Refusal>
    requires { Spare 2 entry }
    ensures { GivesPoint entry (both field place cx cy) result }
{
    let x = record_quantization(cx, field, conversion::X_AXIS, place, entry)?;
    let y = record_quantization(cy, field, conversion::Y_AXIS, place, x.entry)?;
    Ok(Pointed {
        point: DatabasePoint {
            x: x.value,
            y: y.value,
        },
        entry: y.entry,
    })
}

// The point, where neither is refused nor has a deviation that counts: then the entry stays as it is.
pub fn plain_point(
    cx: Result<Conversion, Refusal>,
    cy: Result<Conversion, Refusal>,
) -> Option<DatabasePoint>
    ensures { result ≡ plain_of cx cy }
{
    match (cx, cy) {
        (Ok(Conversion::Converted { value: x }), Ok(Conversion::Converted { value: y })) => {
            Some(DatabasePoint { x, y })
        }
        _ => None,
    }
}

// The point at a place of the block.
pub fn convert_point(
    converter: CoordinateConverter,
    b: &[u8],
    at: usize,
    field: u8,
    place: u16,
    entry: Entry,
) -> Result<Pointed, Refusal>
    requires point_length_in_bounds { at + point_length ≤ length b.now }
    requires spare { Spare 2 entry }
    ensures { GivesPoint entry (write_point converter.policy converter.d field place (point_at b.now at)) result }
{
    let cx = convert_at(converter, b, at);
    let cy = convert_at(converter, b, at + block_places::COORDINATE);
    record_point(cx, cy, field, place, entry)
}

// ---- written

// A point's eight bytes.
pub fn put_point(out: &mut [u8], at: usize, p: DatabasePoint) -> usize
    requires { at + xy_point_length ≤ length out.old }
    ensures { WroteAt (point_bytes (grid_point_of p)) out.old out.new at result }
{
    let a = big_endian::put_i32_at(out, at, p.x);
    big_endian::put_i32_at(out, a, p.y)
}

// XY of one point, at a place.
pub fn put_xy_at(out: &mut [u8], at: usize, p: DatabasePoint) -> usize
    requires { at + xy_length ≤ length out.old }
    ensures { Recorded (xy_record (grid_point_of p ∷ [])) xy_length out.old out.new at result }
{
    let a = records::put_head_at(out, at, XY_LENGTH, records::XY, records::FOUR_BYTE);
    put_point(out, a, p)
}
