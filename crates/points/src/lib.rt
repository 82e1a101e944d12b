// Lists of points of the sheet: measured with the element's report entry, and written into the lent output (`write_points_to_file` of write/mod.rs).
#![tactic(auto)]

ghost use Rattle.std.specs.Prelude.{◌≡◌, true, ◌+◌, ◌*◌, ◌≤◌, length, drop, Ok, Err};
ghost use Rattle.conversion.specs.code.Fold.{run, Spare};
ghost use Rattle.conversion.specs.Points.{write_points};
ghost use Rattle.conversion.specs.code.Answer.{grid_point_of};
ghost use Rattle.stream.specs.Records.{points_bytes};
ghost use Rattle.records.specs.code.Bytes.{xy_point_length};
ghost use Rattle.steps.specs.code.Steps.{Succeeds, Writes};
ghost use Rattle.block_places.specs.code.Place.{points_from, coordinate_length, point_length};
ghost use Rattle.cell.specs.Limits.{max_points};
ghost use Rattle.points.specs.code.Integers.{count_of, points_in, integer_at, integers_at, integers_from, InUnit, Passing, PutsPassing};
ghost use Rattle.points.specs.code.Walk.{through, walked, with_length};

use block_places::{COORDINATE, POINT};
use conversion::{CoordinateConverter, DatabasePoint, Entry, POINT_FIELD};
use coordinate::Pointed;
use refusal::Refusal;
use steps::{Measured, Written};

// In an integer coordinate, the place of its value.
const INTEGER_VALUE: usize = 5;

// The first and the last of the points, with the entry after all.
#[derive(Clone, Copy)]
pub struct Walked {
    pub first: DatabasePoint,
    pub last: DatabasePoint,
    pub entry: Entry,
}

// ---- integers in the database unit, which pass unchanged: a clean layout's lists have nothing else, so that the points in front that pass are told apart from the rest

// Whether the coordinate at a place is an integer whose unit has these bits.
fn in_unit(b: &[u8], at: usize, bits: u64) -> bool
    requires { at + coordinate_length ≤ length b.now }
    ensures { result ≡ true → InUnit bits b.now at }
{
    big_endian::u8_at(b, at) == block_places::INTEGER
        && big_endian::u64_at(b, at + block_places::UNIT) == bits
}

// Whether both coordinates of the point that has these bytes are.
fn point_in_unit(bytes: &[u8], bits: u64) -> bool
    requires { length bytes.now ≡ point_length }
    ensures { result ≡ true → InUnit bits bytes.now 0 × InUnit bits bytes.now coordinate_length }
{
    in_unit(bytes, 0, bits) && in_unit(bytes, COORDINATE, bits)
}

// Of a list's bytes, how many points in front pass for sure: a unit with the bits of d equals it, unless it is a NaN. The next one may still pass.
fn count_passing(d: f64, list: &[u8]) -> usize
    ensures { Passing d list.now result }
{
    if d.is_nan() {
        return 0;
    }
    let bits = f64::to_bits(d);
    list.chunks_exact(POINT)
        .take_while(|bytes| point_in_unit(bytes, bits))
        .count()
}

// The integer of the coordinate at a place.
fn integer_at(b: &[u8], at: usize) -> i32
    requires { at + coordinate_length ≤ length b.now }
    ensures { result ≡ integer_at b.now at }
{
    big_endian::as_i32(big_endian::u32_at(b, at + INTEGER_VALUE))
}

// The integers of the point at a place.
fn integer_point(b: &[u8], at: usize) -> DatabasePoint
    requires { at + point_length ≤ length b.now }
    ensures { grid_point_of result ≡ integers_at b.now at }
{
    DatabasePoint {
        x: integer_at(b, at),
        y: integer_at(b, at + COORDINATE),
    }
}

// The ends of the points, with the entry as it is.
fn integer_ends(list: &[u8], entry: Entry) -> Walked
    requires some { point_length ≤ length list.now }
    requires whole { length list.now ≡ point_length * count_of list.now }
    ensures { Ok result ≡ walked (integers_from (count_of list.now) list.now 0) entry }
{
    Walked {
        first: integer_point(list, 0),
        last: integer_point(list, list.len() - POINT),
        entry,
    }
}

// The same points, with their bytes, eight each, from a place of the output on.
fn put_passing(d: f64, list: &[u8], out: &mut [u8], start: usize) -> usize
    requires { start + xy_point_length * count_of list.now ≤ length out.old }
    ensures { PutsPassing d list.now start out.old out.new result }
{
    if d.is_nan() {
        return 0;
    }
    let bits = f64::to_bits(d);
    let mut to = start;
    for (i, bytes) in list.chunks_exact(POINT).enumerate() {
        if !point_in_unit(bytes, bits) {
            return i;
        }
        to = coordinate::put_point(out, to, integer_point(bytes, 0));
    }
    list.len() / POINT
}

// ---- the rest, after the points in front that pass

// What a list has after its first k points.
fn rest_of(list: &[u8], k: usize) -> &[u8]
    requires { point_length * k ≤ length list.now }
    ensures { result.now ≡ drop (point_length * k) list.now }
{
    &list[POINT * k..]
}

// ---- measured

// The rest: `from` is its first point's place in the whole list, whose first point is given.
fn measure_rest(
    converter: CoordinateConverter,
    rest: &[u8],
    from: usize,
    first: Pointed,
) -> Result<Walked, Refusal>
    requires count_bound { from + count_of rest.now ≤ max_points }
    requires spare { Spare (2 * count_of rest.now) first.entry }
    ensures { result ≡ run Err first.entry (write_points converter.policy converter.d from (points_in rest.now)) (through (grid_point_of first.point) (grid_point_of first.point)) }
{
    let mut at = 0;
    let mut last = first.point;
    let mut entry = first.entry;
    // By the places in the whole list: a count from zero, with a sum for each deviation, takes longer.
    for i in from..from + rest.len() / POINT {
        let cx = coordinate::convert_at(converter, rest, at);
        let cy = coordinate::convert_at(converter, rest, at + COORDINATE);
        if let Some(point) = coordinate::plain_point(cx, cy) {
            last = point;
        } else {
            let pointed = coordinate::record_point(cx, cy, POINT_FIELD, i as u16, entry)?;
            last = pointed.point;
            entry = pointed.entry;
        }
        at += POINT;
    }
    Ok(Walked {
        first: first.point,
        last,
        entry,
    })
}

// All points: the first refusal, or the ends and the entry. Place and number come apart, so that they stay in registers.
pub fn measure_points(
    converter: CoordinateConverter,
    b: &[u8],
    place: usize,
    count: usize,
    entry: Entry,
) -> Result<Walked, Refusal>
    requires count_in_bounds { place + point_length * count ≤ length b.now }
    requires le_count { 1 ≤ count }
    requires count_le_max_points { count ≤ max_points }
    requires spare { Spare (2 * count) entry }
    ensures { result ≡ run Err entry (write_points converter.policy converter.d 0 (points_from count b.now place)) walked }
{
    let list = &b[place..place + POINT * count];
    let passing = count_passing(converter.d, list);
    if passing == count {
        return Ok(integer_ends(list, entry));
    }
    let first = coordinate::convert_point(converter, list, 0, POINT_FIELD, 0, entry)?;
    // The first is converted in any case, since it is one of the ends.
    let from = passing.max(1);
    measure_rest(converter, rest_of(list, from), from, first)
}

// The same, where the records take `length` bytes, as the number of points tells.
pub fn with_length(walked: Result<Walked, Refusal>, length: usize) -> Result<Measured, Refusal>
    ensures { result ≡ with_length length walked }
{
    let entry = walked?.entry;
    Ok(Measured { length, entry })
}

// ---- written

// The rest, converted, after what is written already: `from` is its first point's place in the whole list.
fn put_rest(
    converter: CoordinateConverter,
    rest: &[u8],
    from: usize,
    out: &mut [u8],
    front: Written,
) -> Written
    requires count_bound { from + count_of rest.now ≤ max_points }
    requires succeeds { Succeeds (write_points converter.policy converter.d from (points_in rest.now)) }
    requires count_in_bounds { front.to + xy_point_length * count_of rest.now ≤ length out.old }
    requires spare { Spare (2 * count_of rest.now) front.entry }
    ensures { Writes points_bytes front.entry (write_points converter.policy converter.d from (points_in rest.now)) front.to out.old out.new result }
{
    let mut at = 0;
    let mut to = front.to;
    let mut entry = front.entry;
    // By the places in the whole list, as in `measure_rest`.
    for i in from..from + rest.len() / POINT {
        let cx = coordinate::convert_at(converter, rest, at);
        let cy = coordinate::convert_at(converter, rest, at + COORDINATE);
        let point = if let Some(plain) = coordinate::plain_point(cx, cy) {
            plain
        } else if let Ok(pointed) = coordinate::record_point(cx, cy, POINT_FIELD, i as u16, entry) {
            entry = pointed.entry;
            pointed.point
        } else {
            // Never: no point is refused.
            return Written { to, entry };
        };
        to = coordinate::put_point(out, to, point);
        at += POINT;
    }
    Written { to, entry }
}

// All points, eight bytes each, after what is written already, and the entry with them: one walk, in which those that pass are copied and the others converted, each once.
pub fn put_points(
    converter: CoordinateConverter,
    b: &[u8],
    place: usize,
    count: usize,
    out: &mut [u8],
    front: Written,
) -> Written
    requires count_in_bounds { place + point_length * count ≤ length b.now }
    requires count_le_max_points { count ≤ max_points }
    requires succeeds { Succeeds (write_points converter.policy converter.d 0 (points_from count b.now place)) }
    requires count_in_bounds_2 { front.to + xy_point_length * count ≤ length out.old }
    requires spare { Spare (2 * count) front.entry }
    ensures { Writes points_bytes front.entry (write_points converter.policy converter.d 0 (points_from count b.now place)) front.to out.old out.new result }
{
    let list = &b[place..place + POINT * count];
    let start = front.to;
    let entry = front.entry;
    let passing = put_passing(converter.d, list, out, start);
    let rest = rest_of(list, passing);
    let to = start + records::XY_POINT * passing;
    put_rest(converter, rest, passing, out, Written { to, entry })
}
