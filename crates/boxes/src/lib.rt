// A box (`write_box_with_converter` of write/mod.rs), from its places in the block: its checks and conversions, and then its records.
#![tactic(auto)]

ghost use Rattle.std.specs.Prelude.{◌≡◌, ◌+◌, ◌≤◌, length, Float};
ghost use Rattle.units.specs.declared.Unit.{Unit};
ghost use Rattle.units.specs.Point.{Point};
ghost use Rattle.conversion.specs.declared.GdsRoundingPolicy.{GdsRoundingPolicy};
ghost use Rattle.conversion.specs.code.Answer.{grid_point_of};
ghost use Rattle.conversion.specs.code.Fold.{Spare, run};
ghost use Rattle.conversion.specs.Points.{write_points};
ghost use Rattle.stream.specs.Records.{xy_record};
ghost use Rattle.cell.specs.Write.{box_points, write_box};
ghost use Rattle.block_places.specs.code.Place.{point_at};
ghost use Rattle.block_places.specs.code.Places.{box_at, BoxIn};
ghost use Rattle.records.specs.code.Bytes.{Placed, Recorded};
ghost use Rattle.steps.specs.code.Ready.{stopped, ready};
ghost use Rattle.steps.specs.code.Steps.{max_deviations, Measures, Succeeds, Writes};
ghost use Rattle.boxes.specs.code.Box.{box_xy_length, box_length, box_deviations, box_bytes, Converted, points_of, box_of, ready_of};

use block_places::{BoxPlaces, COORDINATE};
use conversion::{Conversion, CoordinateConverter, DatabasePoint, Entry, POINT_FIELD};
use refusal::Refusal;
use steps::{Measured, Written};

// The bytes of XY, with its five points, and of BOX, LAYER, BOXTYPE and XY.
const BOX_XY_LENGTH: u16 = 44;

const BOX_LENGTH: usize = 60;

// The conversions of the first corner's coordinates, and of the second's.
#[derive(Clone, Copy)]
struct Corners {
    x1: Result<Conversion, Refusal>,
    y1: Result<Conversion, Refusal>,
    x2: Result<Conversion, Refusal>,
    y2: Result<Conversion, Refusal>,
}

// The corners on the grid, with the entry after the five points.
#[derive(Clone, Copy)]
struct BoxValues {
    first: DatabasePoint,
    second: DatabasePoint,
    entry: Entry,
}

// ---- checked and converted

// Converter, block, places and entry by themselves, as every element's crate takes them: converter and block are those of the whole call, the entry is another after each step.

// Each coordinate of the two corners, once.
#[tactic(auto, unfolding(block_places::specs::code::Place::point_at))]
fn convert_corners(converter: CoordinateConverter, b: &[u8], places: BoxPlaces) -> Corners
    requires { BoxIn b.now places }
    ensures { Converted converter.policy converter.d (point_at b.now places.first) (point_at b.now places.second) result }
{
    Corners {
        x1: coordinate::convert_at(converter, b, places.first),
        y1: coordinate::convert_at(converter, b, places.first + COORDINATE),
        x2: coordinate::convert_at(converter, b, places.second),
        y2: coordinate::convert_at(converter, b, places.second + COORDINATE),
    }
}

// The five points of `GdsBox::points` in turn: a coordinate counts in each point where it stands.
fn count_points(corners: Corners, entry: Entry) -> Result<BoxValues, Refusal>
    requires { Spare box_deviations entry }
    ensures { (policy : GdsRoundingPolicy) (d : Float) (p q : Point Unit) → Converted policy d p q corners → points_of result ≡ run stopped entry (write_points policy d 0 (box_points p q)) ready }
{
    let Corners { x1, y1, x2, y2 } = corners;
    // Where neither corner deviates no point does: the entry stays as it is, and is not handed from point to point.
    let plain = (
        coordinate::plain_point(x1, y1),
        coordinate::plain_point(x2, y2),
    );
    if let (Some(first), Some(second)) = plain {
        return Ok(BoxValues {
            first,
            second,
            entry,
        });
    }
    let first = coordinate::record_point(x1, y1, POINT_FIELD, 0, entry)?;
    let right = coordinate::record_point(x2, y1, POINT_FIELD, 1, first.entry)?;
    let second = coordinate::record_point(x2, y2, POINT_FIELD, 2, right.entry)?;
    let left = coordinate::record_point(x1, y2, POINT_FIELD, 3, second.entry)?;
    let last = coordinate::record_point(x1, y1, POINT_FIELD, 4, left.entry)?;
    Ok(BoxValues {
        first: first.point,
        second: second.point,
        entry: last.entry,
    })
}

// The checks, then the points.
fn box_values(
    converter: CoordinateConverter,
    b: &[u8],
    places: BoxPlaces,
    entry: Entry,
) -> Result<BoxValues, Refusal>
    requires box_in { BoxIn b.now places }
    requires spare { Spare box_deviations entry }
    ensures { ready_of places result ≡ run stopped entry (write_box converter.policy converter.d (box_at b.now places)) ready }
{
    validation::check_layer_and_type(places.layer, places.boxtype)?;
    count_points(convert_corners(converter, b, places), entry)
}

// The first refusal, or the length of the records, which all boxes have.
pub fn measure_box(
    converter: CoordinateConverter,
    b: &[u8],
    places: BoxPlaces,
    entry: Entry,
) -> Result<Measured, Refusal>
    requires box_in { BoxIn b.now places }
    requires spare { Spare max_deviations entry }
    ensures { Measures box_bytes entry (write_box converter.policy converter.d (box_at b.now places)) result }
{
    let values = box_values(converter, b, places, entry)?;
    Ok(Measured {
        length: BOX_LENGTH,
        entry: values.entry,
    })
}

// ---- written

// XY of the five points.
fn put_xy(out: &mut [u8], at: usize, first: DatabasePoint, second: DatabasePoint) -> usize
    requires { at + box_xy_length ≤ length out.old }
    ensures { Recorded (xy_record (box_points (grid_point_of first) (grid_point_of second))) box_xy_length out.old out.new at result }
{
    let right = DatabasePoint {
        x: second.x,
        y: first.y,
    };
    let left = DatabasePoint {
        x: first.x,
        y: second.y,
    };
    let a1 = records::put_head_at(out, at, BOX_XY_LENGTH, records::XY, records::FOUR_BYTE);
    let a2 = coordinate::put_point(out, a1, first);
    let a3 = coordinate::put_point(out, a2, right);
    let a4 = coordinate::put_point(out, a3, second);
    let a5 = coordinate::put_point(out, a4, left);
    coordinate::put_point(out, a5, first)
}

// BOX, LAYER, BOXTYPE and XY.
fn put_records(
    out: &mut [u8],
    places: BoxPlaces,
    first: DatabasePoint,
    second: DatabasePoint,
) -> usize
    requires { box_length ≤ length out.old }
    ensures { Placed (box_bytes (box_of places first second)) box_length out.old out.new 0 result }
{
    let a1 = records::put_empty_at(out, 0, records::BOX);
    let a2 = records::put_word_at(out, a1, records::LAYER, records::TWO_BYTE, places.layer);
    let a3 = records::put_word_at(out, a2, records::BOXTYPE, records::TWO_BYTE, places.boxtype);
    put_xy(out, a3, first, second)
}

// The records at the start of the part that is lent; every value is known before the first byte is written.
pub fn put_box(
    converter: CoordinateConverter,
    b: &[u8],
    places: BoxPlaces,
    out: &mut [u8],
    entry: Entry,
) -> Written
    requires box_in { BoxIn b.now places }
    requires succeeds { Succeeds (write_box converter.policy converter.d (box_at b.now places)) }
    requires spare { Spare max_deviations entry }
    requires box_length_in_bounds { box_length ≤ length out.old }
    ensures { Writes box_bytes entry (write_box converter.policy converter.d (box_at b.now places)) 0 out.old out.new result }
{
    let values = count_points(convert_corners(converter, b, places), entry).unwrap();
    Written {
        to: put_records(out, places, values.first, values.second),
        entry: values.entry,
    }
}
