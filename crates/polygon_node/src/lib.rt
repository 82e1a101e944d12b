// Polygons and nodes: checked, measured, and written into the lent output (`write_polygon_with_converter`, `write_node_with_converter` of write/mod.rs).
#![tactic(auto)]

ghost use Rattle.std.specs.Prelude.{◌≡◌, ◌≤◌, length, Err};
ghost use Rattle.conversion.specs.code.Fold.{run, Spare};
ghost use Rattle.conversion.specs.Points.{write_points};
ghost use Rattle.cell.specs.Limits.{max_points};
ghost use Rattle.cell.specs.Write.{write_shape, write_polygon, write_node};
ghost use Rattle.records.specs.code.Bytes.{Placed};
ghost use Rattle.steps.specs.code.Steps.{max_deviations, Measures, Succeeds, Writes};
ghost use Rattle.block_places.specs.code.Places.{points_at, shape_at, ShapeIn};
ghost use Rattle.polygon_node.specs.code.Shape.{shape_bytes, polygon_bytes, node_bytes, shape_head_length, shape_length, shape_head, shape_ends, after_checks};

use block_places::ShapePlaces;
use conversion::{CoordinateConverter, Entry};
use points::Walked;
use refusal::Refusal;
use steps::{Measured, Written};
use validation::MAX_POINTS;

// "Points: polygon 4 to 8,191, .. node 1 to 50" (document 01).
const MIN_POLYGON_POINTS: usize = 4;

const MIN_NODE_POINTS: usize = 1;

const MAX_NODE_POINTS: usize = 50;

// The bytes before the points: BOUNDARY or NODE 4, LAYER 6, DATATYPE or NODETYPE 6, the head of XY 4.
const SHAPE_HEAD: usize = 20;

// ---- measured

// What a polygon and a node have in common, but for their numbers of points: the ends and the entry.
fn measure_shape(
    converter: CoordinateConverter,
    b: &[u8],
    places: ShapePlaces,
    least: usize,
    most: usize,
    entry: Entry,
) -> Result<Walked, Refusal>
    requires shape_in { ShapeIn b.now places }
    requires le_least { 1 ≤ least }
    requires most_le_max_points { most ≤ max_points }
    requires spare { Spare max_deviations entry }
    ensures { result ≡ run Err entry (write_shape converter.policy converter.d least most (shape_at b.now places)) shape_ends }
{
    let points = places.points;
    validation::check_shape(least, points.count, most, places.layer, places.datatype)?;
    points::measure_points(converter, b, points.place, points.count, entry)
}

// All points, then the ends.
pub fn measure_polygon(
    converter: CoordinateConverter,
    b: &[u8],
    places: ShapePlaces,
    entry: Entry,
) -> Result<Measured, Refusal>
    requires shape_in { ShapeIn b.now places }
    requires spare { Spare max_deviations entry }
    ensures { Measures polygon_bytes entry (write_polygon converter.policy converter.d (shape_at b.now places)) result }
{
    let walked = measure_shape(converter, b, places, MIN_POLYGON_POINTS, MAX_POINTS, entry)?;
    if walked.first != walked.last {
        return Err(Refusal::NotClosed);
    }
    Ok(Measured {
        length: SHAPE_HEAD + records::XY_POINT * places.points.count,
        entry: walked.entry,
    })
}

pub fn measure_node(
    converter: CoordinateConverter,
    b: &[u8],
    places: ShapePlaces,
    entry: Entry,
) -> Result<Measured, Refusal>
    requires shape_in { ShapeIn b.now places }
    requires spare { Spare max_deviations entry }
    ensures { Measures node_bytes entry (write_node converter.policy converter.d (shape_at b.now places)) result }
{
    let walked = measure_shape(
        converter,
        b,
        places,
        MIN_NODE_POINTS,
        MAX_NODE_POINTS,
        entry,
    );
    points::with_length(walked, SHAPE_HEAD + records::XY_POINT * places.points.count)
}

// ---- written

// The records up to the points, with the head of XY.
fn put_shape_head(out: &mut [u8], code: u8, type_code: u8, places: ShapePlaces) -> usize
    requires count_le_max_points { places.points.count ≤ max_points }
    requires shape_head_length_in_bounds { shape_head_length ≤ length out.old }
    ensures { Placed (shape_head code type_code places.layer places.datatype places.points.count) shape_head_length out.old out.new 0 result }
{
    let len = (records::RECORD_HEAD + records::XY_POINT * places.points.count) as u16;
    let a = records::put_empty_at(out, 0, code);
    let b = records::put_word_at(out, a, records::LAYER, records::TWO_BYTE, places.layer);
    let c = records::put_word_at(out, b, type_code, records::TWO_BYTE, places.datatype);
    records::put_head_at(out, c, len, records::XY, records::FOUR_BYTE)
}

// All records from the start of the output on: of a polygon and of a node, but for the codes of the first record and of the type's.
fn put_shape<const CODE: u8, const TYPE_CODE: u8>(
    converter: CoordinateConverter,
    b: &[u8],
    places: ShapePlaces,
    out: &mut [u8],
    entry: Entry,
) -> Written
    requires shape_in { ShapeIn b.now places }
    requires count_le_max_points { places.points.count ≤ max_points }
    requires succeeds { Succeeds (write_points converter.policy converter.d 0 (points_at b.now places.points)) }
    requires count_in_bounds { shape_length places.points.count ≤ length out.old }
    requires spare { Spare max_deviations entry }
    ensures { Writes (shape_bytes CODE TYPE_CODE) entry (after_checks converter.policy converter.d (shape_at b.now places)) 0 out.old out.new result }
{
    let to = put_shape_head(out, CODE, TYPE_CODE, places);
    let front = Written { to, entry };
    points::put_points(
        converter,
        b,
        places.points.place,
        places.points.count,
        out,
        front,
    )
}

pub fn put_polygon(
    converter: CoordinateConverter,
    b: &[u8],
    places: ShapePlaces,
    out: &mut [u8],
    entry: Entry,
) -> Written
    requires shape_in { ShapeIn b.now places }
    requires succeeds { Succeeds (write_polygon converter.policy converter.d (shape_at b.now places)) }
    requires count_in_bounds { shape_length places.points.count ≤ length out.old }
    requires spare { Spare max_deviations entry }
    ensures { Writes polygon_bytes entry (write_polygon converter.policy converter.d (shape_at b.now places)) 0 out.old out.new result }
{
    put_shape::<{ records::BOUNDARY }, { records::DATATYPE }>(converter, b, places, out, entry)
}

pub fn put_node(
    converter: CoordinateConverter,
    b: &[u8],
    places: ShapePlaces,
    out: &mut [u8],
    entry: Entry,
) -> Written
    requires shape_in { ShapeIn b.now places }
    requires succeeds { Succeeds (write_node converter.policy converter.d (shape_at b.now places)) }
    requires count_in_bounds { shape_length places.points.count ≤ length out.old }
    requires spare { Spare max_deviations entry }
    ensures { Writes node_bytes entry (write_node converter.policy converter.d (shape_at b.now places)) 0 out.old out.new result }
{
    put_shape::<{ records::NODE }, { records::NODETYPE }>(converter, b, places, out, entry)
}
