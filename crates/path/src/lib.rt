// Paths: checked, measured, and written into the lent output (`write_path_with_converter` of write/mod.rs).
#![tactic(auto)]

ghost use Rattle.std.specs.Prelude.{◌≡◌, [], ◌+◌, ◌≤◌, length};
ghost use Rattle.stream.specs.Record.{stream_bytes};
ghost use Rattle.conversion.specs.code.Fold.{Spare};
ghost use Rattle.conversion.specs.Points.{write_length};
ghost use Rattle.cell.specs.Limits.{max_points};
ghost use Rattle.cell.specs.Write.{is_some, write_path};
ghost use Rattle.records.specs.code.Bytes.{Placed, option_of};
ghost use Rattle.steps.specs.code.Steps.{max_deviations, Measures, Succeeds, Writes};
ghost use Rattle.block_places.specs.code.Place.{coordinate_at, coordinate_length};
ghost use Rattle.block_places.specs.code.Places.{path_type_of, path_at, PathIn};
ghost use Rattle.path.specs.code.Front.{opt_extent, write_extent, write_front, GivesLength, GivesExtent};
ghost use Rattle.path.specs.code.Length.{path_bytes, extent_records, path_head, extent_length, head_length, HeadSize, path_length};

use block_places::PathPlaces;
use conversion::{CoordinateConverter, Entry};
use refusal::Refusal;
use steps::{Measured, Written};

// "Points: .. path 2 to 8,191" (document 01).
const MIN_PATH_POINTS: usize = 2;

// PATH 4, LAYER 6, DATATYPE 6, and the head of the XY 4.
const ALWAYS: usize = 20;

// A length on the grid, if it is there, with the element's entry after it.
#[derive(Clone, Copy)]
struct Length {
    value: Option<i32>,
    entry: Entry,
}

// The three lengths on the grid, each if it is there.
#[derive(Clone, Copy)]
struct Extent {
    width: Option<i32>,
    begin: Option<i32>,
    end: Option<i32>,
}

// With the entry after them.
#[derive(Clone, Copy)]
struct Lengths {
    extent: Extent,
    entry: Entry,
}

// ---- before the points

// Converter, block, places and entry by themselves, as every element's crate takes them: converter and block are those of the whole call, the entry is another after each step.

// The length at a place of the block.
fn convert_length(
    converter: CoordinateConverter,
    b: &[u8],
    at: usize,
    field: u8,
    entry: Entry,
) -> Result<Length, Refusal>
    requires coordinate_length_in_bounds { at + coordinate_length ≤ length b.now }
    requires spare { Spare 1 entry }
    ensures { GivesLength (is_some (coordinate_at b.now at)) entry (write_length converter.policy converter.d field (coordinate_at b.now at)) result }
{
    if block_places::is_absent(b, at) {
        return Ok(Length { value: None, entry });
    }
    let c = coordinate::convert_at(converter, b, at);
    let valued = coordinate::record_quantization(c, field, conversion::NO_AXIS, 0, entry)?;
    Ok(Length {
        value: Some(valued.value),
        entry: valued.entry,
    })
}

// Width, begin and end, in this order.
fn convert_lengths(
    converter: CoordinateConverter,
    b: &[u8],
    path: PathPlaces,
    entry: Entry,
) -> Result<Lengths, Refusal>
    requires path_in { PathIn b.now path }
    requires spare { Spare 3 entry }
    ensures { GivesExtent (path_at b.now path) entry (write_extent converter.policy converter.d (path_at b.now path)) result }
{
    let width = convert_length(converter, b, path.width, conversion::WIDTH_FIELD, entry)?;
    let begin = convert_length(
        converter,
        b,
        path.begin,
        conversion::BEGIN_FIELD,
        width.entry,
    )?;
    let end = convert_length(converter, b, path.end, conversion::END_FIELD, begin.entry)?;
    Ok(Lengths {
        extent: Extent {
            width: width.value,
            begin: begin.value,
            end: end.value,
        },
        entry: end.entry,
    })
}

// The checks, then the lengths.
fn convert_front(
    converter: CoordinateConverter,
    b: &[u8],
    path: PathPlaces,
    entry: Entry,
) -> Result<Lengths, Refusal>
    requires path_in { PathIn b.now path }
    requires spare { Spare 3 entry }
    ensures { GivesExtent (path_at b.now path) entry (write_front converter.policy converter.d (path_at b.now path)) result }
{
    validation::check_shape(
        MIN_PATH_POINTS,
        path.points.count,
        validation::MAX_POINTS,
        path.layer,
        path.datatype,
    )?;
    convert_lengths(converter, b, path, entry)
}

// The sheet's byte as a path type, if it is one.
#[tactic(auto, unfolding(block_places::specs::code::Places::path_type_of))]
fn path_type(pathtype: u8) -> Option<u16>
    ensures { option_of result ≡ path_type_of pathtype }
{
    match pathtype {
        block_places::NO_PATH_TYPE => None,
        k => Some(k as u16),
    }
}

// ---- measured

// The bytes of all records before the points, with the head of the XY.
fn head_length(path_type: Option<u16>, extent: Extent) -> usize
    ensures { HeadSize (is_some (option_of path_type)) extent result }
{
    let kind = block_places::size_if(path_type.is_some(), records::WORD_RECORD);
    let width = block_places::size_if(extent.width.is_some(), records::LONG_RECORD);
    let begin = block_places::size_if(extent.begin.is_some(), records::LONG_RECORD);
    let end = block_places::size_if(extent.end.is_some(), records::LONG_RECORD);
    ALWAYS + kind + width + begin + end
}

// The first refusal, or the length of all records and the entry.
pub fn measure_path(
    converter: CoordinateConverter,
    b: &[u8],
    path: PathPlaces,
    entry: Entry,
) -> Result<Measured, Refusal>
    requires path_in { PathIn b.now path }
    requires spare { Spare max_deviations entry }
    ensures { Measures path_bytes entry (write_path converter.policy converter.d (path_at b.now path)) result }
{
    let front = convert_front(converter, b, path, entry)?;
    let points = path.points;
    let walked = points::measure_points(converter, b, points.place, points.count, front.entry);
    let head = head_length(path_type(path.pathtype), front.extent);
    points::with_length(walked, head + records::XY_POINT * points.count)
}

// ---- written

// WIDTH, BGNEXTN and ENDEXTN, each if it is there.
fn put_extent(out: &mut [u8], at: usize, extent: Extent) -> usize
    requires { at + extent_length extent ≤ length out.old }
    ensures { Placed (stream_bytes (extent_records (opt_extent extent) [])) (extent_length extent) out.old out.new at result }
{
    let a1 = records::put_opt_long_at(out, at, records::WIDTH, extent.width);
    let a2 = records::put_opt_long_at(out, a1, records::BGNEXTN, extent.begin);
    records::put_opt_long_at(out, a2, records::ENDEXTN, extent.end)
}

// All records before the points, with the head of the XY.
fn put_head(out: &mut [u8], path: PathPlaces, extent: Extent) -> usize
    requires count_le_max_points { path.points.count ≤ max_points }
    requires extent_in_bounds { head_length (is_some (path_type_of path.pathtype)) extent ≤ length out.old }
    ensures { Placed (path_head path.layer path.datatype (path_type_of path.pathtype) (opt_extent extent) path.points.count) (head_length (is_some (path_type_of path.pathtype)) extent) out.old out.new 0 result }
{
    let len = (records::RECORD_HEAD + records::XY_POINT * path.points.count) as u16;
    let a1 = records::put_empty_at(out, 0, records::PATH);
    let a2 = records::put_word_at(out, a1, records::LAYER, records::TWO_BYTE, path.layer);
    let a3 = records::put_word_at(out, a2, records::DATATYPE, records::TWO_BYTE, path.datatype);
    let a4 = records::put_opt_word_at(out, a3, records::PATHTYPE, path_type(path.pathtype));
    let a5 = put_extent(out, a4, extent);
    records::put_head_at(out, a5, len, records::XY, records::FOUR_BYTE)
}

// All records from the start of the output on: every length is converted before the first byte is written.
pub fn put_path(
    converter: CoordinateConverter,
    b: &[u8],
    path: PathPlaces,
    out: &mut [u8],
    entry: Entry,
) -> Written
    requires path_in { PathIn b.now path }
    requires succeeds { Succeeds (write_path converter.policy converter.d (path_at b.now path)) }
    requires path_in_bounds { path_length (path_at b.now path) ≤ length out.old }
    requires spare { Spare max_deviations entry }
    ensures { Writes path_bytes entry (write_path converter.policy converter.d (path_at b.now path)) 0 out.old out.new result }
{
    let lengths = convert_lengths(converter, b, path, entry).unwrap();
    let to = put_head(out, path, lengths.extent);
    let front = Written {
        to,
        entry: lengths.entry,
    };
    points::put_points(
        converter,
        b,
        path.points.place,
        path.points.count,
        out,
        front,
    )
}
