// A reference (`write_reference_cell` of write/mod.rs), from its places in the block: its checks and conversions, and then its records.
#![tactic(auto)]

ghost use Rattle.std.specs.Prelude.{◌≡◌, [], ◌∷◌, ◌+◌, ◌≤◌, length, Err};
ghost use Rattle.big_endian.specs.Big.{number_at};
ghost use Rattle.conversion.specs.code.Answer.{grid_point_of};
ghost use Rattle.conversion.specs.code.Fold.{Spare, run};
ghost use Rattle.stream.specs.Records.{xy_record};
ghost use Rattle.cell.specs.Write.{in_unit, write_reference};
ghost use Rattle.block_places.specs.code.Place.{string_end, point_length};
ghost use Rattle.block_places.specs.code.Places.{reference_at, ReferenceIn};
ghost use Rattle.records.specs.code.Bytes.{Placed, Recorded};
ghost use Rattle.transform.specs.code.Strans.{said_of, strans_length};
ghost use Rattle.array.specs.code.Corners.{array_deviations, corners_for, steps_of, cornered};
ghost use Rattle.steps.specs.code.Steps.{max_deviations, Measures, Succeeds, Writes};
ghost use Rattle.reference.specs.code.Reference.{reference_bytes, size_of, single_rest, corners_length, array_rest, max_front_length, is_single, reference_length, lacking, Bounded, Checks, Encodes, after_transform, after_checks, turned_array, sref_of, aref_of, GivesReference};

use array::{Array, Corners};
use block_places::ReferencePlaces;
use conversion::{CoordinateConverter, DatabasePoint, Entry};
use refusal::Refusal;
use steps::{Measured, Written};
use transform::Strans;

// The most columns or rows.
const MAX_COL_ROW: usize = 32767;

// The bytes of an SREF or AREF with the head of SNAME, of an XY of one point, and of COLROW with an XY of three.
const FRONT_LENGTH: usize = 8;

const SINGLE_LENGTH: usize = 12;

const ARRAY_LENGTH: usize = 36;

// The bytes of an XY of three points.
const CORNERS_LENGTH: u16 = 28;

// The values of the records that the sheet does not hold as they are, with the entry after them.
#[derive(Clone, Copy)]
pub enum ReferenceValues {
    Single {
        strans: Strans,
        point: DatabasePoint,
        entry: Entry,
    },
    Array {
        strans: Strans,
        corners: Corners,
        entry: Entry,
    },
}

// ---- checks and conversions

// Converter, block, places and entry come apart, as in each element: the type of the places is the element's own, and after each step the entry is another.

// More than one column or row, without its spacing.
#[tactic(auto, unfolding(block_places::specs::code::Place::spacing_at))]
fn lacks_spacing(b: &[u8], n: u32, at: usize) -> bool
    requires { at + point_length ≤ length b.now }
    ensures { result ≡ lacking b.now n at }
{
    n > 1 && block_places::is_absent(b, at)
}

// The name, the columns and rows, and the spacings of more than one of them.
fn check_reference(b: &[u8], s: ReferencePlaces) -> Result<(), Refusal>
    requires { ReferenceIn b.now s }
    ensures { Checks b.now s (reference_at b.now s) result }
{
    if !validation::validate_structure_name(block_places::string_at(b, s.name)) {
        return Err(Refusal::Name);
    }
    let columns = validation::within(1, s.columns as usize, MAX_COL_ROW);
    let rows = validation::within(1, s.rows as usize, MAX_COL_ROW);
    if !(columns && rows) {
        return Err(Refusal::ColumnsOrRows);
    }
    if lacks_spacing(b, s.columns, s.column) || lacks_spacing(b, s.rows, s.row) {
        return Err(Refusal::Spacing);
    }
    Ok(())
}

// Within −1 to 1, which a NaN is not.
fn in_unit(x: f64) -> bool
    ensures { result ≡ in_unit x }
{
    -1.0 <= x && x <= 1.0
}

// An array: its sine and cosine before its conversions.
fn turned_array(
    converter: CoordinateConverter,
    b: &[u8],
    s: ReferencePlaces,
    entry: Entry,
) -> Result<Array, Refusal>
    requires reference_in { ReferenceIn b.now s }
    requires spare { Spare array_deviations entry }
    ensures { result ≡ run Err entry (turned_array converter.policy converter.d (reference_at b.now s)) (cornered s.columns s.rows) }
{
    if !(in_unit(s.sine) && in_unit(s.cosine)) {
        return Err(Refusal::SineOrCosine);
    }
    array::convert_array(converter, b, s, entry)
}

// Whether it is 1 × 1.
fn is_single(s: ReferencePlaces) -> bool
    ensures { result ≡ is_single s }
{
    s.columns == 1 && s.rows == 1
}

// After the transform: the origin of a 1 × 1 reference, whose spacings, sine and cosine are not looked at; else the array.
fn place_reference(
    converter: CoordinateConverter,
    b: &[u8],
    s: ReferencePlaces,
    strans: Strans,
    entry: Entry,
) -> Result<ReferenceValues, Refusal>
    requires reference_in { ReferenceIn b.now s }
    requires bounded { Bounded b.now s }
    requires encodes { Encodes s strans }
    requires spare { Spare array_deviations entry }
    ensures { GivesReference b.now s entry (after_transform converter.policy converter.d (reference_at b.now s) (said_of strans)) result }
{
    if is_single(s) {
        let field = conversion::ORIGIN_FIELD;
        let origin = coordinate::convert_point(converter, b, s.origin, field, 0, entry)?;
        return Ok(ReferenceValues::Single {
            strans,
            point: origin.point,
            entry: origin.entry,
        });
    }
    let array = turned_array(converter, b, s, entry)?;
    Ok(ReferenceValues::Array {
        strans,
        corners: array.corners,
        entry: array.entry,
    })
}

// After the checks: the transform, and then the conversions.
fn convert_reference(
    converter: CoordinateConverter,
    b: &[u8],
    s: ReferencePlaces,
    entry: Entry,
) -> Result<ReferenceValues, Refusal>
    requires reference_in { ReferenceIn b.now s }
    requires bounded { Bounded b.now s }
    requires spare { Spare array_deviations entry }
    ensures { GivesReference b.now s entry (after_checks converter.policy converter.d (reference_at b.now s)) result }
{
    let strans = transform::encode_transformation(s.degrees, s.magnification, s.reflection)?;
    place_reference(converter, b, s, strans, entry)
}

// The checks and conversions in the order of `write_reference_cell`.
fn reference_values(
    converter: CoordinateConverter,
    b: &[u8],
    s: ReferencePlaces,
    entry: Entry,
) -> Result<ReferenceValues, Refusal>
    requires reference_in { ReferenceIn b.now s }
    requires spare { Spare array_deviations entry }
    ensures { GivesReference b.now s entry (write_reference converter.policy converter.d (reference_at b.now s)) result }
{
    check_reference(b, s)?;
    convert_reference(converter, b, s, entry)
}

// ---- measured

// The bytes of SREF or AREF, SNAME and the transform.
fn front_length(b: &[u8], s: ReferencePlaces, strans: Strans) -> usize
    requires { s.name + 2 ≤ length b.now }
    ensures value { result ≡ size_of (strans_length strans) (number_at 2 b.now s.name) 0 }
    ensures upper_bound { result ≤ max_front_length }
{
    let n = big_endian::u16_at(b, s.name) as usize;
    FRONT_LENGTH + n + n % 2 + strans.length()
}

// The first refusal, or the length of the records.
pub fn measure_reference(
    converter: CoordinateConverter,
    b: &[u8],
    reference: ReferencePlaces,
    entry: Entry,
) -> Result<Measured, Refusal>
    requires reference_in { ReferenceIn b.now reference }
    requires spare { Spare max_deviations entry }
    ensures { Measures reference_bytes entry (write_reference converter.policy converter.d (reference_at b.now reference)) result }
{
    let values = reference_values(converter, b, reference, entry)?;
    match values {
        ReferenceValues::Single {
            strans,
            point: _,
            entry: e,
        } => Ok(Measured {
            length: front_length(b, reference, strans) + SINGLE_LENGTH,
            entry: e,
        }),
        ReferenceValues::Array {
            strans,
            corners: _,
            entry: e,
        } => Ok(Measured {
            length: front_length(b, reference, strans) + ARRAY_LENGTH,
            entry: e,
        }),
    }
}

// ---- written

// XY of an array's three points, at a place.
fn put_corners_at(out: &mut [u8], at: usize, c: Corners) -> usize
    requires { at + corners_length ≤ length out.old }
    ensures { Recorded (xy_record (grid_point_of c.origin ∷ grid_point_of c.column_end ∷ grid_point_of c.row_end ∷ [])) corners_length out.old out.new at result }
{
    let a = records::put_head_at(out, at, CORNERS_LENGTH, records::XY, records::FOUR_BYTE);
    let a0 = coordinate::put_point(out, a, c.origin);
    let a1 = coordinate::put_point(out, a0, c.column_end);
    coordinate::put_point(out, a1, c.row_end)
}

// SREF, SNAME, the transform and XY.
fn put_sref(
    out: &mut [u8],
    b: &[u8],
    s: ReferencePlaces,
    strans: Strans,
    point: DatabasePoint,
) -> usize
    requires name_in_bounds { string_end b.now s.name ≤ length b.now }
    requires bounded { Bounded b.now s }
    requires single_rest_in_bounds { size_of (strans_length strans) (number_at 2 b.now s.name) single_rest ≤ length out.old }
    ensures { Placed (reference_bytes (sref_of b.now s strans point)) (size_of (strans_length strans) (number_at 2 b.now s.name) single_rest) out.old out.new 0 result }
{
    let a = records::put_empty_at(out, 0, records::SREF);
    let a2 = records::put_string_at(out, a, records::SNAME, block_places::string_at(b, s.name));
    let a3 = strans.put_at(out, a2);
    coordinate::put_xy_at(out, a3, point)
}

// AREF, SNAME, the transform, COLROW and XY. (Three lines are as `put_sref` has them: the definitions have the bytes of a whole element, and none of this front for a clause to name.)
fn put_aref(out: &mut [u8], b: &[u8], s: ReferencePlaces, strans: Strans, c: Corners) -> usize
    requires name_in_bounds { string_end b.now s.name ≤ length b.now }
    requires bounded { Bounded b.now s }
    requires c_value { c ≡ corners_for s.columns s.rows (steps_of c) }
    requires array_rest_in_bounds { size_of (strans_length strans) (number_at 2 b.now s.name) array_rest ≤ length out.old }
    ensures { Placed (reference_bytes (aref_of b.now s strans c)) (size_of (strans_length strans) (number_at 2 b.now s.name) array_rest) out.old out.new 0 result }
{
    let a = records::put_empty_at(out, 0, records::AREF);
    let a2 = records::put_string_at(out, a, records::SNAME, block_places::string_at(b, s.name));
    let a3 = strans.put_at(out, a2);
    let a4 = records::put_colrow_at(out, a3, s.columns as u16, s.rows as u16);
    put_corners_at(out, a4, c)
}

// The records at the start of the part that is lent; every value is known before the first byte is written.
pub fn put_reference(
    converter: CoordinateConverter,
    b: &[u8],
    reference: ReferencePlaces,
    out: &mut [u8],
    entry: Entry,
) -> Written
    requires reference_in { ReferenceIn b.now reference }
    requires succeeds { Succeeds (write_reference converter.policy converter.d (reference_at b.now reference)) }
    requires spare { Spare max_deviations entry }
    requires reference_in_bounds { reference_length b.now reference ≤ length out.old }
    ensures { Writes reference_bytes entry (write_reference converter.policy converter.d (reference_at b.now reference)) 0 out.old out.new result }
{
    let values = convert_reference(converter, b, reference, entry).unwrap();
    match values {
        ReferenceValues::Single {
            strans,
            point,
            entry: e,
        } => Written {
            to: put_sref(out, b, reference, strans, point),
            entry: e,
        },
        ReferenceValues::Array {
            strans,
            corners,
            entry: e,
        } => Written {
            to: put_aref(out, b, reference, strans, corners),
            entry: e,
        },
    }
}
