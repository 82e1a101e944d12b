// The conversions of an array (`write_reference_cell` of write/mod.rs): always through doubles, with no bypass, and the element's entry with them.
#![tactic(auto)]

ghost use Rattle.std.specs.Prelude.{◌≡◌, ◌+◌, ◌≤◌, length, Err};
ghost use Rattle.conversion.specs.code.Answer.{point_of};
ghost use Rattle.conversion.specs.Array.{physical_point, physical_spacing, write_physical, write_endpoint, convert_array};
ghost use Rattle.conversion.specs.code.Fold.{Spare, run};
ghost use Rattle.block_places.specs.code.Place.{point_at, spacing_at, point_length};
ghost use Rattle.block_places.specs.code.Places.{ReferenceIn};
ghost use Rattle.array.specs.code.Corners.{array_deviations, physicals_of, physical_part, database_part, GivesArrayPoint, end_of, Ends, cornered, after_steps, after_spacings, after_origin};

use block_places::{COORDINATE, ReferencePlaces};
use conversion::{CoordinateConverter, DatabasePoint, Entry, PhysicalPoint};
use coordinate::Pointed;
use refusal::Refusal;

// The origin or a step of an array: its physical values, and those on the grid.
#[derive(Clone, Copy)]
pub struct ArrayPoint {
    pub physical: PhysicalPoint,
    pub database: DatabasePoint,
}

// One of them converted, with the element's entry after it. (Its own type, as `coordinate::Pointed`: the field says what is converted.)
#[derive(Clone, Copy)]
pub struct Converted {
    pub point: ArrayPoint,
    pub entry: Entry,
}

// An array on the grid: its origin, its two steps, and the endpoints of its columns and its rows.
#[derive(Clone, Copy)]
pub struct Corners {
    pub origin: DatabasePoint,
    pub column_step: DatabasePoint,
    pub row_step: DatabasePoint,
    pub column_end: DatabasePoint,
    pub row_end: DatabasePoint,
}

// The whole array converted, with the element's entry after it. (Its own type, as `Converted`.)
#[derive(Clone, Copy)]
pub struct Array {
    pub corners: Corners,
    pub entry: Entry,
}

// ---- physical values

// Those of the point at a place of the block, x before y.
fn physical_point(b: &[u8], at: usize) -> Result<PhysicalPoint, Refusal>
    requires { at + point_length ≤ length b.now }
    ensures { physicals_of result ≡ physical_point (point_at b.now at) }
{
    let x = conversion::physical_value(block_places::unit_at(b, at))?;
    let y = conversion::physical_value(block_places::unit_at(b, at + COORDINATE))?;
    Ok(PhysicalPoint { x, y })
}

// Those of a spacing: zero where it is absent.
#[tactic(auto, unfolding(conversion::specs::Array::physical_spacing, block_places::specs::code::Place::spacing_at))]
fn physical_spacing(b: &[u8], at: usize) -> Result<PhysicalPoint, Refusal>
    requires { at + point_length ≤ length b.now }
    ensures { physicals_of result ≡ physical_spacing (spacing_at b.now at) }
{
    if block_places::is_absent(b, at) {
        return Ok(PhysicalPoint { x: 0.0, y: 0.0 });
    }
    physical_point(b, at)
}

// ---- to the grid

// Two physical values, x before y.
fn convert_physical_point(
    converter: CoordinateConverter,
    p: PhysicalPoint,
    field: u8,
    entry: Entry,
) -> Result<Converted, Refusal>
    requires { Spare 2 entry }
    ensures { GivesArrayPoint entry (point_of p) (write_physical converter.policy converter.d field (point_of p)) result }
{
    // Where x is refused y is not worked out: nothing of it can overflow.
    let x = converter.convert_physical(p.x)?;
    let y = converter.convert_physical(p.y)?;
    let database = coordinate::record_point(Ok(x), Ok(y), field, 0, entry)?;
    Ok(Converted {
        point: ArrayPoint {
            physical: p,
            database: database.point,
        },
        entry: database.entry,
    })
}

// n steps from the origin, x before y.
fn convert_endpoint(
    converter: CoordinateConverter,
    origin: ArrayPoint,
    step: ArrayPoint,
    n: u32,
    field: u8,
    entry: Entry,
) -> Result<Pointed, Refusal>
    requires { Spare 2 entry }
    ensures { Ends entry (end_of (database_part origin) (database_part step) n) (write_endpoint converter.policy converter.d field (database_part origin) (database_part step) n (physical_part origin) (physical_part step)) result }
{
    let o = origin.database;
    let s = step.database;
    let end_x = conversion::endpoint_physical(step.physical.x, n, origin.physical.x);
    let x = converter.checked_array_endpoint(o.x, s.x, n, end_x)?;
    let end_y = conversion::endpoint_physical(step.physical.y, n, origin.physical.y);
    let y = converter.checked_array_endpoint(o.y, s.y, n, end_y)?;
    coordinate::record_point(Ok(x), Ok(y), field, 0, entry)
}

// ---- the array, part by part

// The endpoints, columns before rows.
fn convert_endpoints(
    converter: CoordinateConverter,
    s: ReferencePlaces,
    origin: ArrayPoint,
    column: ArrayPoint,
    row: ArrayPoint,
    entry: Entry,
) -> Result<Array, Refusal>
    requires { Spare 4 entry }
    ensures { result ≡ run Err entry (after_steps converter.policy converter.d s.columns s.rows (physical_part origin) (database_part origin) (physical_part column) (physical_part row) (database_part column) (database_part row)) (cornered s.columns s.rows) }
{
    let column_field = conversion::COLUMN_ENDPOINT_FIELD;
    let columns = convert_endpoint(converter, origin, column, s.columns, column_field, entry)?;
    let row_field = conversion::ROW_ENDPOINT_FIELD;
    let rows = convert_endpoint(converter, origin, row, s.rows, row_field, columns.entry)?;
    let corners = Corners {
        origin: origin.database,
        column_step: column.database,
        row_step: row.database,
        column_end: columns.point,
        row_end: rows.point,
    };
    Ok(Array {
        corners,
        entry: rows.entry,
    })
}

// The steps, which are the turned spacings on the grid, and the endpoints.
fn convert_steps(
    converter: CoordinateConverter,
    s: ReferencePlaces,
    origin: ArrayPoint,
    column: PhysicalPoint,
    row: PhysicalPoint,
    entry: Entry,
) -> Result<Array, Refusal>
    requires { Spare 8 entry }
    ensures { result ≡ run Err entry (after_spacings converter.policy converter.d s.columns s.rows (physical_part origin) (database_part origin) (point_of column) (point_of row)) (cornered s.columns s.rows) }
{
    let column_field = conversion::COLUMN_SPACING_FIELD;
    let column_step = convert_physical_point(converter, column, column_field, entry)?;
    let row_field = conversion::ROW_SPACING_FIELD;
    let row_step = convert_physical_point(converter, row, row_field, column_step.entry)?;
    convert_endpoints(
        converter,
        s,
        origin,
        column_step.point,
        row_step.point,
        row_step.entry,
    )
}

// The spacings turned, and the steps: all four physical values before the first is converted.
fn convert_spacings(
    converter: CoordinateConverter,
    b: &[u8],
    s: ReferencePlaces,
    origin: ArrayPoint,
    entry: Entry,
) -> Result<Array, Refusal>
    requires reference_in { ReferenceIn b.now s }
    requires spare { Spare 8 entry }
    ensures { result ≡ run Err entry (after_origin converter.policy converter.d s.columns s.rows s.sine s.cosine (spacing_at b.now s.column) (spacing_at b.now s.row) (physical_part origin) (database_part origin)) (cornered s.columns s.rows) }
{
    let column = physical_spacing(b, s.column)?;
    let row = physical_spacing(b, s.row)?;
    let turned_column = conversion::turned(s.sine, s.cosine, column);
    let turned_row = conversion::turned(s.sine, s.cosine, row);
    convert_steps(converter, s, origin, turned_column, turned_row, entry)
}

// The array of a reference: the origin, the spacings, the endpoints.
pub fn convert_array(
    converter: CoordinateConverter,
    b: &[u8],
    s: ReferencePlaces,
    entry: Entry,
) -> Result<Array, Refusal>
    requires reference_in { ReferenceIn b.now s }
    requires spare { Spare array_deviations entry }
    ensures { result ≡ run Err entry (convert_array converter.policy converter.d s.sine s.cosine s.columns s.rows (point_at b.now s.origin) (spacing_at b.now s.column) (spacing_at b.now s.row)) (cornered s.columns s.rows) }
{
    let point = physical_point(b, s.origin)?;
    let origin = convert_physical_point(converter, point, conversion::ORIGIN_FIELD, entry)?;
    convert_spacings(converter, b, s, origin.point, origin.entry)
}
