// Where the parts of a block stand, and what stands at a place. Nothing is copied: what comes after reads the parts by place. A part is a place and not a slice, since definitions and clauses tell what stands at a place of the block, to callers too. Whether the block is well formed is asked by the crate `forms`.
#![tactic(auto)]

ghost use Rattle.std.specs.Prelude.{◌≡◌, cond, ◌+◌, ◌≤◌, eqb, length, drop};
ghost use Rattle.std.specs.Int.{w64};
ghost use Rattle.std.proofs.Common.{Fits};
ghost use Rattle.big_endian.specs.Big.{number_at};
ghost use Rattle.sheet.specs.Form.{absent_kind};
ghost use Rattle.sheet.specs.Element.{raised, plain_kind};
ghost use Rattle.block_places.specs.code.Place.{word_end, double_at, unit_at, string_at, string_end, max_word, shape_points_place, path_points_place, string_bytes_place, box_end_place, after_name_length, coordinate_length};
ghost use Rattle.block_places.specs.code.Places.{points_end, shape_places, path_places, text_places, reference_places, box_places, body_places, body_end, body_end_in, size_if, flags_size, plex_size, max_shift, shift_of, options_at, shifted, element_places};

// The kinds, here and below, are bytes and not enums: they are compared with a byte of the block, and `plain_kind` promises that byte.
// The kind byte of a coordinate.
pub const INTEGER: u8 = 0;

pub const ABSENT: u8 = 2;

// After a coordinate's kind: its 8 value bytes and its unit.
pub const VALUE: usize = 1;

pub const UNIT: usize = 9;

// "four zeros, then a signed 32-bit value": an integer's value bytes are below this.
pub const INTEGERS: u64 = 0x1_0000_0000;

// The bytes of a coordinate, and of a point, which is two.
pub const COORDINATE: usize = 17;

pub const POINT: usize = 34;

// The bytes of a string's length, of a property's attribute and of a count.
pub const NUMBER: usize = 2;

// The kind byte of an element that has no options.
pub const POLYGON: u8 = 1;

pub const PATH: u8 = 2;

pub const TEXT: u8 = 3;

pub const NODE: u8 = 4;

pub const REFERENCE: u8 = 5;

pub const BOX: u8 = 6;

// "A kind byte raised by 16 is followed by 2 bytes of flags; raised by 32, by 4 bytes of signed plex number": the kind itself is below FLAGS, and with both below KINDS.
pub const FLAGS: u8 = 16;

pub const PLEX: u8 = 32;

pub const KINDS: u8 = 64;

// The bytes of the two, after the kind byte.
pub const FLAGS_SIZE: usize = 2;

pub const PLEX_SIZE: usize = 4;

// "path type byte (0, 1, 2; 255 absent)", "reflection (0 or 1)".
pub const NO_PATH_TYPE: u8 = 255;

pub const REFLECTED: u8 = 1;

// Where the parts stand in the block of an element that has no options: each where the one before it ends, the first after the kind byte.
// Polygon, node, path, text and box.
pub const LAYER: usize = 1;

pub const TYPE: usize = 3;

// Polygon and node.
pub const SHAPE_COUNT: usize = 5;

pub const SHAPE_POINTS: usize = 7;

// Path.
pub const PATH_TYPE: usize = 5;

pub const WIDTH: usize = 6;

pub const BEGIN: usize = 23;

pub const END: usize = 40;

pub const PATH_COUNT: usize = 57;

pub const PATH_POINTS: usize = 59;

// Text.
pub const VERTICAL: usize = 5;

pub const HORIZONTAL: usize = 6;

pub const TEXT_REFLECTION: usize = 7;

pub const TEXT_MAGNIFICATION: usize = 8;

pub const TEXT_DEGREES: usize = 16;

pub const TEXT_ORIGIN: usize = 24;

pub const STRING: usize = 58;

pub const STRING_BYTES: usize = 60;

// Reference: its name, and from where that ends, at the columns, the rest, AFTER_NAME bytes in all.
pub const NAME: usize = 1;

pub const NAME_BYTES: usize = 3;

pub const ROWS: usize = 4;

pub const REFLECTION: usize = 8;

pub const MAGNIFICATION: usize = 9;

pub const DEGREES: usize = 17;

pub const SINE: usize = 25;

pub const COSINE: usize = 33;

pub const ORIGIN: usize = 41;

pub const COLUMN_SPACING: usize = 75;

pub const ROW_SPACING: usize = 109;

pub const AFTER_NAME: usize = 143;

// Box: its two corners, and where it ends.
pub const FIRST_CORNER: usize = 5;

pub const SECOND_CORNER: usize = 39;

pub const BOX_END: usize = 73;

// The head's name, and the bytes of its twelve stamp numbers.
pub const HEAD_NAME: usize = 0;

pub const STAMPS: usize = 24;

// The head: the places of its name and of its twelve stamp numbers.
#[derive(Clone, Copy, PartialEq, Eq)]
pub struct HeadPlaces {
    pub name: usize,
    pub stamps: usize,
}

// How many points there are in a row, and the place of the first.
#[derive(Clone, Copy, PartialEq, Eq)]
pub struct PointsPlaces {
    pub count: usize,
    pub place: usize,
}

// A polygon or a node: its numbers and its points.
#[derive(Clone, Copy, PartialEq, Eq)]
pub struct ShapePlaces {
    pub layer: u16,
    pub datatype: u16,
    pub points: PointsPlaces,
}

// A path: its numbers, the places of its three lengths, and its points.
#[derive(Clone, Copy, PartialEq, Eq)]
pub struct PathPlaces {
    pub layer: u16,
    pub datatype: u16,
    pub pathtype: u8,
    pub width: usize,
    pub begin: usize,
    pub end: usize,
    pub points: PointsPlaces,
}

// A text: its numbers, and the places of its origin and its string.
#[derive(Clone, Copy)]
pub struct TextPlaces {
    pub layer: u16,
    pub texttype: u16,
    pub vertical: u8,
    pub horizontal: u8,
    pub reflection: bool,
    pub magnification: f64,
    pub degrees: f64,
    pub origin: usize,
    pub string: usize,
}

// A reference: its numbers, and the places of its name, its origin and its column and row spacing.
#[derive(Clone, Copy)]
pub struct ReferencePlaces {
    pub name: usize,
    pub columns: u32,
    pub rows: u32,
    pub reflection: bool,
    pub magnification: f64,
    pub degrees: f64,
    pub sine: f64,
    pub cosine: f64,
    pub origin: usize,
    pub column: usize,
    pub row: usize,
}

// A box: its numbers, and the places of its two corners.
#[derive(Clone, Copy, PartialEq, Eq)]
pub struct BoxPlaces {
    pub layer: u16,
    pub boxtype: u16,
    pub first: usize,
    pub second: usize,
}

// The body of an element by its kind.
#[derive(Clone, Copy)]
pub enum BodyPlaces {
    Polygon { shape: ShapePlaces },
    Path { path: PathPlaces },
    Text { text: TextPlaces },
    Node { shape: ShapePlaces },
    Reference { reference: ReferencePlaces },
    Box { gds_box: BoxPlaces },
}

// How many properties an element has, and the place of the first. A type of its own: properties are as long as their strings say, and points in a row 34 bytes each.
#[derive(Clone, Copy, PartialEq, Eq)]
pub struct PropertyPlaces {
    pub count: usize,
    pub place: usize,
}

// The flags and the plex number of an element, this as its four bytes stand; and how many bytes they take in its block.
#[derive(Clone, Copy, PartialEq, Eq)]
pub struct Options {
    pub flags: Option<u16>,
    pub plex: Option<u32>,
    pub shift: usize,
}

// An element: its options, and its body and its properties in the block that is left without them.
#[derive(Clone, Copy)]
pub struct ElementPlaces {
    pub options: Options,
    pub body: BodyPlaces,
    pub properties: PropertyPlaces,
}

// ---- values by place. Block and place stay two parameters: a block is read at many places, and a clause tells what stands at one of them.

pub fn double(b: &[u8], at: usize) -> f64
    requires { at + 8 ≤ length b.now }
    ensures { result ≡ double_at b.now at }
{
    binary64::from_bits(big_endian::u64_at(b, at))
}

// The coordinate at a place, where it is not absent. Its value bytes are read at once, whatever its kind; an integer is the lower four of them.
#[tactic(auto, unfolding(crate::specs::code::Place::unit_at))]
pub fn unit_at(b: &[u8], at: usize) -> units::Unit
    requires { at + coordinate_length ≤ length b.now }
    ensures { result ≡ unit_at b.now at }
{
    let raw = big_endian::u64_at(b, at + VALUE);
    let units = double(b, at + UNIT);
    if big_endian::u8_at(b, at) == INTEGER {
        let value = big_endian::as_i32((raw % INTEGERS) as u32);
        return units::Unit::Integer { value, units };
    }
    let value = binary64::from_bits(raw);
    units::Unit::Float { value, units }
}

// Whether the coordinate at a place is absent, or the spacing.
pub fn is_absent(b: &[u8], at: usize) -> bool
    requires { at + 1 ≤ length b.now }
    ensures { result ≡ eqb (number_at 1 b.now at) absent_kind }
{
    big_endian::u8_at(b, at) == ABSENT
}

// How many bytes the string at a place has, which is what 2 bytes hold.
pub fn string_length(b: &[u8], at: usize) -> usize
    requires { at + 2 ≤ length b.now }
    ensures { (result ≡ number_at 2 b.now at) × (result ≤ max_word) }
{
    big_endian::u16_at(b, at) as usize
}

// Where the string at a place ends, by its length.
pub fn string_end(b: &[u8], at: usize) -> usize
    requires { at + 2 ≤ length b.now }
    ensures { (result ≡ string_end b.now at) × (result ≤ at + (2 + max_word)) }
{
    at + NUMBER + string_length(b, at)
}

// The bytes of the string at a place.
#[tactic(auto, unfolding(crate::specs::code::Place::string_at))]
pub fn string_at(b: &[u8], at: usize) -> &[u8]
    requires { string_end b.now at ≤ length b.now }
    ensures { result.now ≡ string_at b.now at }
{
    let start = at + NUMBER;
    let end = string_end(b, at);
    &b[start..end]
}

// ---- the parts of each kind

// A polygon, or a node. A count is what 2 bytes hold.
#[tactic(auto, unfolding(crate::specs::code::Places::shape_places))]
pub fn shape_places(b: &[u8]) -> ShapePlaces
    requires { shape_points_place ≤ length b.now }
    ensures { (result ≡ shape_places b.now) × (result.points.count ≤ max_word) }
{
    let points = PointsPlaces {
        count: big_endian::u16_at(b, SHAPE_COUNT) as usize,
        place: SHAPE_POINTS,
    };
    ShapePlaces {
        layer: big_endian::u16_at(b, LAYER),
        datatype: big_endian::u16_at(b, TYPE),
        points,
    }
}

#[tactic(auto, unfolding(crate::specs::code::Places::path_places))]
pub fn path_places(b: &[u8]) -> PathPlaces
    requires { path_points_place ≤ length b.now }
    ensures { (result ≡ path_places b.now) × (result.points.count ≤ max_word) }
{
    let points = PointsPlaces {
        count: big_endian::u16_at(b, PATH_COUNT) as usize,
        place: PATH_POINTS,
    };
    PathPlaces {
        layer: big_endian::u16_at(b, LAYER),
        datatype: big_endian::u16_at(b, TYPE),
        pathtype: big_endian::u8_at(b, PATH_TYPE),
        width: WIDTH,
        begin: BEGIN,
        end: END,
        points,
    }
}

#[tactic(auto, unfolding(crate::specs::code::Places::text_places))]
pub fn text_places(b: &[u8]) -> TextPlaces
    requires { string_bytes_place ≤ length b.now }
    ensures { result ≡ text_places b.now }
{
    TextPlaces {
        layer: big_endian::u16_at(b, LAYER),
        texttype: big_endian::u16_at(b, TYPE),
        vertical: big_endian::u8_at(b, VERTICAL),
        horizontal: big_endian::u8_at(b, HORIZONTAL),
        reflection: big_endian::u8_at(b, TEXT_REFLECTION) == REFLECTED,
        magnification: double(b, TEXT_MAGNIFICATION),
        degrees: double(b, TEXT_DEGREES),
        origin: TEXT_ORIGIN,
        string: STRING,
    }
}

// A reference whose name ends at `base`.
#[tactic(auto, unfolding(crate::specs::code::Places::reference_places))]
pub fn reference_places(b: &[u8], base: usize) -> ReferencePlaces
    requires { base + after_name_length ≤ length b.now }
    ensures { result ≡ reference_places b.now base }
{
    let origin = base + ORIGIN;
    let column = base + COLUMN_SPACING;
    let row = base + ROW_SPACING;
    ReferencePlaces {
        name: NAME,
        columns: big_endian::u32_at(b, base),
        rows: big_endian::u32_at(b, base + ROWS),
        reflection: big_endian::u8_at(b, base + REFLECTION) == REFLECTED,
        magnification: double(b, base + MAGNIFICATION),
        degrees: double(b, base + DEGREES),
        sine: double(b, base + SINE),
        cosine: double(b, base + COSINE),
        origin,
        column,
        row,
    }
}

#[tactic(auto, unfolding(crate::specs::code::Places::box_places))]
pub fn box_places(b: &[u8]) -> BoxPlaces
    requires { box_end_place ≤ length b.now }
    ensures { result ≡ box_places b.now }
{
    BoxPlaces {
        layer: big_endian::u16_at(b, LAYER),
        boxtype: big_endian::u16_at(b, TYPE),
        first: FIRST_CORNER,
        second: SECOND_CORNER,
    }
}

// ---- the options

// The size of a part that may be absent.
pub fn size_if(there: bool, size: usize) -> usize
    ensures { (result ≡ size_if there size) × (result ≤ size) }
{
    if there { size } else { 0 }
}

// Whether a kind byte is raised.
fn is_raised(kind: u8, by: u8) -> bool
    requires { 1 ≤ by }
    ensures { result ≡ raised by kind }
{
    kind / by % 2 == 1
}

// The bytes of the options after a kind byte.
#[tactic(auto, unfolding(crate::specs::code::Places::shift_of))]
pub fn shift_of(kind: u8) -> usize
    ensures { (result ≡ shift_of kind) × (result ≤ max_shift) }
{
    let flags = size_if(is_raised(kind, FLAGS), FLAGS_SIZE);
    flags + size_if(is_raised(kind, PLEX), PLEX_SIZE)
}

pub fn options_at(b: &[u8]) -> Options
    requires { 1 + shift_of (number_at 1 b.now 0) ≤ length b.now }
    ensures { result ≡ options_at b.now }
{
    let kind = big_endian::u8_at(b, 0);
    let flagged = is_raised(kind, FLAGS);
    let place = 1 + size_if(flagged, FLAGS_SIZE);
    let flags = flagged.then(|| big_endian::u16_at(b, 1));
    let plex = is_raised(kind, PLEX).then(|| big_endian::u32_at(b, place));
    Options {
        flags,
        plex,
        shift: shift_of(kind),
    }
}

// The kind of an element without its additions, which is the kind in its report entry, too.
pub fn plain_kind(b: &[u8]) -> u8
    requires { 1 ≤ length b.now }
    ensures { result ≡ plain_kind (number_at 1 b.now 0) }
{
    big_endian::u8_at(b, 0) % FLAGS
}

// A block from a place on.
pub fn block_from(b: &[u8], at: usize) -> &[u8]
    requires { at ≤ length b.now }
    ensures { result.now ≡ drop at b.now }
{
    &b[at..]
}

// ---- the parts of an element

// The body by its kind, which in a well-formed block is one of the six.
#[tactic(auto, unfolding(crate::specs::code::Places::body_places, crate::specs::code::Places::shape_places, crate::specs::code::Places::path_places, crate::specs::code::Places::text_places, crate::specs::code::Places::reference_places, crate::specs::code::Places::box_places))]
fn body_places(b: &[u8], kind: u8) -> BodyPlaces
    requires { body_end b.now (body_places kind b.now) ≤ length b.now }
    ensures { result ≡ body_places kind b.now }
{
    match kind {
        POLYGON => BodyPlaces::Polygon {
            shape: shape_places(b),
        },
        PATH => BodyPlaces::Path {
            path: path_places(b),
        },
        TEXT => BodyPlaces::Text {
            text: text_places(b),
        },
        NODE => BodyPlaces::Node {
            shape: shape_places(b),
        },
        REFERENCE => BodyPlaces::Reference {
            reference: reference_places(b, string_end(b, NAME)),
        },
        _ => BodyPlaces::Box {
            gds_box: box_places(b),
        },
    }
}

// Where points in a row end.
fn points_end(points: PointsPlaces) -> usize
    requires { Fits w64 (points_end points) }
    ensures { result ≡ points_end points }
{
    points.place + POINT * points.count
}

// Where a body ends, and the count of the properties stands.
fn body_end(b: &[u8], body: BodyPlaces) -> usize
    requires { body_end b.now body ≤ length b.now }
    ensures { result ≡ body_end b.now body }
{
    match body {
        BodyPlaces::Polygon { shape } | BodyPlaces::Node { shape } => points_end(shape.points),
        BodyPlaces::Path { path } => points_end(path.points),
        BodyPlaces::Text { text } => string_end(b, text.string),
        BodyPlaces::Reference { reference } => reference.row + POINT,
        BodyPlaces::Box { gds_box } => gds_box.second + POINT,
    }
}

// The parts of an element whose block is well formed: its form is not looked at.
pub fn element_places(b: &[u8]) -> ElementPlaces
    requires { word_end b.now (body_end_in b.now) ≤ length (shifted b.now) }
    ensures { result ≡ element_places b.now }
{
    let options = options_at(b);
    let rest = block_from(b, options.shift);
    let body = body_places(rest, plain_kind(b));
    let end = body_end(rest, body);
    let place = end + NUMBER;
    let properties = PropertyPlaces {
        count: big_endian::u16_at(rest, end) as usize,
        place,
    };
    ElementPlaces {
        options,
        body,
        properties,
    }
}
