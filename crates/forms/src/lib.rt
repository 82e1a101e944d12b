// The form of a block: whether it is well formed (refusal 5), and where its parts are.
#![tactic(auto)]

ghost use Rattle.std.specs.Prelude.{cond, ◌≡◌, ◌+◌, ◌*◌, ◌≤◌, length};
ghost use Rattle.big_endian.specs.Big.{number_at};
ghost use Rattle.parsing.specs.Parse.{times};
ghost use Rattle.sheet.specs.Form as Form;
ghost use Rattle.sheet.specs.Element as Element;
ghost use Rattle.block_places.specs.code.Place.{unit_at, coordinate_at, point_at, points_from, spacing_at, max_word, path_points_place, coordinate_length, point_length};
ghost use Rattle.block_places.specs.code.Places.{path_type_of};
ghost use Rattle.forms.specs.code.Checks.{given, Checked, LengthsChecked, PropertiesRead, BodyRead, HeadRead, options_in, ElementRead};

use block_places::{
    ABSENT, AFTER_NAME, BEGIN, BOX, BOX_END, BodyPlaces, COLUMN_SPACING, COORDINATE, END,
    ElementPlaces, FIRST_CORNER, HEAD_NAME, HORIZONTAL, HeadPlaces, INTEGER, INTEGERS, KINDS, NAME,
    NAME_BYTES, NO_PATH_TYPE, NODE, NUMBER, ORIGIN, PATH, PATH_POINTS, PATH_TYPE, POINT, POLYGON,
    PropertyPlaces, REFERENCE, REFLECTED, REFLECTION, ROW_SPACING, SECOND_CORNER, SHAPE_POINTS,
    STAMPS, STRING, STRING_BYTES, TEXT, TEXT_ORIGIN, TEXT_REFLECTION, UNIT, VALUE, VERTICAL, WIDTH,
};

// The kind byte of a coordinate that is a double: a byte, as the kinds of `block_places` are.
const DOUBLE: u8 = 1;

// The greatest codes: "path type byte (0, 1, 2; 255 absent)", "vertical (0–2), horizontal (0–2)".
const MAX_PATH_TYPE: u8 = 2;

const MAX_PRESENTATION: u8 = 2;

// A body, and where it ends.
#[derive(Clone, Copy)]
struct BodyForm {
    places: BodyPlaces,
    end: usize,
}

// ---- parts of a block

// A byte that is at most `most`.
fn code(b: &[u8], at: usize, most: u8) -> bool
    requires { at + 1 ≤ length b.now }
    ensures { Checked (Form.code most) b.now at (number_at 1 b.now at) (at + 1) result }
{
    big_endian::u8_at(b, at) <= most
}

// A coordinate, which may be absent: then 16 zero bytes follow its kind.
fn coordinate(b: &[u8], at: usize) -> bool
    requires { at + coordinate_length ≤ length b.now }
    ensures { Checked Form.coordinate b.now at (coordinate_at b.now at) (at + coordinate_length) result }
{
    match big_endian::u8_at(b, at) {
        INTEGER => big_endian::u64_at(b, at + VALUE) < INTEGERS,
        DOUBLE => true,
        ABSENT => big_endian::u64_at(b, at + VALUE) == 0 && big_endian::u64_at(b, at + UNIT) == 0,
        _ => false,
    }
}

// A coordinate that is not absent.
#[tactic(auto, unfolding(block_places::specs::code::Place::coordinate_at))]
fn given(b: &[u8], at: usize) -> bool
    requires { at + coordinate_length ≤ length b.now }
    ensures { Checked given b.now at (unit_at b.now at) (at + coordinate_length) result }
{
    !block_places::is_absent(b, at) && coordinate(b, at)
}

// A point: neither coordinate is absent.
#[tactic(auto, unfolding(sheet::specs::Form::point, block_places::specs::code::Place::point_at))]
fn point(b: &[u8], at: usize) -> bool
    requires { at + point_length ≤ length b.now }
    ensures { Checked Form.point b.now at (point_at b.now at) (at + point_length) result }
{
    given(b, at) && given(b, at + COORDINATE)
}

// A spacing: both coordinates are absent, or neither.
#[tactic(auto, unfolding(sheet::specs::Form::spacing, sheet::specs::Form::spacing_of, block_places::specs::code::Place::coordinate_at, block_places::specs::code::Place::spacing_at, block_places::specs::code::Place::point_at))]
fn spacing(b: &[u8], at: usize) -> bool
    requires { at + point_length ≤ length b.now }
    ensures { Checked Form.spacing b.now at (spacing_at b.now at) (at + point_length) result }
{
    coordinate(b, at)
        && coordinate(b, at + COORDINATE)
        && block_places::is_absent(b, at) == block_places::is_absent(b, at + COORDINATE)
}

// n points in a row; n is what 2 bytes hold. A loop, since its invariant tells at once that the points left decide; over `all` it would take a list of the indices beside them.
fn points(b: &[u8], from: usize, n: usize) -> bool
    requires { (from ≤ length b.now) × (n ≤ max_word) }
    ensures { Checked (times n Form.point) b.now from (points_from n b.now from) (from + point_length * n) result }
{
    if b.len() < from + POINT * n {
        return false;
    }
    let mut at = from;
    for _ in 0..n {
        if !point(b, at) {
            return false;
        }
        at += POINT;
    }
    true
}

// The count of the properties and the properties, each an attribute and a string, to the end of the block.
fn properties(b: &[u8], at: usize) -> Option<PropertyPlaces>
    requires { at ≤ length b.now }
    ensures { PropertiesRead b.now at result }
{
    if b.len() < at + NUMBER {
        return None;
    }
    let count = big_endian::u16_at(b, at) as usize;
    let place = at + NUMBER;
    let mut end = place;
    for _ in 0..count {
        let value = end + NUMBER;
        if b.len() < value + NUMBER {
            return None;
        }
        end = block_places::string_end(b, value);
        if b.len() < end {
            return None;
        }
    }
    if end != b.len() {
        return None;
    }
    Some(PropertyPlaces { count, place })
}

// ---- bodies, after the kind byte

// A polygon, or a node.
fn shape(b: &[u8], node: bool) -> Option<BodyForm>
    ensures { BodyRead (cond node Element.node_kind Element.polygon_kind) b.now result }
{
    if b.len() < SHAPE_POINTS {
        return None;
    }
    let shape = block_places::shape_places(b);
    let count = shape.points.count;
    if !points(b, SHAPE_POINTS, count) {
        return None;
    }
    let end = SHAPE_POINTS + POINT * count;
    let places = if node {
        BodyPlaces::Node { shape }
    } else {
        BodyPlaces::Polygon { shape }
    };
    Some(BodyForm { places, end })
}

// A path type byte.
fn path_type(b: &[u8], at: usize) -> bool
    requires { at + 1 ≤ length b.now }
    ensures { Checked Element.path_type_form b.now at (path_type_of (number_at 1 b.now at)) (at + 1) result }
{
    let pathtype = big_endian::u8_at(b, at);
    pathtype == NO_PATH_TYPE || pathtype <= MAX_PATH_TYPE
}

// The three lengths of a path.
fn lengths(b: &[u8]) -> bool
    requires { path_points_place ≤ length b.now }
    ensures { LengthsChecked b.now result }
{
    coordinate(b, WIDTH) && coordinate(b, BEGIN) && coordinate(b, END)
}

fn path(b: &[u8]) -> Option<BodyForm>
    ensures { BodyRead Element.path_kind b.now result }
{
    if b.len() < PATH_POINTS {
        return None;
    }
    if !path_type(b, PATH_TYPE) {
        return None;
    }
    if !lengths(b) {
        return None;
    }
    let path = block_places::path_places(b);
    let count = path.points.count;
    if !points(b, PATH_POINTS, count) {
        return None;
    }
    let end = PATH_POINTS + POINT * count;
    Some(BodyForm {
        places: BodyPlaces::Path { path },
        end,
    })
}

fn text(b: &[u8]) -> Option<BodyForm>
    ensures { BodyRead Element.text_kind b.now result }
{
    if b.len() < STRING_BYTES {
        return None;
    }
    if !code(b, VERTICAL, MAX_PRESENTATION) {
        return None;
    }
    if !code(b, HORIZONTAL, MAX_PRESENTATION) {
        return None;
    }
    if !code(b, TEXT_REFLECTION, REFLECTED) {
        return None;
    }
    if !point(b, TEXT_ORIGIN) {
        return None;
    }
    let end = block_places::string_end(b, STRING);
    if b.len() < end {
        return None;
    }
    let text = block_places::text_places(b);
    Some(BodyForm {
        places: BodyPlaces::Text { text },
        end,
    })
}

fn reference(b: &[u8]) -> Option<BodyForm>
    ensures { BodyRead Element.reference_kind b.now result }
{
    if b.len() < NAME_BYTES {
        return None;
    }
    let base = block_places::string_end(b, NAME);
    let end = base + AFTER_NAME;
    if b.len() < end {
        return None;
    }
    if !code(b, base + REFLECTION, REFLECTED) {
        return None;
    }
    if !point(b, base + ORIGIN) {
        return None;
    }
    if !spacing(b, base + COLUMN_SPACING) {
        return None;
    }
    if !spacing(b, base + ROW_SPACING) {
        return None;
    }
    let reference = block_places::reference_places(b, base);
    Some(BodyForm {
        places: BodyPlaces::Reference { reference },
        end,
    })
}

// A box: two points, and no count of them.
fn gds_box(b: &[u8]) -> Option<BodyForm>
    ensures { BodyRead Element.box_kind b.now result }
{
    if b.len() < BOX_END {
        return None;
    }
    if !point(b, FIRST_CORNER) {
        return None;
    }
    if !point(b, SECOND_CORNER) {
        return None;
    }
    let gds_box = block_places::box_places(b);
    Some(BodyForm {
        places: BodyPlaces::Box { gds_box },
        end: BOX_END,
    })
}

// The body by its kind; any other kind is an unknown code.
#[tactic(auto, unfolding(sheet::specs::Element::body_form))]
fn body(b: &[u8], kind: u8) -> Option<BodyForm>
    ensures { BodyRead kind b.now result }
{
    match kind {
        POLYGON => shape(b, false),
        PATH => path(b),
        TEXT => text(b),
        NODE => shape(b, true),
        REFERENCE => reference(b),
        BOX => gds_box(b),
        _ => None,
    }
}

// ---- blocks

// The head: its name, and twelve numbers to the end of the block.
pub fn head_of(b: &[u8]) -> Option<HeadPlaces>
    ensures { HeadRead b.now result }
{
    if b.len() < NUMBER {
        return None;
    }
    let stamps = block_places::string_end(b, HEAD_NAME);
    if b.len() != stamps + STAMPS {
        return None;
    }
    Some(HeadPlaces {
        name: HEAD_NAME,
        stamps,
    })
}

// Whether there is a kind byte, raised by no more than both options, and what it is raised for.
#[tactic(auto, unfolding(crate::specs::code::Checks::options_in))]
fn has_options(b: &[u8]) -> bool
    ensures { result ≡ options_in b.now }
{
    if b.is_empty() {
        return false;
    }
    let kind = big_endian::u8_at(b, 0);
    kind < KINDS && 1 + block_places::shift_of(kind) <= b.len()
}

// An element: its kind byte, its options, its body and its properties.
pub fn element(b: &[u8]) -> Option<ElementPlaces>
    ensures { ElementRead b.now result }
{
    if !has_options(b) {
        return None;
    }
    let options = block_places::options_at(b);
    let rest = block_places::block_from(b, options.shift);
    let form = body(rest, block_places::plain_kind(b))?;
    let properties = properties(rest, form.end)?;
    Some(ElementPlaces {
        options,
        body: form.places,
        properties,
    })
}
