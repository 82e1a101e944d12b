// The body of an element, all but its options and its properties: measured, and written, by its kind (`write_element_with_field_prefix` of write/mod.rs).
#![tactic(auto)]

ghost use Rattle.std.specs.Prelude.{◌≤◌, length};
ghost use Rattle.conversion.specs.code.Fold.{Spare};
ghost use Rattle.cell.specs.Write.{write_body};
ghost use Rattle.block_places.specs.code.Places.{body_at, BodyIn};
ghost use Rattle.steps.specs.code.Steps.{max_deviations, Measures, Succeeds, Writes};
ghost use Rattle.bodies.specs.code.Body.{body_bytes, body_length};

use block_places::BodyPlaces;
use conversion::{CoordinateConverter, Entry};
use refusal::Refusal;
use steps::{Measured, Written};

// ---- measuring

// All but the properties, by the kind.
pub fn measure_body(
    converter: CoordinateConverter,
    b: &[u8],
    body: BodyPlaces,
    entry: Entry,
) -> Result<Measured, Refusal>
    requires body_in { BodyIn b.now body }
    requires spare { Spare max_deviations entry }
    ensures { Measures body_bytes entry (write_body converter.policy converter.d (body_at b.now body)) result }
{
    match body {
        BodyPlaces::Polygon { shape } => polygon_node::measure_polygon(converter, b, shape, entry),
        BodyPlaces::Path { path } => path::measure_path(converter, b, path, entry),
        BodyPlaces::Text { text } => text::measure_text(converter, b, text, entry),
        BodyPlaces::Node { shape: node } => polygon_node::measure_node(converter, b, node, entry),
        BodyPlaces::Reference { reference } => reference::measure_reference(
            converter, b, reference, entry,
        ),
        BodyPlaces::Box { gds_box } => boxes::measure_box(converter, b, gds_box, entry),
    }
}

// ---- writing

// All but the properties, by the kind, at the start of the part.
pub fn put_body(
    converter: CoordinateConverter,
    b: &[u8],
    body: BodyPlaces,
    part: &mut [u8],
    entry: Entry,
) -> Written
    requires body_in { BodyIn b.now body }
    requires succeeds { Succeeds (write_body converter.policy converter.d (body_at b.now body)) }
    requires spare { Spare max_deviations entry }
    requires body_in_bounds { body_length b.now body ≤ length part.old }
    ensures { Writes body_bytes entry (write_body converter.policy converter.d (body_at b.now body)) 0 part.old part.new result }
{
    match body {
        BodyPlaces::Polygon { shape } => polygon_node::put_polygon(
            converter, b, shape, part, entry,
        ),
        BodyPlaces::Path { path } => path::put_path(converter, b, path, part, entry),
        BodyPlaces::Text { text } => text::put_text(converter, b, text, part, entry),
        BodyPlaces::Node { shape: node } => polygon_node::put_node(converter, b, node, part, entry),
        BodyPlaces::Reference { reference } => reference::put_reference(
            converter, b, reference, part, entry,
        ),
        BodyPlaces::Box { gds_box } => boxes::put_box(converter, b, gds_box, part, entry),
    }
}
