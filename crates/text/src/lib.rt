// A text (`write_text_with_converter` of write/mod.rs), from its places in the block: its checks and conversions, and then its records.
#![tactic(auto)]

ghost use Rattle.std.specs.Prelude.{◌≡◌, ◌+◌, ◌*◌, ◌≤◌, length};
ghost use Rattle.big_endian.specs.Big.{number_at};
ghost use Rattle.conversion.specs.code.Answer.{made_of};
ghost use Rattle.conversion.specs.code.Fold.{Spare, run};
ghost use Rattle.cell.specs.Limits.{max_string_length};
ghost use Rattle.cell.specs.Write.{write_text};
ghost use Rattle.block_places.specs.code.Place.{string_end};
ghost use Rattle.block_places.specs.code.Places.{text_at, TextIn};
ghost use Rattle.transform.specs.code.Strans.{max_strans_length, strans_length};
ghost use Rattle.records.specs.code.Bytes.{Placed};
ghost use Rattle.steps.specs.code.Ready.{stopped, ready};
ghost use Rattle.steps.specs.code.Steps.{max_deviations, Measures, Succeeds, Writes};
ghost use Rattle.text.specs.code.Text.{size_of, text_bytes, text_length, string_check, after_checks, text_of, ready_of};

use block_places::TextPlaces;
use conversion::{CoordinateConverter, DatabasePoint, Entry};
use refusal::Refusal;
use steps::{Measured, Written};
use transform::Strans;

// The longest string of a text.
const MAX_STRING_LENGTH: usize = 512;

// The bytes of TEXT, LAYER, TEXTTYPE and PRESENTATION, then of XY and the head of STRING.
const FRONT_LENGTH: usize = 22;

const BACK_LENGTH: usize = 16;

// The values of the records that the sheet does not hold as they are, with the entry after them.
#[derive(Clone, Copy)]
pub struct TextValues {
    pub strans: Strans,
    pub point: DatabasePoint,
    pub entry: Entry,
}

// Whether the string is too long.
#[tactic(auto, unfolding(crate::specs::code::Text::string_check, conversion::specs::Made::need))]
fn check_string(b: &[u8], at: usize) -> Result<(), Refusal>
    requires { at + 2 ≤ length b.now }
    ensures { made_of result ≡ string_check (number_at 2 b.now at) }
{
    if block_places::string_length(b, at) > MAX_STRING_LENGTH {
        return Err(Refusal::StringLength);
    }
    Ok(())
}

// The transform and the origin, after the checks.
fn convert_text(
    converter: CoordinateConverter,
    b: &[u8],
    text: TextPlaces,
    entry: Entry,
) -> Result<TextValues, Refusal>
    requires text_in { TextIn b.now text }
    requires spare { Spare 2 entry }
    ensures { ready_of b.now text result ≡ run stopped entry (after_checks converter.policy converter.d (text_at b.now text)) ready }
{
    let strans = transform::encode_transformation(
        text.degrees,
        text.magnification,
        text.reflection,
    )?;
    let origin = coordinate::convert_point(
        converter,
        b,
        text.origin,
        conversion::ORIGIN_FIELD,
        0,
        entry,
    )?;
    Ok(TextValues {
        strans,
        point: origin.point,
        entry: origin.entry,
    })
}

// The checks and conversions in the order of `write_text_with_converter`, with the text type directly after the layer.
fn text_values(
    converter: CoordinateConverter,
    b: &[u8],
    text: TextPlaces,
    entry: Entry,
) -> Result<TextValues, Refusal>
    requires text_in { TextIn b.now text }
    requires spare { Spare 2 entry }
    ensures { ready_of b.now text result ≡ run stopped entry (write_text converter.policy converter.d (text_at b.now text)) ready }
{
    let numbers = validation::check_layer_and_type(text.layer, text.texttype);
    let string = check_string(b, text.string);
    numbers.and(string)?;
    convert_text(converter, b, text, entry)
}

// The bytes of all records, by those of the transform and of the string.
fn records_length(transform: usize, string: usize) -> usize
    requires transform_bound { transform ≤ max_strans_length }
    requires string_bound { string ≤ max_string_length }
    ensures { result ≡ size_of transform string }
{
    FRONT_LENGTH + transform + BACK_LENGTH + string + string % 2
}

// The first refusal, or the length of the records.
pub fn measure_text(
    converter: CoordinateConverter,
    b: &[u8],
    text: TextPlaces,
    entry: Entry,
) -> Result<Measured, Refusal>
    requires text_in { TextIn b.now text }
    requires spare { Spare max_deviations entry }
    ensures { Measures text_bytes entry (write_text converter.policy converter.d (text_at b.now text)) result }
{
    let values = text_values(converter, b, text, entry)?;
    let transform = values.strans.length();
    Ok(Measured {
        length: records_length(transform, block_places::string_length(b, text.string)),
        entry: values.entry,
    })
}

// Vertical and horizontal presentation as the bits of PRESENTATION.
fn presentation(vertical: u8, horizontal: u8) -> u16
    ensures { result ≡ 4 * vertical + horizontal }
{
    4 * (vertical as u16) + horizontal as u16
}

// TEXT, LAYER, TEXTTYPE, PRESENTATION, the transform, XY and STRING.
#[tactic(auto, using(crate::proofs::TextLaws::read_long))]
fn put_records(
    out: &mut [u8],
    b: &[u8],
    text: TextPlaces,
    strans: Strans,
    point: DatabasePoint,
) -> usize
    requires string_in_bounds { string_end b.now text.string ≤ length b.now }
    requires string_bound { number_at 2 b.now text.string ≤ max_string_length }
    requires string_in_bounds_2 { size_of (strans_length strans) (number_at 2 b.now text.string) ≤ length out.old }
    ensures { Placed (text_bytes (text_of b.now text strans point)) (size_of (strans_length strans) (number_at 2 b.now text.string)) out.old out.new 0 result }
{
    let bits = presentation(text.vertical, text.horizontal);
    let a1 = records::put_empty_at(out, 0, records::TEXT);
    let a2 = records::put_word_at(out, a1, records::LAYER, records::TWO_BYTE, text.layer);
    let a3 = records::put_word_at(out, a2, records::TEXTTYPE, records::TWO_BYTE, text.texttype);
    let a4 = records::put_word_at(out, a3, records::PRESENTATION, records::BIT_ARRAY, bits);
    let a5 = strans.put_at(out, a4);
    let a6 = coordinate::put_xy_at(out, a5, point);
    records::put_string_at(
        out,
        a6,
        records::STRING,
        block_places::string_at(b, text.string),
    )
}

// The records at the start of the part that is lent; every value is known before the first byte is written.
pub fn put_text(
    converter: CoordinateConverter,
    b: &[u8],
    text: TextPlaces,
    out: &mut [u8],
    entry: Entry,
) -> Written
    requires text_in { TextIn b.now text }
    requires succeeds { Succeeds (write_text converter.policy converter.d (text_at b.now text)) }
    requires spare { Spare max_deviations entry }
    requires text_in_bounds { text_length b.now text ≤ length out.old }
    ensures { Writes text_bytes entry (write_text converter.policy converter.d (text_at b.now text)) 0 out.old out.new result }
{
    let values = convert_text(converter, b, text, entry).unwrap();
    Written {
        to: put_records(out, b, text, values.strans, values.point),
        entry: values.entry,
    }
}
