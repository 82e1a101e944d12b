// The cell from its 4 on: the head and the blocks in turn, measured, and then written.
#![tactic(auto)]

ghost use Rattle.std.specs.Prelude.{◌≡◌, ◌+◌, ◌≤◌, length};
ghost use Rattle.big_endian.specs.Buffer.{WroteAt};
ghost use Rattle.binary64.specs.Value.{zero64};
ghost use Rattle.conversion.specs.Entry.{report_with, greatest_from};
ghost use Rattle.conversion.specs.code.Fold.{standing};
ghost use Rattle.sheet.specs.Element.{head_of};
ghost use Rattle.sheet.specs.Cell.{element_blocks};
ghost use Rattle.block_places.specs.code.Place.{string_at};
ghost use Rattle.block_places.specs.code.Places.{head_at, HeadIn};
ghost use Rattle.cell.specs.Limits.{max_name_length, max_sheet_length};
ghost use Rattle.cell.specs.Cell.{write_blocks, write_sheet};
ghost use Rattle.cell.specs.Answer.{answer_of};
ghost use Rattle.walk.specs.code.Walk.{head_bytes, head_measured, HeadSmall, totals_from, ElementsFit, PutsElements, TotalsSmall, AnswerSmall, StructureFits, PutsStructure};

use block_places::HeadPlaces;
use cell::{Accepted, CellRefusal};
use conversion::{CoordinateConverter, Entry};
use refusal::Refusal;
use sheet::Sheet;

// BGNSTR, whose data are the block's twelve numbers, and ENDSTR.
const BGNSTR_LENGTH: usize = 28;

const ENDSTR_LENGTH: usize = 4;

// Where what was written ends, in the output and in the report.
#[derive(Clone, Copy)]
pub struct Ends {
    pub out: usize,
    pub report: usize,
}

// ---- measuring

// Block 0: its form, then its stamps, then its name. How many bytes BGNSTR and STRNAME have.
fn measure_head(b: &[u8]) -> Result<usize, Refusal>
    ensures value { result ≡ head_measured (head_of b.now) }
    ensures head_small { HeadSmall result }
{
    let places = forms::head_of(b).ok_or(Refusal::Form)?;
    let name = block_places::string_at(b, places.name);
    let dated = validation::stamps_fit(b, places.stamps);
    let named = validation::validate_structure_name(name);
    if !dated {
        return Err(Refusal::Stamp);
    }
    if !named {
        return Err(Refusal::Name);
    }
    Ok(BGNSTR_LENGTH + records::RECORD_HEAD + name.len() + name.len() % 2)
}

// How many entries stand for an element: one where there is a deviation.
fn entries_of(entry: Entry) -> usize
    ensures { result ≡ length (standing entry) }
{
    if entry.count == 0 { 0 } else { 1 }
}

// The greater of g and the magnitude of the entry's error, if it stands.
#[tactic(auto, unfolding(conversion::specs::Entry::greatest_from))]
fn greater_error(g: f64, entry: Entry) -> f64
    ensures { result ≡ greatest_from g (standing entry) }
{
    if entry.count == 0 {
        return g;
    }
    let magnitude = binary64::abs(entry.error);
    if g < magnitude {
        return magnitude;
    }
    g
}

// Every block after the head, in turn: the first refusal with its block; or how many bytes and entries there are, and the greatest error.
fn measure_elements(
    converter: CoordinateConverter,
    sheet: &Sheet<'_>,
) -> Result<Accepted, CellRefusal>
    requires { length sheet.now ≤ max_sheet_length }
    ensures value { result ≡ totals_from 0 0 zero64 (write_blocks converter.policy converter.d 0 (element_blocks sheet.now)) }
    ensures totals_small { TotalsSmall result }
{
    let mut length: usize = 0;
    let mut entries: usize = 0;
    let mut greatest: f64 = 0.0;
    for k in 1..sheet.count() {
        let b = sheet.block(k);
        let index = k - 1;
        let answer = elements::measure_element(converter, b, index as u32);
        let measured = answer.map_err(|refusal| CellRefusal { refusal, block: k })?;
        length += measured.length;
        entries += entries_of(measured.entry);
        greatest = greater_error(greatest, measured.entry);
    }
    Ok(Accepted {
        length,
        entries,
        greatest,
    })
}

// The cell from its 4 on.
pub fn measure_sheet(converter: CoordinateConverter, sheet: &[u8]) -> Result<Accepted, CellRefusal>
    requires { length sheet.now ≤ max_sheet_length }
    ensures value { result ≡ answer_of (write_sheet converter.policy converter.d sheet.now) }
    ensures answer_small { AnswerSmall result }
{
    let sheet = Sheet::new(sheet).ok_or(Refusal::Pairs)?;
    let front = measure_head(sheet.block(0))?;
    let totals = measure_elements(converter, &sheet)?;
    Ok(Accepted {
        length: front + totals.length + ENDSTR_LENGTH,
        ..totals
    })
}

// ---- writing

// BGNSTR, whose data are the block's own 24 bytes, and STRNAME, at the start of the output; the place after them.
fn put_head(b: &[u8], places: HeadPlaces, out: &mut [u8]) -> usize
    requires head_in { HeadIn b.now places }
    requires name_len_bound { length (string_at b.now places.name) ≤ max_name_length }
    requires places_in_bounds { length (head_bytes (head_at b.now places)) ≤ length out.old }
    ensures { WroteAt (head_bytes (head_at b.now places)) out.old out.new 0 result }
{
    let from = places.stamps;
    let to = records::put_stamps_at(
        out,
        0,
        records::BGNSTR,
        &b[from..from + block_places::STAMPS],
    );
    records::put_string_at(
        out,
        to,
        records::STRNAME,
        block_places::string_at(b, places.name),
    )
}

// The element's entry at a place of the report, after its lead, if it stands.
fn put_entry(entry: Entry, lead: &[u8], report: &mut [u8], at: usize) -> usize
    requires { at + length (report_with lead.now (standing entry)) ≤ length report.old }
    ensures { WroteAt (report_with lead.now (standing entry)) report.old report.new at result }
{
    if entry.count == 0 {
        return at;
    }
    let from = records::put_bytes_at(report, at, lead);
    entry.put(report, from)
}

// Every block after the head, in turn, each into the part of the output that starts where the last one ended.
fn put_elements(
    converter: CoordinateConverter,
    sheet: &Sheet<'_>,
    lead: &[u8],
    out: &mut [u8],
    report: &mut [u8],
) -> Ends
    requires { ElementsFit converter.policy converter.d sheet.now lead.now (length out.old) (length report.old) }
    ensures { PutsElements converter.policy converter.d sheet.now lead.now out.old report.old out.new report.new result }
{
    let mut to: usize = 0;
    let mut at: usize = 0;
    for next in 1..sheet.count() {
        let b = sheet.block(next);
        let written = elements::put_element(converter, b, (next - 1) as u32, &mut out[to..]);
        to += written.to;
        at = put_entry(written.entry, lead, report, at);
    }
    Ends {
        out: to,
        report: at,
    }
}

// The structure of an accepted sheet, and its report, each entry after the lead; both at the start of the part that is lent.
pub fn put_structure(
    converter: CoordinateConverter,
    sheet: &[u8],
    lead: &[u8],
    out: &mut [u8],
    report: &mut [u8],
) -> Ends
    requires { StructureFits converter.policy converter.d sheet.now lead.now (length out.old) (length report.old) }
    ensures { PutsStructure converter.policy converter.d sheet.now lead.now out.old report.old out.new report.new result }
{
    let sheet = Sheet::fitting(sheet);
    let b = sheet.block(0);
    match forms::head_of(b) {
        // Never: an accepted sheet has a head.
        None => Ends { out: 0, report: 0 },
        Some(places) => {
            let start = put_head(b, places, out);
            let ends = put_elements(converter, &sheet, lead, &mut out[start..], report);
            let end = records::put_empty_at(out, start + ends.out, records::ENDSTR);
            Ends {
                out: end,
                report: ends.report,
            }
        }
    }
}
