// The cell writer, the library writer, lengths within bounds and the pitch survey, for programs in C, Rust and other languages: exports/ has the header and examples.
// The slices stand first and the numbers last, so that a slice's address and length are two arguments of C side by side, in registers or on the stack.
// Every place that is lent for an answer is written, also in a refusal.
#![tactic(auto)]

ghost use Rattle.std.specs.Prelude.{◌≡◌};
ghost use Rattle.cell.specs.Answer.{Values, values_of};
ghost use Rattle.library.specs.Answer as Library;
ghost use Rattle.write_cell.specs.Writer.{MeasuresCell, WritesCell};
ghost use Rattle.write_library.specs.Writer.{MeasuresLibrary, WritesLibrary};
ghost use Rattle.bounds.specs.Bounds.{ConvertsBounds};
ghost use Rattle.survey.specs.Survey.{SurveysPitch};

use cell::{Accepted, CellRefusal};
use library::LibraryRefusal;

// What a refusal has in the places of what is accepted.
const NOTHING: Accepted = Accepted {
    length: 0,
    entries: 0,
    greatest: 0.0,
};

// Puts what was accepted, each number in its place: C has a place for each.
fn accepted_in(accepted: Accepted, length: &mut usize, entries: &mut usize, greatest: &mut f64)
    ensures length_put { length.new ≡ accepted.length }
    ensures entries_put { entries.new ≡ accepted.entries }
    ensures greatest_put { greatest.new ≡ accepted.greatest }
{
    *length = accepted.length;
    *entries = accepted.entries;
    *greatest = accepted.greatest;
}

// Puts each of the answer's numbers in its place; returns the refusal's number, or 0.
fn answer_in(
    answer: Result<Accepted, CellRefusal>,
    block: &mut usize,
    length: &mut usize,
    entries: &mut usize,
    greatest: &mut f64,
) -> u8
    ensures { ◌≡◌ {A = Values} (record { number = result; block = block.new; length = length.new; entries = entries.new; greatest = greatest.new }) (values_of answer) }
{
    match answer {
        Err(e) => {
            *block = e.block;
            accepted_in(NOTHING, length, entries, greatest);
            e.refusal.number()
        }
        Ok(accepted) => {
            *block = 0;
            accepted_in(accepted, length, entries, greatest);
            0
        }
    }
}

// What writing the sheet's cell takes: returns 0, with the structure's length, its entries and the greatest error; or the refusal's number, with its block.
#[unsafe(no_mangle)]
pub extern "C" fn ravenvanity_measure_cell(
    sheet: &[u8],
    block: &mut usize,
    length: &mut usize,
    entries: &mut usize,
    greatest: &mut f64,
    policy: u8,
    d: f64,
) -> u8
    ensures { MeasuresCell policy d sheet.now (record { number = result; block = block.new; length = length.new; entries = entries.new; greatest = greatest.new }) }
{
    let a = write_cell::measure_cell(policy, d, sheet);
    answer_in(a, block, length, entries, greatest)
}

// Writes the sheet's cell to the start of out and its entries to the start of report: answers as measuring does, or 21 or 22 where one of the two is too short.
#[unsafe(no_mangle)]
pub extern "C" fn ravenvanity_write_cell(
    sheet: &[u8],
    out: &mut [u8],
    report: &mut [u8],
    block: &mut usize,
    length: &mut usize,
    entries: &mut usize,
    greatest: &mut f64,
    policy: u8,
    d: f64,
) -> u8
    ensures { WritesCell policy d sheet.now out.old report.old out.new report.new (record { number = result; block = block.new; length = length.new; entries = entries.new; greatest = greatest.new }) }
{
    let a = write_cell::write_cell(policy, d, sheet, out, report);
    answer_in(a, block, length, entries, greatest)
}

// The same of a library's answer, whose refusal has a cell besides.
fn library_answer_in(
    answer: Result<Accepted, LibraryRefusal>,
    cell: &mut usize,
    block: &mut usize,
    length: &mut usize,
    entries: &mut usize,
    greatest: &mut f64,
) -> u8
    ensures { ◌≡◌ {A = Library.Values} (record { number = result; cell = cell.new; block = block.new; length = length.new; entries = entries.new; greatest = greatest.new }) (Library.values_of answer) }
{
    match answer {
        Err(e) => {
            *cell = e.cell;
            *block = e.block;
            accepted_in(NOTHING, length, entries, greatest);
            e.refusal.number()
        }
        Ok(file) => {
            *cell = 0;
            *block = 0;
            accepted_in(file, length, entries, greatest);
            0
        }
    }
}

// What writing the sheet's library takes: returns 0, with the file's length, its entries and the greatest error; or the refusal's number, with its cell and block.
#[unsafe(no_mangle)]
pub extern "C" fn ravenvanity_measure_library(
    sheet: &[u8],
    cell: &mut usize,
    block: &mut usize,
    length: &mut usize,
    entries: &mut usize,
    greatest: &mut f64,
    policy: u8,
    d: f64,
) -> u8
    ensures { MeasuresLibrary policy d sheet.now (record { number = result; cell = cell.new; block = block.new; length = length.new; entries = entries.new; greatest = greatest.new }) }
{
    let a = write_library::measure_library(policy, d, sheet);
    library_answer_in(a, cell, block, length, entries, greatest)
}

// Writes the sheet's library to the start of out and its entries to the start of report: answers as measuring does, or 21 or 22 where one of the two is too short.
#[unsafe(no_mangle)]
pub extern "C" fn ravenvanity_write_library(
    sheet: &[u8],
    out: &mut [u8],
    report: &mut [u8],
    cell: &mut usize,
    block: &mut usize,
    length: &mut usize,
    entries: &mut usize,
    greatest: &mut f64,
    policy: u8,
    d: f64,
) -> u8
    ensures { WritesLibrary policy d sheet.now out.old report.old out.new report.new (record { number = result; cell = cell.new; block = block.new; length = length.new; entries = entries.new; greatest = greatest.new }) }
{
    let a = write_library::write_library(policy, d, sheet, out, report);
    library_answer_in(a, cell, block, length, entries, greatest)
}

// The least and the greatest database value of all doubles from lower to upper, both included: returns 0 with the two; or the refusal's number, and both are 0.
#[unsafe(no_mangle)]
pub extern "C" fn ravenvanity_convert_bounds(
    least: &mut i32,
    greatest: &mut i32,
    policy: u8,
    d: f64,
    lower: f64,
    upper: f64,
) -> u8
    ensures { ConvertsBounds policy d lower upper (record { number = result; least = least.new; greatest = greatest.new }) }
{
    match bounds::convert_bounds(policy, d, lower, upper) {
        Err(refusal) => {
            *least = 0;
            *greatest = 0;
            refusal.number()
        }
        Ok(range) => {
            *least = range.least;
            *greatest = range.greatest;
            0
        }
    }
}

// How many of the places 0 to n - 1, i times the pitch each, are clean, have an entry due, and are refused: returns 0 with the three counts; or the refusal's number, and all three are 0.
#[unsafe(no_mangle)]
pub extern "C" fn ravenvanity_survey_pitch(
    clean: &mut u32,
    due: &mut u32,
    refused: &mut u32,
    policy: u8,
    d: f64,
    pitch: f64,
    n: u32,
) -> u8
    ensures { SurveysPitch policy d pitch n (record { number = result; clean = clean.new; due = due.new; refused = refused.new }) }
{
    match survey::survey_pitch(policy, d, pitch, n) {
        Err(refusal) => {
            *clean = 0;
            *due = 0;
            *refused = 0;
            refusal.number()
        }
        Ok(counts) => {
            *clean = counts.clean;
            *due = counts.due;
            *refused = counts.refused;
            0
        }
    }
}
