// What the cell writer and the library writer answer, as the bytes that stored cases have (tools/pack_cases.py).
#![tactic(auto)]

ghost use Rattle.std.specs.Prelude.{◌≤◌, length};
ghost use Rattle.big_endian.specs.Buffer.{WroteAt};
ghost use Rattle.cell.specs.Cell.{write_cell};
ghost use Rattle.library.specs.Library.{write_library};
ghost use Rattle.test_answers.specs.Answer.{cell_bytes, library_bytes, answer_bytes};

use conversion::ENTRY_LENGTH;
use write_library::LIBRARY_ENTRY_LENGTH;

// The job of a case: any other byte is a library.
const CELL: u8 = 0;

// The answer of writing a cell.
fn put_cell_answer(text: &mut [u8], policy: u8, d: f64, sheet: &[u8]) -> usize
    requires { 24593 ≤ length text.old }
    ensures { WroteAt (cell_bytes (write_cell policy d sheet.now 16384 8192)) text.old text.new 0 result }
{
    let mut out = [0u8; 16384];
    let mut report = [0u8; 8192];
    match write_cell::write_cell(policy, d, sheet, &mut out, &mut report) {
        Err(e) => test_bytes::put_refused(text, e.refusal.number(), e.block),
        Ok(a) => {
            let told = &report[..ENTRY_LENGTH * a.entries];
            test_bytes::put_accepted(text, a.entries, a.greatest, &out[..a.length], told)
        }
    }
}

// The answer of writing a library.
fn put_library_answer(text: &mut [u8], policy: u8, d: f64, sheet: &[u8]) -> usize
    requires { 81937 ≤ length text.old }
    ensures { WroteAt (library_bytes (write_library policy d sheet.now 65536 16384)) text.old text.new 0 result }
{
    let mut out = [0u8; 65536];
    let mut report = [0u8; 16384];
    match write_library::write_library(policy, d, sheet, &mut out, &mut report) {
        Err(e) => test_bytes::put_library_refused(text, e.refusal.number(), e.cell, e.block),
        Ok(a) => {
            let told = &report[..LIBRARY_ENTRY_LENGTH * a.entries];
            test_bytes::put_accepted(text, a.entries, a.greatest, &out[..a.length], told)
        }
    }
}

// The answer to a job, a policy, a d and a sheet.
#[tactic(auto, unfolding(crate::specs::Answer::answer_bytes))]
pub fn put_answer(text: &mut [u8], job: u8, policy: u8, d: f64, sheet: &[u8]) -> usize
    requires { 81937 ≤ length text.old }
    ensures { WroteAt (answer_bytes job policy d sheet.now) text.old text.new 0 result }
{
    if job == CELL {
        return put_cell_answer(text, policy, d, sheet);
    }
    put_library_answer(text, policy, d, sheet)
}
