// Runs the cell writer and the library writer on stored cases, with the answers that another implementation gave: prints the number of each case that differs, then how many cases there are and how many differ.
#![tactic(auto)]

ghost use Rattle.std.specs.Prelude.{◌≡◌, ◌≤◌, length};
ghost use Rattle.test_vectors.specs.Case as Case;
ghost use Rattle.test_vectors.specs.Case.{Fits, answered_at, agrees_at, next, tally_of, verdicts};

// Places in a case (tools/pack_cases.py), and how many bytes its two lengths have.
const INPUT: usize = 4;

const POLICY: usize = 5;

const D: usize = 6;

const SHEET: usize = 14;

const LENGTHS: usize = 8;

// The job, the policy byte and d, which an input has at least.
const FRONT: usize = 10;

// How many cases there are, and how many of them differ.
#[derive(Clone, Copy)]
struct Tally {
    cases: usize,
    differ: usize,
}

// Whether the case at a place lies within the bytes.
#[tactic(auto, unfolding(crate::specs::Case::fits))]
fn fits(cases: &[u8], at: usize) -> bool
    requires { at ≤ length cases.now }
    ensures { result ≡ Case.fits cases.now at }
{
    let left = cases.len() - at;
    if left < LENGTHS {
        return false;
    }
    let n = big_endian::u32_at(cases, at) as usize;
    if n < FRONT {
        return false;
    }
    if left - LENGTHS < n {
        return false;
    }
    let m = big_endian::u32_at(cases, at + INPUT + n) as usize;
    m <= left - LENGTHS - n
}

// The place after the case at a place. A case that does not fit is the last one.
#[tactic(auto, using(crate::proofs::CaseLaws::fits_true), unfolding(crate::specs::Case::next))]
fn next_place(cases: &[u8], at: usize) -> usize
    requires { at ≤ length cases.now }
    ensures { result ≡ next cases.now at }
{
    if fits(cases, at) {
        let n = big_endian::u32_at(cases, at) as usize;
        let m = big_endian::u32_at(cases, at + INPUT + n) as usize;
        return at + LENGTHS + n + m;
    }
    cases.len()
}

// Whether the case's answer is the one that the writer gives.
fn answered(cases: &[u8], at: usize) -> bool
    requires { Fits cases.now at }
    ensures { result ≡ answered_at cases.now at }
{
    let n = big_endian::u32_at(cases, at) as usize;
    let m = big_endian::u32_at(cases, at + INPUT + n) as usize;
    let job = big_endian::u8_at(cases, at + INPUT);
    let policy = big_endian::u8_at(cases, at + POLICY);
    let d = test_report::double_at(cases, at + D);
    let mut text = [0u8; 81937];
    let sheet = &cases[at + SHEET..at + INPUT + n];
    let end = test_answers::put_answer(&mut text, job, policy, d, sheet);
    let start = at + LENGTHS + n;
    check::same(&text[..end], &cases[start..start + m])
}

#[tactic(auto, using(crate::proofs::CaseLaws::fits_true), unfolding(crate::specs::Case::agrees_at))]
fn agrees(cases: &[u8], at: usize) -> bool
    requires { at ≤ length cases.now }
    ensures { result ≡ agrees_at cases.now at }
{
    fits(cases, at) && answered(cases, at)
}

// Prints the number of each case that differs.
fn walk(cases: &[u8]) -> Tally
    ensures { result ≡ tally_of (verdicts cases.now) }
{
    let mut at: usize = 0;
    let mut count: usize = 0;
    let mut found: usize = 0;
    // A `while`: cases have unequal lengths, so the place is counted, and no index.
    while at < cases.len() {
        found = test_report::tell_case(agrees(cases, at), count, found);
        count += 1;
        at = next_place(cases, at);
    }
    Tally {
        cases: count,
        differ: found,
    }
}

fn main() {
    let mut input = test_report::room();
    let n = io::read_full(0, &mut input);
    let told = walk(&input[..n]);
    test_report::tell_counts(told.cases, told.differ);
}
