// Runs conversions to the database grid, the ranges of two bounds, and pitch surveys on known answers that another implementation gave: prints the number of each case that differs, then how many cases there are and how many differ.
#![tactic(auto)]

ghost use Rattle.std.specs.Prelude.{◌≡◌, ◌+◌, ◌*◌, ◌/◌, ◌≤◌, length};
ghost use Rattle.big_endian.specs.Big.{number_at};
ghost use Rattle.conversion.specs.Made.{refused};
ghost use Rattle.conversion.specs.Convert.{Spot};
ghost use Rattle.conversion.specs.code.Answer.{outcome};
ghost use Rattle.test_conversions.specs.Case as Case;
ghost use Rattle.test_conversions.specs.Case.{signed_at, policy_of, converter_at, unit_at, converted_at, answer_of, range_answer, range_at, survey_answer, survey_at, answer_at, stored_at};
ghost use Rattle.test_report.specs.Cases.{double_at, differing};

use bounds::DatabaseRange;
use conversion::{Conversion, CoordinateConverter, GdsRoundingPolicy};
use refusal::Refusal;
use units::Unit;

// The bytes of a case, and the places in it (tools/conversions.py): what it is of stands first.
const SIZE: usize = 54;

const POLICY: usize = 1;

const DATABASE_UNIT: usize = 2;

const VALUE: usize = 10;

const LOWER: usize = 10;

const UPPER: usize = 18;

const PITCH: usize = 10;

const ORIGIN: usize = 18;

const SPACING: usize = 22;

const COUNT: usize = 26;

const PLACES: usize = 26;

const ANSWER: usize = 30;

// What a case is of: an integer with its unit, an array's endpoint, two bounds, or a pitch survey; any other number is a double with its unit. No enum: the number is a byte of a stored case, and every byte has an answer.
const INTEGER: u8 = 0;

const ENDPOINT: u8 = 2;

const BOUNDS: u8 = 3;

const SURVEY: u8 = 4;

// In an answer's first word, below the refusal's number: whether the deviation counts, then the database value.
const REFUSAL: u64 = 0x100_0000_0000;

const COUNTS: u64 = 0x1_0000_0000;

// An answer in three words.
#[derive(Clone, Copy, Debug, PartialEq, Eq)]
struct Answer {
    first: u64,
    second: u64,
    third: u64,
}

// A stored case: the place in the cases where its bytes begin.
#[derive(Clone, Copy)]
struct Stored<'a> {
    cases: &'a [u8],
    at: usize,
    ghost whole: { at + 54 ≤ length cases.now },
}

// What a caller gives first: the number of a policy, and the database unit.
#[derive(Clone, Copy, Debug, PartialEq)]
struct Caller {
    policy: u8,
    d: f64,
}

fn signed_at(cases: &[u8], at: usize) -> i32
    requires { at + 4 ≤ length cases.now }
    ensures { result ≡ signed_at cases.now at }
{
    big_endian::as_i32(big_endian::u32_at(cases, at))
}

// Any other number is strict: the program takes every byte.
fn policy_of(n: u8) -> GdsRoundingPolicy
    ensures { result ≡ policy_of n }
{
    GdsRoundingPolicy::try_from(n).unwrap_or(GdsRoundingPolicy::ErrorIfOffGrid)
}

fn unit_at(what: u8, cases: &[u8], at: usize) -> Unit
    requires { at + 16 ≤ length cases.now }
    ensures { result ≡ unit_at what cases.now at }
{
    let units = test_report::double_at(cases, at + 8);
    match what {
        INTEGER => Unit::Integer {
            value: signed_at(cases, at + 4),
            units,
        },
        _ => Unit::Float {
            value: test_report::double_at(cases, at),
            units,
        },
    }
}

impl Stored<'_> {
    // The caller of the case.
    fn caller(&self) -> Caller
        ensures policy { result.policy ≡ number_at 1 self.now.cases.now (self.now.at + 1) }
        ensures unit { result.d ≡ double_at self.now.cases.now (self.now.at + 2) }
    {
        Caller {
            policy: big_endian::u8_at(self.cases, self.at + POLICY),
            d: test_report::double_at(self.cases, self.at + DATABASE_UNIT),
        }
    }

    fn converter(&self) -> CoordinateConverter
        ensures { result ≡ converter_at self.now.cases.now self.now.at }
    {
        let caller = self.caller();
        CoordinateConverter {
            policy: policy_of(caller.policy),
            d: caller.d,
        }
    }

    // An array's endpoint.
    #[tactic(auto, unfolding(crate::specs::Case::endpoint_at))]
    fn endpoint(&self) -> Result<Conversion, Refusal>
        ensures { (spot : Spot) → outcome spot result ≡ Case.endpoint_at self.now.cases.now self.now.at spot }
    {
        let converter = self.converter();
        let p = test_report::double_at(self.cases, self.at + VALUE);
        let origin = signed_at(self.cases, self.at + ORIGIN);
        let spacing = signed_at(self.cases, self.at + SPACING);
        let count = big_endian::u32_at(self.cases, self.at + COUNT);
        converter.checked_array_endpoint(origin, spacing, count, p)
    }

    // A coordinate.
    #[tactic(auto, unfolding(crate::specs::Case::coordinate_at))]
    fn coordinate(&self, what: u8) -> Result<Conversion, Refusal>
        ensures { (spot : Spot) → outcome spot result ≡ Case.coordinate_at what self.now.cases.now self.now.at spot }
    {
        let converter = self.converter();
        let u = unit_at(what, self.cases, self.at + VALUE);
        converter.convert_unit(u)
    }

    // The conversion of the case.
    #[tactic(auto, unfolding(crate::specs::Case::converted_at))]
    fn converted(&self) -> Result<Conversion, Refusal>
        ensures { (spot : Spot) → outcome spot result ≡ converted_at self.now.cases.now self.now.at spot }
    {
        match big_endian::u8_at(self.cases, self.at) {
            ENDPOINT => self.endpoint(),
            what => self.coordinate(what),
        }
    }

    // The answer of two bounds.
    #[tactic(auto, unfolding(crate::specs::Case::range_at))]
    fn range_answer(&self) -> Answer
        ensures { result ≡ range_answer (range_at self.now.cases.now self.now.at) }
    {
        let caller = self.caller();
        let lower = test_report::double_at(self.cases, self.at + LOWER);
        let upper = test_report::double_at(self.cases, self.at + UPPER);
        match bounds::convert_bounds(caller.policy, caller.d, lower, upper) {
            Err(refusal) => refusal_answer(refusal),
            Ok(DatabaseRange { least, greatest }) => Answer {
                first: u64::from(big_endian::as_u32(least)),
                second: u64::from(big_endian::as_u32(greatest)),
                third: 0,
            },
        }
    }

    // The answer of a pitch survey.
    #[tactic(auto, unfolding(crate::specs::Case::survey_at))]
    fn survey_answer(&self) -> Answer
        ensures { result ≡ survey_answer (survey_at self.now.cases.now self.now.at) }
    {
        let caller = self.caller();
        let pitch = test_report::double_at(self.cases, self.at + PITCH);
        let n = big_endian::u32_at(self.cases, self.at + PLACES);
        match survey::survey_pitch(caller.policy, caller.d, pitch, n) {
            Err(refusal) => refusal_answer(refusal),
            Ok(counts) => Answer {
                first: u64::from(counts.clean),
                second: u64::from(counts.due),
                third: u64::from(counts.refused),
            },
        }
    }

    // The answer of the case.
    #[tactic(auto, unfolding(crate::specs::Case::answer_at))]
    fn answer(&self) -> Answer
        ensures { result ≡ answer_at self.now.cases.now self.now.at }
    {
        match big_endian::u8_at(self.cases, self.at) {
            BOUNDS => self.range_answer(),
            SURVEY => self.survey_answer(),
            _ => answer_of(self.converted()),
        }
    }

    // The answer that is stored with it.
    fn stored_answer(&self) -> Answer
        ensures { result ≡ stored_at self.now.cases.now (self.now.at + 30) }
    {
        let at = self.at + ANSWER;
        Answer {
            first: big_endian::u64_at(self.cases, at),
            second: big_endian::u64_at(self.cases, at + 8),
            third: big_endian::u64_at(self.cases, at + 16),
        }
    }
}

fn refusal_answer(refusal: Refusal) -> Answer
    ensures { result ≡ answer_of (refused refusal) }
{
    Answer {
        first: u64::from(refusal.number()) * REFUSAL,
        second: 0,
        third: 0,
    }
}

fn answer_of(c: Result<Conversion, Refusal>) -> Answer
    ensures { (spot : Spot) → result ≡ answer_of (outcome spot c) }
{
    match c {
        Err(refusal) => refusal_answer(refusal),
        Ok(Conversion::Converted { value }) => Answer {
            first: u64::from(big_endian::as_u32(value)),
            second: 0,
            third: 0,
        },
        Ok(
            Conversion::Quantized {
                value,
                physical,
                error,
            },
        ) => Answer {
            first: COUNTS + u64::from(big_endian::as_u32(value)),
            second: binary64::to_bits(physical),
            third: binary64::to_bits(error),
        },
    }
}

// Whether case k has the answer that the code gives.
#[tactic(auto, unfolding(crate::specs::Case::agrees, crate::specs::Case::words_at))]
fn agrees(cases: &[u8], k: usize) -> bool
    requires { 54 * k + 54 ≤ length cases.now }
    ensures { result ≡ Case.agrees cases.now k }
{
    let at = SIZE * k;
    let case = Stored { cases, at };
    case.answer() == case.stored_answer()
}

// Prints the number of each case that differs, and answers how many do.
fn differ(cases: &[u8]) -> usize
    ensures { result ≡ differing (Case.agrees cases.now) (length cases.now / 54) }
{
    test_report::differ(cases.len() / SIZE, |k| agrees(cases, k))
}

fn main() {
    let mut input = test_report::room();
    let n = io::read_full(0, &mut input);
    let found = differ(&input[..n]);
    test_report::tell_counts(n / SIZE, found);
}
