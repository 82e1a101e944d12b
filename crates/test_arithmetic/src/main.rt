// Runs the functions on doubles on known results that another implementation gave: prints the number of each case that differs, then how many cases there are and how many differ.
#![tactic(auto)]

ghost use Rattle.std.specs.Prelude.{◌≡◌, ◌+◌, ◌*◌, ◌/◌, ◌≤◌, length, slice_index};
ghost use Rattle.binary64.specs.code.Whole.{rounded};
ghost use Rattle.test_arithmetic.specs.Whole.{whole_of};
ghost use Rattle.test_arithmetic.specs.Case as Case;
ghost use Rattle.test_arithmetic.specs.Case.{double_of, results};
ghost use Rattle.test_report.specs.Cases.{differing};

use binary64::Direction;

// The bytes of a case: a function's number, then three operands and the result at these places.
const SIZE: usize = 33;

const FIRST: usize = 1;

const SECOND: usize = 9;

const THIRD: usize = 17;

const RESULT: usize = 25;

// The functions' numbers (tools/known_results.c). No enum: the number is a byte of a stored case, and every byte has an answer.
const MUL_ADD: u8 = 0;

const ROUND: u8 = 1;

const FLOOR: u8 = 2;

const CEIL: u8 = 3;

const WITHIN_ONE_ULP: u8 = 4;

const BITS: u8 = 5;

const IS_FINITE: u8 = 6;

const IS_POSITIVE: u8 = 7;

// From this power of two on, in units of 2 ^ -1074, a double is a whole number of 2 ^ 52 or more.
const WHOLE: u64 = 1074;

// A whole number near a double.
#[derive(Clone, Copy)]
enum Whole {
    // of a NaN or an infinity
    NotFinite,
    // of a double of 2 ^ 52 or more in size: it is whole itself
    Beyond,
    At { value: i64 },
}

// x to a whole number, by the functions that a conversion runs.
fn to_whole(direction: Direction, x: f64) -> Whole
    ensures { result ≡ whole_of (rounded direction) x }
{
    if binary64::is_finite(x) {
        let p = binary64::unpack(x);
        if p.power < WHOLE {
            let n = binary64::size_toward(direction, p.negative, p.digits, p.power);
            Whole::At {
                value: binary64::with_sign(p.negative, n),
            }
        } else {
            Whole::Beyond
        }
    } else {
        Whole::NotFinite
    }
}

// The answer of a rounding of x, as a double.
fn double_of(x: f64, w: Whole) -> f64
    ensures { result ≡ double_of x w }
{
    match w {
        Whole::NotFinite => 0.0 / 0.0,
        Whole::Beyond => x,
        Whole::At { value } => std::num::nearest_i64_to_f64(value),
    }
}

// What the function with that number gives.
#[tactic(auto, unfolding(crate::specs::Case::results))]
fn result(function: u8, x: f64, y: f64, z: f64) -> u64
    ensures { result ≡ slice_index (results x y z) function }
{
    match function {
        MUL_ADD => binary64::to_bits(mul_add::mul_add(x, y, z)),
        ROUND => binary64::to_bits(double_of(x, to_whole(Direction::Nearest, x))),
        FLOOR => binary64::to_bits(double_of(x, to_whole(Direction::Down, x))),
        CEIL => binary64::to_bits(double_of(x, to_whole(Direction::Up, x))),
        WITHIN_ONE_ULP => u64::from(binary64::within_one_ulp(x, y)),
        BITS => binary64::to_bits(x),
        IS_FINITE => u64::from(binary64::is_finite(x)),
        IS_POSITIVE => u64::from(binary64::is_positive(x)),
        _ => 0,
    }
}

// Whether case k has the result that its function gives.
#[tactic(auto, unfolding(crate::specs::Case::agrees))]
fn agrees(cases: &[u8], k: usize) -> bool
    requires { 33 * k + 33 ≤ length cases.now }
    ensures { result ≡ Case.agrees cases.now k }
{
    let at = SIZE * k;
    let function = big_endian::u8_at(cases, at);
    let x = test_report::double_at(cases, at + FIRST);
    let y = test_report::double_at(cases, at + SECOND);
    let z = test_report::double_at(cases, at + THIRD);
    let known = big_endian::u64_at(cases, at + RESULT);
    result(function, x, y, z) == known
}

// Prints the number of each case that differs, and answers how many do.
fn differ(cases: &[u8]) -> usize
    ensures { result ≡ differing (Case.agrees cases.now) (length cases.now / 33) }
{
    test_report::differ(cases.len() / SIZE, |k| agrees(cases, k))
}

fn main() {
    let mut input = io::large_buffer();
    let n = io::read_full(0, &mut input);
    let found = differ(&input[..n]);
    test_report::tell_counts(n / SIZE, found);
}
