// A number of 64 bits or 128, as a fraction over 2 ^ SCALE, to the nearest double.
ghost use Rattle.std.specs.Prelude.{◌≡◌, ◌*◌, ◌^◌, ◌≤◌, ◌<◌};
ghost use Rattle.std.specs.Float.{binary64};
ghost use Rattle.std.specs.Float.Ieee.{round};
ghost use Rattle.std.specs.Float.Ieee.Nearest.{closest};
ghost use Rattle.mul_add.specs.code.Places.{scale};
ghost use Rattle.mul_add.specs.code.Pattern.{Pattern};

use super::jam::shift_right_jam;
use super::places::{EXCESS, HIDDEN, INFINITE_FROM, INFINITY, NORMAL_FROM, UNIT_PLACE, WORD};
use binary64::SIGN;

// Half of 2 ^ WORD.
const HALF_RANGE: u64 = 0x8000_0000_0000_0000;

// n / 2 ^ shift to the nearest whole number, a tie to the even one.
fn half_even(n: u64, shift: u64) -> u64
    requires { 1 ≤ shift }
    ensures { result ≡ closest n (2 ^ shift) }
{
    if shift < WORD {
        let q = n >> shift;
        let rest = n - (q << shift);
        let half = 1u64 << (shift - 1);
        if rest < half {
            q
        } else if half < rest {
            q + 1
        } else {
            q + q % 2
        }
    } else if shift == WORD {
        if n <= HALF_RANGE { 0 } else { 1 }
    } else {
        0
    }
}

// The pattern of m * 2 ^ power over 2 ^ SCALE, rounded. A carry out of the digits adds one to the exponent's field, as it should.
// Digits and power stand apart, here and below: a struct would be passed through memory, which takes time (docs/BENCHMARK.md).
fn pattern(m: u64, power: u64) -> u64
    requires { power < 2 ^ 32 }
    ensures { Pattern m power result }
{
    if m == 0 {
        0
    } else {
        let z = m.leading_zeros() as u64;
        let n = m << z;
        let e = power + WORD - z;
        if e < NORMAL_FROM {
            half_even(n, UNIT_PLACE - e)
        } else if e < INFINITE_FROM {
            (e - NORMAL_FROM) * HIDDEN + half_even(n, EXCESS)
        } else {
            INFINITY
        }
    }
}

// m * 2 ^ power over 2 ^ SCALE with a sign, rounded.
fn pack(negative: bool, m: u64, power: u64) -> f64
    requires { power < 2 ^ 32 }
    ensures { result ≡ round binary64 negative (m * 2 ^ power) (2 ^ scale) }
{
    let p = pattern(m, power);
    if negative {
        f64::from_bits(p + SIGN)
    } else {
        f64::from_bits(p)
    }
}

// The same of a number of 128 bits: jammed to 64, it rounds alike.
pub(crate) fn pack_wide(negative: bool, n: u128, power: u64) -> f64
    requires { power < 2 ^ 31 }
    ensures { result ≡ round binary64 negative (n * 2 ^ power) (2 ^ scale) }
{
    if n >> WORD == 0 {
        pack(negative, n as u64, power)
    } else {
        let d = WORD - n.leading_zeros() as u64;
        let w = shift_right_jam(n, d);
        pack(negative, w as u64, power + d)
    }
}
