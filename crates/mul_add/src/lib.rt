// a * b + c with one rounding, IEEE 754's fusedMultiplyAdd, worked out from the bits.
//
// The digits of a, b and c are normalized. The product is taken in 128 bits, the addend is moved up to be as long, and the two are aligned, added and rounded once.
#![tactic(auto)]

mod add;
mod jam;
mod pack;
mod places;

ghost use Rattle.std.specs.Prelude.{◌≡◌, ◌^◌, ◌<◌, T};
ghost use Rattle.std.specs.Float.{binary64};
ghost use Rattle.std.specs.Float.Ieee.Scale.{finite};
ghost use Rattle.binary64.specs.Fma.{fma};
ghost use Rattle.mul_add.specs.code.Normal.{Normal};

use add::{Term, add};
use places::{ADDEND, RAISE, WORD};

// digits * 2 ^ power
#[derive(Clone, Copy)]
struct Scaled {
    digits: u64,
    power: u64,
}

// m * 2 ^ power with 63 digits, and the power counted with a word's more.
fn normal(m: u64, power: u64) -> Scaled
    requires m_nonzero { 0 < m }
    requires m_bound { m < 2 ^ 53 }
    requires power_bound { power < 2 ^ 32 }
    ensures { Normal m power result.digits result.power }
{
    let z = m.leading_zeros() as u64 - 1;
    Scaled {
        digits: m << z,
        power: power + WORD - z,
    }
}

// Of finite doubles. A product or an addend that is zero is left to the machine's operators: there they round once at most, and they give a zero its sign.
fn mul_add_finite(a: f64, b: f64, c: f64) -> f64
    requires a_finite { T (finite a) }
    requires b_finite { T (finite b) }
    requires c_finite { T (finite c) }
    ensures { result ≡ fma binary64 a b c }
{
    let x = binary64::unpack(a);
    let y = binary64::unpack(b);
    let z = binary64::unpack(c);
    if x.digits == 0 || y.digits == 0 {
        a * b + c
    } else if z.digits == 0 {
        a * b
    } else {
        let u = normal(x.digits, x.power);
        let v = normal(y.digits, y.power);
        let w = normal(z.digits, z.power);
        let p = Term {
            negative: x.negative != y.negative,
            digits: u.digits as u128 * v.digits as u128,
            power: u.power + v.power,
        };
        let q = Term {
            negative: z.negative,
            digits: (w.digits as u128) << RAISE,
            power: w.power + ADDEND,
        };
        add(p, q)
    }
}

// a * b + c, rounded once, for every a, b and c.
pub fn mul_add(a: f64, b: f64, c: f64) -> f64
    ensures { result ≡ fma binary64 a b c }
{
    if !binary64::is_finite(a) || !binary64::is_finite(b) {
        a * b + c
    } else if !binary64::is_finite(c) {
        c
    } else {
        mul_add_finite(a, b, c)
    }
}
