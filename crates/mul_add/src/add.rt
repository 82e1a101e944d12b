// The sum of two numbers of 128 bits with signs, over 2 ^ SCALE, rounded once.
ghost use Rattle.std.specs.Prelude.{◌≡◌, ◌*◌, ◌^◌, ◌<◌};
ghost use Rattle.std.specs.Float.Ieee as Ieee;
ghost use Rattle.std.specs.Float.{binary64};
ghost use Rattle.mul_add.specs.code.Places.{scale};
ghost use Rattle.mul_add.specs.code.Normal.{Ready};

use super::jam::shift_right_jam;
use super::pack::pack_wide;

// digits * 2 ^ power with a sign: true is minus.
#[derive(Clone, Copy)]
pub(crate) struct Term {
    pub(crate) negative: bool,
    pub(crate) digits: u128,
    pub(crate) power: u64,
}

// (±x ± y) * 2 ^ power. s and t are the signs of x and y. They stand apart, as in `pack`: a struct would be passed through memory.
fn add_at(s: bool, x: u128, t: bool, y: u128, power: u64) -> f64
    requires x_bound { x < 2 ^ 126 }
    requires y_bound { y < 2 ^ 126 }
    requires power_bound { power < 2 ^ 31 }
    ensures { result ≡ Ieee.sum binary64 s (x * 2 ^ power) t (y * 2 ^ power) (2 ^ scale) }
{
    if s == t {
        pack_wide(s, x + y, power)
    } else if x < y {
        pack_wide(t, y - x, power)
    } else if y < x {
        pack_wide(s, x - y, power)
    } else {
        // Exactly zero, and the signs differ: plus (IEEE 754, 6.3).
        0.0
    }
}

// x + y. The one with the smaller power is aligned with the other: shifted right and jammed.
pub(crate) fn add(x: Term, y: Term) -> f64
    requires x_ready { Ready x.digits x.power }
    requires y_ready { Ready y.digits y.power }
    ensures { result ≡ Ieee.sum binary64 x.negative (x.digits * 2 ^ x.power) y.negative (y.digits * 2 ^ y.power) (2 ^ scale) }
{
    if y.power <= x.power {
        let aligned = shift_right_jam(y.digits, x.power - y.power);
        add_at(x.negative, x.digits, y.negative, aligned, x.power)
    } else {
        let aligned = shift_right_jam(x.digits, y.power - x.power);
        add_at(y.negative, y.digits, x.negative, aligned, y.power)
    }
}
