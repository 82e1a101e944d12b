// Doubles worked out from their bits: patterns, finite and positive, the magnitude, rounding to whole numbers, one step.
// Every function is total on what raw input can reach; what has a `requires` works on digits and powers, below those.
#![tactic(auto)]

ghost use Rattle.std.specs.Prelude.{◌≡◌, ◌&&◌, cond, ◌+◌, ◌-◌, ◌*◌, ◌^◌, ◌<◌, min, T, leb};
ghost use Rattle.std.specs.Float.{binary64};
ghost use Rattle.std.specs.Float.Ieee.{of_bits, to_bits};
ghost use Rattle.std.specs.Float.Ieee.Scale.{finite};
ghost use Rattle.std.specs.Float.Ieee.Positive.{positive};
ghost use Rattle.binary64.specs.Value as Value;
ghost use Rattle.binary64.specs.Value.{half_up, cut_down, cut_up, signed};
ghost use Rattle.binary64.specs.code.Parts.{PartsOf};
ghost use Rattle.binary64.specs.code.Whole.{size_toward};
ghost use Rattle.binary64.specs.Step.{ordered_bits, one_step};

// A pattern is the sign, 11 bits of the exponent's field, and 52 binary digits.
// The sign's weight.
pub const SIGN: u64 = 0x8000_0000_0000_0000;
// The field's weight, which is that of the leading digit, the one that a pattern leaves out.
const LEADING: u64 = 0x10_0000_0000_0000;
// The pattern of the infinity: all of the field's bits. With the sign taken off, the NaNs' patterns are those above it.
const INFINITE: u64 = 0x7ff0_0000_0000_0000;
// The pattern that stands for every NaN: the highest digit alone.
const NAN: u64 = 0x7ff8_0000_0000_0000;
// 1 is 2 ^ 1074 of the smallest doubles, the units: digits * 2 ^ power units are a whole number from this power on.
pub const ONE_POWER: u64 = 1074;
// One more than the 53 digits of a double: what lies so far below the point is less than a half.
const MOST_PLACES: u64 = 54;

// The double that a bit pattern stands for, a NaN's patterns included: the library's `from_bits` takes none of these.
pub fn from_bits(bits: u64) -> f64
    ensures { result ≡ of_bits binary64 bits }
{
    if INFINITE < bits % SIGN {
        f64::NAN
    } else {
        f64::from_bits(bits)
    }
}

// The bit pattern of a double; one and the same for every NaN, of which the library's `to_bits` gives none.
pub fn to_bits(x: f64) -> u64
    ensures { result ≡ to_bits binary64 x }
{
    if x.is_nan() { NAN } else { x.to_bits() }
}

// Whether x is neither a NaN nor an infinity. By comparing: the library's test subtracts, and an infinity less itself is an invalid operation, which a caller in C may have made fatal.
pub fn is_finite(x: f64) -> bool
    ensures { result ≡ finite x }
{
    f64::NEG_INFINITY < x && x < f64::INFINITY
}

// Whether x is finite and above 0.
pub fn is_positive(x: f64) -> bool
    ensures { result ≡ positive x }
{
    0.0 < x && x < f64::INFINITY
}

// x without its sign: its bits but the first. No branch on the sign, as the library's has: nothing foretells it.
pub fn abs(x: f64) -> f64
    ensures { result ≡ Value.abs x }
{
    if x.is_nan() {
        x
    } else {
        f64::from_bits(x.to_bits() % SIGN)
    }
}

// The sign of a double, and its size as `digits` * 2 ^ `power` units.
#[derive(Clone, Copy, Debug, PartialEq, Eq)]
pub struct Parts {
    pub negative: bool,
    pub digits: u64,
    pub power: u64,
}

pub fn unpack(x: f64) -> Parts
    requires { T (finite x) }
    ensures { PartsOf x result.negative result.digits result.power }
{
    let bits = x.to_bits();
    let negative = bits >= SIGN;
    let field = bits % SIGN / LEADING;
    let digits = bits % LEADING;
    if field == 0 {
        Parts {
            negative,
            digits,
            power: 0,
        }
    } else {
        Parts {
            negative,
            digits: digits + LEADING,
            power: field - 1,
        }
    }
}

// digits * 2 ^ power units, of which the last digit stands below the point.
#[derive(Clone, Copy)]
struct Fraction {
    digits: u64,
    power: u64,
    ghost few: { digits < 2 ^ 53 },
    ghost below: { power < 1074 },
}

impl Fraction {
    // How many binary places stand below the point; more than `MOST_PLACES` make no difference, and are too many to shift by.
    fn places(self) -> u64
        ensures { result ≡ min (1074 - self.power) 54 }
    {
        (ONE_POWER - self.power).min(MOST_PLACES)
    }

    // To the nearest whole number, a half up.
    fn to_nearest(self) -> u64
        ensures { result ≡ half_up (self.digits * 2 ^ self.power) }
    {
        let n = self.places();
        (self.digits + (1 << (n - 1))) >> n
    }

    // Cut down to a whole number.
    fn cut(self) -> u64
        ensures { result ≡ cut_down (self.digits * 2 ^ self.power) }
    {
        self.digits >> self.places()
    }

    // Cut up to a whole number.
    fn cut_up(self) -> u64
        ensures { result ≡ cut_up (self.digits * 2 ^ self.power) }
    {
        let n = self.places();
        (self.digits + (1 << n) - 1) >> n
    }

    // Cut up or down to a whole number.
    fn cut_by(self, up: bool) -> u64
        ensures { result ≡ cond up (cut_up (self.digits * 2 ^ self.power)) (cut_down (self.digits * 2 ^ self.power)) }
    {
        if up { self.cut_up() } else { self.cut() }
    }
}

// `size` with a sign.
pub fn with_sign(negative: bool, size: u64) -> i64
    requires { size < 2 ^ 63 }
    ensures { result ≡ signed negative size }
{
    let n = size as i64;
    if negative { -n } else { n }
}

// To which whole number a double goes: the nearest with a half away from zero, the one below or the one above
// (IEEE 754, 5.9: roundToIntegralTiesToAway, roundToIntegralTowardNegative, roundToIntegralTowardPositive).
#[derive(Clone, Copy, Debug, PartialEq, Eq)]
pub enum Direction {
    Nearest,
    Down,
    Up,
}

// digits * 2 ^ power units with a sign, to a whole number in a direction: its size. Digits and power come apart: a `Parts` would be passed through memory, and its power may be larger than a `Fraction`'s.
pub fn size_toward(direction: Direction, negative: bool, digits: u64, power: u64) -> u64
    requires digits_bound { digits < 2 ^ 53 }
    requires power_bound { power < 1074 }
    ensures { result ≡ size_toward direction negative (digits * 2 ^ power) }
{
    let fraction = Fraction { digits, power };
    match direction {
        Direction::Nearest => fraction.to_nearest(),
        Direction::Down => fraction.cut_by(negative),
        Direction::Up => fraction.cut_by(!negative),
    }
}

// A pattern's place in the order of the doubles.
fn ordered_bits(bits: u64) -> u64
    ensures { result ≡ ordered_bits bits }
{
    if bits >= SIGN { !bits } else { bits + SIGN }
}

// Whether a and b differ by one at most.
fn within_one(a: u64, b: u64) -> bool
    ensures { result ≡ leb a (b + 1) && leb b (a + 1) }
{
    a.abs_diff(b) <= 1
}

// Whether x and y are at most one step apart; the two zeros are one step from each other.
pub fn within_one_ulp(x: f64, y: f64) -> bool
    ensures { result ≡ one_step x y }
{
    within_one(ordered_bits(to_bits(x)), ordered_bits(to_bits(y)))
}
