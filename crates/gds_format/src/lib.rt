// Eight-byte reals (write/gds_format.rs of gdsr).
#![tactic(auto)]

ghost use Rattle.std.specs.Prelude.{◌≡◌, false, ◌+◌, ◌-◌, ◌*◌, ◌^◌, ◌<◌, ◌≤◌, T, ltb, pos, ◌-ℤ◌};
ghost use Rattle.std.specs.Float.Ieee.Scale.{finite};
ghost use Rattle.binary64.specs.Value.{size_of, negative, floor_div};
ghost use Rattle.gds_format.specs.Real8.{min_magnitude, max_magnitude, floor_mod, exponent_bits, pattern, values_of};
ghost use Rattle.gds_format.specs.Faithful.{EncodesReal};
ghost use Rattle.gds_format.specs.code.Power.{zero_power, least_power, end_power};
ghost use Rattle.refusal.specs.declared.Refusal.TheVariants as the;

use refusal::Refusal;

#[derive(Clone, Copy, Debug, PartialEq, Eq)]
pub enum GdsReal8Error {
    NonFinite,
    MagnitudeTooSmall,
    MagnitudeTooLarge,
}

// Who has no use for the reason has one refusal for all three.
impl From<GdsReal8Error> for Refusal {
    ghost from_gives = { λ e r. r ≡ the.Real };

    fn from(_: GdsReal8Error) -> Refusal {
        Refusal::Real
    }
}

// An eight-byte real. Its bytes are those of `pattern`, the highest first: the number that a record's eight bytes are put from.
#[derive(Clone, Copy, Debug, PartialEq, Eq)]
pub struct Real8 {
    pub pattern: u64,
}

impl Real8 {
    // Smallest positive normalized value, 16^-65 = 2^-260.
    pub const MIN_MAGNITUDE: f64 = 5.397605346934028e-79;
    // Exclusive upper magnitude bound, 16^63 = 2^252.
    pub const MAX_MAGNITUDE: f64 = 7.237005577332262e75;

    // The eight-byte real that equals x, in gdsr `eight_byte_real`.
    pub fn encode(x: f64) -> Result<Real8, GdsReal8Error>
        ensures { EncodesReal x (values_of result) }
    {
        if !binary64::is_finite(x) {
            return Err(GdsReal8Error::NonFinite);
        }
        if x == 0.0 {
            return Ok(Real8 { pattern: 0 });
        }
        if magnitude_below(x, Real8::MIN_MAGNITUDE) {
            return Err(GdsReal8Error::MagnitudeTooSmall);
        }
        if magnitude_below(x, Real8::MAX_MAGNITUDE) {
            let pattern = normalized_pattern(x);
            return Ok(Real8 { pattern });
        }
        Err(GdsReal8Error::MagnitudeTooLarge)
    }
}

// The weight of a pattern's sign bit. A number of its own: a double's pattern is another format.
const SIGN: u64 = 0x8000_0000_0000_0000;

// The weight of the exponent's last bit: below it stand the 56 bits of the fraction.
const EXPONENT: u64 = 0x100_0000_0000_0000;

// The exponent's bits are the quotient by 4, plus 1 because the fraction is below 1, plus 64.
const EXCESS: i32 = 65;

// The last of a significand's 53 digits stands for 2^power units of 2^-1074, and the first for 2^52 times that: the binary exponent is power + 52 - 1074.
const LAST_DIGIT: i32 = 1022;

// Whether |x| is below a limit that is not negative.
fn magnitude_below(x: f64, limit: f64) -> bool
    requires x_finite { T (finite x) }
    requires limit_finite { T (finite limit) }
    requires limit_positive { negative limit ≡ false }
    ensures { result ≡ ltb (size_of x) (size_of limit) }
{
    -limit < x && x < limit
}

// The binary exponent of a significand whose last digit stands for 2^power units.
fn binary_exponent(power: u64) -> i32
    requires { power < 2 ^ 31 }
    ensures { result ≡ pos power -ℤ pos zero_power }
{
    power as i32 - LAST_DIGIT
}

// The exponent's seven bits, of a magnitude between the limits.
fn exponent_bits(power: u64) -> u64
    requires least_power_le_power { least_power ≤ power }
    requires power_lt_end_power { power < end_power }
    ensures { result ≡ exponent_bits (pos power -ℤ pos zero_power) }
{
    (binary_exponent(power).div_euclid(4) + EXCESS) as u64
}

// The fraction: the significand, shifted by the exponent's remainder.
fn fraction(digits: u64, power: u64) -> u64
    requires digits_bound { digits < 2 ^ 53 }
    requires power_bound { power < 2 ^ 31 }
    ensures { result ≡ digits * 2 ^ floor_mod (pos power -ℤ pos zero_power) 4 }
{
    digits << binary_exponent(power).rem_euclid(4)
}

// The pattern of an x between the limits.
fn normalized_pattern(x: f64) -> u64
    requires x_finite { T (finite x) }
    requires min_magnitude_bound { min_magnitude ≤ size_of x }
    requires x_bound { size_of x < max_magnitude }
    ensures { result ≡ pattern (negative x) (size_of x) }
{
    let parts = binary64::unpack(x);
    let power = parts.power;
    let pattern = exponent_bits(power) * EXPONENT + fraction(parts.digits, power);
    if parts.negative {
        SIGN + pattern
    } else {
        pattern
    }
}
