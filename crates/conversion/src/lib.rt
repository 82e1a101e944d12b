// Physical values to the database grid, and the report entry of an element (write/conversion.rs).
// Nothing is required of the database unit d: the definitions say what each answer is for every double.
#![tactic(auto)]

ghost use Rattle.std.specs.Prelude.{◌≡◌, ◌+◌, ◌≤◌, ◌<◌, ◌^◌, length, T, Ok, IfOk, MatchResult};
ghost use Rattle.std.specs.Float.{binary64};
ghost use Rattle.std.specs.Float.Ieee.{round, div};
ghost use Rattle.std.specs.Float.Ieee.Scale.{finite};
ghost use Rattle.binary64.specs.Value.{negative};
ghost use Rattle.binary64.specs.Step.{one_step};
ghost use Rattle.conversion.specs.Made.{refused, made, pure};
ghost use Rattle.conversion.specs.Policy.{policy_of, named, caller_policy};
ghost use Rattle.conversion.specs.Convert as Convert;
ghost use Rattle.conversion.specs.Convert.{Spot, grid_value, database_value, deviations, convert_physical, physical_value, convert_unit, array_endpoint};
ghost use Rattle.conversion.specs.code.Answer.{made_of, outcome, point_of};
ghost use Rattle.conversion.specs.Array as Array;
ghost use Rattle.conversion.specs.Array.{endpoint_physical};
ghost use Rattle.big_endian.specs.Buffer.{WroteAt};
ghost use Rattle.conversion.specs.Entry.{takes, place_bytes, entry_bytes, entry_length};
ghost use Rattle.conversion.specs.code.Fold.{blank_entry, represented_by, place_length, noted, Spare};

use binary64::{Direction, SIGN};
use refusal::Refusal;
use units::Unit;

// The rounding applied where a physical value is not on the grid.
#[derive(Clone, Copy, Debug, PartialEq, Eq)]
pub enum GdsRoundingPolicy {
    Nearest,
    Floor,
    Ceil,
    ErrorIfOffGrid,
}

impl TryFrom<u8> for GdsRoundingPolicy {
    type Error = Refusal;

    ghost try_from_gives = { λ n r. made_of r ≡ named (policy_of n) };

    // The policy of a number up to 3.
    fn try_from(n: u8) -> Result<GdsRoundingPolicy, Refusal> {
        match n {
            0 => Ok(GdsRoundingPolicy::Nearest),
            1 => Ok(GdsRoundingPolicy::Floor),
            2 => Ok(GdsRoundingPolicy::Ceil),
            3 => Ok(GdsRoundingPolicy::ErrorIfOffGrid),
            _ => Err(Refusal::Policy),
        }
    }
}

// A report entry's fields (document 01, "Result three"; specs/Field.antt). Fields, axes and kinds stay numbers: document 01 stores an entry's bytes as integers of any value, and an enum would take fewer from callers than `Entry` does.
pub const POINT_FIELD: u8 = 0;

pub const WIDTH_FIELD: u8 = 1;

pub const BEGIN_FIELD: u8 = 2;

pub const END_FIELD: u8 = 3;

pub const ORIGIN_FIELD: u8 = 4;

pub const COLUMN_SPACING_FIELD: u8 = 5;

pub const ROW_SPACING_FIELD: u8 = 6;

pub const COLUMN_ENDPOINT_FIELD: u8 = 7;

pub const ROW_ENDPOINT_FIELD: u8 = 8;

// The bytes of an entry.
pub const ENTRY_LENGTH: usize = 33;

// Its axes.
pub const X_AXIS: u8 = 0;

pub const Y_AXIS: u8 = 1;

pub const NO_AXIS: u8 = 2;

// From this power of two on, in units of 2 ^ -1074, a double is a whole number of 2 ^ 52 or more.
const WHOLE: u64 = binary64::ONE_POWER;

// The database value, or that with a deviation that counts.
#[derive(Clone, Copy, Debug, PartialEq)]
pub enum Conversion {
    Converted {
        value: i32,
    },
    Quantized {
        value: i32,
        physical: f64,
        error: f64,
    },
}

// What every conversion goes by: the rounding policy, and the database unit d (gdsr's `database_units`).
#[derive(Clone, Copy, Debug, PartialEq)]
pub struct CoordinateConverter {
    pub policy: GdsRoundingPolicy,
    pub d: f64,
}

// The physical values of a point.
#[derive(Clone, Copy, Debug, PartialEq)]
pub struct PhysicalPoint {
    pub x: f64,
    pub y: f64,
}

// The database values of a point.
#[derive(Clone, Copy, Debug, PartialEq, Eq)]
pub struct DatabasePoint {
    pub x: i32,
    pub y: i32,
}

// A caller's first checks: the policy's number, then the database unit. A caller in C hands a number, and refusal 1 is of the number.
pub fn caller_policy(n: u8, d: f64) -> Result<GdsRoundingPolicy, Refusal>
    ensures { made_of result ≡ caller_policy n d }
{
    let policy = GdsRoundingPolicy::try_from(n)?;
    if binary64::is_positive(d) {
        Ok(policy)
    } else {
        Err(Refusal::DatabaseUnit)
    }
}

// A whole number, if 32 bits hold it.
fn ranged(z: i64) -> Result<i32, Refusal>
    ensures { made_of result ≡ Convert.ranged z }
{
    i32::try_from(z).map_err(|_| Refusal::OutOfRange)
}

// Whether s is within one step of the whole number n with the sign of s: their bits but the sign differ by one at most.
#[tactic(auto, using(crate::proofs::SnapLaws::step_apart, crate::proofs::SnapLaws::step_below, crate::proofs::SnapLaws::step_above))]
fn on_grid(s: f64, n: u64) -> bool
    requires s_finite { T (finite s) }
    requires n_bound { n < 2 ^ 53 }
    ensures { result ≡ one_step s (round binary64 (negative s) n 1) }
{
    let a = s.to_bits() % SIGN;
    let b = (n as f64).to_bits();
    a.abs_diff(b) <= 1
}

// The database value of a scaled value.
fn grid_value(policy: GdsRoundingPolicy, s: f64) -> Result<i32, Refusal>
    requires { T (finite s) }
    ensures { made_of result ≡ grid_value policy s }
{
    let u = binary64::unpack(s);
    let negative = u.negative;
    let digits = u.digits;
    let power = u.power;
    if power >= WHOLE {
        return Err(Refusal::OutOfRange);
    }
    let n = binary64::size_toward(Direction::Nearest, negative, digits, power);
    let size = match policy {
        GdsRoundingPolicy::Nearest => n,
        _ if on_grid(s, n) => n,
        GdsRoundingPolicy::Floor => binary64::size_toward(Direction::Down, negative, digits, power),
        GdsRoundingPolicy::Ceil => binary64::size_toward(Direction::Up, negative, digits, power),
        GdsRoundingPolicy::ErrorIfOffGrid => return Err(Refusal::OffGrid),
    };
    ranged(binary64::with_sign(negative, size))
}

// q * d - p, two roundings.
fn difference(d: f64, p: f64, q: i32) -> f64
    ensures { result ≡ Convert.difference d p q }
{
    (q as f64) * d - p
}

// A database value q with its deviation, if that counts. s is p / d, which every caller has.
fn quantization(d: f64, p: f64, s: f64, q: i32) -> Conversion
    requires { s ≡ div binary64 p d }
    ensures { (at : Spot) → outcome at (Ok result) ≡ made q (deviations d at p q) }
{
    if binary64::within_one_ulp(s, q as f64) {
        return Conversion::Converted { value: q };
    }
    let error = difference(d, p, q);
    let magnitude = binary64::abs(error);
    if 0.0 < magnitude {
        return Conversion::Quantized {
            value: q,
            physical: p,
            error,
        };
    }
    Conversion::Converted { value: q }
}

// The physical value of a coordinate, in a unit that is finite and positive.
pub fn physical_value(u: Unit) -> Result<f64, Refusal>
    ensures { made_of result ≡ physical_value u }
{
    if !binary64::is_positive(u.units()) {
        return Err(Refusal::SourceUnit);
    }
    let p = u.absolute_value();
    if binary64::is_finite(p) {
        Ok(p)
    } else {
        Err(Refusal::NotFinite)
    }
}

impl CoordinateConverter {
    // The converter of a caller who has passed the first checks.
    pub fn of_caller(policy: u8, d: f64) -> Result<CoordinateConverter, Refusal>
        ensures policy { MatchResult result (λ c. pure c.policy ≡ caller_policy policy d) (λ r. refused r ≡ caller_policy policy d) }
        ensures unit { IfOk result (λ c. c.d ≡ d) }
    {
        let policy = caller_policy(policy, d)?;
        Ok(CoordinateConverter { policy, d })
    }

    // The database value of a physical value, whatever field it stands in.
    pub fn database_value(self, p: f64) -> Result<i32, Refusal>
        ensures { made_of result ≡ database_value self.policy self.d p }
    {
        let s = p / self.d;
        if binary64::is_finite(s) {
            grid_value(self.policy, s)
        } else {
            Err(Refusal::NotFinite)
        }
    }

    // A physical value to the grid.
    pub fn convert_physical(self, p: f64) -> Result<Conversion, Refusal>
        ensures { (at : Spot) → outcome at result ≡ convert_physical self.policy self.d at p }
    {
        let s = p / self.d;
        if !binary64::is_finite(s) {
            return Err(Refusal::NotFinite);
        }
        let value = grid_value(self.policy, s)?;
        Ok(quantization(self.d, p, s, value))
    }

    // A coordinate to the grid: an integer whose unit equals d passes unchanged. A physical value that is not finite is refused by the test of its quotient.
    pub fn convert_unit(self, u: Unit) -> Result<Conversion, Refusal>
        ensures { (at : Spot) → outcome at result ≡ convert_unit self.policy self.d at u }
    {
        let d = self.d;
        if let Unit::Integer { value, units } = u {
            if units == d {
                return Ok(Conversion::Converted { value });
            }
        }
        if binary64::is_positive(u.units()) {
            self.convert_physical(u.absolute_value())
        } else {
            Err(Refusal::SourceUnit)
        }
    }

    // An array's endpoint: origin + count * spacing in whole numbers, with its physical value p.
    pub fn checked_array_endpoint(
        self,
        origin: i32,
        spacing: i32,
        count: u32,
        p: f64,
    ) -> Result<Conversion, Refusal>
        ensures { (at : Spot) → outcome at result ≡ array_endpoint self.d at origin spacing count p }
    {
        if !binary64::is_finite(p) {
            return Err(Refusal::NotFinite);
        }
        let z = (origin as i64) + (spacing as i64) * (count as i64);
        let value = ranged(z)?;
        Ok(quantization(self.d, p, p / self.d, value))
    }
}

// A spacing turned by an angle of which sine and cosine are given.
pub fn turned(sine: f64, cosine: f64, p: PhysicalPoint) -> PhysicalPoint
    ensures { point_of result ≡ Array.turned sine cosine (point_of p) }
{
    PhysicalPoint {
        x: mul_add::mul_add(p.x, cosine, -(p.y * sine)),
        y: mul_add::mul_add(p.x, sine, p.y * cosine),
    }
}

// The physical value of an endpoint: the origin and so many turned spacings.
pub fn endpoint_physical(spacing: f64, count: u32, origin: f64) -> f64
    ensures { result ≡ endpoint_physical spacing count origin }
{
    mul_add::mul_add(spacing, count as f64, origin)
}

// One quantized field: which one, its physical value p, its database value q, and the error q * d - p with its sign.
#[derive(Clone, Copy, Debug, PartialEq)]
pub struct Deviation {
    pub field: u8,
    pub axis: u8,
    pub place: u16,
    pub physical: f64,
    pub database: i32,
    pub error: f64,
}

// A report entry: the deviations of one element, counted, with one of the largest magnitude to stand for them.
#[derive(Clone, Copy, Debug, PartialEq)]
pub struct Entry {
    pub index: u32,
    pub kind: u8,
    pub field: u8,
    pub axis: u8,
    pub place: u16,
    pub count: u32,
    pub physical: f64,
    pub database: i32,
    pub error: f64,
}

impl Entry {
    // One more deviation; only one of larger magnitude replaces the representative.
    pub fn add(mut self, v: Deviation) -> Self
        requires { Spare 1 self }
        ensures { result ≡ takes self v }
    {
        self.count += 1;
        let held = binary64::abs(self.error);
        let new = binary64::abs(v.error);
        if held < new {
            return self.of(v);
        }
        self
    }

    // With another representative.
    fn of(self, v: Deviation) -> Entry
        ensures { result ≡ represented_by self v }
    {
        Entry {
            field: v.field,
            axis: v.axis,
            place: v.place,
            physical: v.physical,
            database: v.database,
            error: v.error,
            ..self
        }
    }

    // No deviation yet: count 0.
    pub fn blank(index: u32, kind: u8) -> Entry
        ensures { result ≡ blank_entry index kind }
    {
        Entry {
            index,
            kind,
            field: 0,
            axis: 0,
            place: 0,
            count: 0,
            physical: 0.0,
            database: 0,
            error: 0.0,
        }
    }

    // The first deviation, or one more.
    pub fn note(self, v: Deviation) -> Entry
        requires { Spare 1 self }
        ensures { result ≡ noted self v }
    {
        if self.count == 0 {
            return Entry { count: 1, ..self }.of(v);
        }
        self.add(v)
    }

    // Its 33 bytes at a place of the report; the place after them.
    pub fn put(self, out: &mut [u8], at: usize) -> usize
        requires { at + entry_length ≤ length out.old }
        ensures { WroteAt (entry_bytes self) out.old out.new at result }
    {
        let a = self.put_place(out, at);
        let b = big_endian::put_u64_at(out, a, binary64::to_bits(self.physical));
        let c = big_endian::put_i32_at(out, b, self.database);
        big_endian::put_u64_at(out, c, binary64::to_bits(self.error))
    }

    // The first 13 of them: which element and field, and how many deviations.
    fn put_place(self, out: &mut [u8], at: usize) -> usize
        requires { at + place_length ≤ length out.old }
        ensures { WroteAt (place_bytes self) out.old out.new at result }
    {
        let a = big_endian::put_u32_at(out, at, self.index);
        let b = big_endian::put_u8_at(out, a, self.kind);
        let c = big_endian::put_u8_at(out, b, self.field);
        let d = big_endian::put_u8_at(out, c, self.axis);
        let e = big_endian::put_u16_at(out, d, self.place);
        big_endian::put_u32_at(out, e, self.count)
    }
}
