// Two functions for C to call and measure: the conversion of one coordinate, as the writer runs it, and `mul_add`.
#![tactic(auto)]

ghost use Rattle.std.specs.Prelude.{◌≡◌};
ghost use Rattle.std.specs.Float.{binary64};
ghost use Rattle.binary64.specs.Fma.{fma};
ghost use Rattle.units.specs.declared.Unit.TheVariants as Coordinate;
ghost use Rattle.conversion.specs.declared.GdsRoundingPolicy.TheVariants as Policy;
ghost use Rattle.conversion.specs.code.Answer.{outcome};
ghost use Rattle.conversion.specs.Convert.{Spot, convert_unit};
ghost use Rattle.bench_arithmetic.specs.Word.{word_of};

use conversion::{Conversion, CoordinateConverter, GdsRoundingPolicy};
use refusal::Refusal;
use units::Unit;

// Above the 32 bits of a database value: that a report entry is due, or that there is no value.
const DUE: u64 = 0x1_0000_0000;

const REFUSED: u64 = 0x2_0000_0000;

// A conversion's answer in one word: C has no Result.
fn word(c: Result<Conversion, Refusal>) -> u64
    ensures { (at : Spot) → result ≡ word_of (outcome at c) }
{
    match c {
        Err(_) => REFUSED,
        Ok(Conversion::Converted { value }) => u64::from(big_endian::as_u32(value)),
        Ok(Conversion::Quantized { value, .. }) => DUE + u64::from(big_endian::as_u32(value)),
    }
}

// A double with its unit to the grid of d, snapped or rounded down.
#[unsafe(no_mangle)]
pub extern "C" fn bench_arithmetic_convert(value: f64, units: f64, d: f64) -> u64
    ensures { (at : Spot) → result ≡ word_of (convert_unit Policy.Floor d at (Coordinate.Float value units)) }
{
    let converter = CoordinateConverter {
        policy: GdsRoundingPolicy::Floor,
        d,
    };
    word(converter.convert_unit(Unit::Float { value, units }))
}

// a * b + c, rounded once.
#[unsafe(no_mangle)]
pub extern "C" fn bench_arithmetic_mul_add(a: f64, b: f64, c: f64) -> f64
    ensures { result ≡ fma binary64 a b c }
{
    mul_add::mul_add(a, b, c)
}
