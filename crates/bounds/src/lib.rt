// Lengths known within bounds (document 02, request 11): the least and the greatest database value over all doubles between two ends.
#![tactic(auto)]

ghost use Rattle.std.specs.Prelude.{◌&&◌, ◌≡◌};
ghost use Rattle.std.specs.Float.Ieee.Scale.{finite};
ghost use Rattle.bounds.specs.Range as Range;
ghost use Rattle.bounds.specs.Range.{range_of};
ghost use Rattle.bounds.specs.Answer.{answer_of, values_of};
ghost use Rattle.bounds.specs.Bounds.{ConvertsBounds};

use conversion::{CoordinateConverter, GdsRoundingPolicy};
use refusal::Refusal;

// The least and the greatest database value.
#[derive(Clone, Copy, Debug, PartialEq, Eq)]
pub struct DatabaseRange {
    pub least: i32,
    pub greatest: i32,
}

// Whether both ends are finite.
fn both_finite(lower: f64, upper: f64) -> bool
    ensures { result ≡ finite lower && finite upper }
{
    binary64::is_finite(lower) && binary64::is_finite(upper)
}

// Whether two finite ends are bounds under a policy: strict takes equal ends alone.
fn admitted(policy: GdsRoundingPolicy, lower: f64, upper: f64) -> bool
    ensures { result ≡ Range.admitted policy lower upper }
{
    match policy {
        GdsRoundingPolicy::Nearest | GdsRoundingPolicy::Floor | GdsRoundingPolicy::Ceil => {
            lower <= upper
        }
        GdsRoundingPolicy::ErrorIfOffGrid => lower == upper,
    }
}

// The range under a policy. Conversion keeps order, so the two ends have its least and its greatest value.
fn range_of(
    converter: CoordinateConverter,
    lower: f64,
    upper: f64,
) -> Result<DatabaseRange, Refusal>
    ensures { result ≡ answer_of (range_of converter.policy converter.d lower upper) }
{
    let finite = both_finite(lower, upper);
    let ordered = admitted(converter.policy, lower, upper);
    if !finite {
        return Err(Refusal::NotFinite);
    }
    if !ordered {
        return Err(Refusal::Bounds);
    }
    let least = converter.database_value(lower)?;
    let greatest = converter.database_value(upper)?;
    Ok(DatabaseRange { least, greatest })
}

// The least and the greatest database value of all doubles from the lower end to the upper, both included.
pub fn convert_bounds(policy: u8, d: f64, lower: f64, upper: f64) -> Result<DatabaseRange, Refusal>
    ensures { ConvertsBounds policy d lower upper (values_of result) }
{
    let converter = CoordinateConverter::of_caller(policy, d)?;
    range_of(converter, lower, upper)
}
