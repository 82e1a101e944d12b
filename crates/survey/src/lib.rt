// The pitch survey (document 02, request 12): of the places of a row, how many a pitch disturbs.
#![tactic(auto)]

ghost use Rattle.std.specs.Prelude.{◌≡◌};
ghost use Rattle.conversion.specs.Convert.{Spot, convert_physical};
ghost use Rattle.survey.specs.Places as Places;
ghost use Rattle.survey.specs.Places.{counted, survey_of};
ghost use Rattle.survey.specs.Answer.{answer_of, values_of};
ghost use Rattle.survey.specs.Survey.{SurveysPitch};

use conversion::{Conversion, CoordinateConverter};
use refusal::Refusal;

// The most places of a row.
const MAX_PLACES: u32 = 65536;

// What conversion gives at a place: a value with no report entry due, a value with one due, or a refusal.
#[derive(Clone, Copy, Debug, PartialEq, Eq)]
pub enum Placed {
    Clean,
    Due,
    Refused,
}

// How many places of a row are each.
#[derive(Clone, Copy, Debug, PartialEq, Eq)]
pub struct Counts {
    pub clean: u32,
    pub due: u32,
    pub refused: u32,
}

// What conversion gives at the physical value p.
fn place(converter: CoordinateConverter, p: f64) -> Placed
    ensures { (at : Spot) → result ≡ Places.placed (convert_physical converter.policy converter.d at p) }
{
    match converter.convert_physical(p) {
        Err(_) => Placed::Refused,
        Ok(Conversion::Converted { .. }) => Placed::Clean,
        Ok(Conversion::Quantized { .. }) => Placed::Due,
    }
}

// The places 0 to n - 1, each by its own product.
#[tactic(auto, unfolding(crate::specs::Places::counted, crate::specs::Places::count_of))]
fn count_places(converter: CoordinateConverter, pitch: f64, n: u32) -> Counts
    ensures { result ≡ counted converter.policy converter.d pitch n }
{
    let mut clean: u32 = 0;
    let mut due: u32 = 0;
    let mut refused: u32 = 0;
    for i in 0..n {
        match place(converter, (i as f64) * pitch) {
            Placed::Clean => clean += 1,
            Placed::Due => due += 1,
            Placed::Refused => refused += 1,
        }
    }
    Counts {
        clean,
        due,
        refused,
    }
}

// Whether a row may have n places.
fn places_fit(n: u32) -> bool
    ensures { result ≡ Places.places_fit n }
{
    (1..=MAX_PLACES).contains(&n)
}

// The survey under a policy: the number of places, then the pitch.
fn survey_of(converter: CoordinateConverter, pitch: f64, n: u32) -> Result<Counts, Refusal>
    ensures { result ≡ answer_of (survey_of converter.policy converter.d pitch n) }
{
    let fits = places_fit(n);
    let finite = binary64::is_finite(pitch);
    if !fits {
        return Err(Refusal::SurveyCount);
    }
    if !finite {
        return Err(Refusal::NotFinite);
    }
    Ok(count_places(converter, pitch, n))
}

// How many of the places 0 to n - 1, i times the pitch each, are converted with no report entry due, how many with one due, and how many are refused.
pub fn survey_pitch(policy: u8, d: f64, pitch: f64, n: u32) -> Result<Counts, Refusal>
    ensures { SurveysPitch policy d pitch n (values_of result) }
{
    let converter = CoordinateConverter::of_caller(policy, d)?;
    survey_of(converter, pitch, n)
}
