// The transform of a text or a reference (`write_transformation_to_file` of write/mod.rs): its checks, and its records STRANS, MAG and ANGLE.
#![tactic(auto)]

ghost use Rattle.std.specs.Prelude.{◌≡◌, ◌+◌, ◌≤◌, length, ◌||◌, is_some};
ghost use Rattle.stream.specs.Records.{strans_bits};
ghost use Rattle.cell.specs.Write.{write_real, write_magnification, write_angle, write_transform};
ghost use Rattle.records.specs.code.Bytes.{Placed};
ghost use Rattle.transform.specs.code.Strans.{pattern_of, real_of, said_of, transform_of, strans_bytes, real_length, strans_length};

use gds_format::Real8;
use refusal::Refusal;

// What is written: with a reflection, a magnification or an angle a STRANS, and after it the two reals that are there. A real is here the pattern of its eight bytes, and no `Real8`: a record is put from the number.
#[derive(Clone, Copy, Debug, PartialEq, Eq)]
pub struct Strans {
    pub reflection: bool,
    pub magnification: Option<u64>,
    pub angle: Option<u64>,
}

// The STRANS bits for a reflection (`STRANS_X_REFLECTION`).
const X_REFLECTION: u16 = 0x8000;

// The bytes of a STRANS, and of a MAG or an ANGLE.
const STRANS_LENGTH: usize = 6;

const REAL_LENGTH: usize = 12;

// `encode_gds_real8`.
fn encode_real(x: f64) -> Result<u64, Refusal>
    ensures { pattern_of result ≡ write_real x }
{
    Ok(Real8::encode(x)?.pattern)
}

// MAG if not 1; what is not above 0 is refused, minus infinity as a real that is not finite.
fn encode_magnification(magnification: f64) -> Result<Option<u64>, Refusal>
    ensures { real_of result ≡ write_magnification magnification }
{
    if magnification == 1.0 {
        return Ok(None);
    }
    if magnification <= 0.0 && binary64::is_finite(magnification) {
        return Err(Refusal::Magnification);
    }
    encode_real(magnification).map(Some)
}

// ANGLE if not 0, of either sign.
fn encode_angle(degrees: f64) -> Result<Option<u64>, Refusal>
    ensures { real_of result ≡ write_angle degrees }
{
    if degrees == 0.0 {
        return Ok(None);
    }
    encode_real(degrees).map(Some)
}

// The checks of `write_transformation_to_file`, magnification before degrees.
pub fn encode_transformation(
    degrees: f64,
    magnification: f64,
    reflection: bool,
) -> Result<Strans, Refusal>
    ensures { transform_of result ≡ write_transform degrees magnification reflection }
{
    let scale = encode_magnification(magnification)?;
    let angle = encode_angle(degrees)?;
    Ok(Strans {
        reflection,
        magnification: scale,
        angle,
    })
}

// The STRANS bits.
fn strans_bits(reflection: bool) -> u16
    ensures { result ≡ strans_bits reflection }
{
    if reflection { X_REFLECTION } else { 0 }
}

// The bytes of a MAG or an ANGLE that may be missing.
fn real_length(real: Option<u64>) -> usize
    ensures { result ≡ real_length (is_some real) }
{
    if real.is_some() { REAL_LENGTH } else { 0 }
}

impl Strans {
    // Whether there is a STRANS.
    fn is_there(self) -> bool
        ensures { result ≡ (self.reflection || is_some self.magnification || is_some self.angle) }
    {
        self.reflection || self.magnification.is_some() || self.angle.is_some()
    }

    // The bytes of all records.
    #[tactic(auto, unfolding(crate::specs::code::Strans::length_of))]
    pub fn length(self) -> usize
        ensures { result ≡ strans_length self }
    {
        if self.is_there() {
            return STRANS_LENGTH + (real_length(self.magnification) + real_length(self.angle));
        }
        0
    }

    // The records, at a place.
    #[tactic(auto, using(crate::proofs::StransLaws::length_there))]
    pub fn put_at(self, out: &mut [u8], at: usize) -> usize
        requires { at + strans_length self ≤ length out.old }
        ensures { Placed (strans_bytes (said_of self)) (strans_length self) out.old out.new at result }
    {
        if self.is_there() {
            let a1 = records::put_word_at(
                out,
                at,
                records::STRANS,
                records::BIT_ARRAY,
                strans_bits(self.reflection),
            );
            let a2 = records::put_opt_real_at(out, a1, records::MAG, self.magnification);
            return records::put_opt_real_at(out, a2, records::ANGLE, self.angle);
        }
        at
    }
}
