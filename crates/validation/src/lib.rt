// The caller's first checks; points, layer and type; names and stamps (write/validation.rs, timestamp.rs).
#![tactic(auto)]

ghost use Rattle.std.specs.Prelude.{◌≡◌, ◌+◌, ◌*◌, ◌≤◌, length};
ghost use Rattle.cell.specs.Call.{checked_call};
ghost use Rattle.cell.specs.Limits as Limits;
ghost use Rattle.cell.specs.Names as Names;
ghost use Rattle.cell.specs.Stamps as Stamps;
ghost use Rattle.cell.specs.Write.{layer_and_type};
ghost use Rattle.block_places.specs.code.Place.{words_from, stamp_numbers, stamps_length};
ghost use Rattle.conversion.specs.code.Answer.{made_of};
ghost use Rattle.validation.specs.code.Check.{shape_checks};

use block_places::NUMBER;
use conversion::GdsRoundingPolicy;
use refusal::Refusal;

// The longest sheet.
const MAX_SHEET_LENGTH: usize = 16777216;

// "Points: .. to 8,191 .. Layer and type at most 255" (document 01).
pub const MAX_POINTS: usize = 8191;

const MAX_LAYER: u16 = 255;

const MAX_DATA_TYPE: u16 = 255;

// The longest structure name.
const MAX_NAME_LENGTH: usize = 32;

// The last year of a stamp.
const MAX_YEAR: usize = 9999;

// The twelve numbers of two stamps, of 2 bytes each; the second stamp begins at the seventh.
const STAMP_NUMBERS: usize = 12;

const SECOND_STAMP: usize = 6;

// The policy's number and the database unit, then the size of the sheet.
pub fn check_call(policy: u8, d: f64, sheet: &[u8]) -> Result<GdsRoundingPolicy, Refusal>
    ensures { made_of result ≡ checked_call policy d sheet.now }
{
    let rounding = conversion::caller_policy(policy, d)?;
    if sheet.len() > MAX_SHEET_LENGTH {
        return Err(Refusal::SheetSize);
    }
    Ok(rounding)
}

// Whether n is from lo to hi.
pub fn within(lo: usize, n: usize, hi: usize) -> bool
    ensures { result ≡ Limits.within lo n hi }
{
    (lo..=hi).contains(&n)
}

// ---- before the points

// The layer, then the type.
pub fn check_layer_and_type(layer: u16, datatype: u16) -> Result<(), Refusal>
    ensures { made_of result ≡ layer_and_type layer datatype }
{
    if layer > MAX_LAYER || datatype > MAX_DATA_TYPE {
        return Err(Refusal::LayerOrType);
    }
    Ok(())
}

// The checks of a polygon, a path or a node before its points, in order: how many points there are, layer, type.
pub fn check_shape(
    least: usize,
    count: usize,
    most: usize,
    layer: u16,
    datatype: u16,
) -> Result<(), Refusal>
    ensures { made_of result ≡ shape_checks least count most layer datatype }
{
    if !within(least, count, most) {
        return Err(Refusal::PointCount);
    }
    check_layer_and_type(layer, datatype)
}

// ---- names

#[tactic(auto, unfolding(cell::specs::Names::name_byte))]
fn name_byte(x: u8) -> bool
    ensures { result ≡ Names.name_byte x }
{
    matches!(x, b'A'..=b'Z' | b'a'..=b'z' | b'0'..=b'9' | b'_' | b'?' | b'$')
}

// Whether the bytes are a structure's name.
pub fn validate_structure_name(s: &[u8]) -> bool
    ensures { result ≡ Names.is_name s.now }
{
    within(1, s.len(), MAX_NAME_LENGTH) && s.iter().all(|x| name_byte(*x))
}

// ---- stamps

pub fn is_leap(y: u16) -> bool
    ensures { result ≡ Stamps.is_leap y }
{
    y % 4 == 0 && y % 100 != 0 || y % 400 == 0
}

// The days of a month, February by its year.
#[tactic(auto, unfolding(cell::specs::Stamps::days_in))]
pub fn days_in(y: u16, m: u16) -> u16
    ensures { result ≡ Stamps.days_in y m }
{
    match m {
        2 if is_leap(y) => 29,
        2 => 28,
        4 | 6 | 9 | 11 => 30,
        _ => 31,
    }
}

// Whether these are a date and a time of day: six numbers, as document 01 lists them, and not a struct that this one function would take.
#[tactic(auto, unfolding(cell::specs::Stamps::is_date))]
pub fn is_datetime(y: u16, m: u16, d: u16, h: u16, n: u16, s: u16) -> bool
    ensures { result ≡ Stamps.is_date y m d h n s }
{
    let dated = within(1, y as usize, MAX_YEAR)
        && within(1, m as usize, 12)
        && within(1, d as usize, days_in(y, m) as usize);
    dated && h <= 23 && n <= 59 && s <= 59
}

// Whether the six numbers from number k on, of the twelve at a place, are a stamp.
fn stamp_fits(b: &[u8], at: usize, k: usize) -> bool
    requires stamps_length_in_bounds { at + stamps_length ≤ length b.now }
    requires k_bound { k ≤ 6 }
    ensures { result ≡ Stamps.stamp_fits k (words_from stamp_numbers b.now at) }
{
    let from = at + NUMBER * k;
    let y = big_endian::u16_at(b, from);
    let m = big_endian::u16_at(b, from + 2);
    let d = big_endian::u16_at(b, from + 4);
    let h = big_endian::u16_at(b, from + 6);
    let n = big_endian::u16_at(b, from + 8);
    let s = big_endian::u16_at(b, from + 10);
    is_datetime(y, m, d, h, n, s)
}

// Whether the n numbers at a place are zero. A loop, since its invariant tells at once that the numbers left decide; over `all` it would take a list of the indices beside them.
fn all_zero(b: &[u8], from: usize, n: usize) -> bool
    requires { from + 2 * n ≤ length b.now }
    ensures { result ≡ Stamps.all_zero (words_from n b.now from) }
{
    for i in 0..n {
        if big_endian::u16_at(b, from + NUMBER * i) != 0 {
            return false;
        }
    }
    true
}

// Whether the twelve numbers at a place are two stamps, or all zero.
#[tactic(auto, unfolding(cell::specs::Stamps::stamps_fit))]
pub fn stamps_fit(b: &[u8], at: usize) -> bool
    requires { at + stamps_length ≤ length b.now }
    ensures { result ≡ Stamps.stamps_fit (words_from stamp_numbers b.now at) }
{
    all_zero(b, at, STAMP_NUMBERS) || stamp_fits(b, at, 0) && stamp_fits(b, at, SECOND_STAMP)
}
