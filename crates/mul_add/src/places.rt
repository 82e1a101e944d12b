// The places that are counted with. specs/code/Places.antt has the same names, and the reason of each.

// The binary digits of a word.
pub(crate) const WORD: u64 = 64;
// A double has 53 digits.
const PRECISION: u64 = 53;
// Its exponent is at most 1023.
const LARGEST_EXPONENT: u64 = 1023;
// It is a whole number of 2 ^ -1074.
const SMALLEST: u64 = binary64::ONE_POWER;
// What is added or rounded is a fraction over 2 ^ SCALE.
const SCALE: u64 = 2 * SMALLEST + 2 * WORD;
// The places by which an addend is moved up, to be as long as a product.
pub(crate) const RAISE: u64 = 62;
// What the addend's power over 2 ^ SCALE is larger by.
pub(crate) const ADDEND: u64 = SCALE - SMALLEST - WORD - RAISE;
// n * 2 ^ e, for an n of a whole word, is n * 2 ^ e / 2 ^ UNIT_PLACE smallest doubles.
pub(crate) const UNIT_PLACE: u64 = SCALE + WORD - SMALLEST;
// The digits of a whole word that a double has no room for.
pub(crate) const EXCESS: u64 = WORD - PRECISION;
// The e from which it is normal.
pub(crate) const NORMAL_FROM: u64 = UNIT_PLACE - EXCESS;
// The e from which it is past the largest double.
pub(crate) const INFINITE_FROM: u64 = NORMAL_FROM + 2 * LARGEST_EXPONENT;
// One in the exponent's field of a pattern.
pub(crate) const HIDDEN: u64 = 0x10_0000_0000_0000;
// The pattern of an infinity.
pub(crate) const INFINITY: u64 = 0x7ff0_0000_0000_0000;
