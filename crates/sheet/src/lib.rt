// The cell sheet: its pairs and blocks.
#![tactic(auto)]

ghost use Rattle.std.specs.Prelude.{◌≡◌, ◌<◌, ◌≤◌, false, T, ℕ, List, MatchOption};
ghost use Rattle.sheet.specs.Blocks.{block_of, max_pairs, pair_count, pairs_fit};
ghost use Rattle.sheet.specs.code.Place.{BlockIn};

use std::marker::Model;

// "a 4-byte pair count n (1 to 16,384)" (document 01, "Input")
const MAX_PAIRS: usize = 16384;

// `pairs_fit` and `block` are no methods of `Sheet`: docs/ARCHITECTURE.md names both, and each takes any bytes.

// Whether the pairs fit the sheet: a count of 1 to 16,384, and blocks that follow each other to the end.
pub fn pairs_fit(sheet: &[u8]) -> bool
    ensures { result ≡ pairs_fit sheet.now }
{
    if sheet.len() < 4 {
        return false;
    }
    let n = big_endian::u32_at(sheet, 0) as usize;
    if n < 1 {
        return false;
    }
    if n > MAX_PAIRS {
        return false;
    }
    if sheet.len() < 4 + 8 * n {
        return false;
    }
    // A loop that returns, since each way out is one cause, and `end` runs along.
    let mut end = 4 + 8 * n;
    for k in 0..n {
        let offset = big_endian::u32_at(sheet, 4 + 8 * k) as usize;
        let length = big_endian::u32_at(sheet, 8 + 8 * k) as usize;
        if offset != end {
            return false;
        }
        if length < 1 {
            return false;
        }
        if sheet.len() < end + length {
            return false;
        }
        end += length;
    }
    end == sheet.len()
}

// Block k is handed back as that part of the sheet.
pub fn block(sheet: &[u8], k: usize) -> &[u8]
    requires { BlockIn sheet.now k }
    ensures { result.now ≡ block_of sheet.now k }
{
    let offset = big_endian::u32_at(sheet, 4 + 8 * k) as usize;
    let length = big_endian::u32_at(sheet, 8 + 8 * k) as usize;
    &sheet[offset..offset + length]
}

// A sheet whose pairs fit it, so that each of its blocks may be asked for. In clauses it is its bytes.
#[derive(Drop)]
pub struct Sheet<'a> {
    bytes: &'a [u8],
}

impl<'a> Model for Sheet<'a> {
    ghost Value = { List ℕ };

    ghost view = { λ s. s.bytes.now };

    ghost invariant = { λ s. T (pairs_fit s.bytes.now) };
}

impl<'a> Sheet<'a> {
    pub fn new(bytes: &'a [u8]) -> Option<Sheet<'a>>
        ensures { MatchOption result (pairs_fit bytes.now ≡ false) (λ s. s ≡ bytes.now) }
    {
        if pairs_fit(bytes) {
            Some(Sheet { bytes })
        } else {
            None
        }
    }

    // Of a sheet whose pairs are known to fit.
    pub fn fitting(bytes: &'a [u8]) -> Sheet<'a>
        requires { T (pairs_fit bytes.now) }
        ensures { result ≡ bytes.now }
    {
        Sheet { bytes }
    }

    // How many pairs there are, from `least` to `most` as in each sheet that fits; and that this one does, which a caller who has only its value learns here.
    pub fn count(&self) -> usize
        ensures fits { T (pairs_fit self.now) }
        ensures value { result ≡ pair_count self.now }
        ensures least { 1 ≤ result }
        ensures most { result ≤ max_pairs }
    {
        big_endian::u32_at(self.bytes, 0) as usize
    }

    pub fn block(&self, k: usize) -> &'a [u8]
        requires { k < pair_count self.now }
        ensures { result.now ≡ block_of self.now k }
    {
        block(self.bytes, k)
    }
}
