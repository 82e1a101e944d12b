// The answer of measuring or writing a cell. specs/Answer.antt gives each case its values of document 01.
#![tactic(auto)]

ghost use Rattle.std.specs.Prelude.{◌≡◌};

use refusal::Refusal;

// Of a structure, or of a library's file: its length, its report entries, their greatest error (0 if none).
#[derive(Clone, Copy, Debug, PartialEq)]
pub struct Accepted {
    pub length: usize,
    pub entries: usize,
    pub greatest: f64,
}

// The first refusal, and its block.
#[derive(Clone, Copy, Debug, PartialEq, Eq)]
pub struct CellRefusal {
    pub refusal: Refusal,
    pub block: usize,
}

// "a block (0 if none)": what is refused before the blocks has block 0.
impl From<Refusal> for CellRefusal {
    ghost from_gives = { λ r e. e ≡ record { refusal = r; block = 0 } };

    fn from(refusal: Refusal) -> CellRefusal {
        CellRefusal { refusal, block: 0 }
    }
}
