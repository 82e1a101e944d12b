// The answer of measuring or writing a library. specs/Answer.antt gives each case its values of document 02, request 1.
#![tactic(auto)]

ghost use Rattle.std.specs.Prelude.{◌≡◌};
ghost use Rattle.library.specs.Library.{no_cell};

use refusal::Refusal;

// "elsewhere the cell's number is 4,294,967,295"
pub const NO_CELL: usize = 4294967295;

// The first refusal, its cell, and its block. What is accepted is told as of a cell, `cell::Accepted`.
#[derive(Clone, Copy, Debug, PartialEq, Eq)]
pub struct LibraryRefusal {
    pub refusal: Refusal,
    pub cell: usize,
    pub block: usize,
}

// "elsewhere .. and the block 0": what is refused outside the cells.
impl From<Refusal> for LibraryRefusal {
    ghost from_gives = { λ r e. e ≡ record { refusal = r; cell = no_cell; block = 0 } };

    fn from(refusal: Refusal) -> LibraryRefusal {
        LibraryRefusal {
            refusal,
            cell: NO_CELL,
            block: 0,
        }
    }
}
