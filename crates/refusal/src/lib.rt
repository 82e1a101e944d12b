// Why a cell is not written (document 01, "Who can cause which refusal"); why a library is not (document 02, request 1: `LibraryForm` to `LibraryName`); flags that the manual does not have (request 5: `Flags`), and attributes (request 6: `Attribute`); why a structure is not read (document 02, request 8: `NotStructure` to `ArrayCorners`); why two ends are no bounds (request 11: `Bounds`); why a row is not surveyed (request 12: `SurveyCount`).
#![tactic(auto)]

ghost use Rattle.std.specs.Prelude.{◌≡◌};
ghost use Rattle.refusal.specs.Number as Number;

#[derive(Clone, Copy, Debug, PartialEq, Eq)]
pub enum Refusal {
    Policy = 1,
    DatabaseUnit = 2,
    SheetSize = 3,
    Pairs = 4,
    Form = 5,
    Stamp = 6,
    Name = 7,
    PointCount = 8,
    LayerOrType = 9,
    StringLength = 10,
    ColumnsOrRows = 11,
    Spacing = 12,
    Magnification = 13,
    Real = 14,
    SineOrCosine = 15,
    SourceUnit = 16,
    NotFinite = 17,
    OffGrid = 18,
    OutOfRange = 19,
    NotClosed = 20,
    OutputShort = 21,
    ReportShort = 22,
    LibraryForm = 23,
    LibraryUnits = 24,
    LibraryName = 25,
    Flags = 26,
    Attribute = 27,
    NotStructure = 28,
    InexactReal = 29,
    ArrayCorners = 30,
    Bounds = 32,
    SurveyCount = 33,
}

impl Refusal {
    // The number that the documents give it.
    pub fn number(self) -> u8
        ensures { result ≡ Number.number self }
    {
        self as u8
    }
}
