// Writing a library (`write_library_with_options` of write/mod.rs): every cell is measured in turn before the first byte is written.
#![tactic(auto)]

ghost use Rattle.std.specs.Prelude.{◌≡◌, ◌-◌, ◌<◌, ◌≤◌, length};
ghost use Rattle.big_endian.specs.Big.{bytes_of};
ghost use Rattle.binary64.specs.Value.{zero64};
ghost use Rattle.sheet.specs.Blocks.{max_pairs, pair_count};
ghost use Rattle.sheet.specs.Library.{cell_sheets};
ghost use Rattle.cell.specs.Limits.{max_sheet_length};
ghost use Rattle.walk.specs.code.Walk.{StructureFits, PutsStructure};
ghost use Rattle.library.specs.Library as Library;
ghost use Rattle.library.specs.Library.{write_cells, write_library_sheet};
ghost use Rattle.library.specs.Answer.{answer_of, values_of};
ghost use Rattle.write_library.specs.Writer.{MeasuresLibrary, WritesLibrary};
ghost use Rattle.write_library.specs.code.File.{max_front_length, totals_from, FewEntries, CellsFit, PutsCells, FileFits, PutsFile, WritesFile};

use cell::Accepted;
use conversion::CoordinateConverter;
use library::LibraryRefusal;
use refusal::Refusal;
use sheet::Sheet;
use walk::Ends;

const ENDLIB_LENGTH: usize = 4;

// An entry after the 4 bytes of its cell's number.
pub const LIBRARY_ENTRY_LENGTH: usize = 37;

// How many cells there are: every block but block 0.
fn cell_count(sheet: &Sheet<'_>) -> usize
    ensures value { result ≡ pair_count sheet.now - 1 }
    ensures few { result < max_pairs }
{
    sheet.count() - 1
}

// ---- measuring

// The larger of two errors; x where neither is.
fn larger(x: f64, y: f64) -> f64
    ensures { result ≡ Library.larger x y }
{
    if x < y {
        return y;
    }
    x
}

// Every cell in turn, on top of the bytes that the file has besides: cell c is block c + 1.
fn measure_cells(
    converter: CoordinateConverter,
    sheet: &Sheet<'_>,
    front: usize,
) -> Result<Accepted, LibraryRefusal>
    requires sheet_len_bound { length sheet.now ≤ max_sheet_length }
    requires front_le_max_front_length { front ≤ max_front_length }
    ensures value { result ≡ totals_from front 0 zero64 (write_cells converter.policy converter.d 0 (cell_sheets sheet.now)) }
    ensures few_entries { FewEntries result }
{
    let cells = cell_count(sheet);
    let mut length = front;
    let mut entries: usize = 0;
    let mut greatest: f64 = 0.0;
    for cell in 0..cells {
        let told = walk::measure_sheet(converter, sheet.block(cell + 1)).map_err(|e| {
            LibraryRefusal {
                refusal: e.refusal,
                cell,
                block: e.block,
            }
        })?;
        length += told.length;
        entries += told.entries;
        greatest = larger(greatest, told.greatest);
    }
    Ok(Accepted {
        length,
        entries,
        greatest,
    })
}

// The library from its 23 on.
fn measure_file(converter: CoordinateConverter, sheet: &[u8]) -> Result<Accepted, LibraryRefusal>
    requires { length sheet.now ≤ max_sheet_length }
    ensures value { result ≡ answer_of (write_library_sheet converter.policy converter.d sheet.now) }
    ensures few_entries { FewEntries result }
{
    let sheet = Sheet::new(sheet).ok_or(Refusal::LibraryForm)?;
    let head = library_head::check_head(sheet.block(0), converter.d)?;
    measure_cells(converter, &sheet, head.length + ENDLIB_LENGTH)
}

// The first refusal other than 21 and 22, or what writing will give: file length, entry count and greatest error.
pub fn measure_library(policy: u8, d: f64, sheet: &[u8]) -> Result<Accepted, LibraryRefusal>
    ensures { MeasuresLibrary policy d sheet.now (values_of result) }
{
    let policy = validation::check_call(policy, d, sheet)?;
    measure_file(CoordinateConverter { policy, d }, sheet)
}

// ---- writing

// A cell's structure and its report, each entry after the cell's number; both at the start of the part that is lent.
fn put_cell(
    converter: CoordinateConverter,
    sheet: &[u8],
    cell: u32,
    out: &mut [u8],
    report: &mut [u8],
) -> Ends
    requires { StructureFits converter.policy converter.d sheet.now (bytes_of 4 cell) (length out.old) (length report.old) }
    ensures { PutsStructure converter.policy converter.d sheet.now (bytes_of 4 cell) out.old report.old out.new report.new result }
{
    walk::put_structure(converter, sheet, &cell.to_be_bytes(), out, report)
}

// Every cell in turn, each into the parts of the output and of the report that start where the last one ended.
fn put_cells(
    converter: CoordinateConverter,
    sheet: &Sheet<'_>,
    out: &mut [u8],
    report: &mut [u8],
) -> Ends
    requires { CellsFit converter.policy converter.d sheet.now (length out.old) (length report.old) }
    ensures { PutsCells converter.policy converter.d sheet.now out.old report.old out.new report.new result }
{
    let cells = cell_count(sheet);
    let mut to: usize = 0;
    let mut at: usize = 0;
    for cell in 0..cells {
        let next = cell + 1;
        let b = sheet.block(next);
        let ends = put_cell(converter, b, cell as u32, &mut out[to..], &mut report[at..]);
        to += ends.out;
        at += ends.report;
    }
    Ends {
        out: to,
        report: at,
    }
}

// The file of an accepted library, and its report, at the start of both buffers.
fn put_file(converter: CoordinateConverter, sheet: &[u8], out: &mut [u8], report: &mut [u8]) -> Ends
    requires { FileFits converter.policy converter.d sheet.now (length out.old) (length report.old) }
    ensures { PutsFile converter.policy converter.d sheet.now out.old report.old out.new report.new result }
{
    let sheet = Sheet::fitting(sheet);
    let b = sheet.block(0);
    match library_head::check_head(b, converter.d) {
        // Never: an accepted library's head is passed.
        Err(_) => Ends { out: 0, report: 0 },
        Ok(head) => {
            let start = library_head::put_head(b, head.parts, out);
            let ends = put_cells(converter, &sheet, &mut out[start..], report);
            let end = records::put_empty_at(out, start + ends.out, records::ENDLIB);
            Ends {
                out: end,
                report: ends.report,
            }
        }
    }
}

// What follows 1 to 3: the library measured, 21 and 22, and only then the file and its report.
fn write_file(
    converter: CoordinateConverter,
    sheet: &[u8],
    out: &mut [u8],
    report: &mut [u8],
) -> Result<Accepted, LibraryRefusal>
    requires { length sheet.now ≤ max_sheet_length }
    ensures { WritesFile converter.policy converter.d sheet.now out.old report.old out.new report.new result }
{
    let accepted = measure_file(converter, sheet)?;
    if out.len() < accepted.length {
        return Err(Refusal::OutputShort.into());
    }
    if report.len() < LIBRARY_ENTRY_LENGTH * accepted.entries {
        return Err(Refusal::ReportShort.into());
    }
    put_file(converter, sheet, out, report);
    Ok(accepted)
}

// The file and its report into the lent buffers, or one refusal, and then both are as before.
pub fn write_library(
    policy: u8,
    d: f64,
    sheet: &[u8],
    out: &mut [u8],
    report: &mut [u8],
) -> Result<Accepted, LibraryRefusal>
    ensures { WritesLibrary policy d sheet.now out.old report.old out.new report.new (values_of result) }
{
    let policy = validation::check_call(policy, d, sheet)?;
    write_file(CoordinateConverter { policy, d }, sheet, out, report)
}
