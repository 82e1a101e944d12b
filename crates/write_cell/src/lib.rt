// Writing a cell (`write_cell_with_options` of write/mod.rs): everything is decided in a measuring walk before the first byte is written.
#![tactic(auto)]

ghost use Rattle.std.specs.Prelude.{◌≤◌, length};
ghost use Rattle.cell.specs.Limits.{max_sheet_length};
ghost use Rattle.cell.specs.Answer.{values_of};
ghost use Rattle.write_cell.specs.Writer.{MeasuresCell, WritesCell};
ghost use Rattle.write_cell.specs.code.Sheet.{WritesSheet};

use cell::{Accepted, CellRefusal};
use conversion::CoordinateConverter;
use refusal::Refusal;

// The first refusal other than 21 and 22, or what writing will give: structure length, entry count and greatest error.
pub fn measure_cell(policy: u8, d: f64, sheet: &[u8]) -> Result<Accepted, CellRefusal>
    ensures { MeasuresCell policy d sheet.now (values_of result) }
{
    let policy = validation::check_call(policy, d, sheet)?;
    walk::measure_sheet(CoordinateConverter { policy, d }, sheet)
}

// What follows 1 to 3: the sheet measured, 21 and 22, and only then the structure and its report.
fn write_sheet(
    converter: CoordinateConverter,
    sheet: &[u8],
    out: &mut [u8],
    report: &mut [u8],
) -> Result<Accepted, CellRefusal>
    requires { length sheet.now ≤ max_sheet_length }
    ensures { WritesSheet converter.policy converter.d sheet.now out.old report.old out.new report.new result }
{
    let accepted = walk::measure_sheet(converter, sheet)?;
    let size = conversion::ENTRY_LENGTH * accepted.entries;
    if out.len() < accepted.length {
        return Err(Refusal::OutputShort.into());
    }
    if report.len() < size {
        return Err(Refusal::ReportShort.into());
    }
    walk::put_structure(converter, sheet, b"", out, report);
    Ok(accepted)
}

// The structure and its report into the lent buffers, or one refusal, and then both are as before.
pub fn write_cell(
    policy: u8,
    d: f64,
    sheet: &[u8],
    out: &mut [u8],
    report: &mut [u8],
) -> Result<Accepted, CellRefusal>
    ensures { WritesCell policy d sheet.now out.old report.old out.new report.new (values_of result) }
{
    let policy = validation::check_call(policy, d, sheet)?;
    write_sheet(CoordinateConverter { policy, d }, sheet, out, report)
}
