// The library's head: block 0 of a library sheet checked, and the file's own records HEADER, BGNLIB, LIBNAME and UNITS (`write_gds_head_to_file` of write/mod.rs).
#![tactic(auto)]

ghost use Rattle.std.specs.Prelude.{◌+◌, ◌≤◌, length};
ghost use Rattle.big_endian.specs.Buffer.{WroteAt};
ghost use Rattle.stream.specs.Library.{file_head_bytes};
ghost use Rattle.sheet.specs.Library.{library_head_of};
ghost use Rattle.library_head.specs.code.Head.{PartsIn, FormRead, UnitsRead, library_head_at, file_head_at, HeadIn, HeadRead};
ghost use Rattle.std.proofs.Math.Option.{some};

use gds_format::Real8;
use refusal::Refusal;

// Where the name stands in block 0. The user unit follows it, a double, and then the stamps.
const NAME: usize = 0;

const DOUBLE: usize = 8;

// "HEADER 0x0258" (document 02, request 1).
const VERSION: u16 = 0x0258;

// The longest name.
const MAX_NAME_LENGTH: usize = 65530;

// HEADER, BGNLIB, a LIBNAME of no byte, and UNITS.
const HEAD_LENGTH: usize = 58;

// The reals of UNITS, each the pattern of its eight bytes.
#[derive(Clone, Copy)]
struct Units {
    user: u64,
    database: u64,
}

// What the file's own records are made of: the place of the stamps, and the patterns of UNITS. The name stands at the start of the block.
#[derive(Clone, Copy)]
pub struct HeadParts {
    pub stamps: usize,
    pub user: u64,
    pub database: u64,
}

// Block 0 checked: the parts of the file's own records, and how many bytes these have.
#[derive(Clone, Copy)]
pub struct HeadChecked {
    pub parts: HeadParts,
    pub length: usize,
}

// The name, the user unit, and twelve numbers to the end of the block: the place of the user unit.
fn head_form(b: &[u8]) -> Option<usize>
    ensures { FormRead b.now result }
{
    if b.len() < block_places::NUMBER {
        return None;
    }
    let unit = block_places::string_end(b, NAME);
    if b.len() != unit + DOUBLE + block_places::STAMPS {
        return None;
    }
    Some(unit)
}

// `encode_unit` of both: a positive user unit, and two reals that have an encoding.
fn encode_units(user_unit: f64, d: f64) -> Option<Units>
    ensures { UnitsRead user_unit d result }
{
    if !binary64::is_positive(user_unit) {
        return None;
    }
    let user = Real8::encode(user_unit).ok()?;
    let database = Real8::encode(d).ok()?;
    Some(Units {
        user: user.pattern,
        database: database.pattern,
    })
}

// A well-formed head, by the place of its user unit: its stamps, the reals of UNITS, its name.
fn check_parts(b: &[u8], unit: usize, d: f64) -> Result<HeadChecked, Refusal>
    requires { PartsIn b.now unit }
    ensures { HeadRead d b.now (some (library_head_at b.now unit)) result }
{
    let stamps = unit + DOUBLE;
    if !validation::stamps_fit(b, stamps) {
        return Err(Refusal::Stamp);
    }
    let units = encode_units(block_places::double(b, unit), d).ok_or(Refusal::LibraryUnits)?;
    let n = block_places::string_at(b, NAME).len();
    if n > MAX_NAME_LENGTH {
        return Err(Refusal::LibraryName);
    }
    Ok(HeadChecked {
        parts: HeadParts {
            stamps,
            user: units.user,
            database: units.database,
        },
        length: HEAD_LENGTH + n + n % 2,
    })
}

// Block 0 of a library sheet: 23, 6, 24, 25, in this order.
pub fn check_head(b: &[u8], d: f64) -> Result<HeadChecked, Refusal>
    ensures { HeadRead d b.now (library_head_of b.now) result }
{
    let unit = head_form(b).ok_or(Refusal::LibraryForm)?;
    check_parts(b, unit, d)
}

// The file's own records at the start of the output; BGNLIB's data are the block's own 24 bytes. The place after them.
pub fn put_head(b: &[u8], parts: HeadParts, out: &mut [u8]) -> usize
    requires head_in { HeadIn b.now parts }
    requires parts_in_bounds { length (file_head_bytes (file_head_at b.now parts)) ≤ length out.old }
    ensures { WroteAt (file_head_bytes (file_head_at b.now parts)) out.old out.new 0 result }
{
    let version = records::put_word_at(out, 0, records::HEADER, records::TWO_BYTE, VERSION);
    let from = parts.stamps;
    let stamps = &b[from..from + block_places::STAMPS];
    let begin = records::put_stamps_at(out, version, records::BGNLIB, stamps);
    let name = records::put_string_at(
        out,
        begin,
        records::LIBNAME,
        block_places::string_at(b, NAME),
    );
    records::put_units_at(out, name, parts.user, parts.database)
}
