// Records into the lent output (write/mod.rs: `record_header`, `write_i32_record`, `write_string_with_record_to_file`).
// Each writer puts one record at a place and answers the place after it; every other byte stays.
#![tactic(auto)]

ghost use Rattle.std.specs.Prelude.{◌≡◌, ◌+◌, ◌≤◌, List, ℕ, length, refl};
ghost use Rattle.std.specs.Option.{option_map};
ghost use Rattle.big_endian.specs.Big.{bytes_of};
ghost use Rattle.big_endian.specs.Buffer.{WroteAt};
ghost use Rattle.stream.specs.Records.{empty_record, word_record, long_bytes, long_record, real_record, string_record, colrow_record};
ghost use Rattle.stream.specs.Library.{units_record};
ghost use Rattle.stream.specs.Strings.{padded};
ghost use Rattle.records.specs.code.Bytes.{record_head, word_record_length, long_record_length, real_record_length, units_record_length, string_record_length, max_string_data, stamps_data, stamps_record_length, head_bytes, record_of, sized, stamped, Placed, Recorded, opt_bytes, opt_length, option_of};

// The data types of the manual. They and the codes are bytes, not enums: each writer promises its record of every code, and an enum would ask more of its caller.
pub const NO_DATA: u8 = 0;

pub const BIT_ARRAY: u8 = 1;

pub const TWO_BYTE: u8 = 2;

pub const FOUR_BYTE: u8 = 3;

pub const EIGHT_BYTE_REAL: u8 = 5;

pub const ASCII_STRING: u8 = 6;

// The record codes of the manual.
pub const HEADER: u8 = 0x00;

pub const BGNLIB: u8 = 0x01;

pub const LIBNAME: u8 = 0x02;

pub const UNITS: u8 = 0x03;

pub const ENDLIB: u8 = 0x04;

pub const BGNSTR: u8 = 0x05;

pub const STRNAME: u8 = 0x06;

pub const ENDSTR: u8 = 0x07;

pub const BOUNDARY: u8 = 0x08;

pub const PATH: u8 = 0x09;

pub const SREF: u8 = 0x0a;

pub const AREF: u8 = 0x0b;

pub const TEXT: u8 = 0x0c;

pub const LAYER: u8 = 0x0d;

pub const DATATYPE: u8 = 0x0e;

pub const WIDTH: u8 = 0x0f;

pub const XY: u8 = 0x10;

pub const ENDEL: u8 = 0x11;

pub const SNAME: u8 = 0x12;

pub const COLROW: u8 = 0x13;

pub const NODE: u8 = 0x15;

pub const TEXTTYPE: u8 = 0x16;

pub const PRESENTATION: u8 = 0x17;

pub const STRING: u8 = 0x19;

pub const STRANS: u8 = 0x1a;

pub const MAG: u8 = 0x1b;

pub const ANGLE: u8 = 0x1c;

pub const PATHTYPE: u8 = 0x21;

pub const ELFLAGS: u8 = 0x26;

pub const NODETYPE: u8 = 0x2a;

pub const PROPATTR: u8 = 0x2b;

pub const PROPVALUE: u8 = 0x2c;

pub const BOX: u8 = 0x2d;

pub const BOXTYPE: u8 = 0x2e;

pub const PLEX: u8 = 0x2f;

pub const BGNEXTN: u8 = 0x30;

pub const ENDEXTN: u8 = 0x31;

// The bytes of a record's head, of a record of one 2-byte number and of one 4-byte number, and of a point in an XY.
pub const RECORD_HEAD: usize = 4;

pub const WORD_RECORD: usize = 6;

pub const LONG_RECORD: usize = 8;

pub const XY_POINT: usize = 8;

// The bytes of UNITS, and of a record of two stamps.
const UNITS_RECORD: u16 = 20;

const STAMPS_RECORD: u16 = 28;

// A record's head: its length, code and data type (`record_header`).
pub fn put_head_at(out: &mut [u8], at: usize, len: u16, code: u8, data_type: u8) -> usize
    requires { at + record_head ≤ length out.old }
    ensures { Placed (head_bytes len code data_type) record_head out.old out.new at result }
{
    let a = big_endian::put_u16_at(out, at, len);
    let b = big_endian::put_u8_at(out, a, code);
    big_endian::put_u8_at(out, b, data_type)
}

// All of `s`, as a part of a record: `Placed`, where big_endian's own promises `WroteAt`.
pub fn put_bytes_at(out: &mut [u8], at: usize, s: &[u8]) -> usize
    requires { at + length s.now ≤ length out.old }
    ensures { Placed s.now (length s.now) out.old out.new at result }
{
    big_endian::put_bytes_at(out, at, s)
}

// A record with no data.
pub fn put_empty_at(out: &mut [u8], at: usize, code: u8) -> usize
    requires { at + record_head ≤ length out.old }
    ensures { Recorded (empty_record code) record_head out.old out.new at result }
{
    put_head_at(out, at, RECORD_HEAD as u16, code, NO_DATA)
}

// A number that is all the data of a record. It stands here and not in big_endian, since how long its record is belongs to it.
trait Number {
    ghost RECORD: { ℕ };

    // How long its record is.
    const RECORD: u16;

    ghost bytes: { Self → List ℕ };

    fn put_at(self, out: &mut [u8], at: usize) -> usize
        requires { at + length (bytes self) ≤ length out.old }
        ensures { WroteAt (bytes self) out.old out.new at result };

    ghost record_length: { (v : Self) → RECORD ≡ 4 + length (bytes v) };
}

impl Number for u16 {
    ghost RECORD = { word_record_length };

    const RECORD: u16 = 6;

    ghost bytes = { bytes_of 2 };

    fn put_at(self, out: &mut [u8], at: usize) -> usize {
        big_endian::put_u16_at(out, at, self)
    }

    ghost record_length = { λ _. refl };
}

impl Number for i32 {
    ghost RECORD = { long_record_length };

    const RECORD: u16 = 8;

    ghost bytes = { long_bytes };

    fn put_at(self, out: &mut [u8], at: usize) -> usize {
        big_endian::put_i32_at(out, at, self)
    }

    ghost record_length = { λ _. refl };
}

impl Number for u64 {
    ghost RECORD = { real_record_length };

    const RECORD: u16 = 12;

    ghost bytes = { bytes_of 8 };

    fn put_at(self, out: &mut [u8], at: usize) -> usize {
        big_endian::put_u64_at(out, at, self)
    }

    ghost record_length = { λ _. refl };
}

// A record of one number.
fn put_number_at<N: Number>(out: &mut [u8], at: usize, code: u8, data_type: u8, v: N) -> usize
    requires { at + N.RECORD ≤ length out.old }
    ensures { Recorded (record_of code data_type (N.bytes v)) N.RECORD out.old out.new at result }
{
    let a = put_head_at(out, at, N::RECORD, code, data_type);
    v.put_at(out, a)
}

// A record of one number, where it is there.
fn put_opt_at<N: Number>(out: &mut [u8], at: usize, code: u8, data_type: u8, v: Option<N>) -> usize
    requires { at + opt_length N.RECORD v ≤ length out.old }
    ensures { Placed (opt_bytes (λ (n : N). record_of code data_type (N.bytes n)) (option_of v)) (opt_length N.RECORD v) out.old out.new at result }
{
    match v {
        None => at,
        Some(number) => put_number_at(out, at, code, data_type, number),
    }
}

// The writers by name, of a number and of one that may not be there, stay beside the two above: each clause is in the words of document 01's records, which callers cite.

// A record of one 2-byte number, or of 16 bits.
pub fn put_word_at(out: &mut [u8], at: usize, code: u8, data_type: u8, v: u16) -> usize
    requires { at + word_record_length ≤ length out.old }
    ensures { Recorded (sized code data_type 2 v) word_record_length out.old out.new at result }
{
    put_number_at(out, at, code, data_type, v)
}

// A record of one signed 4-byte number (`write_i32_record`).
pub fn put_long_at(out: &mut [u8], at: usize, code: u8, q: i32) -> usize
    requires { at + long_record_length ≤ length out.old }
    ensures { Recorded (long_record code q) long_record_length out.old out.new at result }
{
    put_number_at(out, at, code, FOUR_BYTE, q)
}

// A record of one eight-byte real, from its pattern.
pub fn put_real_at(out: &mut [u8], at: usize, code: u8, pattern: u64) -> usize
    requires { at + real_record_length ≤ length out.old }
    ensures { Recorded (real_record code (bytes_of 8 pattern)) real_record_length out.old out.new at result }
{
    put_number_at(out, at, code, EIGHT_BYTE_REAL, pattern)
}

// UNITS, from the patterns of its two reals.
pub fn put_units_at(out: &mut [u8], at: usize, user: u64, database: u64) -> usize
    requires { at + units_record_length ≤ length out.old }
    ensures { Recorded (units_record (bytes_of 8 user) (bytes_of 8 database)) units_record_length out.old out.new at result }
{
    let a = put_head_at(out, at, UNITS_RECORD, UNITS, EIGHT_BYTE_REAL);
    let b = big_endian::put_u64_at(out, a, user);
    big_endian::put_u64_at(out, b, database)
}

// COLROW.
pub fn put_colrow_at(out: &mut [u8], at: usize, columns: u16, rows: u16) -> usize
    requires { at + long_record_length ≤ length out.old }
    ensures { Recorded (colrow_record columns rows) long_record_length out.old out.new at result }
{
    let a = put_head_at(out, at, LONG_RECORD as u16, COLROW, TWO_BYTE);
    let b = big_endian::put_u16_at(out, a, columns);
    big_endian::put_u16_at(out, b, rows)
}

// A string: an odd one gains one zero byte (`write_string_with_record_to_file`).
pub fn put_string_at(out: &mut [u8], at: usize, code: u8, s: &[u8]) -> usize
    requires s_len_bound { length s.now ≤ max_string_data }
    requires s_in_bounds { at + string_record_length (length s.now) ≤ length out.old }
    ensures { Recorded (string_record code (padded s.now)) (string_record_length (length s.now)) out.old out.new at result }
{
    let n = s.len();
    let size = RECORD_HEAD + n + n % 2;
    let a = put_head_at(out, at, size as u16, code, ASCII_STRING);
    let b = put_bytes_at(out, a, s);
    if n % 2 == 0 {
        return b;
    }
    big_endian::put_u8_at(out, b, 0)
}

// A record of two stamps, from the bytes of their twelve 2-byte numbers.
pub fn put_stamps_at(out: &mut [u8], at: usize, code: u8, stamps: &[u8]) -> usize
    requires stamps_len { length stamps.now ≡ stamps_data }
    requires stamps_record_length_in_bounds { at + stamps_record_length ≤ length out.old }
    ensures { Recorded (stamped code stamps.now) stamps_record_length out.old out.new at result }
{
    let a = put_head_at(out, at, STAMPS_RECORD, code, TWO_BYTE);
    put_bytes_at(out, a, stamps)
}

// A record of two bytes, where it is there: a number, or bits.
pub fn put_opt_two_at(out: &mut [u8], at: usize, code: u8, data_type: u8, v: Option<u16>) -> usize
    requires { at + opt_length word_record_length v ≤ length out.old }
    ensures { Placed (opt_bytes (sized code data_type 2) (option_of v)) (opt_length word_record_length v) out.old out.new at result }
{
    put_opt_at(out, at, code, data_type, v)
}

// A record of one 2-byte number, where it is there.
pub fn put_opt_word_at(out: &mut [u8], at: usize, code: u8, v: Option<u16>) -> usize
    requires { at + opt_length word_record_length v ≤ length out.old }
    ensures { Placed (opt_bytes (word_record code) (option_of v)) (opt_length word_record_length v) out.old out.new at result }
{
    put_opt_two_at(out, at, code, TWO_BYTE, v)
}

// A record of one signed 4-byte number, where it is there.
pub fn put_opt_long_at(out: &mut [u8], at: usize, code: u8, q: Option<i32>) -> usize
    requires { at + opt_length long_record_length q ≤ length out.old }
    ensures { Placed (opt_bytes (long_record code) (option_of q)) (opt_length long_record_length q) out.old out.new at result }
{
    put_opt_at(out, at, code, FOUR_BYTE, q)
}

// A record of one eight-byte real, where it is there.
pub fn put_opt_real_at(out: &mut [u8], at: usize, code: u8, pattern: Option<u64>) -> usize
    requires { at + opt_length real_record_length pattern ≤ length out.old }
    ensures { Placed (opt_bytes (real_record code) (option_of (option_map (bytes_of 8) pattern))) (opt_length real_record_length pattern) out.old out.new at result }
{
    put_opt_at(out, at, code, EIGHT_BYTE_REAL, pattern)
}
