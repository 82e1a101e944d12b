// The bytes of an answer as stored cases have it (tools/pack_cases.py), from its numbers.
#![tactic(auto)]

ghost use Rattle.std.specs.Prelude.{◌∷◌, ◌++◌, ◌+◌, ◌≤◌, length};
ghost use Rattle.big_endian.specs.Big.{bytes_of};
ghost use Rattle.big_endian.specs.Buffer.{WroteAt};
ghost use Rattle.records.specs.code.Bytes.{Placed};
ghost use Rattle.test_bytes.specs.Bytes.{refused_bytes, library_refused_bytes, front_bytes};

// The first byte of an answer.
const REFUSED: u8 = 0;

const ACCEPTED: u8 = 1;

// Each writer puts its bytes from the start of the text on, and answers the place after them.

// What a refusal begins with.
fn put_number(text: &mut [u8], number: u8) -> usize
    requires { 2 ≤ length text.old }
    ensures { WroteAt (0 ∷ bytes_of 1 number) text.old text.new 0 result }
{
    let at = big_endian::put_u8_at(text, 0, REFUSED);
    big_endian::put_u8_at(text, at, number)
}

// A cell or a block of any size in 4 bytes: what is above them is lost.
#[tactic(auto, using(crate::proofs::BytesLaws::bytes_of_rest))]
fn put_place(text: &mut [u8], at: usize, place: usize) -> usize
    requires { at + 4 ≤ length text.old }
    ensures { WroteAt (bytes_of 4 place) text.old text.new at result }
{
    big_endian::put_u32_at(text, at, (place % 0x1_0000_0000) as u32)
}

pub fn put_refused(text: &mut [u8], number: u8, block: usize) -> usize
    requires { 6 ≤ length text.old }
    ensures { WroteAt (refused_bytes number block) text.old text.new 0 result }
{
    let at = put_number(text, number);
    put_place(text, at, block)
}

// What stands before the bytes and the entries of what is accepted.
fn put_front(text: &mut [u8], size: usize, entries: usize, greatest: f64) -> usize
    requires in_bounds { 17 ≤ length text.old }
    requires size_bound { size ≤ 65536 }
    requires entries_bound { entries ≤ 8192 }
    ensures { Placed (front_bytes size entries greatest) 17 text.old text.new 0 result }
{
    let a = big_endian::put_u8_at(text, 0, ACCEPTED);
    let b = big_endian::put_u32_at(text, a, size as u32);
    let c = big_endian::put_u32_at(text, b, entries as u32);
    big_endian::put_u64_at(text, c, binary64::to_bits(greatest))
}

// What is accepted: the bytes of the structure or the file, and those of the entries.
pub fn put_accepted(
    text: &mut [u8],
    entries: usize,
    greatest: f64,
    bytes: &[u8],
    told: &[u8],
) -> usize
    requires bytes_len_bound { length bytes.now ≤ 65536 }
    requires entries_bound { entries ≤ 8192 }
    requires told_in_bounds { 17 + length bytes.now + length told.now ≤ length text.old }
    ensures { WroteAt (front_bytes (length bytes.now) entries greatest ++ bytes.now ++ told.now) text.old text.new 0 result }
{
    let a = put_front(text, bytes.len(), entries, greatest);
    let b = records::put_bytes_at(text, a, bytes);
    records::put_bytes_at(text, b, told)
}

// The same of a library's refusal, which has a cell besides.
pub fn put_library_refused(text: &mut [u8], number: u8, cell: usize, block: usize) -> usize
    requires { 10 ≤ length text.old }
    ensures { WroteAt (library_refused_bytes number cell block) text.old text.new 0 result }
{
    let a = put_number(text, number);
    let b = put_place(text, a, cell);
    put_place(text, b, block)
}
