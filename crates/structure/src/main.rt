// Reads a policy byte, d and a cell sheet; writes the cell's structure and its report in hexadecimal, or the refusal (document 01, "structure").
#![tactic(auto)]

ghost use Rattle.std.specs.Prelude.{◌≡◌, ◌+◌, ◌*◌, ◌≤◌, length};
ghost use Rattle.big_endian.specs.Buffer.{WroteAt};
ghost use Rattle.conversion.specs.Entry.{entry_length};
ghost use Rattle.structure.specs.Hex.{glyph, hex_of};

use cell::{Accepted, CellRefusal};
use conversion::ENTRY_LENGTH;

// The policy byte and the eight bytes of d come before the sheet, of which this many bytes are taken.
const FRONT: usize = 9;

const MAX_SHEET: usize = 24576;

// A digit of 0 to 15, in lower case.
#[tactic(auto, unfolding(crate::specs::Hex::glyph))]
fn digit(n: u8) -> u8
    requires { n ≤ 15 }
    ensures { result ≡ glyph n }
{
    if n < 10 {
        return 0x30 + n;
    }
    0x57 + n
}

// Each byte in two digits, from the start of the text on; the place after them.
fn put_hex(bytes: &[u8], text: &mut [u8]) -> usize
    requires { 2 * length bytes.now ≤ length text.old }
    ensures { WroteAt (hex_of bytes.now) text.old text.new 0 result }
{
    for (i, byte) in bytes.iter().enumerate() {
        text[2 * i] = digit(byte / 16);
        text[2 * i + 1] = digit(byte % 16);
    }
    2 * bytes.len()
}

// A line of digits.
fn print_bytes(bytes: &[u8])
    requires { length bytes.now ≤ 16384 }
{
    let mut text = io::large_buffer();
    let n = put_hex(bytes, &mut text);
    io::write_all(1, &text[..n]);
    io::write_all(1, b"\n");
}

fn print_entries(entries: &[u8], n: usize)
    requires { entry_length * n ≤ length entries.now }
{
    for entry in entries[..ENTRY_LENGTH * n].chunks_exact(ENTRY_LENGTH) {
        print_bytes(entry);
    }
}

fn print_refused(refused: CellRefusal) {
    io::write_all(1, b"no ");
    io::print_decimal(1, refused.refusal.number() as u64);
    io::write_all(1, b" ");
    io::print_decimal(1, refused.block as u64);
    io::write_all(1, b"\n");
}

fn print_accepted(accepted: Accepted) {
    io::write_all(1, b"ok ");
    io::print_decimal(1, accepted.length as u64);
    io::write_all(1, b" ");
    io::print_decimal(1, accepted.entries as u64);
    io::write_all(1, b" ");
    io::print_hex(1, binary64::to_bits(accepted.greatest), 16);
    io::write_all(1, b"\n");
}

fn print_cell(input: &[u8])
    requires { 9 ≤ length input.now }
{
    let policy = big_endian::u8_at(input, 0);
    let d = binary64::from_bits(big_endian::u64_at(input, 1));
    let mut out = [0u8; 16384];
    let mut report = [0u8; 8192];
    match write_cell::write_cell(policy, d, &input[FRONT..], &mut out, &mut report) {
        Err(refused) => print_refused(refused),
        Ok(accepted) => {
            print_accepted(accepted);
            print_bytes(&out[..accepted.length]);
            print_entries(&report, accepted.entries);
        }
    }
}

fn main() {
    let mut input = io::large_buffer();
    let n = io::read_full(0, &mut input);
    if n < FRONT {
        io::write_all(1, b"short\n");
        return;
    }
    if n > FRONT + MAX_SHEET {
        io::write_all(1, b"long\n");
        return;
    }
    print_cell(&input[..n]);
}
