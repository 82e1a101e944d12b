// Numbers of several bytes, big-endian, in slices: read from a place, and written to one.
// A number passes through an array of its bytes, which no built code keeps: a compiler makes one load or one store of it.
// A function for each width, not one for all: a format of bytes reads best where each place says how many bytes it has, by name and in the clause.
#![tactic(auto)]

ghost use Rattle.std.specs.Prelude.{◌≡◌, ◌+◌, ◌≤◌, ◌<◌, length, take, drop};
ghost use Rattle.std.specs.Int.{w32};
ghost use Rattle.std.proofs.Common.{to_z, of_z};
ghost use Rattle.big_endian.specs.Big.{number_at, bytes_of};
ghost use Rattle.big_endian.specs.Buffer.{WroteAt};

// The N bytes at a place.
fn bytes_at<const N: usize>(s: &[u8], at: usize) -> [u8; N]
    requires { at + N ≤ length s.now }
    ensures { result ≡ take N (drop at s.now) }
{
    s[at..at + N].try_into().unwrap()
}

pub fn u8_at(s: &[u8], at: usize) -> u8
    requires { at + 1 ≤ length s.now }
    ensures { result ≡ number_at 1 s.now at }
{
    s[at]
}

#[tactic(auto, using(crate::proofs::PlaceLaws::be_two))]
pub fn u16_at(s: &[u8], at: usize) -> u16
    requires { at + 2 ≤ length s.now }
    ensures { result ≡ number_at 2 s.now at }
{
    u16::from_be_bytes(bytes_at(s, at))
}

#[tactic(auto, using(crate::proofs::PlaceLaws::be_four))]
pub fn u32_at(s: &[u8], at: usize) -> u32
    requires { at + 4 ≤ length s.now }
    ensures { result ≡ number_at 4 s.now at }
{
    u32::from_be_bytes(bytes_at(s, at))
}

#[tactic(auto, using(crate::proofs::PlaceLaws::be_eight))]
pub fn u64_at(s: &[u8], at: usize) -> u64
    requires { at + 8 ≤ length s.now }
    ensures { result ≡ number_at 8 s.now at }
{
    u64::from_be_bytes(bytes_at(s, at))
}

// A signed number, two's complement.
pub fn i32_at(s: &[u8], at: usize) -> i32
    requires { at + 4 ≤ length s.now }
    ensures { result ≡ to_z w32 (number_at 4 s.now at) }
{
    u32_at(s, at).cast_signed()
}

// The library's two casts, by names that say which way a number of the sheet is read or put.

// The signed number whose bits are v.
pub fn as_i32(v: u32) -> i32
    ensures { result ≡ to_z w32 v }
{
    v.cast_signed()
}

// The bits of a signed number.
pub fn as_u32(z: i32) -> u32
    ensures { result ≡ of_z w32 z }
{
    z.cast_unsigned()
}

// The writers put a number at a place and answer the place after it.
// Output and place stay two parameters: the output is lent to each writer in turn, for a part that begins where the last one ended, and `WroteAt` speaks of the two by themselves.

// Bytes as they are.
pub fn put_bytes_at(out: &mut [u8], at: usize, s: &[u8]) -> usize
    requires { at + length s.now ≤ length out.old }
    ensures { WroteAt s.now out.old out.new at result }
{
    out[at..at + s.len()].copy_from_slice(s);
    at + s.len()
}

pub fn put_u8_at(out: &mut [u8], at: usize, v: u8) -> usize
    requires { at + 1 ≤ length out.old }
    ensures { WroteAt (bytes_of 1 v) out.old out.new at result }
{
    put_bytes_at(out, at, &[v])
}

pub fn put_u16_at(out: &mut [u8], at: usize, v: u16) -> usize
    requires { at + 2 ≤ length out.old }
    ensures { WroteAt (bytes_of 2 v) out.old out.new at result }
{
    put_bytes_at(out, at, &u16::to_be_bytes(v))
}

pub fn put_u32_at(out: &mut [u8], at: usize, v: u32) -> usize
    requires { at + 4 ≤ length out.old }
    ensures { WroteAt (bytes_of 4 v) out.old out.new at result }
{
    put_bytes_at(out, at, &u32::to_be_bytes(v))
}

pub fn put_u64_at(out: &mut [u8], at: usize, v: u64) -> usize
    requires { at + 8 ≤ length out.old }
    ensures { WroteAt (bytes_of 8 v) out.old out.new at result }
{
    put_bytes_at(out, at, &u64::to_be_bytes(v))
}

// A signed number, two's complement.
pub fn put_i32_at(out: &mut [u8], at: usize, z: i32) -> usize
    requires { at + 4 ≤ length out.old }
    ensures { WroteAt (bytes_of 4 (of_z w32 z)) out.old out.new at result }
{
    put_u32_at(out, at, z.cast_unsigned())
}
