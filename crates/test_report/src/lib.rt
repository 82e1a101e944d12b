// What the test programs read and say of their stored cases.
#![tactic(auto)]

ghost use Rattle.std.specs.Prelude.{ℕ, cond, ◌≡◌, ◌+◌, ◌≤◌, ◌<◌, ◌^◌, length};
ghost use Rattle.test_report.specs.Cases.{double_at, Differ};

// 2,359,296 zeros, for all cases at once.
pub fn room() -> [u8; 2359296]
    ensures { 2359296 ≡ length result }
{
    [0; 2359296]
}

// The double at a place.
pub fn double_at(cases: &[u8], at: usize) -> f64
    requires { at + 8 ≤ length cases.now }
    ensures { result ≡ double_at cases.now at }
{
    binary64::from_bits(big_endian::u64_at(cases, at))
}

// How many differ after case k; prints its number where it does. Here and below not by `println!`, which asks for the runtime's handle: the test programs have none.
pub fn tell_case(agrees: bool, k: usize, found: usize) -> usize
    requires { found + 1 < 2 ^ 64 }
    ensures { result ≡ found + cond agrees 0 1 }
{
    if agrees {
        return found;
    }
    io::print_decimal(1, k as u64);
    io::write_all(1, b"\n");
    found + 1
}

// How many of the first n cases differ; prints the number of each.
pub fn differ<F: Fn(usize) -> bool>(n: usize, agrees: F) -> usize
    requires { (k : ℕ) → k < n → F.pre agrees k }
    ensures { Differ (F.post agrees) n result }
{
    let mut found: usize = 0;
    for k in 0..n {
        found = tell_case(agrees(k), k, found);
    }
    found
}

// The last line.
pub fn tell_counts(cases: usize, differ: usize) {
    io::print_decimal(1, cases as u64);
    io::write_all(1, b" cases, ");
    io::print_decimal(1, differ as u64);
    io::write_all(1, b" differ\n");
}
