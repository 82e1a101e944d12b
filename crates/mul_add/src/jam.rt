// Numbers of 128 bits, shifted with the sticky bit.
ghost use Rattle.std.specs.Prelude.{◌≡◌, ◌<◌};
ghost use Rattle.mul_add.specs.code.Jam.{sticky, jam};

use super::places::WORD;

// n, with its last digit set where digits that are not 0 were lost.
fn stick(lost: bool, n: u128) -> u128
    ensures { result ≡ sticky lost n }
{
    if lost { n / 2 * 2 + 1 } else { n }
}

// Shifted right by d places and jammed: the last digit is set where a digit that is dropped is not 0.
pub(crate) fn shift_right_jam(n: u128, d: u64) -> u128
    requires { 0 < n }
    ensures { result ≡ jam n d }
{
    if d < 2 * WORD {
        let cut = n >> d;
        stick((cut << d) != n, cut)
    } else {
        1
    }
}
