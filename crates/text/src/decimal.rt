ghost use Rattle.std.specs.Prelude.{◌+◌, ◌<◌, ◌≤◌, length, ◌≡◌};
ghost use Rattle.text.specs.Decimal.{Stored, decimal};

// Stores the decimal digits of `n` in `out` from `at` on, and gives back the place after them.
// std's `write!` says what it wrote only of an `Ok`, and no clause rules out an `Err`; here the digits are promised.
pub fn print(n: u64, out: &mut [u8], at: usize) -> usize
    requires { at + length (decimal n) ≤ length out.old }
    ensures { Stored out.old at (decimal n) out.new result }
{
    if n < 10 {
        out[at] = digit(n);
        return at + 1;
    }
    let last = print(n / 10, out, at);
    out[last] = digit(n % 10);
    last + 1
}

// The byte of a digit.
fn digit(n: u64) -> u8
    requires { n < 10 }
    ensures { result ≡ 48 + n }
{
    b'0' + n as u8
}
