// The decimal digits of a number, put into a buffer.
#![tactic(auto)]

ghost use Rattle.std.specs.Prelude.{◌+◌, ◌≤◌, length};
ghost use Rattle.digits.specs.Digits.{most_digits, decimal, Put};

// The most digits that a number takes.
pub const DIGITS: usize = 10;

// n's decimal digits into out from index at on; answers the index after them. The two stay apart: `Put` says of them in a word what
// a writer does, and of a struct's fields it would be longer.
pub fn digits(n: u32, out: &mut [u8], at: usize) -> usize
    requires { at + most_digits ≤ length out.old }
    ensures { Put out.old at (decimal n) most_digits out.new result }
{
    if n < 10 {
        out[at] = b'0' + n as u8;
        at + 1
    } else {
        let k = digits(n / 10, out, at);
        out[k] = b'0' + (n % 10) as u8;
        k + 1
    }
}
