// The digits of a number and of a power in a text.
#![tactic(auto)]

ghost use Rattle.numeral.specs.Counting.{DigitAt, Counts, CountsPower};

use polynomial::LIMIT;

// The most digits of a number, leading zeros too.
const DIGITS: usize = 10;

// A number as it stands in a text: the place after its digits, and what they mean.
#[derive(Drop)]
pub struct Numeral {
    pub next: usize,
    pub value: u64,
}

// The digit that stands at k.
fn digit(s: &[u8], k: usize) -> Option<u64>
    ensures { DigitAt s.now k result }
{
    match s.get(k) {
        Some(b @ b'0'..=b'9') => Some(u64::from(*b - b'0')),
        _ => None,
    }
}

// The number whose digits stand from `at` on.
pub fn number(s: &[u8], at: usize) -> Option<Numeral>
    ensures { Counts s.now at result }
{
    let mut value = digit(s, at)?;
    let mut next = at + 1;
    // Counted by hand: the place after the last digit belongs to the answer.
    while let Some(d) = digit(s, next) {
        if next - at >= DIGITS {
            return None;
        }
        value = 10 * value + d;
        next += 1;
    }
    Some(Numeral { next, value })
}

// The power whose digits stand from `at` on.
pub fn exponent(s: &[u8], at: usize) -> Option<Numeral>
    ensures { CountsPower s.now at result }
{
    let n = number(s, at)?;
    if n.value > LIMIT as u64 {
        return None;
    }
    Some(n)
}
