// A modulus made ready: with its reciprocal, worked out once for an operation, no sum or product is divided by it.
//
//   Divisor              a modulus with its reciprocal
//   remainder, near      a number modulo m, and one that is congruent to it and below 2m
//   carry                what 2^64 counts modulo m
//   whole, high          the product of two words of 32 bits, and the high word of a product of two of 64
#![tactic(auto)]

ghost use Rattle.std.specs.Prelude.{◌≡◌, ◌+◌, ◌-◌, ◌*◌, ◌/◌, ◌%◌, ◌^◌, ◌≤◌, ◌<◌};
ghost use Rattle.algebra.specs.Number.{Modulus};
ghost use Rattle.reciprocal.specs.Reciprocal.{Reciprocal};

// How many machine words there are: the modulus at which they run round.
pub const MACHINE_WORDS: u64 = 0x1_0000_0000;

// A modulus made ready: the number, and its reciprocal, so that no sum or product is divided by it.
#[derive(Clone, Copy, PartialEq, Eq, Debug)]
pub struct Divisor {
    pub number: u64,
    pub reciprocal: u64,
    pub ghost modulus: { Modulus number },
    pub ghost beside: { Reciprocal number reciprocal },
}

impl Divisor {
    // m made ready.
    pub fn new(m: u64) -> Divisor
        requires { Modulus m }
        ensures { result.number ≡ m }
    {
        Divisor {
            number: m,
            reciprocal: u64::MAX / m,
        }
    }

    // x less a multiple of m, and below 2m: the multiple that the reciprocal gives is at most x, and near it.
    pub fn near(self, x: u64) -> u64
        ensures { (result % self.number ≡ x % self.number) × (result < 2 * self.number) }
    {
        x - high(x, self.reciprocal) * self.number
    }

    // x modulo m.
    pub fn remainder(self, x: u64) -> u32
        ensures { result ≡ x % self.number }
    {
        let r = self.near(x);
        if r < self.number {
            r as u32
        } else {
            (r - self.number) as u32
        }
    }

    // What a carry counts, 2^64, modulo m: no more than m.
    pub fn carry(self) -> u64
        ensures { (result % self.number ≡ 2 ^ 64 % self.number) × (result ≤ self.number) }
    {
        u64::MAX - self.reciprocal * self.number + 1
    }
}

// The whole product.
pub fn whole(x: u32, y: u32) -> u64
    ensures { result ≡ x * y }
{
    u64::from(x) * u64::from(y)
}

// The high word of x * y.
fn high(x: u64, y: u64) -> u64
    ensures { result ≡ x * y / 2 ^ 64 }
{
    ((u128::from(x) * u128::from(y)) >> 64) as u64
}
