// Numbers modulo m in code, for any modulus up to 2^32, prime or not: difference, product and power.
//
// At the modulus 2^32 sums, differences and products run round in a machine word, so that there is nothing to reduce.
#![tactic(auto)]

ghost use Rattle.std.specs.Prelude.{◌≡◌, ◌+◌, ◌-◌, ◌*◌, ◌%◌, ◌^◌, ◌<◌, ◌≤◌};
ghost use Rattle.algebra.specs.Number.{Modulus};

use reciprocal::{Divisor, MACHINE_WORDS};

// a + b, round at 2^32. It has its name, since 02's promise that sums run round is told of it.
pub fn add_words(a: u32, b: u32) -> u32
    ensures { result ≡ (a + b) % 2 ^ 32 }
{
    a.wrapping_add(b)
}

// a - b modulo m.
pub fn subtract(a: u32, b: u32, m: u64) -> u32
    requires { Modulus m × (a < m) × (b < m) }
    ensures { result ≡ (a + (m - b)) % m }
{
    if m == MACHINE_WORDS {
        return a.wrapping_sub(b);
    }
    if b <= a {
        a - b
    } else {
        (m - u64::from(b) + u64::from(a)) as u32
    }
}

// a * b modulo m.
pub fn multiply(a: u32, b: u32, m: Divisor) -> u32
    ensures { result ≡ a * b % m.number }
{
    if m.number == MACHINE_WORDS {
        return a.wrapping_mul(b);
    }
    m.remainder(reciprocal::whole(a, b))
}

// a^n modulo m, by squaring.
pub fn power(a: u32, n: usize, m: Divisor) -> u32
    ensures { result ≡ a ^ n % m.number }
{
    let mut result = 1;
    let mut square = a;
    let mut left = n;
    while left != 0 {
        if left % 2 == 1 {
            result = multiply(result, square, m);
        }
        square = multiply(square, square, m);
        left /= 2;
    }
    result
}
