// A polynomial of the desk: its limit, its degree, and the checks 1 to 4 of 01 in their order.
#![tactic(auto)]

ghost use Rattle.std.specs.Prelude.{◌≡◌, ◌≢◌, ◌<◌, ℕ, ◌/◌, position, nat_le, length, IfNone, IfSome, slice_index};
ghost use Rattle.algebra.specs.Polynomial.{degree as degree_of};
ghost use Rattle.polynomial.specs.Moduli.{modulus as modulus_of, check_modulus};
ghost use Rattle.polynomial.specs.Answers.{zero_pair};
ghost use Rattle.polynomial.specs.Checks.{check_polynomial, check_one, check_two, check_pair, Measured};
ghost use Rattle.polynomial.specs.Degrees.{Degrees};

use reciprocal::MACHINE_WORDS;
use refusal::{Concerns, Reason, Refusal};

// The highest degree that the desk takes.
pub const LIMIT: usize = 126;

// How many coefficients a polynomial has.
pub const TERMS: usize = LIMIT + 1;

// The moduli that the desk takes, besides 2^32.
const SMALLEST: u64 = 2;

const LARGEST: u64 = 2147483647;

// The coefficients, that of x^0 first.
pub type Coefficients = [u32; TERMS];

// All coefficients zero, as they are handed out after a refusal.
pub const ZEROS: Coefficients = [0; TERMS];

// A left part and a right part.
#[derive(Clone, Copy)]
pub struct Pair {
    pub left: Coefficients,
    pub right: Coefficients,
}

// Both all zero, as they are handed out after a refusal.
impl Default for Pair {
    ghost is_default = { λ p. p ≡ zero_pair };

    fn default() -> Pair {
        Pair {
            left: ZEROS,
            right: ZEROS,
        }
    }
}

// The degrees of a pair: that of the polynomial, n = r * s, the left degree r and the right degree s.
#[derive(Clone, Copy)]
pub struct PairDegrees {
    pub whole: usize,
    pub left: usize,
    pub right: usize,
    pub ghost fit: { Degrees whole left right },
}

impl PairDegrees {
    // Those at the right degree s.
    pub fn at_right(n: usize, s: usize) -> PairDegrees
        requires { Degrees n (n / s) s }
        ensures { (result.whole ≡ n) × (result.left ≡ n / s) × (result.right ≡ s) }
    {
        PairDegrees {
            whole: n,
            left: n / s,
            right: s,
        }
    }

    // Those at the left degree r.
    pub fn at_left(n: usize, r: usize) -> PairDegrees
        requires { Degrees n r (n / r) }
        ensures { (result.whole ≡ n) × (result.left ≡ r) × (result.right ≡ n / r) }
    {
        PairDegrees {
            whole: n,
            left: r,
            right: n / r,
        }
    }
}

// The largest power whose coefficient is not zero.
fn highest(f: &[u32]) -> Option<usize>
    ensures none { IfNone result ((i : ℕ) → i < length f.now → slice_index f.now i ≡ 0) }
    ensures some { IfSome result (λ k. (k < length f.now) × (slice_index f.now k ≢ 0) × ((i : ℕ) → k < i → i < length f.now → slice_index f.now i ≡ 0)) }
{
    for d in (0..f.len()).rev() {
        if f[d] != 0 {
            return Some(d);
        }
    }
    None
}

// The largest power whose coefficient is not zero, and 0 if there is none.
pub fn degree(f: &[u32]) -> usize
    ensures { result ≡ degree_of f.now }
{
    highest(f).unwrap_or(0)
}

// The number that a modulus word means: 0 means 2^32. The operations take the word, and all below them this number.
pub fn modulus(word: u32) -> u64
    ensures { result ≡ modulus_of word }
{
    if word == 0 {
        return MACHINE_WORDS;
    }
    u64::from(word)
}

// The lowest power whose coefficient is m or more.
fn offending(m: u64, f: &[u32]) -> Option<usize>
    ensures { result ≡ position (λ a. nat_le m a) f.now }
{
    f.iter().position(|c| m <= u64::from(*c))
}

// No. 1.
pub fn check_modulus(m: u64) -> Result<(), Refusal>
    ensures { result ≡ check_modulus m }
{
    if m == MACHINE_WORDS {
        return Ok(());
    }
    if m < SMALLEST {
        return Err(Reason::Modulus.into());
    }
    if LARGEST < m {
        return Err(Reason::Modulus.into());
    }
    Ok(())
}

// Nos. 2, 3 and 4 of a polynomial, whose degree the caller has found. The two stay apart: an operation is handed coefficients alone,
// and what holds of them below it is over the modulus.
pub fn check_polynomial(concerns: Concerns, m: u64, f: &[u32], degree: usize) -> Result<(), Refusal>
    requires { Measured degree f.now }
    ensures { result ≡ check_polynomial concerns m f.now }
{
    let refused = |reason| Refusal { concerns, reason };
    if let Some(i) = offending(m, f) {
        return Err(refused(Reason::Coefficient(i as u32)));
    }
    if degree < 2 {
        return Err(refused(Reason::Degree));
    }
    if f[degree] != 1 {
        return Err(refused(Reason::Leading));
    }
    Ok(())
}

// The checks of an operation on one polynomial.
#[tactic(auto, unfolding(crate::specs::Checks::check_one))]
pub fn check_one(m: u64, f: &[u32], degree: usize) -> Result<(), Refusal>
    requires { Measured degree f.now }
    ensures { result ≡ check_one m f.now }
{
    check_modulus(m)?;
    check_polynomial(Concerns::First, m, f, degree)
}

// The checks of an operation on two polynomials, f the first and h the second.
#[tactic(auto, unfolding(crate::specs::Checks::check_one, crate::specs::Checks::check_two))]
pub fn check_two(m: u64, f: &[u32], n: usize, h: &[u32], s: usize) -> Result<(), Refusal>
    requires { Measured n f.now × Measured s h.now }
    ensures { result ≡ check_two m f.now h.now }
{
    check_one(m, f, n)?;
    check_polynomial(Concerns::Second, m, h, s)
}

// The checks of an operation that composes g, the first, and h, the second.
#[tactic(auto, unfolding(crate::specs::Checks::check_pair))]
pub fn check_pair(m: u64, g: &[u32], r: usize, h: &[u32], s: usize) -> Result<(), Refusal>
    requires { Measured r g.now × Measured s h.now }
    ensures { result ≡ check_pair m g.now h.now }
{
    check_two(m, g, r, h, s)?;
    if LIMIT < r * s {
        return Err(Reason::Limit.into());
    }
    Ok(())
}
