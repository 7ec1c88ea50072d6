// Sums of products modulo m: exact in two words, and reduced once at the end. At 2^32 they run round in a machine word.
//
//   Sum                 a sum of products as it is kept: a Wide, exact in two words, or a u32, round at 2^32
//   two_products        a*x + b*y
//   inner_product       a[lo]*b[k-lo] + .. + a[hi-1]*b[k-hi+1]
//   strided_product     a[lo]*b[at] + a[lo+1]*b[at+step] + ..: the same of numbers that lie apart
#![tactic(auto)]

ghost use Rattle.std.specs.Prelude.{◌≡◌, ℕ, ◌+◌, ◌-◌, ◌*◌, ◌%◌, ◌^◌, ◌≤◌, ◌<◌, length};
ghost use Rattle.inner.specs.Inner.{inner, Within, strided, Strides};
ghost use Rattle.inner.specs.Sums.{Widened, Rounded};

use reciprocal::{Divisor, MACHINE_WORDS};

// A sum of products, as it is kept.
trait Sum: Copy {
    // It holds a sum of so many products.
    ghost holds: { Self → ℕ → ℕ → Type 0 };

    // No product.
    fn none() -> Self
        ensures { holds result 0 0 };

    // One product more.
    fn more(self, x: u32, y: u32) -> Self
        requires { (n : ℕ) × (s : ℕ) × holds self n s × (n < 2 ^ 31) }
        ensures { (n : ℕ) → (s : ℕ) → n < 2 ^ 31 → holds self n s → holds result (n + 1) (s + x * y) };
}

// A sum of two words, high * 2^64 + low.
#[derive(Clone, Copy)]
struct Wide {
    high: u64,
    low: u64,
}

impl Sum for Wide {
    ghost holds = { λ w n s. Widened n w.high w.low s };

    fn none() -> Wide {
        Wide { high: 0, low: 0 }
    }

    fn more(self, x: u32, y: u32) -> Wide {
        let p = reciprocal::whole(x, y);
        if self.low <= u64::MAX - p {
            Wide {
                high: self.high,
                low: self.low + p,
            }
        } else {
            Wide {
                high: self.high + 1,
                low: self.low - (u64::MAX - p) - 1,
            }
        }
    }
}

impl Sum for u32 {
    ghost holds = { λ w n s. Rounded w s };

    fn none() -> u32 {
        0
    }

    fn more(self, x: u32, y: u32) -> u32 {
        residue::add_words(self, x.wrapping_mul(y))
    }
}

// The sum modulo m. Where it does not fit a word, the high word is made to count in the low one.
fn reduced(w: Wide, m: Divisor) -> u32
    requires { w.high < 2 ^ 31 }
    ensures { result ≡ (w.high * 2 ^ 64 + w.low) % m.number }
{
    if w.high == 0 {
        return m.remainder(w.low);
    }
    m.remainder(w.high * m.carry() + m.near(w.low))
}

// a * x + b * y.
fn two<S: Sum>(a: u32, x: u32, b: u32, y: u32) -> S
    ensures { S.holds result 2 (a * x + b * y) }
{
    S::none().more(a, x).more(b, y)
}

// a * x + b * y modulo m, reduced once.
pub fn two_products(a: u32, x: u32, b: u32, y: u32, m: Divisor) -> u32
    ensures { result ≡ (a * x + b * y) % m.number }
{
    if m.number == MACHINE_WORDS {
        return two(a, x, b, y);
    }
    reduced(two(a, x, b, y), m)
}

// The sum of a[i] * b[k - i] for i from lo to hi - 1.
fn inner_sum<S: Sum>(a: &[u32], b: &[u32], k: usize, lo: usize, hi: usize) -> S
    requires { Within (length a.now) (length b.now) k lo hi }
    ensures { S.holds result (hi - lo) (inner a.now b.now k lo (hi - lo)) }
{
    let mut w = S::none();
    for i in lo..hi {
        w = w.more(a[i], b[k - i]);
    }
    w
}

// The same, round at 2^32. The last term stays out of the loop: in a division in place its factor of b was stored just before, and
// loads of several words at a time would wait for that store.
fn inner_words(a: &[u32], b: &[u32], k: usize, lo: usize, hi: usize) -> u32
    requires { Within (length a.now) (length b.now) k lo hi }
    ensures { result ≡ inner a.now b.now k lo (hi - lo) % 2 ^ 32 }
{
    if lo == hi {
        return 0;
    }
    let last = hi - 1;
    let w: u32 = inner_sum(a, b, k, lo, last);
    w.more(a[last], b[k - last])
}

// The sum of a[i] * b[k - i] for i from lo to hi - 1, modulo m. Nothing is divided inside the loop: but for 2^32 the sum is exact.
pub fn inner_product(a: &[u32], b: &[u32], k: usize, lo: usize, hi: usize, m: Divisor) -> u32
    requires { Within (length a.now) (length b.now) k lo hi }
    ensures { result ≡ inner a.now b.now k lo (hi - lo) % m.number }
{
    if m.number == MACHINE_WORDS {
        return inner_words(a, b, k, lo, hi);
    }
    reduced(inner_sum(a, b, k, lo, hi), m)
}

// The sum of a[i] * b[at + (i - lo) * step] for i from lo to hi - 1.
fn strided_sum<S: Sum>(a: &[u32], b: &[u32], lo: usize, hi: usize, at: usize, step: usize) -> S
    requires { Strides (length a.now) (length b.now) lo hi at step }
    ensures { S.holds result (hi - lo) (strided a.now b.now lo at step (hi - lo)) }
{
    let mut w = S::none();
    let mut j = at;
    for i in lo..hi {
        w = w.more(a[i], b[j]);
        j += step;
    }
    w
}

// The sum of a[i] * b[at + (i - lo) * step] for i from lo to hi - 1, modulo m: a row against a column.
pub fn strided_product(
    a: &[u32],
    b: &[u32],
    lo: usize,
    hi: usize,
    at: usize,
    step: usize,
    m: Divisor,
) -> u32
    requires { Strides (length a.now) (length b.now) lo hi at step }
    ensures { result ≡ strided a.now b.now lo at step (hi - lo) % m.number }
{
    if m.number == MACHINE_WORDS {
        return strided_sum(a, b, lo, hi, at, step);
    }
    reduced(strided_sum(a, b, lo, hi, at, step), m)
}
