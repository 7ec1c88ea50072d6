// The left part of f for a given right part h, by repeated division by h with remainder (document 001, 3.1; true remainders,
// since its r_i = q_i(0) wants h(0) = 0): the remainders are the digits of f in powers of h. f = g(h) exactly if every digit is
// a constant, and then they are the coefficients of g. One list holds the digits found and, above them, the quotient still to
// be divided. Where there are many digits some are taken at once, by a division by h^k, and told apart by divisions by h.
#![tactic(auto, unfolding(algebra::specs::Polynomial::terms, algebra::specs::Polynomial::limit))]

ghost use Rattle.std.specs.Prelude.{◌≡◌, ℕ, ◌+◌, ◌*◌, ◌≤◌, ◌<◌, length};
ghost use Rattle.algebra.specs.Number.{table};
ghost use Rattle.algebra.specs.Polynomial.{coef, limit, terms, Held};
ghost use Rattle.polynomial.specs.Answers.{answer_of};
ghost use Rattle.division.specs.Division.{DivisionAsked, Raised};
ghost use Rattle.left.specs.Digits.{Lowest, Digits};
ghost use Rattle.left.specs.Left.{LeftAsked, LeftAnswer};

use polynomial::{Coefficients, PairDegrees, TERMS};
use reciprocal::Divisor;
use refusal::{Reason, Refusal};

// The lowest digit of p, and above it the quotient; "no" if the digit is no constant.
fn digit(p: &mut [u32], h: &[u32], s: usize, m: Divisor) -> bool
    requires { DivisionAsked m.number s h.now p.old × (s ≤ length p.old) }
    ensures { Lowest m.number h.now s 1 p.old p.new result }
{
    division::divide(p, h, s, m);
    division::is_constant(&p[..s])
}

// All digits of p, one by one; one that is no constant ends it with "no".
fn digits(p: &mut [u32], h: &[u32], s: usize, m: Divisor) -> bool
    requires { DivisionAsked m.number s h.now p.old }
    ensures { Digits m.number h.now s p.old p.new result }
{
    let last = (p.len() - 1) / s;
    for i in 0..last {
        if !digit(&mut p[i * s..], h, s, m) {
            return false;
        }
    }
    division::is_constant(&p[last * s..])
}

// The lowest k digits of p at once: the remainder by b = h^k has them. If they are constants, it ends where h^(k-1) does.
fn block(p: &mut [u32], h: &[u32], b: &[u32], k: usize, s: usize, m: Divisor) -> bool
    requires { DivisionAsked m.number s h.now p.old × Raised m.number h.now s k b.now × (0 < k) × (k * s ≤ length p.old) }
    ensures { Lowest m.number h.now s k p.old p.new result }
{
    let w = k * s;
    division::divide(p, b, w, m);
    let top = w - s;
    if !division::is_constant(&p[top..w]) {
        return false;
    }
    digits(&mut p[..top + 1], h, s, m)
}

// All digits of p, k at once by b = h^k as long as there are more than k, and the others one by one.
fn blocks(p: &mut [u32], h: &[u32], b: &[u32], k: usize, s: usize, m: Divisor) -> bool
    requires { DivisionAsked m.number s h.now p.old × Raised m.number h.now s k b.now × (0 < k) }
    ensures { Digits m.number h.now s p.old p.new result }
{
    let w = k * s;
    let last = (p.len() - 1) / w;
    for i in 0..last {
        if !block(&mut p[i * w..], h, b, k, s, m) {
            return false;
        }
    }
    digits(&mut p[last * w..], h, s, m)
}

// All digits of p, of degree r * s: the first by itself, since most polynomials that are no g(h) show it there.
fn expand(p: &mut [u32], h: &Coefficients, r: usize, s: usize, m: Divisor) -> bool
    requires { DivisionAsked m.number s h.now p.old × (length p.old ≡ r * s + 1) × (0 < r) }
    ensures { Digits m.number h.now s p.old p.new result }
{
    if !digit(p, h, s, m) {
        return false;
    }
    let k = division::at_once(r);
    let mut b = *h;
    division::raise(&mut b, h, k, s, m);
    blocks(&mut p[s..], h, &b, k, s, m)
}

// The constants of the digits, of which a has no more than r + 1, as a polynomial.
fn constants(a: &[u32], r: usize, s: usize) -> Coefficients
    requires { (length a.now ≡ terms) × (0 < s) × (r * s ≤ limit) × ((i : ℕ) → r < i → coef a.now (i * s) ≡ 0) }
    ensures { result ≡ table terms (λ i. coef a.now (i * s)) }
{
    let mut g = [0; TERMS];
    for i in 0..r + 1 {
        g[i] = a[i * s];
    }
    g
}

// The left part of f for the right part h, with the degrees d; No. 7 if there is none.
pub fn left_part(
    f: Coefficients,
    h: Coefficients,
    d: PairDegrees,
    m: Divisor,
) -> Result<Coefficients, Refusal>
    requires { LeftAsked m.number d.whole d.left d.right f h }
    ensures { LeftAnswer m.number f d.left h (answer_of result) }
{
    let mut a = f;
    if !expand(&mut a[..d.whole + 1], &h, d.left, d.right, m) {
        return Err(Reason::NoPair.into());
    }
    Ok(constants(&a, d.left, d.right))
}
