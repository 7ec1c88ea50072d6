// The report (request No. 7): the highest power at which f and g(h) differ, for the forced left part g. It takes all digits of f in
// powers of h, constants or not: the highest that is none tells that power. Some are taken at once, as for the left part.
#![tactic(auto, unfolding(algebra::specs::Polynomial::terms, algebra::specs::Polynomial::limit))]

ghost use Rattle.std.specs.Prelude.{◌≡◌, ◌+◌, ◌*◌, ◌≤◌, ◌<◌, length};
ghost use Rattle.algebra.specs.Polynomial.{limit};
ghost use Rattle.division.specs.Division.{DivisionAsked, Raised};
ghost use Rattle.left.specs.Left.{LeftAsked};
ghost use Rattle.report.specs.Report.{Expanded, HighestAt, LeftReport};

use polynomial::{Coefficients, PairDegrees};
use reciprocal::Divisor;

// The lowest n digits of p, constants or not, one by one; above them the quotient. Not one with the `digits` of `left`, which end at
// the first that is no constant and say so: these are all taken.
fn each_digit(p: &mut [u32], h: &[u32], n: usize, s: usize, m: Divisor)
    requires { DivisionAsked m.number s h.now p.old × (n * s ≤ length p.old) }
    ensures { Expanded m.number h.now s n p.old p.new }
{
    for i in 0..n {
        let at = i * s;
        division::divide(&mut p[at..], h, s, m);
    }
}

// The lowest k digits of p, constants or not, at once: the remainder by b = h^k has them, and k - 1 divisions tell them apart.
fn digits_at_once(p: &mut [u32], h: &[u32], b: &[u32], k: usize, s: usize, m: Divisor)
    requires { DivisionAsked m.number s h.now p.old × Raised m.number h.now s k b.now × (0 < k) × (k * s ≤ length p.old) }
    ensures { Expanded m.number h.now s k p.old p.new }
{
    let w = k * s;
    division::divide(p, b, w, m);
    each_digit(&mut p[..w], h, k - 1, s, m);
}

// The lowest r digits of p, constants or not: k at once by b = h^k as long as there are k, and the others one by one.
fn all_digits(p: &mut [u32], h: &[u32], b: &[u32], k: usize, r: usize, s: usize, m: Divisor)
    requires { DivisionAsked m.number s h.now p.old × Raised m.number h.now s k b.now × (0 < k) × (r * s < length p.old) }
    ensures { Expanded m.number h.now s r p.old p.new }
{
    for i in 0..r / k {
        digits_at_once(&mut p[i * k * s..], h, b, k, s, m);
    }
    let n = r / k * k;
    each_digit(&mut p[n * s..], h, r - n, s, m);
}

// The highest place of the digits in p that has a number and is no digit's constant: the degree of the highest digit that is none.
fn highest(p: &[u32], r: usize, s: usize) -> usize
    requires { (length p.now ≡ r * s + 1) × (0 < s) × (r * s ≤ limit) }
    ensures { HighestAt s p.now result }
{
    for j in (0..r).rev() {
        let at = j * s;
        let end = at + s;
        let d = polynomial::degree(&p[at..end]);
        if d != 0 {
            return at + d;
        }
    }
    0
}

// The highest power at which f and g(h) differ for the forced left part g, with the degrees d; 0, and no Option, if f = g(h),
// as `LeftReport` says it. No digit ends it early: the highest that is no constant is wanted, and it is found last.
pub fn report(f: Coefficients, h: Coefficients, d: PairDegrees, m: Divisor) -> usize
    requires { LeftAsked m.number d.whole d.left d.right f h }
    ensures { LeftReport m.number f d.left d.right h result }
{
    let k = division::at_once(d.left);
    let mut b = h;
    division::raise(&mut b, &h, k, d.right, m);
    let mut a = f;
    all_digits(&mut a[..d.whole + 1], &h, &b, k, d.left, d.right, m);
    highest(&a[..d.whole + 1], d.left, d.right)
}
