// The right part: the coefficients of h that the leading terms of f force, highest first (document 000, Algorithm 3.4).
//
// h = x^s + t, and the powers of h come from those of t by the binomials. Counted from the top, T_i[k] is the coefficient of
// x^(is-k) in t^i; then r·c_(s-k) = a_(n-k) - d with d the sum of C(r, i)·T_i[k] over i from 2 on. An entry stands once its column is done.
// Both sides are divided by r once: the binomials are kept as -C(r, i)/r, and a column ends with one sum.
//
// The same columns go on for two places past h: they are the r-th root of f from the top. If f = g(h), the root is h + g_(r-1)/r
// as far as place 2s - 1, so its place s + 1 is 0; where it is not, the forced pair and f differ at x^(n-s-1).
#![tactic(auto, using(crate::proofs::Columns::left_twice, crate::proofs::Columns::right_twice), unfolding(algebra::specs::Polynomial::terms, algebra::specs::Polynomial::limit, binomial::specs::Triangle::rows, crate::specs::Rows::words,))]

ghost use Rattle.std.specs.Prelude.{◌≡◌, min, ◌+◌, ◌*◌, ◌%◌, ◌≤◌, ◌<◌, length};
ghost use Rattle.algebra.specs.Polynomial.{limit, Reduced};
ghost use Rattle.binomial.specs.Triangle.{rows, HasRow};
ghost use Rattle.right.specs.Right.{RightAsked, Root};
ghost use Rattle.right.specs.Rows.{words, Space, Scaled, ColumnRoom, Column, Rows, Upside};

use binomial::ROWS;
use polynomial::{Coefficients, PairDegrees, TERMS};
use reciprocal::Divisor;

// How many words the rows of any degrees take at the most: r rows of s + 2 places.
pub const WORDS: usize = 2 * TERMS;

// Row r of the binomials as far as the place top, divided by -r modulo m, with the inverse u of r in place 1.
fn binomials(row: &[u64], r: usize, top: usize, u: u32, m: Divisor) -> [u32; ROWS]
    requires { (2 ≤ top) × (top < rows) × (u * r % m.number ≡ 1 % m.number) × HasRow r top row.now }
    ensures { Scaled m.number r u top result }
{
    let mut b = [0; ROWS];
    b[1] = u;
    for i in 2..top + 1 {
        let x = m.remainder(row[i]);
        b[i] = residue::subtract(0, residue::multiply(x, u, m), m.number);
    }
    b
}

// Column k of the rows 1 to n: each entry is one inner product of what stands before it.
fn column(t: &mut [u32], w: usize, k: usize, n: usize, m: Divisor)
    requires { ColumnRoom w k n t.old }
    ensures { Column m.number w k n t.old t.new }
{
    let mut at = k;
    for i in 0..n {
        let x = inner::inner_product(t, t, at, 1, k - i, m);
        at += w;
        t[at] = x;
    }
}

// Column k, whole: the rows after the first, then the place of row 0 that 01's equation asks, f's coefficient among its terms.
fn next(t: &mut [u32], f: &[u32], b: &[u32], d: PairDegrees, k: usize, m: Divisor)
    requires asked { Reduced m.number f.now × (length b.now ≡ rows) }
    requires rows { Rows m.number f.now d.whole d.left (d.right + 2) b.now k t.old × (0 < k) × (k < d.right + 2) }
    ensures { Rows m.number f.now d.whole d.left (d.right + 2) b.now (k + 1) t.new }
{
    let w = d.right + 2;
    let last = d.left.min(k);
    column(t, w, k, last - 1, m);
    t[k] = f[d.whole - k];
    let x = inner::strided_product(b, t, 1, last + 1, k, w, m);
    t[k] = x;
}

// Row 0 from the top is h.
pub fn upside(t: &[u32], s: usize) -> Coefficients
    requires { (length t.now ≡ words) × (2 ≤ s) × (s + s ≤ limit) }
    ensures { Upside s t.now result }
{
    let mut h = [0; TERMS];
    for k in 1..s {
        h[s - k] = t[k];
    }
    h[s] = 1;
    h
}

// The r-th root of f, for its left degree r, in the rows of t; u is the inverse of r, and row has row r of the binomials. "No" if its
// place s + 1 shows that there is no pair. t may hold the rows of another root.
pub fn root(t: &mut [u32], f: &[u32], d: PairDegrees, u: u32, row: &[u64], m: Divisor) -> bool
    requires { RightAsked m.number d.whole d.left d.right u f.now × HasRow d.left (min d.left (d.right + 1)) row.now × Space m.number t.old }
    ensures { Root m.number f.now d.left d.right t.new result }
{
    let b = binomials(row, d.left, d.left.min(d.right + 1), u, m);
    for k in 1..d.right + 2 {
        next(t, f, &b, d, k, m);
    }
    t[d.right + 1] == 0
}
