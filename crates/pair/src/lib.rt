// The operations on pairs: compose, left part, split, and the quick question whether there is a pair.
#![tactic(auto)]

ghost use Rattle.std.specs.Prelude.{◌≡◌, min, ◌+◌, ◌*◌, ◌%◌, ◌<◌};
ghost use Rattle.polynomial.specs.Moduli.{modulus};
ghost use Rattle.polynomial.specs.Checks.{Measured};
ghost use Rattle.polynomial.specs.Answers.{answer_of, parts_of};
ghost use Rattle.binomial.specs.Triangle.{rows, HasRow};
ghost use Rattle.right.specs.Rows.{Space};
ghost use Rattle.right.specs.Right.{Root};
ghost use Rattle.pair.specs.Pairing.{fits as fits_of, compose as compose_of, LeftPartOf, check_split, Splits, SplitAsked, Opened, SplitAnswer};
ghost use Rattle.pair.specs.Asking.{verdict_of, QuickOf, QuickAnswer};

use binomial::{ROWS, Table};
use polynomial::{Coefficients, Pair, PairDegrees};
use reciprocal::Divisor;
use refusal::{Reason, Refusal};

// Whether a part of a polynomial of degree n can have degree d: d divides n, and d and n / d are at least 2.
fn fits(n: usize, d: usize) -> bool
    ensures { result ≡ fits_of n d }
{
    2 <= d && n % d == 0 && 2 <= n / d
}

// The operation: g(h).
pub fn compose(m: u32, g: Coefficients, h: Coefficients) -> Result<Coefficients, Refusal>
    ensures { answer_of result ≡ compose_of (modulus m) g h }
{
    let m = polynomial::modulus(m);
    let r = polynomial::degree(&g);
    let s = polynomial::degree(&h);
    polynomial::check_pair(m, &g, r, &h, s)?;
    Ok(composition::compose(&g, &h, r, s, Divisor::new(m)))
}

// The operation: the left part of f for a given h, whether h(0) is zero or not.
pub fn left_part(m: u32, f: Coefficients, h: Coefficients) -> Result<Coefficients, Refusal>
    ensures { LeftPartOf (modulus m) f h (answer_of result) }
{
    let m = polynomial::modulus(m);
    let n = polynomial::degree(&f);
    let s = polynomial::degree(&h);
    polynomial::check_two(m, &f, n, &h, s)?;
    if !fits(n, s) {
        return Err(Reason::Fit.into());
    }
    left::left_part(f, h, PairDegrees::at_right(n, s), Divisor::new(m))
}

// Whether the root of f, worked out in t, leaves a pair open at the degrees d. v is the inverse of n, so that of r is s * v: the chain
// asks it at every s of a round, with one inverse, and no polynomial is copied for a no.
pub fn is_open(t: &mut [u32], f: &[u32], d: PairDegrees, v: u32, table: &Table, m: Divisor) -> bool
    requires { SplitAsked m.number d.whole d.left d.right f.now × (d.whole * v % m.number ≡ 1) × Space m.number t.old }
    ensures { Root m.number f.now d.left d.right t.new result }
{
    let u = residue::multiply(v, d.right as u32, m);
    right::root(t, f, d, u, table.row(d.left), m)
}

// The split where the root in t leaves it open: its right part is there, and its left part is looked for.
pub fn split_open(f: Coefficients, t: &[u32], d: PairDegrees, m: Divisor) -> Result<Pair, Refusal>
    requires { Opened m.number d.whole d.left d.right f t.now }
    ensures { SplitAnswer m.number f d.left d.right (parts_of result) }
{
    let right = right::upside(t, d.right);
    let left = left::left_part(f, right, d, m)?;
    Ok(Pair { left, right })
}

// The split at the degrees d, with row r of the binomials lent.
fn split_by(f: Coefficients, d: PairDegrees, row: &[u64], m: Divisor) -> Result<Pair, Refusal>
    requires { SplitAsked m.number d.whole d.left d.right f × HasRow d.left (min d.left (d.right + 1)) row.now }
    ensures { SplitAnswer m.number f d.left d.right (parts_of result) }
{
    let u = inverse::invert(d.left as u64, m.number)?;
    let mut t = [0; right::WORDS];
    if !right::root(&mut t, &f, d, u, row, m) {
        return Err(Reason::NoPair.into());
    }
    split_open(f, &t, d, m)
}

// The same with the table of binomials lent.
pub fn split_at(f: Coefficients, d: PairDegrees, table: &Table, m: Divisor) -> Result<Pair, Refusal>
    requires { SplitAsked m.number d.whole d.left d.right f }
    ensures { SplitAnswer m.number f d.left d.right (parts_of result) }
{
    split_by(f, d, table.row(d.left), m)
}

// Row r of the binomials, as far as the root wants it: one split is no reason to write out the table.
fn row_for(d: PairDegrees) -> [u64; ROWS]
    ensures { HasRow d.left (min d.left (d.right + 1)) result }
{
    binomial::row(d.left, d.left.min(d.right + 1))
}

// 1, 2, 3, 4; 6: what a split at r refuses before it looks for a pair. n is the degree of f.
fn check_split(m: u64, f: &[u32], n: usize, r: usize) -> Result<(), Refusal>
    requires { Measured n f.now }
    ensures { result ≡ check_split m f.now r }
{
    polynomial::check_one(m, f, n)?;
    if !fits(n, r) {
        return Err(Reason::Fit.into());
    }
    Ok(())
}

// The operation: f split at the left degree r.
pub fn split(m: u32, f: Coefficients, r: usize) -> Result<Pair, Refusal>
    ensures { Splits (modulus m) f r (parts_of result) }
{
    let m = polynomial::modulus(m);
    let n = polynomial::degree(&f);
    check_split(m, &f, n, r)?;
    let d = PairDegrees::at_left(n, r);
    split_by(f, d, &row_for(d), Divisor::new(m))
}

// The quick question at the degrees d, by the inverse u of r: the root says most nos, and all digits the others. What differs is the
// highest power at which the forced pair, composed, and f do; nothing if f splits.
fn report(f: Coefficients, d: PairDegrees, u: u32, row: &[u64], m: Divisor) -> Option<usize>
    requires { SplitAsked m.number d.whole d.left d.right f × HasRow d.left (min d.left (d.right + 1)) row.now × (d.left * u % m.number ≡ 1) }
    ensures { QuickAnswer m.number f d.left d.right (verdict_of (Ok result)) }
{
    let mut t = [0; right::WORDS];
    if !right::root(&mut t, &f, d, u, row, m) {
        return Some(d.whole - d.right - 1);
    }
    let h = right::upside(&t, d.right);
    let power = report::report(f, h, d, m);
    if power == 0 { None } else { Some(power) }
}

// The operation: whether f splits at the left degree r, without the pair: nothing if it does, and if not the highest power at which the
// forced pair, composed, and f differ.
pub fn quick(m: u32, f: Coefficients, r: usize) -> Result<Option<usize>, Refusal>
    ensures { QuickOf (modulus m) f r (verdict_of result) }
{
    let m = polynomial::modulus(m);
    let n = polynomial::degree(&f);
    check_split(m, &f, n, r)?;
    let u = inverse::invert(r as u64, m)?;
    let d = PairDegrees::at_left(n, r);
    Ok(report(f, d, u, &row_for(d), Divisor::new(m)))
}
