// A polynomial as it is built from a text: sums, products and powers modulo m, and none once one of them went above the limit.
// A product goes as far as the degrees of its factors, so the degree is kept beside the coefficients.
#![tactic(auto)]

ghost use Rattle.polynomial.specs.Checks.{Measured};

use polynomial::{Coefficients, LIMIT, TERMS};
use reciprocal::Divisor;

// A polynomial within the limit, and its degree.
#[derive(Drop)]
pub struct Built {
    pub degree: usize,
    pub coefficients: Coefficients,
    pub ghost measured: { Measured degree coefficients },
}

impl Built {
    ghost use Rattle.std.specs.Prelude.{◌≡◌, true, false, ◌+◌, ◌%◌, ◌≤◌};
    ghost use Rattle.algebra.specs.Polynomial.{coef, plus, scaled, times, limit, reduced};
    ghost use Rattle.composition.specs.Composition.{Ends};
    ghost use Rattle.built.specs.Built.{single as single_of, Low, Settles, Joins, Shifts, Powers, Raises};

    // c, which ends at x^top.
    fn ending(c: Coefficients, top: usize) -> Built
        requires { Ends top c }
        ensures { result.coefficients ≡ c }
    {
        let degree = polynomial::degree(&c[..top + 1]);
        Built {
            degree,
            coefficients: c,
        }
    }

    // c * x^k.
    pub fn single(c: u64, k: usize, m: Divisor) -> Built
        requires { k ≤ limit }
        ensures { result.coefficients ≡ reduced m.number (single_of c k) }
    {
        let mut x = [0; TERMS];
        x[k] = m.remainder(c);
        Built::ending(x, k)
    }

    // x + k * y.
    fn mixed(&self, y: &Built, k: u32, m: Divisor) -> Built
        ensures { result.coefficients ≡ reduced m.number (plus self.now.coefficients (scaled k y.now.coefficients)) }
    {
        let top = self.degree.max(y.degree);
        let mut c = [0; TERMS];
        for i in 0..top + 1 {
            c[i] = inner::two_products(1, self.coefficients[i], k, y.coefficients[i], m);
        }
        Built::ending(c, top)
    }

    // a + k * b.
    pub fn combine(a: &Option<Built>, b: &Option<Built>, k: u32, m: Divisor) -> Option<Built>
        ensures { Joins m.number (λ x y. plus x (scaled k y)) a.now b.now result }
    {
        let Some(x) = a else {
            return None;
        };
        let Some(y) = b else {
            return None;
        };
        Some(x.mixed(y, k, m))
    }

    // The coefficient of x^k in the product with y.
    fn coefficient(&self, y: &Built, k: usize, m: Divisor) -> u32
        requires { k ≤ self.now.degree + y.now.degree }
        ensures { result ≡ coef (times self.now.coefficients y.now.coefficients) k % m.number }
    {
        let lo = k.saturating_sub(y.degree);
        let hi = k.min(self.degree) + 1;
        inner::inner_product(&self.coefficients, &y.coefficients, k, lo, hi, m)
    }

    // Whether a coefficient of the product above the limit is not zero; from the top, where most such products show it.
    fn spills(&self, y: &Built, m: Divisor) -> bool
        ensures no { result ≡ false → Low m.number (times self.now.coefficients y.now.coefficients) }
        ensures yes { result ≡ true → Low m.number (times self.now.coefficients y.now.coefficients) → ⊥ }
    {
        for k in (LIMIT + 1..self.degree + y.degree + 1).rev() {
            if self.coefficient(y, k, m) != 0 {
                return true;
            }
        }
        false
    }

    // The product as far as it ends, or the limit does.
    fn product(&self, y: &Built, m: Divisor) -> Built
        ensures { result.coefficients ≡ reduced m.number (times self.now.coefficients y.now.coefficients) }
    {
        let top = (self.degree + y.degree).min(LIMIT);
        let mut c = [0; TERMS];
        for k in 0..top + 1 {
            c[k] = self.coefficient(y, k, m);
        }
        Built::ending(c, top)
    }

    // The product with y, if it is within the limit.
    fn whole(&self, y: &Built, m: Divisor) -> Option<Built>
        ensures { Settles m.number (times self.now.coefficients y.now.coefficients) result }
    {
        if self.spills(y, m) {
            return None;
        }
        Some(self.product(y, m))
    }

    // a * b.
    pub fn multiply(a: &Option<Built>, b: &Option<Built>, m: Divisor) -> Option<Built>
        ensures { Joins m.number times a.now b.now result }
    {
        let Some(x) = a else {
            return None;
        };
        let Some(y) = b else {
            return None;
        };
        x.whole(y, m)
    }

    // Whether it is a single term whose p-th power is within the limit.
    fn shifts(&self, p: usize) -> bool
        requires { p ≤ limit }
        ensures { result ≡ true → Shifts self.now.degree p self.now.coefficients }
    {
        if LIMIT < self.degree * p {
            return false;
        }
        self.coefficients.iter().take(self.degree).all(|c| *c == 0)
    }

    // The p-th power, a factor at a time, until a power goes above the limit.
    fn repeated(&self, p: usize, m: Divisor) -> Option<Built>
        ensures { Powers m.number p self.now.coefficients result }
    {
        let mut v = Built::single(1, 0, m);
        for i in 0..p {
            v = self.whole(&v, m)?;
        }
        Some(v)
    }

    // a^p. The power of a single term is written at once.
    pub fn raise(a: &Option<Built>, p: usize, m: Divisor) -> Option<Built>
        requires { p ≤ limit }
        ensures { Raises m.number p a.now result }
    {
        let Some(x) = a else {
            return None;
        };
        if x.shifts(p) {
            let c = residue::power(x.coefficients[x.degree], p, m);
            return Some(Built::single(u64::from(c), x.degree * p, m));
        }
        x.repeated(p, m)
    }
}
