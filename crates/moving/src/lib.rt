// A polynomial and a pair after a·x + b, by the inverse of a: what a change makes of them once it is tested.
#![tactic(auto)]

ghost use Rattle.std.specs.Prelude.{◌≡◌, length};
ghost use Rattle.algebra.specs.Polynomial.{scaled, terms, reduced, Held};
ghost use Rattle.moving.specs.Moving.{Lined, moved as moved_of, Inverts, PolynomialChanged, RightChanged, PairChanged};

use polynomial::{Coefficients, Pair, TERMS};
use reciprocal::Divisor;

// Each coefficient times c.
fn multiple(p: &[u32], c: u32, m: Divisor) -> Coefficients
    requires { length p.now ≡ terms }
    ensures { result ≡ reduced m.number (scaled c p.now) }
{
    let mut q = [0; TERMS];
    for k in 0..TERMS {
        q[k] = residue::multiply(c, p[k], m);
    }
    q
}

// The right part's share: h', and h(b) which goes to the left part.
#[derive(Clone, Copy)]
struct Right {
    part: Coefficients,
    origin: u32,
}

// A change x to a·x + b, its unit a and its origin b, with the inverse of a modulo m.
#[derive(Clone, Copy)]
pub struct Move {
    pub unit: u32,
    pub origin: u32,
    pub inverse: u32,
    pub modulus: Divisor,
    pub ghost inverts: { Inverts modulus.number unit inverse },
}

impl Move {
    // b + a·x.
    fn line(self) -> Coefficients
        ensures { Lined self.unit self.origin result }
    {
        let mut l = [0; TERMS];
        l[0] = self.origin;
        l[1] = self.unit;
        l
    }

    // f(a·x + b), for f of degree n.
    fn moved(self, f: &[u32], n: usize) -> Coefficients
        requires { Held self.modulus.number n f.now }
        ensures { result ≡ moved_of self.modulus.number f.now self.unit self.origin }
    {
        composition::compose(f, &self.line(), n, 1, self.modulus)
    }

    // a^(-n)·f(a·x + b).
    pub fn changed(self, f: &[u32], n: usize) -> Coefficients
        requires { Held self.modulus.number n f.now }
        ensures { PolynomialChanged self.modulus.number n self.unit self.origin f.now result }
    {
        let m = self.modulus;
        let p = self.moved(f, n);
        multiple(&p, residue::power(self.inverse, n, m), m)
    }

    // h' = a^(-s)·(h(a·x + b) - h(b)): the constant of h(a·x + b) is h(b).
    fn changed_right(self, h: &[u32], s: usize) -> Right
        requires { Held self.modulus.number s h.now }
        ensures { RightChanged self.modulus.number s self.unit self.origin h.now result.part result.origin }
    {
        let m = self.modulus;
        let mut p = self.moved(h, s);
        let origin = p[0];
        p[0] = 0;
        let part = multiple(&p, residue::power(self.inverse, s, m), m);
        Right { part, origin }
    }

    // The changed pair: g goes to a^s·x + h(b).
    pub fn changed_pair(self, g: &[u32], r: usize, h: &[u32], s: usize) -> Pair
        requires { Held self.modulus.number r g.now × Held self.modulus.number s h.now }
        ensures { PairChanged self.modulus.number r s self.unit self.origin g.now h.now result }
    {
        let m = self.modulus;
        let right = self.changed_right(h, s);
        let outer = Move {
            unit: residue::power(self.unit, s, m),
            origin: right.origin,
            inverse: residue::power(self.inverse, s, m),
            modulus: m,
        };
        let left = outer.changed(g, r);
        let right = right.part;
        Pair { left, right }
    }
}
