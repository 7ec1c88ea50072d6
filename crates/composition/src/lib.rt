// The composition g(h) by Horner's rule: g's coefficients from the top, each added to h times what there is so far.
// A step is in place, from the top power down, so that what is read is not written yet.
#![tactic(auto, unfolding(algebra::specs::Polynomial::terms, algebra::specs::Polynomial::limit))]

ghost use Rattle.std.specs.Prelude.{◌≡◌, [], ◌∷◌};
ghost use Rattle.algebra.specs.Polynomial.{plus, times, reduced};
ghost use Rattle.composition.specs.Composition.{composition, Composable, Room};

use polynomial::{Coefficients, TERMS};
use reciprocal::Divisor;

// One step for a line h, as in every change: two products a place, and no loop over h, for speed.
fn line_step(p: &mut [u32], c: u32, h: &[u32], d: usize, m: Divisor)
    requires { Room 1 d h.now p.old }
    ensures { p.new ≡ reduced m.number (plus (c ∷ []) (times h.now p.old)) }
{
    for j in (0..d).rev() {
        p[j + 1] = inner::two_products(h[0], p[j + 1], h[1], p[j], m);
    }
    p[0] = inner::two_products(h[0], p[0], c, 1, m);
}

// One step: p becomes c + h·p, of a degree up to d. With c = 0 it is one power of h more, for the left part.
pub fn step(p: &mut [u32], c: u32, h: &[u32], s: usize, d: usize, m: Divisor)
    requires { Room s d h.now p.old }
    ensures { p.new ≡ reduced m.number (plus (c ∷ []) (times h.now p.old)) }
{
    if s == 1 {
        line_step(p, c, h, d, m);
        return;
    }
    for j in (0..d).rev() {
        let k = j + 1;
        p[k] = inner::inner_product(h, p, k, 0, k.min(s) + 1, m);
    }
    p[0] = inner::two_products(h[0], p[0], c, 1, m);
}

// g(h), for g that ends at x^r and h that ends at x^s; one polynomial is held at a time.
pub fn compose(g: &[u32], h: &[u32], r: usize, s: usize, m: Divisor) -> Coefficients
    requires { Composable r s g.now h.now }
    ensures { result ≡ composition m.number g.now h.now }
{
    let mut p = [0; TERMS];
    let mut d = 0;
    for i in (0..r + 1).rev() {
        step(&mut p, g[i], h, s, d, m);
        d += s;
    }
    p
}
