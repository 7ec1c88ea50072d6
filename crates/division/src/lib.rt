// Division by h with remainder (document 001, 3.1; true remainders, since its r_i = q_i(0) wants h(0) = 0), in place, and h^k for
// divisions that take k digits at once. The left part and the report take a polynomial's digits in powers of h by it.
#![tactic(auto)]

ghost use Rattle.std.specs.Prelude.{◌≡◌, ◌*◌, ◌≤◌, ◌<◌, length};
ghost use Rattle.algebra.specs.Polynomial.{limit, Held};
ghost use Rattle.division.specs.Division.{DivisionAsked, Divided, Raised, ConstantIs};

use reciprocal::Divisor;

// p divided by h, of degree s, in place: its lowest s places become the remainder, those above them the quotient. From the top
// down, each place loses what the quotient's places above it, times h without its leading 1, give there.
pub fn divide(p: &mut [u32], h: &[u32], s: usize, m: Divisor)
    requires { DivisionAsked m.number s h.now p.old × (s ≤ length p.old) }
    ensures { Divided m.number h.now s p.old p.new }
{
    for i in (0..p.len()).rev() {
        let top = i + s;
        let lo = (top + 1).saturating_sub(p.len());
        let hi = s.min(i + 1);
        let x = inner::inner_product(h, p, top, lo, hi, m);
        p[i] = residue::subtract(p[i], x, m.number);
    }
}

// Whether p is a constant.
pub fn is_constant(p: &[u32]) -> bool
    ensures { ConstantIs p.now result }
{
    p.iter().skip(1).all(|c| *c == 0)
}

// b, which is h, becomes h^k.
pub fn raise(b: &mut [u32], h: &[u32], k: usize, s: usize, m: Divisor)
    requires { Held m.number s h.now × (b.old ≡ h.now) × (0 < k) × (k * s ≤ limit) }
    ensures { Raised m.number h.now s k b.new }
{
    for i in 1..k {
        composition::step(b, 0, h, s, (i + 1) * s, m);
    }
}

// How many of r digits are taken at once: many make h^k longer, few make more divisions that wait for each other. The steps are
// measured ones (bench/README.md).
pub fn at_once(r: usize) -> usize
    requires { 0 < r }
    ensures { (0 < result) × (result ≤ r) }
{
    match r {
        ..5 => 1,
        5..12 => 2,
        12..32 => 3,
        _ => 5,
    }
}
