// The change of unit and origin, x to a·x + b.
//
//   Change                 a type with its identity; make, combine, undo
//   change_polynomial      a^(-n)·f(a·x + b)
//   change_pair            h' = a^(-s)·(h(a·x + b) - h(b)), g' = a^(-n)·g(a^s·x + h(b))
#![tactic(auto)]

ghost use Rattle.std.specs.Prelude.{◌≡◌, ◌<◌};
ghost use Rattle.polynomial.specs.Moduli.{modulus};
ghost use Rattle.polynomial.specs.Answers.{answer_of, parts_of};
ghost use Rattle.change.specs.Changing.{made, made_of, combined_change, Tests, Undone, Combines, Undoing, ChangesPolynomial, ChangesPair};

use moving::Move;
use polynomial::{Coefficients, Pair};
use reciprocal::Divisor;
use refusal::{Reason, Refusal};

// x becomes unit * x + origin.
#[derive(Clone, Copy, PartialEq, Eq)]
pub struct Change {
    pub unit: u32,
    pub origin: u32,
}

// (a·a2, a·b2 + b).
fn combined(first: Change, second: Change, m: Divisor) -> Change
    ensures { result ≡ combined_change m.number first second }
{
    Change {
        unit: residue::multiply(first.unit, second.unit, m),
        origin: inner::two_products(first.unit, second.origin, first.origin, 1, m),
    }
}

impl Change {
    // The change that changes nothing.
    pub const IDENTITY: Change = Change { unit: 1, origin: 0 };

    // Any two numbers; the operations test them.
    pub fn make(unit: u32, origin: u32) -> Self
        ensures { result ≡ made unit origin }
    {
        Change { unit, origin }
    }

    // The test of No. 8: the change with the inverse of its unit.
    fn tested(self, m: Divisor) -> Result<Move, Refusal>
        ensures { Tests m.number self result }
    {
        if m.number <= u64::from(self.unit) {
            return Err(Reason::Change.into());
        }
        if m.number <= u64::from(self.origin) {
            return Err(Reason::Change.into());
        }
        let Ok(inverse) = inverse::invert(u64::from(self.unit), m.number) else {
            return Err(Reason::Change.into());
        };
        Ok(Move {
            unit: self.unit,
            origin: self.origin,
            inverse,
            modulus: m,
        })
    }

    // First one, then the other, as one change.
    pub fn combine(m: u32, first: Change, second: Change) -> Result<Change, Refusal>
        ensures { Combines (modulus m) first second (made_of result) }
    {
        let m = polynomial::modulus(m);
        polynomial::check_modulus(m)?;
        let d = Divisor::new(m);
        first.tested(d)?;
        second.tested(d)?;
        Ok(combined(first, second, d))
    }

    // The change that undoes one.
    pub fn undo(m: u32, c: Change) -> Result<Change, Refusal>
        ensures { Undoing (modulus m) c (made_of result) }
    {
        let m = polynomial::modulus(m);
        polynomial::check_modulus(m)?;
        Ok(undone(c.tested(Divisor::new(m))?))
    }
}

// (1/a, -b/a).
fn undone(c: Move) -> Change
    requires { (c.inverse < c.modulus.number) × (c.origin < c.modulus.number) }
    ensures { Undone c.modulus.number (made c.unit c.origin) result }
{
    let m = c.modulus;
    let minus = residue::subtract(0, c.origin, m.number);
    Change {
        unit: c.inverse,
        origin: residue::multiply(c.inverse, minus, m),
    }
}

// The operation: f changed by c.
pub fn change_polynomial(m: u32, f: Coefficients, c: Change) -> Result<Coefficients, Refusal>
    ensures { ChangesPolynomial (modulus m) f c (answer_of result) }
{
    let m = polynomial::modulus(m);
    let n = polynomial::degree(&f);
    polynomial::check_one(m, &f, n)?;
    let c = c.tested(Divisor::new(m))?;
    Ok(c.changed(&f, n))
}

// The operation: the pair g, h changed by c.
pub fn change_pair(m: u32, g: Coefficients, h: Coefficients, c: Change) -> Result<Pair, Refusal>
    ensures { ChangesPair (modulus m) g h c (parts_of result) }
{
    let m = polynomial::modulus(m);
    let r = polynomial::degree(&g);
    let s = polynomial::degree(&h);
    polynomial::check_pair(m, &g, r, &h, s)?;
    let c = c.tested(Divisor::new(m))?;
    Ok(c.changed_pair(&g, r, &h, s))
}
