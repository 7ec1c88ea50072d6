// The inverse of a number modulo m, prime or not, or the greatest common factor that is in the way.
#![tactic(auto)]

ghost use Rattle.std.specs.Prelude.{◌≡◌, ◌+◌, ◌%◌, ◌<◌};
ghost use Rattle.algebra.specs.Number.{Modulus};
ghost use Rattle.inverse.specs.Inverse.{InverseIs};
ghost use Rattle.refusal.specs.Refusal.{naming_none};
ghost use Rattle.refusal.specs.declared.Reason.TheVariants.{Factor};

use refusal::{Reason, Refusal};

// Why there is no inverse: the greatest common factor, which is above 1.
#[derive(Clone, Copy, PartialEq, Eq)]
pub struct SharedFactor(pub u64);

// No. 5.
impl From<SharedFactor> for Refusal {
    ghost from_gives = { λ _ x. x ≡ naming_none Factor };

    fn from(_: SharedFactor) -> Refusal {
        Reason::Factor.into()
    }
}

// t - s modulo m.
fn less(t: u64, s: u64, m: u64) -> u64
    requires { Modulus m × (t < m) × (s < m) }
    ensures { (result < m) × ((result + s) % m ≡ t % m) }
{
    if s <= t { t - s } else { m - s + t }
}

// The inverse of a modulo m, by Euclid's algorithm with coefficients modulo m: no prime is needed and no sign.
pub fn invert(a: u64, m: u64) -> Result<u32, SharedFactor>
    requires { Modulus m }
    ensures { InverseIs a m result }
{
    let mut x = m;
    let mut y = a % m;
    let mut s: u64 = 0;
    let mut t: u64 = 1;
    while y != 0 {
        let u = less(s, t * (x / y) % m, m);
        let z = x % y;
        x = y;
        y = z;
        s = t;
        t = u;
    }
    if x == 1 {
        Ok(s as u32)
    } else {
        Err(SharedFactor(x))
    }
}
