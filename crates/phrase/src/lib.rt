// What the readers of a text hand on, and their steps that call no other reader.
#![tactic(auto)]

ghost use Rattle.std.specs.Prelude.{◌≡◌, true, false, List, ℕ, ◌+◌, ◌<◌, Option, Some, length, get_or};
ghost use Rattle.refusal.specs.Refusal.{naming_none};
ghost use Rattle.text.specs.Grammar.{most_deep, open_byte, minus_byte, x_byte};
ghost use Rattle.built.specs.declared.Built.{Built};
ghost use Rattle.phrase.specs.Reading.{Phrase, Done, reason_of, Reads, SignAt, Adds};

use built::Built;
use reciprocal::Divisor;
use refusal::{Reason, Refusal};

// The faults of a text.
#[derive(Clone, Copy, PartialEq, Eq, Debug)]
pub enum Fault {
    Spelling,
    Depth,
}

// Nos. 13 and 14.
impl From<Fault> for Refusal {
    ghost from_gives = { λ e x. x ≡ naming_none (reason_of e) };

    fn from(fault: Fault) -> Refusal {
        match fault {
            Fault::Spelling => Reason::Spelling.into(),
            Fault::Depth => Reason::Depth.into(),
        }
    }
}

// Whether b stands at `at`.
pub fn stands(s: &[u8], at: usize, b: u8) -> bool
    ensures yes { result ≡ true → (at < length s.now) × (get_or s.now at 0 ≡ b) }
    ensures no { result ≡ false → at < length s.now → get_or s.now at 0 ≡ b → ⊥ }
{
    s.get(at) == Some(&b)
}

// The sign that stands at `at`.
pub fn sign(s: &[u8], at: usize) -> Option<u8>
    ensures { SignAt s.now at result }
{
    match s.get(at) {
        Some(b @ (b'+' | b'-')) => Some(*b),
        _ => None,
    }
}

// A number, where neither a bracket nor x stands.
pub fn numbered(s: &[u8], at: usize, m: Divisor, built: &mut Option<Built>) -> Result<usize, Fault>
    requires bracket { at < length s.now → get_or s.now at 0 ≡ open_byte → ⊥ }
    requires unknown { at < length s.now → get_or s.now at 0 ≡ x_byte → ⊥ }
    ensures { (d : ℕ) → Reads Phrase.a_base Phrase.a_base m.number s.now at d result built.new }
{
    let n = numeral::number(s, at).ok_or(Fault::Spelling)?;
    *built = Some(Built::single(n.value, 0, m));
    Ok(n.next)
}

// The closing bracket of the sum, read to k, that stands behind an open one.
pub fn closed(s: &[u8], k: usize) -> Result<usize, Fault>
    ensures { (m at d : ℕ) (v : Option Built) → at < length s.now → get_or s.now at 0 ≡ open_byte → d < most_deep → Done Phrase.a_sum Phrase.a_sum m s.now (at + 1) (d + 1) k v → Reads Phrase.a_base Phrase.a_base m s.now at d result v }
{
    if !stands(s, k, b')') {
        return Err(Fault::Spelling);
    }
    Ok(k + 1)
}

// The power of the base, read to k, if one is written.
pub fn raised(s: &[u8], k: usize, m: Divisor, built: &mut Option<Built>) -> Result<usize, Fault>
    ensures { (at d : ℕ) → Done Phrase.a_base Phrase.a_base m.number s.now at d k built.old → Reads Phrase.a_factor Phrase.a_factor m.number s.now at d result built.new }
{
    if !stands(s, k, b'^') {
        return Ok(k);
    }
    let e = numeral::exponent(s, k + 1).ok_or(Fault::Spelling)?;
    *built = Built::raise(built, e.value as usize, m);
    Ok(e.next)
}

// a + b, or a - b, by the sign.
pub fn added(a: &Option<Built>, b: &Option<Built>, sign: u8, m: Divisor) -> Option<Built>
    ensures { Adds m.number sign a.now b.now result }
{
    if sign == b'+' {
        return Built::combine(a, b, 1, m);
    }
    Built::combine(a, b, (m.number - 1) as u32, m)
}

// The first product of a sum, with the minus that stands before it.
pub fn negated(product: &Option<Built>, m: Divisor) -> Option<Built>
    ensures { (s : List ℕ) (at d k : ℕ) → at < length s → get_or s at 0 ≡ minus_byte → Done Phrase.a_product Phrase.a_product m.number s (at + 1) d k product.now → Done Phrase.a_sum Phrase.a_product m.number s at d k result }
{
    added(&Some(Built::single(0, 0, m)), product, b'-', m)
}
