// Typed polynomials: the operation write.
#![tactic(auto)]

ghost use Rattle.std.specs.Prelude.{[], ◌∷◌, ◌+◌, ◌*◌, ◌≤◌, length};
ghost use Rattle.algebra.specs.Polynomial.{limit};
ghost use Rattle.polynomial.specs.Moduli.{modulus};
ghost use Rattle.polynomial.specs.Checks.{Measured};
ghost use Rattle.digits.specs.Digits.{Put};
ghost use Rattle.text.specs.Grammar.{x_byte, times_byte, power_byte};
ghost use Rattle.text.specs.Answers.{WritesText, written_of};
ghost use Rattle.text.specs.Writing.{term_text, lower_term, lower, text_of, most_term, most_text};

use polynomial::{Coefficients, TERMS};
use refusal::{Reason, Refusal};

// The most bytes of a term: two numbers, and three bytes between them.
const TERM: usize = digits::DIGITS + 3 + digits::DIGITS;

// The most bytes of a text: each term with a +.
const TEXT: usize = (1 + TERM) * TERMS;

// *x^ between a coefficient and its power.
fn put_x(out: &mut [u8], at: usize) -> usize
    requires { at + 3 ≤ length out.old }
    ensures { Put out.old at (times_byte ∷ x_byte ∷ power_byte ∷ []) 3 out.new result }
{
    out[at..at + 3].copy_from_slice(b"*x^");
    at + 3
}

// c*x^i.
fn put_term(c: u32, i: usize, out: &mut [u8], at: usize) -> usize
    requires { (at + most_term ≤ length out.old) × (i ≤ limit) }
    ensures { Put out.old at (term_text c i) most_term out.new result }
{
    let a = digits::digits(c, out, at);
    let b = put_x(out, a);
    digits::digits(i as u32, out, b)
}

// + and the term, if it is not zero.
fn put_lower(c: u32, i: usize, out: &mut [u8], at: usize) -> usize
    requires { (at + (1 + most_term) ≤ length out.old) × (i ≤ limit) }
    ensures { Put out.old at (lower_term c i) (1 + most_term) out.new result }
{
    if c == 0 {
        return at;
    }
    out[at] = b'+';
    put_term(c, i, out, at + 1)
}

// The terms below x^n, highest first.
fn put_lowers(f: &[u32], n: usize, out: &mut [u8], at: usize) -> usize
    requires { Measured n f.now × (at + (1 + most_term) * n ≤ length out.old) }
    ensures { Put out.old at (lower n f.now) ((1 + most_term) * n) out.new result }
{
    let mut end = at;
    for k in (0..n).rev() {
        end = put_lower(f[k], k, out, end);
    }
    end
}

// The text of f, of degree n.
fn put_text(f: &[u32], n: usize, out: &mut [u8]) -> usize
    requires { Measured n f.now × (most_text ≤ length out.old) }
    ensures { Put out.old 0 (text_of f.now) most_text out.new result }
{
    let at = put_term(f[n], n, out, 0);
    put_lowers(f, n, out, at)
}

// f as text, into an area; answers its length. Nothing is written on refusal.
pub fn write(m: u32, f: Coefficients, area: &mut [u8]) -> Result<usize, Refusal>
    ensures { WritesText (modulus m) f area.old area.new (written_of result) }
{
    let n = polynomial::degree(&f);
    polynomial::check_one(polynomial::modulus(m), &f, n)?;
    let mut text = [0; TEXT];
    let length = put_text(&f, n, &mut text);
    if area.len() < length {
        return Err(Reason::Area.into());
    }
    area[..length].copy_from_slice(&text[..length]);
    Ok(length)
}
