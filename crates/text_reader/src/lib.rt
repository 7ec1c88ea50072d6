// Typed polynomials: the operation read.
#![tactic(auto)]

ghost use Rattle.polynomial.specs.Moduli.{modulus};
ghost use Rattle.polynomial.specs.Answers.{answer_of};
ghost use Rattle.text.specs.Answers.{ReadsText};

use polynomial::Coefficients;
use reciprocal::Divisor;
use refusal::{Concerns, Reason, Refusal};

// The longest text.
const BYTES: usize = 8192;

// The polynomial that a text means. It is reduced, so that 2 to 4 are 3 and 4.
pub fn read(m: u32, text: &[u8]) -> Result<Coefficients, Refusal>
    ensures { ReadsText (modulus m) text.now (answer_of result) }
{
    let m = polynomial::modulus(m);
    polynomial::check_modulus(m)?;
    if text.is_empty() || text.len() > BYTES {
        return Err(Reason::Spelling.into());
    }
    let mut built = None;
    let next = sums::sum(text, 0, 0, Divisor::new(m), &mut built)?;
    if next < text.len() {
        return Err(Reason::Spelling.into());
    }
    let v = built.ok_or(Reason::Limit)?;
    polynomial::check_polynomial(Concerns::First, m, &v.coefficients, v.degree)?;
    Ok(v.coefficients)
}
