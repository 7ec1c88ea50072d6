// The record check: the bytes of a record to a modulus, a polynomial and its degree, or a refusal.
#![tactic(auto)]

ghost use Rattle.std.specs.Prelude.{◌≡◌, ◌+◌, ◌*◌, ◌≤◌, ◌<◌, length};
ghost use Rattle.record.specs.Record.{word as word_of, record_bytes, coefficients as coefficients_of, zeros, checked, checked_of};

use polynomial::{Coefficients, TERMS};
use refusal::{Reason, Refusal};

// A word for the modulus and one for each coefficient, 4 bytes each.
pub const BYTES: usize = 4 * (TERMS + 1);

// What a record holds, its modulus as the word that stands there.
#[derive(Clone, Copy)]
pub struct Record {
    pub modulus: u32,
    pub polynomial: Coefficients,
    pub degree: usize,
}

// Zeros, as they are handed out after a refusal.
impl Default for Record {
    ghost is_default = { λ x. x ≡ zeros };

    fn default() -> Record {
        Record {
            modulus: 0,
            polynomial: [0; TERMS],
            degree: 0,
        }
    }
}

// Word i, low byte first.
pub fn word(bytes: &[u8], i: usize) -> u32
    requires { 4 * i + 4 ≤ length bytes.now }
    ensures { result ≡ word_of bytes.now i }
{
    let at = 4 * i;
    u32::from_le_bytes([bytes[at], bytes[at + 1], bytes[at + 2], bytes[at + 3]])
}

// Words 1 to TERMS.
pub fn coefficients(bytes: &[u8]) -> Coefficients
    requires { record_bytes ≤ length bytes.now }
    ensures { result ≡ coefficients_of bytes.now }
{
    let mut f = [0; TERMS];
    for i in 0..TERMS {
        f[i] = word(bytes, i + 1);
    }
    f
}

// The record that the bytes begin with.
pub fn check(bytes: &[u8]) -> Result<Record, Refusal>
    ensures { checked_of result ≡ checked bytes.now }
{
    if bytes.len() < BYTES {
        return Err(Reason::Short.into());
    }
    let modulus = word(bytes, 0);
    let polynomial = coefficients(bytes);
    let degree = polynomial::degree(&polynomial);
    polynomial::check_one(polynomial::modulus(modulus), &polynomial, degree)?;
    Ok(Record {
        modulus,
        polynomial,
        degree,
    })
}
