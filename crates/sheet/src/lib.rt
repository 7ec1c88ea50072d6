// Chain sheets: the parts of a chain as records, left to right. What a sheet is, what its reader and its writer answer, and the laws.
#![tactic(auto)]

ghost use Rattle.std.specs.Prelude.{◌≡◌};
ghost use Rattle.sheet.specs.Answers.{zeros};

use polynomial::{Coefficients, TERMS};

// How many bytes a sheet has: a record for each part.
pub const BYTES: usize = area::PARTS * record::BYTES;

// What the reader answers beside the area: the modulus as the word that stands on the sheet, and what the parts compose to.
#[derive(Clone, Copy)]
pub struct Sheet {
    pub modulus: u32,
    pub polynomial: Coefficients,
}

// Zeros, as they are handed out after a refusal.
impl Default for Sheet {
    ghost is_default = { λ x. x ≡ zeros };

    fn default() -> Sheet {
        Sheet {
            modulus: 0,
            polynomial: [0; TERMS],
        }
    }
}
