// A refusal: why, and which polynomial it concerns. specs/Refusal gives 01's number, polynomial and power for each case. What an
// operation answers is a Result with a refusal as its error, and so is what a check says.
#![tactic(auto)]

ghost use Rattle.std.specs.Prelude.{◌≡◌};
ghost use Rattle.refusal.specs.Refusal.{number as number_of, polynomial as polynomial_of, power as power_of, naming_none};

// Which polynomial a refusal concerns: by its role, or by its place on a sheet, counted from 0.
#[derive(Clone, Copy, PartialEq, Eq)]
pub enum Concerns {
    Neither,
    First,
    Second,
    Place(u8),
}

// Why, in the order of 01's table, Nos. 1 to 11, then those of 02. No. 2 carries the lowest offending power of x.
#[derive(Clone, Copy, PartialEq, Eq)]
pub enum Reason {
    Modulus,
    Coefficient(u32),
    Degree,
    Leading,
    Factor,
    Fit,
    NoPair,
    Change,
    Short,
    Limit,
    Area,
    Sheet,
    Spelling,
    Depth,
    Beyond,
}

#[derive(Clone, Copy, PartialEq, Eq)]
pub struct Refusal {
    pub concerns: Concerns,
    pub reason: Reason,
}

// The refusal for a reason alone names no polynomial.
impl From<Reason> for Refusal {
    ghost from_gives = { λ r x. x ≡ naming_none r };

    fn from(reason: Reason) -> Refusal {
        Refusal {
            concerns: Concerns::Neither,
            reason,
        }
    }
}

impl Reason {
    // 01's number of the reason.
    pub fn number(self) -> u32
        ensures { result ≡ number_of self }
    {
        match self {
            Reason::Modulus => 1,
            Reason::Coefficient(_) => 2,
            Reason::Degree => 3,
            Reason::Leading => 4,
            Reason::Factor => 5,
            Reason::Fit => 6,
            Reason::NoPair => 7,
            Reason::Change => 8,
            Reason::Short => 9,
            Reason::Limit => 10,
            Reason::Area => 11,
            Reason::Sheet => 12,
            Reason::Spelling => 13,
            Reason::Depth => 14,
            Reason::Beyond => 18,
        }
    }

    // The offending power of No. 2, and 0 for all others.
    pub fn power(self) -> u32
        ensures { result ≡ power_of self }
    {
        match self {
            Reason::Coefficient(i) => i,
            _ => 0,
        }
    }
}

impl Concerns {
    // Which polynomial, as a number: 0 neither, 1 the first, 2 the second, 16 + i the one in place i.
    pub fn number(self) -> u32
        ensures { result ≡ polynomial_of self }
    {
        match self {
            Concerns::Neither => 0,
            Concerns::First => 1,
            Concerns::Second => 2,
            Concerns::Place(i) => 16 + i as u32,
        }
    }
}
