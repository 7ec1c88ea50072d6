// A round over the right degrees: the first at which f splits, and the tries. The chain goes round by round.
#![tactic(auto)]

ghost use Rattle.std.specs.Prelude.{◌≡◌, ◌*◌, ◌%◌};
ghost use Rattle.algebra.specs.Number.{Coprime, Modulus};
ghost use Rattle.round.specs.Round.{ChainAsked, Searched, Splittable};

use binomial::Table;
use polynomial::{Coefficients, Pair, PairDegrees};
use reciprocal::Divisor;

// A split: the right degree at which it was found, and the pair there.
#[derive(Clone, Copy)]
pub struct Split {
    pub at: usize,
    pub pair: Pair,
}

// What a round over the right degrees finds: the first split, if there is one, and the tries.
#[derive(Clone, Copy)]
pub struct Round {
    pub tries: usize,
    pub split: Option<Split>,
}

// The inverse of n, which shares no factor with m.
fn inverse(n: usize, m: u64) -> u32
    requires { Modulus m × Coprime n m }
    ensures { n * result % m ≡ 1 }
{
    inverse::invert(n as u64, m).unwrap()
}

// The round: each right degree from 2 to n / 2 that divides n, until f splits. v is the inverse of n. At each the quick question's
// first step is asked, the root, and the split is carried out only where it leaves a pair open.
pub fn first_split(f: Coefficients, n: usize, v: u32, table: &Table, m: Divisor) -> Round
    requires { ChainAsked m.number n f × (n * v % m.number ≡ 1) }
    ensures { Searched m.number n f result.tries result.split }
{
    let mut rows = [0; right::WORDS];
    let mut tries = 0;
    for s in 2..n / 2 + 1 {
        if n % s != 0 {
            continue;
        }
        tries += 1;
        let d = PairDegrees::at_right(n, s);
        if !pair::is_open(&mut rows, &f, d, v, table, m) {
            continue;
        }
        if let Ok(pair) = pair::split_open(f, &rows, d, m) {
            return Round {
                tries,
                split: Some(Split { at: s, pair }),
            };
        }
    }
    Round { tries, split: None }
}

// Whether f splits.
pub fn splits(f: Coefficients, n: usize, table: &Table, m: Divisor) -> bool
    requires { ChainAsked m.number n f }
    ensures { Splittable m.number f result }
{
    let v = inverse(n, m.number);
    first_split(f, n, v, table, m).split.is_some()
}
