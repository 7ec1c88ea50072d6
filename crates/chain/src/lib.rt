// The chain: the parts that f composes of, none of which splits further, in a lent area.
#![tactic(auto)]

ghost use Rattle.std.specs.Prelude.{◌≡◌, List, ℕ, ◌*◌, ◌%◌, ◌≤◌, length};
ghost use Rattle.algebra.specs.Polynomial.{degree};
ghost use Rattle.algebra.specs.Chain.{cost as cost_of};
ghost use Rattle.polynomial.specs.Moduli.{modulus};
ghost use Rattle.area.specs.Area.{area_words};
ghost use Rattle.round.specs.Round.{ChainAsked};
ghost use Rattle.chain.specs.Chaining.{ChainedIn, chained_of, ChainGiven, ChainFound, ChainOf};

use binomial::Table;
use polynomial::Coefficients;
use reciprocal::Divisor;
use refusal::{Reason, Refusal};

// The numbers of a chain: how many parts it has, the tries and the price.
#[derive(Clone, Copy, Default, PartialEq, Eq)]
pub struct Numbers {
    pub parts: usize,
    pub tries: usize,
    pub price: usize,
}

// The Price rule: what a monic polynomial of degree n costs.
pub fn cost(n: usize) -> usize
    requires { 1 ≤ n }
    ensures { (p : List ℕ) → degree p ≡ n → result ≡ cost_of p }
{
    n - 1
}

// The parts of f from the first place on: those of the left part first, then the right part in the next place. v is the inverse of
// n, and that of the left degree n / s is s * v: one search for an inverse serves all rounds.
fn parts(f: Coefficients, n: usize, v: u32, area: &mut [u32], table: &Table, m: Divisor) -> Numbers
    requires { ChainAsked m.number n f × (area_words ≤ length area.old) × (n * v % m.number ≡ 1) }
    ensures { ChainedIn m.number n f area.old area.new result.parts result.tries result.price }
{
    let round = round::first_split(f, n, v, table, m);
    let Some(split) = round.split else {
        area::put(area, 0, &f);
        return Numbers {
            parts: 1,
            tries: round.tries,
            price: cost(n),
        };
    };
    let s = split.at;
    let u = residue::multiply(v, s as u32, m);
    let left = parts(split.pair.left, n / s, u, area, table, m);
    area::put(area, left.parts, &split.pair.right);
    Numbers {
        parts: left.parts + 1,
        tries: round.tries + left.tries,
        price: left.price + cost(s),
    }
}

// The chain of f, which is accepted and of degree n, in the first places of an area, of which nothing else changes: No. 5, or the chain.
pub fn accepted(
    f: Coefficients,
    n: usize,
    area: &mut [u32],
    table: &Table,
    m: Divisor,
) -> Result<Numbers, Refusal>
    requires { ChainGiven m.number n f area.old }
    ensures { ChainFound m.number n f area.old area.new (chained_of result) }
{
    let v = inverse::invert(n as u64, m.number)?;
    Ok(parts(f, n, v, area, table, m))
}

// The operation: the chain of f, its number of parts, tries and price.
pub fn chain(m: u32, f: Coefficients, area: &mut [u32]) -> Result<Numbers, Refusal>
    ensures { ChainOf (modulus m) f area.old area.new (chained_of result) }
{
    let m = polynomial::modulus(m);
    if area.len() < area::WORDS {
        return Err(Reason::Area.into());
    }
    area::clear(area);
    let n = polynomial::degree(&f);
    polynomial::check_one(m, &f, n)?;
    let table = Table::new();
    accepted(f, n, area, &table, Divisor::new(m))
}
