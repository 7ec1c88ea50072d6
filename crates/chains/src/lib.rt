// Every complete chain of f: how many there are, and the j-th of them in a lent area.
#![tactic(auto)]

ghost use Rattle.std.specs.Prelude.{◌≡◌, ◌≤◌, length};
ghost use Rattle.polynomial.specs.Moduli.{modulus};
ghost use Rattle.area.specs.Area.{area_words};
ghost use Rattle.round.specs.Round.{ChainAsked};
ghost use Rattle.chains.specs.Walking.{HasChains, Walked};
ghost use Rattle.chains.specs.Choosing.{numbered_of, chosen_of, NumberOf, NthOf};

use binomial::Table;
use polynomial::Coefficients;
use reciprocal::Divisor;
use refusal::{Reason, Refusal};

// The number of complete chains: over the right degrees from 2 to n / 2, and f alone if none of them has any.
fn count(f: Coefficients, n: usize, table: &Table, m: Divisor) -> usize
    requires { ChainAsked m.number n f }
    ensures { HasChains m.number f result }
{
    let mut c = 0;
    for s in 2..n / 2 + 1 {
        if n % s != 0 {
            continue;
        }
        if let Some(pair) = ending::rightmost(f, n, s, table, m) {
            c += count(pair.left, n / s, table, m);
        }
    }
    c.max(1)
}

// The numbers of a complete chain: how many parts it has, and its price.
#[derive(Clone, Copy, Default, PartialEq, Eq)]
pub struct Numbers {
    pub parts: usize,
    pub price: usize,
}

// The walk to the j-th chain: the chains of each right degree in turn, which are those of the left part. What is passed is counted
// and not kept; the parts of the j-th are written on the way back, those of the left part first. If there is no j-th chain the answer
// is how many there are.
fn walk(
    f: Coefficients,
    n: usize,
    j: usize,
    area: &mut [u32],
    table: &Table,
    m: Divisor,
) -> Result<Numbers, usize>
    requires { ChainAsked m.number n f × (area_words ≤ length area.old) }
    ensures { Walked m.number f j area.old area.new result }
{
    let mut rest = j;
    for s in 2..n / 2 + 1 {
        if n % s != 0 {
            continue;
        }
        let Some(pair) = ending::rightmost(f, n, s, table, m) else {
            continue;
        };
        match walk(pair.left, n / s, rest, area, table, m) {
            Ok(left) => {
                area::put(area, left.parts, &pair.right);
                return Ok(Numbers {
                    parts: left.parts + 1,
                    price: left.price + chain::cost(s),
                });
            }
            Err(passed) => rest -= passed,
        }
    }
    if rest < j {
        return Err(j - rest);
    }
    if j > 0 {
        return Err(1);
    }
    area::put(area, 0, &f);
    Ok(Numbers {
        parts: 1,
        price: chain::cost(n),
    })
}

// The operation: the number of complete chains of f.
pub fn count_chains(m: u32, f: Coefficients) -> Result<usize, Refusal>
    ensures { NumberOf (modulus m) f (numbered_of result) }
{
    let m = polynomial::modulus(m);
    let n = polynomial::degree(&f);
    polynomial::check_one(m, &f, n)?;
    inverse::invert(n as u64, m)?;
    let table = Table::new();
    Ok(count(f, n, &table, Divisor::new(m)))
}

// The operation: the j-th complete chain of f, from 0, its number of parts and its price.
pub fn nth_chain(m: u32, f: Coefficients, j: usize, area: &mut [u32]) -> Result<Numbers, Refusal>
    ensures { NthOf (modulus m) f j area.old area.new (chosen_of result) }
{
    let m = polynomial::modulus(m);
    if area.len() < area::WORDS {
        return Err(Reason::Area.into());
    }
    area::clear(area);
    let n = polynomial::degree(&f);
    polynomial::check_one(m, &f, n)?;
    inverse::invert(n as u64, m)?;
    let table = Table::new();
    let Ok(numbers) = walk(f, n, j, area, &table, Divisor::new(m)) else {
        return Err(Reason::Beyond.into());
    };
    Ok(numbers)
}
