// The rightmost parts of complete chains: at one right degree, the right part of f if it does not split.
#![tactic(auto)]

ghost use Rattle.std.specs.Prelude.{◌≡◌, ◌/◌};
ghost use Rattle.polynomial.specs.Degrees.{Degrees};
ghost use Rattle.round.specs.Round.{ChainAsked};
ghost use Rattle.ending.specs.Ending.{RightmostAt};

use binomial::Table;
use polynomial::{Coefficients, Pair, PairDegrees};
use reciprocal::Divisor;

// The rightmost part of degree s of a complete chain, beside the left part that the others compose to: the pair of f there, if its
// right part does not split.
pub fn rightmost(f: Coefficients, n: usize, s: usize, table: &Table, m: Divisor) -> Option<Pair>
    requires { ChainAsked m.number n f × Degrees n (n / s) s }
    ensures { RightmostAt m.number n f s result }
{
    let Ok(pair) = pair::split_at(f, PairDegrees::at_right(n, s), table, m) else {
        return None;
    };
    if round::splits(pair.right, s, table, m) {
        None
    } else {
        Some(pair)
    }
}
