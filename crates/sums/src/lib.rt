// The readers of a text: of sums, products, factors and bases, which call each other. Their loops count nothing: each turn begins
// where the reader of the turn before ended.
#![tactic(auto)]

ghost use Rattle.phrase.specs.Reading.{Phrase, Reads};

use built::Built;
use phrase::Fault;
use reciprocal::Divisor;

// The most brackets that are open at once.
const DEPTH: usize = 8;

// A base: a sum in brackets, x, or a number.
#[cycle(base_factor_leading_product_sum)]
fn base(
    s: &[u8],
    at: usize,
    depth: usize,
    m: Divisor,
    built: &mut Option<Built>,
) -> Result<usize, Fault>
    ensures { Reads Phrase.a_base Phrase.a_base m.number s.now at depth result built.new }
{
    if phrase::stands(s, at, b'(') {
        if depth >= DEPTH {
            return Err(Fault::Depth);
        }
        let next = sum(s, at + 1, depth + 1, m, built)?;
        return phrase::closed(s, next);
    }
    if phrase::stands(s, at, b'x') {
        *built = Some(Built::single(1, 1, m));
        return Ok(at + 1);
    }
    phrase::numbered(s, at, m, built)
}

// A factor: a base with or without a power.
#[cycle(base_factor_leading_product_sum)]
fn factor(
    s: &[u8],
    at: usize,
    depth: usize,
    m: Divisor,
    built: &mut Option<Built>,
) -> Result<usize, Fault>
    ensures { Reads Phrase.a_factor Phrase.a_factor m.number s.now at depth result built.new }
{
    let next = base(s, at, depth, m, built)?;
    phrase::raised(s, next, m, built)
}

// A product: factors with * between them.
#[cycle(base_factor_leading_product_sum)]
fn product(
    s: &[u8],
    at: usize,
    depth: usize,
    m: Divisor,
    built: &mut Option<Built>,
) -> Result<usize, Fault>
    ensures { Reads Phrase.a_product Phrase.a_product m.number s.now at depth result built.new }
{
    let mut next = factor(s, at, depth, m, built)?;
    while phrase::stands(s, next, b'*') {
        let mut other = None;
        next = factor(s, next + 1, depth, m, &mut other)?;
        *built = Built::multiply(built, &other, m);
    }
    Ok(next)
}

// The first product of a sum, which may have a minus.
#[cycle(base_factor_leading_product_sum)]
fn leading(
    s: &[u8],
    at: usize,
    depth: usize,
    m: Divisor,
    built: &mut Option<Built>,
) -> Result<usize, Fault>
    ensures { Reads Phrase.a_sum Phrase.a_product m.number s.now at depth result built.new }
{
    if phrase::stands(s, at, b'-') {
        let next = product(s, at + 1, depth, m, built)?;
        *built = phrase::negated(built, m);
        return Ok(next);
    }
    product(s, at, depth, m, built)
}

// A sum: products with + or - between them. A reader answers the next place; what was built, or none, is lent, so that no reader
// copies it to hand it on. After a fault nothing is said of it.
#[cycle(base_factor_leading_product_sum)]
pub fn sum(
    s: &[u8],
    at: usize,
    depth: usize,
    m: Divisor,
    built: &mut Option<Built>,
) -> Result<usize, Fault>
    ensures { Reads Phrase.a_sum Phrase.a_sum m.number s.now at depth result built.new }
{
    let mut next = leading(s, at, depth, m, built)?;
    while let Some(sign) = phrase::sign(s, next) {
        let mut other = None;
        next = product(s, next + 1, depth, m, &mut other)?;
        *built = phrase::added(built, &other, sign, m);
    }
    Ok(next)
}
