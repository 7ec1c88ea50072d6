// Chain sheets: the refusals that the writer and the reader share, by the places of an area.
#![tactic(auto, unfolding(sheet::specs::Sheet::sheet_bytes, record::specs::Record::record_bytes, area::specs::Area::area_words, area::specs::Area::most_parts, algebra::specs::Polynomial::limit, algebra::specs::Polynomial::terms))]

ghost use Rattle.std.specs.Prelude.{◌≡◌, ◌+◌, ◌*◌, ◌≤◌, ◌<◌, length};
ghost use Rattle.algebra.specs.Polynomial.{limit};
ghost use Rattle.algebra.specs.Chain.{degrees, product};
ghost use Rattle.area.specs.Area.{most_parts, area_words, place};
ghost use Rattle.sheet.specs.Sheet.{used as used_of, parts_in};
ghost use Rattle.sheet.specs.Checks.{check_room as check_room_of, in_order as in_order_of, check_order as check_order_of, check_product as check_product_of};
ghost use Rattle.sheet.specs.Steps.{Rising};

use polynomial::LIMIT;
use refusal::{Reason, Refusal};

// No. 11.
#[tactic(auto, unfolding(sheet::specs::Checks::check_room, sheet::specs::Sheet::sheet_bytes, record::specs::Record::record_bytes, area::specs::Area::area_words, area::specs::Area::most_parts, algebra::specs::Polynomial::limit, algebra::specs::Polynomial::terms))]
pub fn check_room(bytes: usize, words: usize) -> Result<(), Refusal>
    ensures { result ≡ check_room_of bytes words }
{
    if bytes < sheet::BYTES || words < area::WORDS {
        return Err(Reason::Area.into());
    }
    Ok(())
}

// Whether place i of an area is used: then its part is handed out.
pub fn used(area: &[u32], i: usize) -> bool
    requires { (i < most_parts) × (area_words ≤ length area.now) }
    ensures { result ≡ used_of (place area.now i) }
{
    area::part(area, i).len() != 0
}

// Whether place i is where it may be: the first place is used, and any other only after a used one.
fn in_order(area: &[u32], i: usize) -> bool
    requires { (i < most_parts) × (area_words ≤ length area.now) }
    ensures { result ≡ in_order_of (λ i. used_of (place area.now i)) i }
{
    if i == 0 {
        used(area, 0)
    } else {
        !used(area, i) || used(area, i - 1)
    }
}

// No. 12: the used places of an area are the first ones, and there is one.
pub fn check_order(area: &[u32]) -> Result<(), Refusal>
    requires { area_words ≤ length area.now }
    ensures { result ≡ check_order_of (λ i. used_of (place area.now i)) }
{
    for i in 0..area::PARTS {
        if !in_order(area, i) {
            return Err(Reason::Sheet.into());
        }
    }
    Ok(())
}

// What place i does to the product of the degrees.
fn factor(area: &[u32], i: usize) -> usize
    requires { (i < most_parts) × (area_words ≤ length area.now) × Rising (place area.now) }
    ensures { (product (degrees (parts_in (place area.now) (i + 1))) ≡ result * product (degrees (parts_in (place area.now) i))) × (1 ≤ result) × (result ≤ limit) }
{
    let p = area::part(area, i);
    if p.len() == 0 {
        return 1;
    }
    polynomial::degree(p)
}

// No. 10: the degrees multiply to more than the limit. The product stops there, so that it fits a word.
pub fn check_product(area: &[u32]) -> Result<(), Refusal>
    requires { (area_words ≤ length area.now) × Rising (place area.now) }
    ensures { result ≡ check_product_of (place area.now) }
{
    let mut n = 1;
    for i in 0..area::PARTS {
        n = factor(area, i) * n;
        if LIMIT < n {
            return Err(Reason::Limit.into());
        }
    }
    Ok(())
}
