// Chain sheets: the reader, which composes the parts.
#![tactic(auto, unfolding(sheet::specs::Sheet::sheet_bytes, record::specs::Record::record_bytes, area::specs::Area::area_words, area::specs::Area::most_parts, algebra::specs::Polynomial::limit, algebra::specs::Polynomial::terms))]

ghost use Rattle.std.specs.Prelude.{◌≡◌, ◌∷◌, ◌+◌, ◌-◌, ◌≤◌, ◌<◌, length, replicate};
ghost use Rattle.algebra.specs.Polynomial.{limit, reduced};
ghost use Rattle.algebra.specs.Chain.{composed};
ghost use Rattle.refusal.specs.Refusal.{◌then◌};
ghost use Rattle.area.specs.Area.{most_parts, area_words, place};
ghost use Rattle.sheet.specs.Sheet.{sheet_bytes, record_at, used as used_of, parts_in};
ghost use Rattle.sheet.specs.Checks.{check_order as check_order_of, check_moduli as check_moduli_of, check_product as check_product_of};
ghost use Rattle.sheet.specs.Answers.{contents_of, ReadsSheet};
ghost use Rattle.sheet.specs.Steps.{TakesSheet, Used, Rising, Composes, ComposedTo};

use polynomial::{Coefficients, TERMS};
use reciprocal::Divisor;
use refusal::Refusal;
use sheet::Sheet;

// The reader's checks past 1 to 4, of a sheet whose polynomials stand in the area.
fn check_taken(sheet: &[u8], area: &[u32]) -> Result<(), Refusal>
    requires { (sheet_bytes ≤ length sheet.now) × (area_words ≤ length area.now) × Used sheet.now area.now × Rising (place area.now) }
    ensures { result ≡ (check_order_of (λ i. used_of (record_at sheet.now i)) then check_moduli_of sheet.now then check_product_of (place area.now)) }
{
    sheet_checks::check_order(area)?;
    sheet_records::check_moduli(sheet, area)?;
    sheet_checks::check_product(area)
}

// What the first places compose to, and its degree.
#[derive(Clone, Copy)]
struct Composed {
    polynomial: Coefficients,
    degree: usize,
}

// One place more.
fn composed_with(area: &[u32], i: usize, g: Composed, m: Divisor) -> Composed
    requires ready { (i < most_parts) × (area_words ≤ length area.now) × Composes m.number (place area.now) }
    requires composed_to { ComposedTo m.number (place area.now) i g.polynomial g.degree }
    ensures { ComposedTo m.number (place area.now) (i + 1) result.polynomial result.degree }
{
    let h = area::part(area, i);
    if h.len() == 0 {
        return g;
    }
    let s = polynomial::degree(h);
    Composed {
        polynomial: composition::compose(&g.polynomial, h, g.degree, s, m),
        degree: g.degree * s,
    }
}

// x, which changes nothing it is composed with.
fn identity() -> Coefficients
    ensures { result ≡ 0 ∷ 1 ∷ replicate (limit - 1) 0 }
{
    let mut x = [0; TERMS];
    x[1] = 1;
    x
}

// What the parts of an area compose to.
fn compose(area: &[u32], m: Divisor) -> Coefficients
    requires { (area_words ≤ length area.now) × Composes m.number (place area.now) }
    ensures { result ≡ reduced m.number (composed (parts_in (place area.now) most_parts)) }
{
    let mut g = Composed {
        polynomial: identity(),
        degree: 1,
    };
    for i in 0..area::PARTS {
        g = composed_with(area, i, g, m);
    }
    g.polynomial
}

// The parts of a sheet in an area that has room, and what they compose to. After a refusal some places are filled.
fn take(sheet: &[u8], area: &mut [u32]) -> Result<Sheet, Refusal>
    requires { (sheet_bytes ≤ length sheet.now) × (area_words ≤ length area.old) }
    ensures { TakesSheet sheet.now area.old area.new result }
{
    sheet_records::take_records(sheet, area)?;
    check_taken(sheet, area)?;
    let modulus = record::word(sheet, 0);
    let polynomial = compose(area, Divisor::new(polynomial::modulus(modulus)));
    Ok(Sheet {
        modulus,
        polynomial,
    })
}

// The operation: the modulus word of a sheet, its parts in an area, and what they compose to. After a refusal past No. 11 the places
// are zeroed.
pub fn read(sheet: &[u8], area: &mut [u32]) -> Result<Sheet, Refusal>
    ensures { ReadsSheet sheet.now area.old area.new (contents_of result) }
{
    sheet_checks::check_room(sheet.len(), area.len())?;
    let taken = take(sheet, area);
    if taken.is_err() {
        area::clear(area);
    }
    taken
}
