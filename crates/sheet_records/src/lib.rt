// Chain sheets: the records, taken into an area, each with its own 1 to 4, and their moduli.
#![tactic(auto, unfolding(sheet::specs::Sheet::sheet_bytes, record::specs::Record::record_bytes, area::specs::Area::area_words, area::specs::Area::most_parts, algebra::specs::Polynomial::limit, algebra::specs::Polynomial::terms))]

ghost use Rattle.std.specs.Prelude.{◌≡◌, not, ◌&&◌, ◌∷◌, ◌≤◌, ◌<◌, eqb, length};
ghost use Rattle.algebra.specs.Polynomial.{terms};
ghost use Rattle.refusal.specs.Refusal.{refuse as refuse_if};
ghost use Rattle.refusal.specs.declared.Concerns.TheVariants.{Neither};
ghost use Rattle.refusal.specs.declared.Reason.TheVariants.{Sheet};
ghost use Rattle.area.specs.Area.{most_parts, area_words, place, put_at, all_zero};
ghost use Rattle.record.specs.Record.{word};
ghost use Rattle.sheet.specs.Sheet.{sheet_bytes, record_at, used as used_of, held};
ghost use Rattle.sheet.specs.Checks.{check_moduli as check_moduli_of, check_words as check_words_of, check_placed};
ghost use Rattle.sheet.specs.Steps.{Taken, Used};

use refusal::{Concerns, Reason, Refusal};

// Nos. 1 to 4 of a record in place i by its own modulus: m and f are its words.
#[tactic(auto, unfolding(sheet::specs::Checks::check_words, area::specs::Area::most_parts))]
fn check_words(m: u32, f: &[u32], i: usize) -> Result<(), Refusal>
    requires { (i < most_parts) × (length f.now ≡ terms) }
    ensures { result ≡ check_words_of m f.now i }
{
    let m = polynomial::modulus(m);
    polynomial::check_modulus(m)?;
    polynomial::check_polynomial(Concerns::Place(i as u8), m, f, polynomial::degree(f))
}

// Whether the words of a record are all zero: then its place is not used.
#[tactic(auto, unfolding(area::specs::Area::all_zero))]
fn is_blank(m: u32, f: &[u32]) -> bool
    ensures { result ≡ all_zero (m ∷ f.now) }
{
    m == 0 && area::is_zero(f)
}

// Place i of an area, from place i of a sheet, and Nos. 1 to 4 of that record.
fn take_record(sheet: &[u8], area: &mut [u32], i: usize) -> Result<(), Refusal>
    requires { (i < most_parts) × (sheet_bytes ≤ length sheet.now) × (area_words ≤ length area.old) }
    ensures { (result ≡ check_placed (record_at sheet.now i) i) × (area.new ≡ put_at area.old i (held sheet.now i)) }
{
    let from = i * record::BYTES;
    let end = from + record::BYTES;
    let r = &sheet[from..end];
    let m = record::word(r, 0);
    let f = record::coefficients(r);
    area::put(area, i, &f);
    if is_blank(m, &f) {
        return Ok(());
    }
    check_words(m, &f, i)
}

// Every place of an area, until a record is refused.
pub fn take_records(sheet: &[u8], area: &mut [u32]) -> Result<(), Refusal>
    requires { (sheet_bytes ≤ length sheet.now) × (area_words ≤ length area.old) }
    ensures { Taken sheet.now area.old area.new result }
{
    for i in 0..area::PARTS {
        take_record(sheet, area, i)?;
    }
    Ok(())
}

// No. 12 at place i: a used record has the modulus word m. The polynomials stand in the area.
fn check_modulus(m: u32, sheet: &[u8], area: &[u32], i: usize) -> Result<(), Refusal>
    requires { (i < most_parts) × (sheet_bytes ≤ length sheet.now) × (area_words ≤ length area.now) }
    ensures { result ≡ refuse_if (used_of (place area.now i) && not (eqb (word (record_at sheet.now i) 0) m)) Neither Sheet }
{
    let from = i * record::BYTES;
    let end = from + record::BYTES;
    let w = record::word(&sheet[from..end], 0);
    if sheet_checks::used(area, i) && w != m {
        return Err(Reason::Sheet.into());
    }
    Ok(())
}

// No. 12: every used record has the modulus of the first.
pub fn check_moduli(sheet: &[u8], area: &[u32]) -> Result<(), Refusal>
    requires { (sheet_bytes ≤ length sheet.now) × (area_words ≤ length area.now) × Used sheet.now area.now }
    ensures { result ≡ check_moduli_of sheet.now }
{
    let m = record::word(sheet, 0);
    for i in 0..area::PARTS {
        check_modulus(m, sheet, area, i)?;
    }
    Ok(())
}
