// Chain sheets: the writer.
#![tactic(auto, unfolding(sheet::specs::Sheet::sheet_bytes, record::specs::Record::record_bytes, area::specs::Area::area_words, area::specs::Area::most_parts, algebra::specs::Polynomial::limit, algebra::specs::Polynomial::terms))]

ghost use Rattle.std.specs.Prelude.{◌≡◌, ◌++◌, ◌+◌, ◌*◌, ◌≤◌, ◌<◌, length, drop, replicate};
ghost use Rattle.algebra.specs.Polynomial.{terms};
ghost use Rattle.area.specs.Area.{most_parts, area_words, place};
ghost use Rattle.record.specs.Record.{record_bytes};
ghost use Rattle.sheet.specs.Sheet.{sheet_bytes, record_of, recorded, sheet_of};
ghost use Rattle.sheet.specs.Checks.{check_part as check_part_of, check_parts as check_parts_of, check_area as check_area_of};
ghost use Rattle.sheet.specs.Answers.{WritesSheet};
ghost use Rattle.sheet.specs.Steps.{put_word as put_word_of, put_record};

use polynomial::TERMS;
use refusal::{Concerns, Refusal};

// Nos. 2 to 4 of the part in place i, if it is used.
fn check_part(m: u64, area: &[u32], i: usize) -> Result<(), Refusal>
    requires { (i < most_parts) × (area_words ≤ length area.now) }
    ensures { result ≡ check_part_of m (place area.now i) i }
{
    let p = area::part(area, i);
    if p.len() == 0 {
        return Ok(());
    }
    polynomial::check_polynomial(Concerns::Place(i as u8), m, p, polynomial::degree(p))
}

// Nos. 2 to 4 of every used part, left to right.
fn check_parts(m: u64, area: &[u32]) -> Result<(), Refusal>
    requires { area_words ≤ length area.now }
    ensures { result ≡ check_parts_of m area.now }
{
    for i in 0..area::PARTS {
        check_part(m, area, i)?;
    }
    Ok(())
}

// The writer's checks past No. 11, in their order.
#[tactic(auto, unfolding(sheet::specs::Checks::check_area))]
fn check_area(m: u32, area: &[u32]) -> Result<(), Refusal>
    requires { area_words ≤ length area.now }
    ensures { result ≡ check_area_of m area.now }
{
    let m = polynomial::modulus(m);
    polynomial::check_modulus(m)?;
    sheet_checks::check_order(area)?;
    check_parts(m, area)?;
    sheet_checks::check_product(area)
}

// Word j of a record, low byte first.
fn put_word(r: &mut [u8], j: usize, w: u32)
    requires { j * 4 + 4 ≤ length r.old }
    ensures { r.new ≡ put_word_of r.old j w }
{
    let at = j * 4;
    r[at..at + 4].copy_from_slice(&w.to_le_bytes());
}

// The record of the modulus word and p over a place that is lent.
fn put_part(r: &mut [u8], m: u32, p: &[u32])
    requires { (length r.old ≡ record_bytes) × (length p.now ≡ terms) }
    ensures { r.new ≡ record_of m p.now }
{
    put_word(r, 0, m);
    for j in 0..TERMS {
        put_word(r, j + 1, p[j]);
    }
}

// Zeroes every byte.
pub fn blank(b: &mut [u8])
    ensures { b.new ≡ replicate (length b.old) 0 }
{
    b.fill(0);
}

// Place i of a sheet, from place i of an area.
fn put_place(m: u32, area: &[u32], sheet: &mut [u8], i: usize)
    requires { (i < most_parts) × (area_words ≤ length area.now) × (sheet_bytes ≤ length sheet.old) }
    ensures { sheet.new ≡ put_record sheet.old i (recorded m (place area.now i)) }
{
    let p = area::part(area, i);
    let from = i * record::BYTES;
    let end = from + record::BYTES;
    if p.len() == 0 {
        blank(&mut sheet[from..end]);
        return;
    }
    put_part(&mut sheet[from..end], m, p);
}

// The sheet of the modulus word and an area.
pub fn put(m: u32, area: &[u32], sheet: &mut [u8])
    requires { (area_words ≤ length area.now) × (sheet_bytes ≤ length sheet.old) }
    ensures { sheet.new ≡ sheet_of m area.now ++ drop sheet_bytes sheet.old }
{
    for i in 0..area::PARTS {
        put_place(m, area, sheet, i);
    }
}

// The operation: the sheet of a modulus word and the parts of an area.
pub fn write(m: u32, area: &[u32], sheet: &mut [u8]) -> Result<(), Refusal>
    ensures { WritesSheet m area.now sheet.old sheet.new result }
{
    sheet_checks::check_room(sheet.len(), area.len())?;
    check_area(m, area)?;
    put(m, area, sheet);
    Ok(())
}
