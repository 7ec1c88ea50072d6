// The face of the desk for C and Rust: numbers and lent memory only. Every function takes any input.
#![tactic(auto)]

ghost use Rattle.std.specs.Prelude.{◌≡◌};
ghost use Rattle.polynomial.specs.Moduli.{modulus};
ghost use Rattle.pair.specs.Pairing.{compose, LeftPartOf, Splits};
ghost use Rattle.text.specs.Answers.{ReadsText};
ghost use Rattle.change.specs.Changing.{made, ChangesPolynomial, ChangesPair, Combines, Undoing};
ghost use Rattle.desk.specs.Face.{told_by, said as said_of, QuickAs, CheckedAs, AnswersAs, PartsAs, MadeAs, ChainedAs, NumberedAs, ChosenAs, place_of, SheetAs, ReadAs, TextAs};

use change::Change;
use polynomial::{TERMS, ZEROS};
use refusal::Refusal;

// A refusal in 01's numbers, for C: number 0 if the request was answered; polynomial 0 neither, 1 the first, 2 the second, 16 + i the one in
// place i of a sheet.
#[repr(C)]
#[derive(Clone, Copy, Default)]
pub struct Refused {
    pub number: u32,
    pub polynomial: u32,
    pub power: u32,
}

// What is told of a request: its refusal, or zeros.
fn told(refusal: Option<Refusal>) -> Refused
    ensures { result ≡ told_by refusal }
{
    let Some(r) = refusal else {
        return Refused::default();
    };
    Refused {
        number: r.reason.number(),
        polynomial: r.concerns.number(),
        power: r.reason.power(),
    }
}

// The record that the bytes begin with: its modulus, its coefficients and its degree; zeros after a refusal.
#[unsafe(no_mangle)]
pub extern "C" fn desk_check(
    bytes: &[u8],
    modulus: &mut u32,
    f: &mut [u32; TERMS],
    degree: &mut usize,
) -> Refused
    ensures { CheckedAs bytes.now result modulus.new f.new degree.new }
{
    let x = record::check(bytes);
    let c = x.unwrap_or_default();
    let p = c.polynomial;
    *modulus = c.modulus;
    *f = p;
    *degree = c.degree;
    told(x.err())
}

// g(h). The longest answers are matched, here and below: by unwrap_or they, and a refusal's zeros, would be copied once more.
#[unsafe(no_mangle)]
pub extern "C" fn desk_compose(
    m: u32,
    g: &[u32; TERMS],
    h: &[u32; TERMS],
    f: &mut [u32; TERMS],
) -> Refused
    ensures { AnswersAs (λ x. x ≡ compose (modulus m) g.now h.now) result f.new }
{
    match pair::compose(m, *g, *h) {
        Ok(p) => {
            *f = p;
            told(None)
        }
        Err(refusal) => {
            *f = ZEROS;
            told(Some(refusal))
        }
    }
}

// The left part of f for the right part h.
#[unsafe(no_mangle)]
pub extern "C" fn desk_left_part(
    m: u32,
    f: &[u32; TERMS],
    h: &[u32; TERMS],
    g: &mut [u32; TERMS],
) -> Refused
    ensures { AnswersAs (LeftPartOf (modulus m) f.now h.now) result g.new }
{
    match pair::left_part(m, *f, *h) {
        Ok(p) => {
            *g = p;
            told(None)
        }
        Err(refusal) => {
            *g = ZEROS;
            told(Some(refusal))
        }
    }
}

// f split at the left degree r.
#[unsafe(no_mangle)]
pub extern "C" fn desk_split(
    m: u32,
    f: &[u32; TERMS],
    r: usize,
    g: &mut [u32; TERMS],
    h: &mut [u32; TERMS],
) -> Refused
    ensures { PartsAs (Splits (modulus m) f.now r) result g.new h.new }
{
    match pair::split(m, *f, r) {
        Ok(p) => {
            let left = p.left;
            let right = p.right;
            *g = left;
            *h = right;
            told(None)
        }
        Err(refusal) => {
            *g = ZEROS;
            *h = ZEROS;
            told(Some(refusal))
        }
    }
}

// Whether f splits at the left degree r, 1 or 0, and the highest power at which the forced pair, composed, and f differ.
#[unsafe(no_mangle)]
pub extern "C" fn desk_quick(m: u32, f: &[u32; TERMS], r: usize, answer: &mut [usize; 2]) -> Refused
    ensures { QuickAs (modulus m) f.now r result answer.new }
{
    let x = pair::quick(m, *f, r);
    *answer = match x {
        Ok(None) => [1, 0],
        Ok(Some(power)) => [0, power],
        Err(_) => [0, 0],
    };
    told(x.err())
}

// f changed by (a, b).
#[unsafe(no_mangle)]
pub extern "C" fn desk_change_polynomial(
    m: u32,
    f: &[u32; TERMS],
    a: u32,
    b: u32,
    out: &mut [u32; TERMS],
) -> Refused
    ensures { AnswersAs (ChangesPolynomial (modulus m) f.now (made a b)) result out.new }
{
    let x = change::change_polynomial(m, *f, Change::make(a, b));
    let p = x.unwrap_or(ZEROS);
    *out = p;
    told(x.err())
}

// The pair g, h changed by (a, b).
#[unsafe(no_mangle)]
pub extern "C" fn desk_change_pair(
    m: u32,
    g: &[u32; TERMS],
    h: &[u32; TERMS],
    a: u32,
    b: u32,
    left: &mut [u32; TERMS],
    right: &mut [u32; TERMS],
) -> Refused
    ensures { PartsAs (ChangesPair (modulus m) g.now h.now (made a b)) result left.new right.new }
{
    let x = change::change_pair(m, *g, *h, Change::make(a, b));
    let c = x.unwrap_or_default();
    let p = c.left;
    let q = c.right;
    *left = p;
    *right = q;
    told(x.err())
}

// First (a, b), then (a2, b2), as one change: its unit and its origin.
#[unsafe(no_mangle)]
pub extern "C" fn desk_combine(
    m: u32,
    a: u32,
    b: u32,
    a2: u32,
    b2: u32,
    out: &mut [u32; 2],
) -> Refused
    ensures { MadeAs (Combines (modulus m) (made a b) (made a2 b2)) result out.new }
{
    let x = Change::combine(m, Change::make(a, b), Change::make(a2, b2));
    let c = x.unwrap_or(Change::IDENTITY);
    *out = [c.unit, c.origin];
    told(x.err())
}

// The change that undoes (a, b).
#[unsafe(no_mangle)]
pub extern "C" fn desk_undo(m: u32, a: u32, b: u32, out: &mut [u32; 2]) -> Refused
    ensures { MadeAs (Undoing (modulus m) (made a b)) result out.new }
{
    let x = Change::undo(m, Change::make(a, b));
    let c = x.unwrap_or(Change::IDENTITY);
    *out = [c.unit, c.origin];
    told(x.err())
}

// The chain of f into an area: numbers are its parts, tries and price.
#[unsafe(no_mangle)]
pub extern "C" fn desk_chain(
    m: u32,
    f: &[u32; TERMS],
    area: &mut [u32],
    numbers: &mut [usize; 3],
) -> Refused
    ensures { ChainedAs (modulus m) f.now area.old area.new result numbers.new }
{
    let x = chain::chain(m, *f, area);
    let c = x.unwrap_or_default();
    *numbers = [c.parts, c.tries, c.price];
    told(x.err())
}

// The number of complete chains of f.
#[unsafe(no_mangle)]
pub extern "C" fn desk_count_chains(m: u32, f: &[u32; TERMS], number: &mut usize) -> Refused
    ensures { NumberedAs (modulus m) f.now result number.new }
{
    let x = chains::count_chains(m, *f);
    *number = x.unwrap_or(0);
    told(x.err())
}

// The j-th complete chain of f, from 0, into an area: numbers are its parts and price.
#[unsafe(no_mangle)]
pub extern "C" fn desk_nth_chain(
    m: u32,
    f: &[u32; TERMS],
    j: usize,
    area: &mut [u32],
    numbers: &mut [usize; 2],
) -> Refused
    ensures { ChosenAs (modulus m) f.now j area.old area.new result numbers.new }
{
    let x = chains::nth_chain(m, *f, j, area);
    let c = x.unwrap_or_default();
    *numbers = [c.parts, c.price];
    told(x.err())
}

// Part i of an area: where it starts and how long it is; 0 and 0 if it is empty.
#[unsafe(no_mangle)]
pub extern "C" fn desk_part(area: &[u32], i: usize, place: &mut [usize; 2])
    ensures { place.new ≡ place_of area.now i }
{
    let p = area::part(area, i);
    let n = p.len();
    if n == 0 {
        *place = [0, 0];
        return;
    }
    *place = [area::start(i), n];
}

// The sheet of the modulus m and the parts of an area.
#[unsafe(no_mangle)]
pub extern "C" fn desk_write_sheet(m: u32, area: &[u32], sheet: &mut [u8]) -> Refused
    ensures { SheetAs m area.now sheet.old sheet.new result }
{
    told(sheet_writer::write(m, area, sheet).err())
}

// A sheet into an area: its modulus, and what its parts compose to; zeros after a refusal.
#[unsafe(no_mangle)]
pub extern "C" fn desk_read_sheet(
    sheet: &[u8],
    area: &mut [u32],
    modulus: &mut u32,
    f: &mut [u32; TERMS],
) -> Refused
    ensures { ReadAs sheet.now area.old area.new result modulus.new f.new }
{
    match sheet_reader::read(sheet, area) {
        Ok(c) => {
            let p = c.polynomial;
            *modulus = c.modulus;
            *f = p;
            told(None)
        }
        Err(refusal) => {
            *modulus = 0;
            *f = ZEROS;
            told(Some(refusal))
        }
    }
}

// The polynomial that a text means; zeros after a refusal.
#[unsafe(no_mangle)]
pub extern "C" fn desk_read_text(m: u32, text: &[u8], f: &mut [u32; TERMS]) -> Refused
    ensures { AnswersAs (ReadsText (modulus m) text.now) result f.new }
{
    let x = text_reader::read(m, text);
    let p = x.unwrap_or(ZEROS);
    *f = p;
    told(x.err())
}

// f as text, into an area: length is the number of bytes written, 0 after a refusal.
#[unsafe(no_mangle)]
pub extern "C" fn desk_write_text(
    m: u32,
    f: &[u32; TERMS],
    area: &mut [u8],
    length: &mut usize,
) -> Refused
    ensures { TextAs (modulus m) f.now area.old area.new result length.new }
{
    let x = text_writer::write(m, *f, area);
    *length = x.unwrap_or(0);
    told(x.err())
}
