// The listing: the lines of text for records.
#![tactic(auto)]

ghost use Rattle.std.specs.Prelude.{◌≡◌, [], ◌∷◌, ◌+◌, ◌*◌, ◌<◌, ◌≤◌, ◌^◌, length};
ghost use Rattle.algebra.specs.Number.{table};
ghost use Rattle.algebra.specs.Polynomial.{limit, degree as degree_of};
ghost use Rattle.refusal.specs.Refusal.{Answered};
ghost use Rattle.polynomial.specs.Moduli.{modulus};
ghost use Rattle.polynomial.specs.Checks.{check_one};
ghost use Rattle.digits.specs.Digits.{Put};
ghost use Rattle.area.specs.Area.{most_parts, area_words, place};
ghost use Rattle.record.specs.Record.{record_bytes};
ghost use Rattle.listing.specs.Listing.{LineIn, AcceptedIn, most_records, most_lines, LinesIn};
ghost use Rattle.listing.specs.Text.{most_field, before_degrees, most_line, spaced as spaced_of, fields};

use binomial::Table;
use chain::Numbers;
use polynomial::TERMS;
use reciprocal::Divisor;
use record::Record;

// The most bytes that a number takes with the space before it.
const FIELD: usize = digits::DIGITS + 1;

// How many numbers stand before the degrees.
const BEFORE: usize = 6;

// The most bytes that a line takes: these numbers, the degrees and a newline.
pub const LINE: usize = FIELD * (BEFORE + area::PARTS) + 1;

// How many records are listed at a time: as many as a pipe holds.
pub const RECORDS: usize = 128;

// The most bytes that their lines take.
pub const LINES: usize = RECORDS * LINE;

// Each number after a space.
fn spaced(numbers: &[u32], out: &mut [u8], at: usize) -> usize
    requires { at + most_field * length numbers.now ≤ length out.old }
    ensures { Put out.old at (spaced_of numbers.now) (most_field * length numbers.now) out.new result }
{
    let mut end = at;
    for n in numbers {
        out[end] = b' ';
        end = digits::digits(*n, out, end + 1);
    }
    end
}

// The line of a refused record: its number and the refusal number.
fn refused_line(number: u32, refusal: u32, out: &mut [u8]) -> usize
    requires { most_line ≤ length out.old }
    ensures { Put out.old 0 (fields number (refusal ∷ [])) most_line out.new result }
{
    let a = digits::digits(number, out, 0);
    let b = spaced(&[refusal], out, a);
    out[b] = b'\n';
    b + 1
}

// The degrees of the first parts of an area, each after a space.
fn degrees(area: &[u32], parts: usize, out: &mut [u8], at: usize) -> usize
    requires { (parts ≤ most_parts) × (area_words ≤ length area.now) × (at + most_field * parts ≤ length out.old) }
    ensures { Put out.old at (spaced_of (table parts (λ i. degree_of (place area.now i)))) (most_field * parts) out.new result }
{
    let mut k = at;
    for i in 0..parts {
        let from = area::start(i);
        let end = from + TERMS;
        let d = polynomial::degree(&area[from..end]);
        k = spaced(&[d as u32], out, k);
    }
    k
}

// The line of an answered record: its number, 0, degree, parts, tries, price, and the degrees of the parts left to right.
fn chain_line(number: u32, degree: usize, chain: Numbers, area: &[u32], out: &mut [u8]) -> usize
    requires fits { (degree ≤ limit) × (chain.parts ≤ most_parts) × (chain.tries ≤ limit) × (chain.price ≤ limit) }
    requires room { (area_words ≤ length area.now) × (most_line ≤ length out.old) }
    ensures { Put out.old 0
        (fields number (0 ∷ degree ∷ chain.parts ∷ chain.tries ∷ chain.price ∷ table chain.parts (λ i. degree_of (place area.now i))))
        most_line out.new result }
{
    let a = digits::digits(number, out, 0);
    let numbers = [
        0,
        degree as u32,
        chain.parts as u32,
        chain.tries as u32,
        chain.price as u32,
    ];
    let b = spaced(&numbers, out, a);
    let end = degrees(area, chain.parts, out, b);
    out[end] = b'\n';
    end + 1
}

// The line of a record that its check accepts, so that the chain does not check it again.
fn accepted_line(record: Record, number: u32, table: &Table, out: &mut [u8]) -> usize
    requires passed { check_one (modulus record.modulus) record.polynomial ≡ Answered }
    requires measured { record.degree ≡ degree_of record.polynomial }
    requires room { most_line ≤ length out.old }
    ensures { AcceptedIn record.modulus record.polynomial number out.old out.new result }
{
    let mut area = [0; area::WORDS];
    let n = record.degree;
    let m = Divisor::new(polynomial::modulus(record.modulus));
    match chain::accepted(record.polynomial, n, &mut area, table, m) {
        Ok(chain) => chain_line(number, n, chain, &area, out),
        Err(refusal) => refused_line(number, refusal.reason.number(), out),
    }
}

// The line of the record in the given bytes; answers its length.
pub fn line(bytes: &[u8], number: u32, table: &Table, out: &mut [u8]) -> usize
    requires { most_line ≤ length out.old }
    ensures { LineIn bytes.now number out.old out.new result }
{
    match record::check(bytes) {
        Ok(record) => accepted_line(record, number, table, out),
        Err(refusal) => refused_line(number, refusal.reason.number(), out),
    }
}

// The lines of the records that s is cut into, of which the last may be short; answers their length. The table of binomials is lent:
// a program makes it once.
pub fn lines(s: &[u8], number: u32, table: &Table, out: &mut [u8]) -> usize
    requires { (length s.now ≤ most_records * record_bytes) × (most_lines ≤ length out.old) × (number + most_records < 2 ^ 32) }
    ensures { LinesIn s.now number out.old out.new result }
{
    let mut w = 0;
    for (i, record) in s.chunks(record::BYTES).enumerate() {
        w += line(record, number + i as u32, table, &mut out[w..]);
    }
    w
}
