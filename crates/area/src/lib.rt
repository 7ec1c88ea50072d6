// The chain area: places for the parts of a chain in the caller's memory.
#![tactic(auto, unfolding(crate::specs::Area::most_parts, crate::specs::Area::area_words, algebra::specs::Polynomial::limit, algebra::specs::Polynomial::terms))]

ghost use Rattle.std.specs.Prelude.{◌≡◌, ◌<◌, ◌≤◌, length};
ghost use Rattle.algebra.specs.Polynomial.{terms};
ghost use Rattle.area.specs.Area.{most_parts, area_words, start as start_of, put_at, cleared, all_zero, part_of};

use polynomial::TERMS;

// How many parts a chain has at the most.
pub const PARTS: usize = 6;

// How many words of an area are used.
pub const WORDS: usize = PARTS * TERMS;

// Where place i starts.
pub fn start(i: usize) -> usize
    requires { i < most_parts }
    ensures { result ≡ start_of i }
{
    i * TERMS
}

// Writes place i, and no other word. That there is room is a clause and no array type: an area may be longer than its words.
pub fn put(area: &mut [u32], i: usize, p: &[u32])
    requires { (i < most_parts) × (area_words ≤ length area.old) × (length p.now ≡ terms) }
    ensures { area.new ≡ put_at area.old i p.now }
{
    let from = start(i);
    let end = from + TERMS;
    area[from..end].copy_from_slice(p);
}

// Zeroes every place.
pub fn clear(area: &mut [u32])
    requires { area_words ≤ length area.old }
    ensures { area.new ≡ cleared area.old }
{
    area[..WORDS].fill(0);
}

// Whether every word is zero.
pub fn is_zero(p: &[u32]) -> bool
    ensures { result ≡ all_zero p.now }
{
    p.iter().all(|x| *x == 0)
}

// The operation: part i of the caller's own area, or an empty part.
pub fn part(area: &[u32], i: usize) -> &[u32]
    ensures { result.now ≡ part_of area.now i }
{
    if PARTS <= i {
        return &area[0..0];
    }
    if area.len() < WORDS {
        return &area[0..0];
    }
    let from = start(i);
    let end = from + TERMS;
    let p = &area[from..end];
    if is_zero(p) {
        return &area[0..0];
    }
    p
}
