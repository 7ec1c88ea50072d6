// The leaves that the benchmark times, for Rust. Nothing is promised of what they answer; that they are safe and end is proved.
#![tactic(auto)]

use reciprocal::{Divisor, MACHINE_WORDS};

// The first out.len() coefficients of a product: inner products of every length from 1 on. Where the leaf's requirements do
// not hold, out stays as it was.
#[unsafe(no_mangle)]
pub extern "C" fn measure_product(a: &[u32], b: &[u32], m: u64, out: &mut [u32]) {
    if m < 2 || MACHINE_WORDS < m {
        return;
    }
    let n = out.len();
    if a.len() < n || b.len() < n || 0x7fff_ffff <= n {
        return;
    }
    let d = Divisor::new(m);
    for (k, c) in out.iter_mut().enumerate() {
        *c = inner::inner_product(a, b, k, 0, k + 1, d);
    }
}

// a^n modulo m, and 0 where m is no modulus.
#[unsafe(no_mangle)]
pub extern "C" fn measure_power(a: u32, n: usize, m: u64) -> u32 {
    if m < 2 || MACHINE_WORDS < m {
        return 0;
    }
    residue::power(a, n, Divisor::new(m))
}

// The inverse of a modulo m, and 0 where there is none or m is no modulus.
#[unsafe(no_mangle)]
pub extern "C" fn measure_invert(a: u64, m: u64) -> u64 {
    if m < 2 || MACHINE_WORDS < m {
        return 0;
    }
    match inverse::invert(a, m) {
        Ok(x) => u64::from(x),
        Err(_) => 0,
    }
}
