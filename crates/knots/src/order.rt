// Whether knots rise, and how many are below a query.
ghost use Rattle.std.specs.Prelude.{◌≡◌, true, cond, ◌+◌, ◌-◌, ◌*◌, ◌/◌, ◌≤◌, length, take, drop};
ghost use Rattle.std.specs.Float.Ieee.{lt};
ghost use Rattle.knots.specs.Knots.{rises, count_below};
ghost use Rattle.knots.specs.Window.{Between};

use std::simd::prelude::*;

// Whether nine knots rise, from a number on: eight are compared at once with those after them.
fn nine_rise(knots: &[f64], from: usize) -> bool
    requires { from + 9 ≤ length knots.now }
    ensures { result ≡ rises (take 9 (drop from knots.now)) }
{
    let on = &knots[from..];
    let before = f64x8::from_slice(on);
    let after = f64x8::from_slice(&on[1..]);
    before.simd_lt(after).all()
}

// Whether knots rise, each looked at by itself.
fn few_rise(knots: &[f64]) -> bool
    requires { 1 ≤ length knots.now }
    ensures { result ≡ rises knots.now }
{
    knots
        .iter()
        .zip(&knots[1..])
        .all(|(before, knot)| *before < *knot)
}

// Whether each knot is above the one before it. They are looked at eight at a time, and what is left one by one.
pub fn rising(knots: &[f64]) -> bool
    ensures { result ≡ rises knots.now }
{
    if knots.is_empty() {
        return true;
    }
    let eights = (knots.len() - 1) / 8;
    (0..eights).all(|k| nine_rise(knots, 8 * k)) && few_rise(&knots[8 * eights..])
}

// 1 where the knot is below x, else 0: a number to add, so that nothing jumps on the data.
fn below(knot: f64, x: f64) -> usize
    ensures { (result ≡ cond (lt knot x) 1 0) × (result ≤ 1) }
{
    if knot < x {
        return 1;
    }
    0
}

// Where the next window starts, given that the count is from `low` to `low + len`. The knots at the ends of the first three
// quarters of the window are looked at; as the knots rise, a quarter whose last knot is below x is below x as a whole.
fn next_low(knots: &[f64], x: f64, low: usize, len: usize) -> usize
    requires { (rises knots.now ≡ true) × Between knots.now x low (low + len) × (4 ≤ len) }
    ensures { Between knots.now x result (result + (len - 3 * (len / 4))) }
{
    let q = len / 4;
    let first = below(knots[low + (q - 1)], x);
    let second = below(knots[low + (2 * q - 1)], x);
    let third = below(knots[low + (3 * q - 1)], x);
    low + (first + second + third) * q
}

// How many knots are below x, where that is from `low` to `low + len`: all knots of this window are looked at.
fn count_from(knots: &[f64], x: f64, low: usize, len: usize) -> usize
    requires { (rises knots.now ≡ true) × Between knots.now x low (low + len) }
    ensures { (result ≡ count_below knots.now x) × (result ≤ length knots.now) }
{
    let mut count = low;
    for knot in &knots[low..low + len] {
        count += below(*knot, x);
    }
    count
}

// How many knots are below x. The knots before `low` are, those from `low + len` on are not; what is between is cut to a
// quarter until 16 knots are left at most. The number of turns depends on the number of knots alone and nothing jumps on the
// data, so the processor works on several queries at once.
pub fn count_below(knots: &[f64], x: f64) -> usize
    requires { rises knots.now ≡ true }
    ensures { (result ≡ count_below knots.now x) × (result ≤ length knots.now) }
{
    let mut low: usize = 0;
    let mut len = knots.len();
    // By hand, since no range or iterator goes on by a quarter of what is left.
    while 16 < len {
        low = next_low(knots, x, low, len);
        len -= 3 * (len / 4);
    }
    count_from(knots, x, low, len)
}
