// The place of a query on a rectilinear axis. It is found by a count of knots here and by a division on a regular axis, so that
// only the names, interpn's, are the same.
ghost use Rattle.std.specs.Prelude.{◌≡◌, true, ◌≤◌, length};
ghost use Rattle.knots.specs.Knots.{rises};
ghost use Rattle.knots.specs.Place.{loc_of, get_loc};

use crate::order::count_below;
use multibspline::Saturation;

// The place, the span whose basis functions count, and the first of the four coefficients that count.
#[derive(Clone, Copy)]
pub struct Loc {
    pub sat: Saturation,
    pub span: usize,
    pub origin: usize,
}

// The place by the count c of the knots below, of n.
pub fn loc_of(n: usize, c: usize) -> Loc
    requires { 4 ≤ n }
    ensures { result ≡ loc_of n c }
{
    if c == 0 {
        return Loc {
            sat: Saturation::OutsideLow,
            span: 0,
            origin: 0,
        };
    }
    if c == 1 {
        return Loc {
            sat: Saturation::InsideLow,
            span: 0,
            origin: 0,
        };
    }
    if c == n - 1 {
        return Loc {
            sat: Saturation::InsideHigh,
            span: n - 2,
            origin: n - 4,
        };
    }
    if c == n {
        return Loc {
            sat: Saturation::OutsideHigh,
            span: n - 2,
            origin: n - 4,
        };
    }
    Loc {
        sat: Saturation::None,
        span: c - 1,
        origin: c - 2,
    }
}

pub fn get_loc(knots: &[f64], x: f64) -> Loc
    requires { (4 ≤ length knots.now) × (rises knots.now ≡ true) }
    ensures { result ≡ get_loc knots.now x }
{
    loc_of(knots.len(), count_below(knots, x))
}
