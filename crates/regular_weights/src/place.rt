// The place of a query on a regular axis. It is found by a division here and by a count of knots on a rectilinear axis, so that
// only the names, interpn's, are the same.
ghost use Rattle.std.specs.Prelude.{◌≡◌, ◌+◌, ◌<◌, ◌≤◌};
ghost use Rattle.std.specs.Float.{binary64};
ghost use Rattle.regular_weights.specs.Place.{loc_of, get_loc, past_origin};

use multibspline::Saturation;

// The place, and the first of the four coefficients that count.
#[derive(Clone, Copy)]
pub struct Loc {
    pub sat: Saturation,
    pub origin: usize,
}

// The place by the quotient; None where its cell cannot be represented. Below zero the place is OutsideLow, so that only the
// range is left to test there.
fn loc_of(n: usize, q: f64) -> Option<Loc>
    requires { 4 ≤ n }
    ensures { result ≡ loc_of n q }
{
    if q >= 0.0 {
        if q < 9223372036854775808.0 {
            let u = std::num::truncating_f64_to_u64(q) as usize;
            if u == 0 {
                return Some(Loc {
                    sat: Saturation::InsideLow,
                    origin: 0,
                });
            }
            if u < n - 2 {
                return Some(Loc {
                    sat: Saturation::None,
                    origin: u - 1,
                });
            }
            if u == n - 2 {
                return Some(Loc {
                    sat: Saturation::InsideHigh,
                    origin: n - 4,
                });
            }
            return Some(Loc {
                sat: Saturation::OutsideHigh,
                origin: n - 4,
            });
        }
        return None;
    }
    if q > -9223372036854775808.0 {
        return Some(Loc {
            sat: Saturation::OutsideLow,
            origin: 0,
        });
    }
    None
}

pub fn get_loc(n: usize, start: f64, step: f64, x: f64) -> Option<Loc>
    requires { 4 ≤ n }
    ensures { result ≡ get_loc binary64 n start step x }
{
    loc_of(n, (x - start) / step)
}

// How far x lies past the point after the origin, in steps.
pub fn past_origin(start: f64, step: f64, x: f64, origin: usize) -> f64
    requires { origin < 16777216 }
    ensures { result ≡ past_origin binary64 start step x origin }
{
    let index_one_loc = step * ((origin + 1) as f64) + start;
    (x - index_one_loc) / step
}
