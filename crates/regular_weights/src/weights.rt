// The four weights of a query on a regular axis, and their slopes.
ghost use Rattle.std.specs.Prelude.{◌≡◌, cond, List, Float};
ghost use Rattle.std.specs.Float.{binary64};
ghost use Rattle.std.specs.Float.Ieee.{add, sub};
ghost use Rattle.multibspline.specs.Numbers.{f1};
ghost use Rattle.regular_weights.specs.Weights.{
  cubic_bspline_weights,
  cubic_bspline_weight_derivatives,
  low_linearized_boundary_weights,
  high_linearized_boundary_weights,
  low_linearized_boundary_weight_derivatives,
  high_linearized_boundary_weight_derivatives,
  fold_low,
  fold_high,
  interp_weights,
  span_derivatives,
  scaled,
  interp_weight_derivatives,
};

use interp_math::mul_add;
use multibspline::{AtPlace, Saturation, by_place};

// The weights in an inner span. `interp_weights` has these too; a caller that has told the inner span apart goes straight to them,
// since most queries lie there.
pub fn cubic_bspline_weights(t: f64) -> [f64; 4]
    ensures { result ≡ cubic_bspline_weights binary64 t }
{
    let t2 = t * t;
    let t3 = t2 * t;
    [
        (1.0 - 3.0 * t + 3.0 * t2 - t3) / 6.0,
        (4.0 - 6.0 * t2 + 3.0 * t3) / 6.0,
        (1.0 + 3.0 * t + 3.0 * t2 - 3.0 * t3) / 6.0,
        t3 / 6.0,
    ]
}

fn cubic_bspline_weight_derivatives(t: f64) -> [f64; 4]
    ensures { result ≡ cubic_bspline_weight_derivatives binary64 t }
{
    let t2 = t * t;
    [
        (-3.0 + 6.0 * t - 3.0 * t2) / 6.0,
        (-6.0 * 2.0 * t + 3.0 * 3.0 * t2) / 6.0,
        (3.0 + 6.0 * t - 3.0 * 3.0 * t2) / 6.0,
        3.0 * t2 / 6.0,
    ]
}

// Straight lines and folds stand once for each end: which entry is zero and which ones are added to differs, not a number, so
// that one function for both ends would hold both formulas.

// The straight line from the low end. Either end's is interpn's, a line of numbers each.
fn low_linearized_boundary_weights(t: f64) -> [f64; 4]
    ensures { result ≡ low_linearized_boundary_weights binary64 t }
{
    [1.0 / 6.0 - t / 2.0, 4.0 / 6.0, 1.0 / 6.0 + t / 2.0, 0.0]
}

fn low_linearized_boundary_weight_derivatives() -> [f64; 4]
    ensures { result ≡ low_linearized_boundary_weight_derivatives binary64 }
{
    [-1.0 / 2.0, 0.0, 1.0 / 2.0, 0.0]
}

// The straight line from the high end.
fn high_linearized_boundary_weights(t: f64) -> [f64; 4]
    ensures { result ≡ high_linearized_boundary_weights binary64 t }
{
    let u = t - 1.0;
    [0.0, 1.0 / 6.0 - u / 2.0, 4.0 / 6.0, 1.0 / 6.0 + u / 2.0]
}

fn high_linearized_boundary_weight_derivatives() -> [f64; 4]
    ensures { result ≡ high_linearized_boundary_weight_derivatives binary64 }
{
    [0.0, -1.0 / 2.0, 0.0, 1.0 / 2.0]
}

// The low ghost coefficient, 3c0 - 3c1 + c2, folded into the stored ones.
fn fold_low(raw: [f64; 4]) -> [f64; 4]
    ensures { result ≡ fold_low binary64 raw }
{
    [
        mul_add(3.0, raw[0], raw[1]),
        mul_add(-3.0, raw[0], raw[2]),
        raw[0] + raw[3],
        0.0,
    ]
}

// The high ghost coefficient, c1 - 3c2 + 3c3, folded into the stored ones.
fn fold_high(raw: [f64; 4]) -> [f64; 4]
    ensures { result ≡ fold_high binary64 raw }
{
    [
        0.0,
        raw[0] + raw[3],
        mul_add(-3.0, raw[3], raw[1]),
        mul_add(3.0, raw[3], raw[2]),
    ]
}

// What is asked of a query, its weights or their slopes: the rows of it.
trait Asked: Copy {
    ghost on_span: { Float → List Float };

    ghost low_line: { Float → List Float };

    ghost high_line: { Float → List Float };

    fn on_span(self, t: f64) -> [f64; 4]
        ensures { result ≡ on_span t };

    // the straight lines from the two ends
    fn low_line(self, t: f64) -> [f64; 4]
        ensures { result ≡ low_line t };

    fn high_line(self, t: f64) -> [f64; 4]
        ensures { result ≡ high_line t };
}

#[derive(Clone, Copy)]
struct Weights;

#[derive(Clone, Copy)]
struct Slopes;

impl Asked for Weights {
    ghost on_span = { cubic_bspline_weights binary64 };

    ghost low_line = { low_linearized_boundary_weights binary64 };

    ghost high_line = { high_linearized_boundary_weights binary64 };

    fn on_span(self, t: f64) -> [f64; 4] {
        cubic_bspline_weights(t)
    }

    fn low_line(self, t: f64) -> [f64; 4] {
        low_linearized_boundary_weights(t)
    }

    fn high_line(self, t: f64) -> [f64; 4] {
        high_linearized_boundary_weights(t)
    }
}

impl Asked for Slopes {
    ghost on_span = { cubic_bspline_weight_derivatives binary64 };

    ghost low_line = { λ t. low_linearized_boundary_weight_derivatives binary64 };

    ghost high_line = { λ t. high_linearized_boundary_weight_derivatives binary64 };

    fn on_span(self, t: f64) -> [f64; 4] {
        cubic_bspline_weight_derivatives(t)
    }

    fn low_line(self, _t: f64) -> [f64; 4] {
        low_linearized_boundary_weight_derivatives()
    }

    fn high_line(self, _t: f64) -> [f64; 4] {
        high_linearized_boundary_weight_derivatives()
    }
}

// A query, and what is asked of it.
#[derive(Drop)]
struct Query<A> {
    asked: A,
    t: f64,
}

// The rows of an end start from the span's own, as interpn's low_ and high_boundary_weights and their _derivatives do.
impl<A: Asked> AtPlace for Query<A> {
    ghost inner = { λ q. A.on_span q.t };

    ghost low = { λ q straight. let t = add binary64 q.t f1 in fold_low binary64 (cond straight (A.low_line t) (A.on_span t)) };

    ghost high = { λ q straight. let t = sub binary64 q.t f1 in fold_high binary64 (cond straight (A.high_line t) (A.on_span t)) };

    fn inner(self) -> [f64; 4] {
        self.asked.on_span(self.t)
    }

    fn low(self, straight: bool) -> [f64; 4] {
        let t = self.t + 1.0;
        if straight {
            return fold_low(self.asked.low_line(t));
        }
        fold_low(self.asked.on_span(t))
    }

    fn high(self, straight: bool) -> [f64; 4] {
        let t = self.t - 1.0;
        if straight {
            return fold_high(self.asked.high_line(t));
        }
        fold_high(self.asked.on_span(t))
    }
}

// The weights at a place. Out of the loops over the queries, which need it at the ends of an axis alone.
#[inline(never)]
pub fn interp_weights(t: f64, sat: Saturation, linearize_extrapolation: bool) -> [f64; 4]
    ensures { result ≡ interp_weights binary64 linearize_extrapolation sat t }
{
    by_place(Query { asked: Weights, t }, sat, linearize_extrapolation)
}

fn span_derivatives(t: f64, sat: Saturation, linearize_extrapolation: bool) -> [f64; 4]
    ensures { result ≡ span_derivatives binary64 linearize_extrapolation sat t }
{
    by_place(Query { asked: Slopes, t }, sat, linearize_extrapolation)
}

fn scale(w: [f64; 4], by: f64) -> [f64; 4]
    ensures { result ≡ scaled binary64 by w }
{
    [w[0] * by, w[1] * by, w[2] * by, w[3] * by]
}

// The slopes at a place, each times 1 / step.
pub fn interp_weight_derivatives(
    t: f64,
    sat: Saturation,
    linearize_extrapolation: bool,
    step: f64,
) -> [f64; 4]
    ensures { result ≡ interp_weight_derivatives binary64 linearize_extrapolation sat step t }
{
    let slopes = span_derivatives(t, sat, linearize_extrapolation);
    scale(slopes, 1.0 / step)
}
