// The values of a block of queries, from the first coefficient that counts of each and its weights. The last axis has stride 1: the
// sums over the axes before it are worked out side by side.
ghost use Rattle.std.specs.Prelude.{◌≡◌, ℕ, suc, ◌+◌, ◌≤◌, ◌<◌, length, get_or};
ghost use Rattle.std.specs.Float.{binary64};
ghost use Rattle.interp_math.specs.Sum.{summed};
ghost use Rattle.evaluation.specs.Batch.{value_step};
ghost use Rattle.evaluation.specs.Stages.{no_spot, no_rows, Weighed};
ghost use Rattle.block_sums.specs.Sums.{Summable, values_put};

use evaluation::{Axis, Figures, Map, Span, Spot, WeightTable, put_rows};
use interp_math::{NoAxis, OneMore, Sums, dot4, turn};

// Over the axes of S and one more, the last.
#[inline(always)]
fn over<S: Sums>(strides: &[usize; 4], coeffs: &[f64], weights: &[[f64; 4]; 4], first: usize) -> f64
    requires { (S.axes < 4) × Summable (suc S.axes) strides.now coeffs.now first }
    ensures { result ≡ summed binary64 coeffs.now strides.now weights.now (suc S.axes) first }
{
    let turned = turn(weights);
    dot4(weights[S::axes()], S::sums(coeffs, strides, &turned, first))
}

// The value of a query. Each number of axes is a type, so that the compiler knows how many there are and keeps the rows in
// registers; it is compiled into the loop over the queries.
#[inline(always)]
pub fn value(
    count: usize,
    strides: &[usize; 4],
    coeffs: &[f64],
    weights: &[[f64; 4]; 4],
    first: usize,
) -> f64
    requires { Summable count strides.now coeffs.now first }
    ensures { result ≡ summed binary64 coeffs.now strides.now weights.now count first }
{
    match count {
        1 => over::<NoAxis>(strides, coeffs, weights, first),
        2 => over::<OneMore<NoAxis>>(strides, coeffs, weights, first),
        3 => over::<OneMore<OneMore<NoAxis>>>(strides, coeffs, weights, first),
        _ => over::<OneMore<OneMore<OneMore<NoAxis>>>>(strides, coeffs, weights, first),
    }
}

// The values of the queries of a block, from entry `from` on.
fn put_values(
    count: usize,
    strides: &[usize; 4],
    coeffs: &[f64],
    spots: &[Spot],
    from: usize,
    out: &mut [f64],
)
    requires room { from + length spots.now ≤ length out.old }
    requires summable { (k : ℕ) → k < length spots.now → Summable count strides.now coeffs.now (get_or spots.now k no_spot).first }
    ensures { out.new ≡ values_put binary64 coeffs.now strides.now count spots.now from (length spots.now) out.old }
{
    // a copy, which no write to `out` can change, so that the compiler need not read the strides again for each query
    let strides = *strides;
    for (k, spot) in spots.iter().enumerate() {
        out[from + k] = value(count, &strides, coeffs, &spot.weights, spot.first);
    }
}

// The values, as what is asked of a block.
pub struct Values;

impl Figures for Values {
    ghost Rows = { Weighed };

    ghost numbers = { λ count n. n };

    ghost step = { value_step };

    fn look<A: Axis>(
        axis: A,
        count: usize,
        a: usize,
        xs: &[f64],
        places: &[A::Place],
        spots: &mut [Spot],
    ) {
        put_rows::<WeightTable, A>(axis, a, xs, places, spots);
    }

    fn put<M: Map>(map: &M, coeffs: &[f64], s: Span, spots: &[Spot], out: &mut [f64]) {
        put_values(map.count(), &map.strides(), coeffs, spots, s.from, out);
    }

    ghost none = { λ m x s. no_rows };

    ghost tables = { λ m x a s t ew es w. rw ew w };
}
