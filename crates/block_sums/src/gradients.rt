// The gradients of a block of queries, from the first coefficient that counts of each, its weights and its slopes. The parts share
// the sums over the axes before theirs.
ghost use Rattle.std.specs.Prelude.{◌≡◌, ℕ, suc, ◌+◌, ◌*◌, ◌≤◌, ◌<◌, length, get_or};
ghost use Rattle.std.specs.Float.{binary64, nan};
ghost use Rattle.interp_math.specs.Sum.{gradient_part};
ghost use Rattle.evaluation.specs.Batch.{gradient_step};
ghost use Rattle.evaluation.specs.Stages.{no_spot, no_rows, Sloped};
ghost use Rattle.block_sums.specs.Sums.{Summable, gradients_put};

use evaluation::{Axis, Figures, Map, SlopeTable, Span, Spot, WeightTable, put_parts, put_rows};
use interp_math::{NoAxis, OneMore, Sums, dot4};

// Over the axes of S and one more, the last: the parts, zeros for the axes not in use.
#[inline(always)]
fn over<S: Sums>(
    strides: &[usize; 4],
    coeffs: &[f64],
    weights: &[[f64; 4]; 4],
    slopes: &[[f64; 4]; 4],
    first: usize,
) -> [f64; 4]
    requires { (S.axes < 4) × Summable (suc S.axes) strides.now coeffs.now first }
    ensures four { length weights.now ≡ 4 }
    ensures parts { (j : ℕ) → j < suc S.axes → get_or result j nan ≡ gradient_part binary64 coeffs.now strides.now weights.now slopes.now (suc S.axes) first j }
{
    let a = S::axes();
    let rows = S::parts(coeffs, strides, weights, slopes, first);
    let mut parts = [0.0f64; 4];
    for (j, row) in rows[..a].iter().enumerate() {
        parts[j] = dot4(weights[a], *row);
    }
    parts[a] = dot4(slopes[a], rows[a]);
    parts
}

// The gradients of the queries of a block over these axes, from entry `from` of n on: part j of entry i at j n + i.
fn put_over<S: Sums>(
    strides: &[usize; 4],
    coeffs: &[f64],
    spots: &[Spot],
    n: usize,
    from: usize,
    out: &mut [f64],
)
    requires room { (S.axes < 4) × (from + length spots.now ≤ n) × (suc S.axes * n ≤ length out.old) }
    requires summable { (k : ℕ) → k < length spots.now → Summable (suc S.axes) strides.now coeffs.now (get_or spots.now k no_spot).first }
    ensures four { (k : ℕ) → k < length spots.now → length (get_or spots.now k no_spot).weights ≡ 4 }
    ensures put { out.new ≡ gradients_put binary64 coeffs.now strides.now (suc S.axes) spots.now n from (length spots.now) out.old }
{
    let strides = *strides;
    let count = S::axes() + 1;
    for (k, spot) in spots.iter().enumerate() {
        let parts = over::<S>(&strides, coeffs, &spot.weights, &spot.slopes, spot.first);
        put_parts(parts, count, n, from + k, out);
    }
}

// Over so many axes. Each number of axes has a loop of its own, so that the compiler knows how many parts there are. The numbers
// are told apart here and in `value`: one switch for both would need a trait and a record of the arguments of each, more than its
// lines.
fn put_gradients(
    count: usize,
    strides: &[usize; 4],
    coeffs: &[f64],
    spots: &[Spot],
    n: usize,
    from: usize,
    out: &mut [f64],
)
    requires room { (1 ≤ count) × (count ≤ 4) × (from + length spots.now ≤ n) × (count * n ≤ length out.old) }
    requires summable { (k : ℕ) → k < length spots.now → Summable count strides.now coeffs.now (get_or spots.now k no_spot).first }
    ensures four { (k : ℕ) → k < length spots.now → length (get_or spots.now k no_spot).weights ≡ 4 }
    ensures put { out.new ≡ gradients_put binary64 coeffs.now strides.now count spots.now n from (length spots.now) out.old }
{
    match count {
        1 => put_over::<NoAxis>(strides, coeffs, spots, n, from, out),
        2 => put_over::<OneMore<NoAxis>>(strides, coeffs, spots, n, from, out),
        3 => put_over::<OneMore<OneMore<NoAxis>>>(strides, coeffs, spots, n, from, out),
        _ => put_over::<OneMore<OneMore<OneMore<NoAxis>>>>(strides, coeffs, spots, n, from, out),
    }
}

// The gradients, as what is asked of a block.
pub struct Gradients;

impl Figures for Gradients {
    ghost Rows = { Sloped };

    ghost numbers = { λ count n. count * n };

    ghost step = { gradient_step };

    // Over one axis the slopes alone.
    fn look<A: Axis>(
        axis: A,
        count: usize,
        a: usize,
        xs: &[f64],
        places: &[A::Place],
        spots: &mut [Spot],
    ) {
        put_rows::<SlopeTable, A>(axis, a, xs, places, spots);
        if 1 < count {
            put_rows::<WeightTable, A>(axis, a, xs, places, spots);
        }
    }

    fn put<M: Map>(map: &M, coeffs: &[f64], s: Span, spots: &[Spot], out: &mut [f64]) {
        put_gradients(map.count(), &map.strides(), coeffs, spots, s.n, s.from, out);
    }

    ghost none = { λ m x s. (no_rows, λ more. no_rows) };

    ghost tables = { λ m x a s t ew es w. (rw es w.0, λ more. rw ew (w.1 more)) };
}
