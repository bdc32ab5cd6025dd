// A block of queries on a map of either grid: the places with the rows of the tables, and then the sums over the coefficients.
ghost use Rattle.std.specs.Prelude.{◌≡◌, List, ◌+◌, ◌*◌, ◌≤◌, length, take};
ghost use Rattle.std.specs.Float.{binary64};
ghost use Rattle.shape.specs.Checks.{Check};
ghost use Rattle.shape.specs.Shape.{size};
ghost use Rattle.evaluation.specs.Batch.{bad_at};
ghost use Rattle.evaluation.specs.Block.{Block};
ghost use Rattle.evaluation.specs.ByAxis.{spline_of};

use evaluation::{Axis, Figures, Map, Span, Spot, look};

// What is asked at the queries, up to the first that is refused: how many come before it.
pub fn block<F: Figures, M: Map>(
    map: &M,
    coeffs: &[f64],
    s: Span,
    places: &mut [<M::Along as Axis>::Place],
    spots: &mut [Spot],
    out: &mut [f64],
) -> usize
    requires sized { length coeffs.now ≡ size (take (M.view map.now).count (M.view map.now).lens) }
    requires room { ((M.view map.now).count * s.n ≤ length s.xs.now) × (s.m ≤ length places.old) × (s.m ≤ length spots.old) × (F.numbers (M.view map.now).count s.n ≤ length out.old) }
    ensures { (checks : List Check)
        → Block (bad_at (spline_of binary64 (M.view map.now) checks coeffs.now) s.entry.xs.now s.entry.n)
        (F.step (spline_of binary64 (M.view map.now) checks coeffs.now) s.entry.xs.now s.entry.n) s.entry.from s.entry.m
        out.old result out.new }
{
    let good = look::<F, M>(map, s, places, spots);
    F::put(map, coeffs, s, &spots[..good], out);
    good
}
