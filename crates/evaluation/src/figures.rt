// What is asked at the queries of a block: their values, or their gradients.
ghost use Rattle.std.specs.Prelude.{◌≡◌, List, ℕ, ◌+◌, ◌≤◌, ◌<◌, length, get_or, take, Float};
ghost use Rattle.std.specs.Float.{binary64, nan};
ghost use Rattle.shape.specs.Checks.{Check};
ghost use Rattle.shape.specs.Shape.{size};
ghost use Rattle.evaluation.specs.Axes.{query};
ghost use Rattle.evaluation.specs.Axis.{AxisOf};
ghost use Rattle.evaluation.specs.Batch.{written};
ghost use Rattle.evaluation.specs.ByAxis.{ByAxis, spline_of};
ghost use Rattle.evaluation.specs.Spline.{Spline};
ghost use Rattle.evaluation.specs.Stages.{no_spot, PlacedTo};
ghost use Rattle.evaluation.specs.declared.stages.Spot.{Spot};

use crate::axis::Axis;
use crate::map::{Map, Span};
use crate::stages::Spot;

pub trait Figures {
    // the rows of the first a axes that the spot of a query has
    ghost Rows: { ByAxis → List Float → ℕ → Spot → Type 0 };

    // how many numbers n queries make on so many axes
    ghost numbers: { ℕ → ℕ → ℕ };

    // query i of n in an output
    ghost step: { Spline → List Float → ℕ → ℕ → List Float → List Float };

    // The rows on axis a, of `count`, beside those on the axes before it.
    fn look<A: Axis>(
        axis: A,
        count: usize,
        a: usize,
        xs: &[f64],
        places: &[A::Place],
        spots: &mut [Spot],
    )
        requires enough { (a < count) × (count ≤ 4) × (length xs.now ≤ length places.now) × (length xs.now ≤ length spots.old) }
        requires kept { (k : ℕ) (none : A.Place) → k < length xs.now → A.Kept axis (get_or xs.now k nan) (get_or places.now k none) }
        ensures firsts { (k : ℕ) → k < length xs.now → (get_or spots.new k no_spot).first ≡ (get_or spots.old k no_spot).first }
        ensures rows { (m : ByAxis) → m.count ≡ count → AxisOf m a (A.view axis)
            → (x : List Float) (k : ℕ) → k < length xs.now → get_or xs.now k nan ≡ get_or x a nan
            → Rows m x a (get_or spots.old k no_spot) → Rows m x (a + 1) (get_or spots.new k no_spot) };

    // The numbers of the queries from entry `from` of n on, which have a place and their rows on every axis.
    fn put<M: Map>(map: &M, coeffs: &[f64], s: Span, spots: &[Spot], out: &mut [f64])
        requires sized { length coeffs.now ≡ size (take (M.view map.now).count (M.view map.now).lens) }
        requires room { (s.from + length spots.now ≤ s.n) × (numbers (M.view map.now).count s.n ≤ length out.old) }
        requires looked { (k : ℕ) → k < length spots.now
            → PlacedTo (M.view map.now) (query (M.view map.now).count s.xs.now s.n (s.from + k)) (M.view map.now).count (get_or spots.now k no_spot).first
            × Rows (M.view map.now) (query (M.view map.now).count s.xs.now s.n (s.from + k)) (M.view map.now).count (get_or spots.now k no_spot) }
        ensures { (checks : List Check)
            → out.new ≡ written (λ k. step (spline_of binary64 (M.view map.now) checks coeffs.now) s.entry.xs.now s.entry.n (s.entry.from + k))
            (length spots.now) out.old };

    // before any axis there is no row to have
    ghost none: { (m : ByAxis) (x : List Float) (s : Spot) → Rows m x 0 s };

    // the rows are those of the two tables
    ghost tables: { (m : ByAxis) (x : List Float) (a : ℕ) (s t : Spot) → t.weights ≡ s.weights → t.slopes ≡ s.slopes → Rows m x a s → Rows m x a t };
}
