// A single query as a block of one. A value and a gradient are two functions over one, as they answer different types.
ghost use Rattle.std.specs.Prelude.{◌≡◌, List, ◌≤◌, length, replicate, take};
ghost use Rattle.multibspline.specs.Numbers.{f0};
ghost use Rattle.std.specs.Float.{binary64};
ghost use Rattle.shape.specs.Checks.{Check};
ghost use Rattle.shape.specs.Refusal.{answer_number, answer_or};
ghost use Rattle.shape.specs.Shape.{size};
ghost use Rattle.evaluation.specs.Axes.{query, zeros};
ghost use Rattle.evaluation.specs.Batch.{bad_at};
ghost use Rattle.evaluation.specs.ByAxis.{spline_of};
ghost use Rattle.evaluation.specs.Entries.{Answered, Entries, GradientAnswered};

use crate::blocks::block;
use crate::gradients::Gradients;
use crate::values::Values;
use evaluation::{Axis, Figures, Map, Span, Spot};
use shape::Refusal;

// What is asked at it, N numbers, or that it has no place.
fn single<F: Figures, M: Map, const N: usize>(
    map: &M,
    coeffs: &[f64],
    x: &[f64],
) -> Result<[f64; N], Refusal>
    requires sized { length coeffs.now ≡ size (take (M.view map.now).count (M.view map.now).lens) }
    requires room { ((M.view map.now).count ≤ length x.now) × (F.numbers (M.view map.now).count 1 ≤ N) }
    ensures { (checks : List Check) → let s = spline_of binary64 (M.view map.now) checks coeffs.now in
        Entries (bad_at s x.now 1) (F.step s x.now 1) 1 (replicate N f0) (answer_number result) (answer_or (replicate N f0) result) }
{
    let mut places = [<M::Along as Axis>::blank(); 1];
    let mut spots = [Spot::blank(); 1];
    let mut out = [0.0f64; N];
    let s = Span {
        xs: x,
        n: 1,
        from: 0,
        m: 1,
    };
    let good = block::<F, M>(map, coeffs, s, &mut places, &mut spots, &mut out);
    if good < 1 {
        return Err(Refusal::Unrepresentable);
    }
    Ok(out)
}

// Its value, or that it has no place.
pub fn single_value<M: Map>(map: &M, coeffs: &[f64], x: &[f64]) -> Result<f64, Refusal>
    requires { (length coeffs.now ≡ size (take (M.view map.now).count (M.view map.now).lens)) × ((M.view map.now).count ≤ length x.now) }
    ensures { (checks : List Check) → Answered (spline_of binary64 (M.view map.now) checks coeffs.now) (query (M.view map.now).count x.now 1 0) (answer_number result) (answer_or f0 result) }
{
    let out = single::<Values, M, 1>(map, coeffs, x)?;
    Ok(out[0])
}

// Its gradient.
pub fn single_gradient<M: Map>(map: &M, coeffs: &[f64], x: &[f64]) -> Result<[f64; 4], Refusal>
    requires { (length coeffs.now ≡ size (take (M.view map.now).count (M.view map.now).lens)) × ((M.view map.now).count ≤ length x.now) × ((M.view map.now).count ≤ 4) }
    ensures { (checks : List Check) → GradientAnswered (spline_of binary64 (M.view map.now) checks coeffs.now) (query (M.view map.now).count x.now 1 0) (answer_number result) (answer_or zeros result) }
{
    single::<Gradients, M, 4>(map, coeffs, x)
}
