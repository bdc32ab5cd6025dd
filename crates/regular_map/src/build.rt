// Building a regular map, and the checks of a record. A rectilinear map has its own: what its record holds and what is checked of
// it are others. What both ask is `Shape::axes` and `points_by_stride`.
ghost use Rattle.std.specs.Prelude.{◌≡◌, false, [], ◌∷◌, ◌≤◌, length, take};
ghost use Rattle.std.specs.Float.{binary64};
ghost use Rattle.multibspline.specs.Numbers.{f0};
ghost use Rattle.regular.specs.Fit.{RegularFitLeaves};
ghost use Rattle.regular_map.specs.Map.{made, blank, RegularBuilt};
ghost use Rattle.regular_map.specs.Records.{map_of};
ghost use Rattle.shape.specs.Axes.{AxesOnce};
ghost use Rattle.shape.specs.Refusal.{answer_number, refusal_number};
ghost use Rattle.regular_blocks.specs.Checks.{any_step_bad, map_answer, from_values_answer};

use crate::record::MultiBsplineRegular;
use evaluation::{points_by_stride, used_of};
use shape::{Axes, Refusal, Shape};

// Whether one of these steps is not above zero. A NaN is not.
fn any_step_bad(steps: &[f64]) -> bool
    ensures { result ≡ any_step_bad steps.now }
{
    steps.iter().any(|step| !(*step > 0.0))
}

// The checks of a record: its shape, which is looked at once, the length of its coefficients, its steps. Its axes, where they pass.
pub fn looked_at(shape: Shape, steps: [f64; 4], coeffs: usize) -> Result<Axes, Refusal>
    ensures { AxesOnce (map_answer shape.count shape.dims steps coeffs) shape.count shape.dims result }
{
    let axes = shape.axes()?;
    if coeffs != points_by_stride(axes) {
        return Err(Refusal::DimensionMismatch);
    }
    if any_step_bad(&steps[..axes.count]) {
        return Err(Refusal::NotIncreasing);
    }
    Ok(axes)
}

pub fn check_map(
    count: usize,
    dims: [usize; 4],
    steps: [f64; 4],
    coeffs: usize,
) -> Result<(), Refusal>
    ensures { answer_number result ≡ map_answer count dims steps coeffs }
{
    looked_at(Shape { count, dims }, steps, coeffs)?;
    Ok(())
}

// Nothing but zeros. Kept as a public function.
pub fn blank() -> MultiBsplineRegular
    ensures { map_of result ≡ blank }
{
    let dims = [0, 0, 0, 0];
    let starts = [0.0, 0.0, 0.0, 0.0];
    let steps = [0.0, 0.0, 0.0, 0.0];
    MultiBsplineRegular {
        count: 0,
        dims,
        starts,
        steps,
        linearize_extrapolation: false,
    }
}

// An accepted map: entries of axes not in use are zero. Its parts come one by one, here and below, since there is no record yet.
fn accepted(
    count: usize,
    dims: [usize; 4],
    starts: [f64; 4],
    steps: [f64; 4],
    linear: bool,
) -> MultiBsplineRegular
    ensures { map_of result ≡ made count dims starts steps linear }
{
    MultiBsplineRegular {
        count,
        dims: used_of(count, dims, 0),
        starts: used_of(count, starts, 0.0),
        steps: used_of(count, steps, 0.0),
        linearize_extrapolation: linear,
    }
}

pub fn build(
    count: usize,
    dims: [usize; 4],
    starts: [f64; 4],
    steps: [f64; 4],
    linear: bool,
    coeffs: usize,
) -> Result<MultiBsplineRegular, Refusal>
    ensures { RegularBuilt (map_answer count dims steps coeffs) count dims starts steps linear result }
{
    check_map(count, dims, steps, coeffs)?;
    Ok(accepted(count, dims, starts, steps, linear))
}

pub fn from_values(
    count: usize,
    dims: [usize; 4],
    starts: [f64; 4],
    steps: [f64; 4],
    linear: bool,
    vals: &[f64],
    coeffs: &mut [f64],
    scratch: &mut [f64],
) -> Result<MultiBsplineRegular, Refusal>
    ensures regular_built { RegularBuilt (from_values_answer count dims steps (length vals.now) (length coeffs.old) (length scratch.old)) count dims starts steps linear result }
    ensures regular_fit_leaves { RegularFitLeaves binary64 count dims vals.now coeffs.old scratch.old coeffs.new scratch.new }
{
    let shape = Shape { count, dims };
    regular::coefficients(shape, vals, coeffs, scratch)?;
    build(count, dims, starts, steps, linear, coeffs.len())
}
