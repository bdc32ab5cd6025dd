// Building a rectilinear map, and the checks of a record with its joined grid. A regular map has its own: what its record holds and
// what is checked of it are others. What both ask is `Shape::axes` and `points_by_stride`.
ghost use Rattle.std.specs.Prelude.{◌≡◌};
ghost use Rattle.std.specs.Float.{binary64};
ghost use Rattle.shape.specs.Refusal.{answer_number, refusal_number};
ghost use Rattle.rectilinear.specs.Fit.{RectilinearFitted};
ghost use Rattle.rectilinear_map.specs.Map.{made, blank};
ghost use Rattle.rectilinear_map.specs.Records.{map_of, JoinedOnce, BuiltAs, BuiltByFit};
ghost use Rattle.rectilinear_blocks.specs.Eval.{grid_answer, map_answer};

use crate::ends::{High, Low, ghosts_of, no_ghosts};
use crate::record::MultiBsplineRectilinear;
use evaluation::{points_by_stride, used_of};
use knots::{Joined, knots_of_all};
use shape::{Axes, Refusal, Shape};

// The shape, then the length of the joined grid. The joined grid, where both pass.
fn joined(shape: Shape, grid: &[f64]) -> Result<Joined<'_>, Refusal>
    ensures { JoinedOnce (grid_answer shape.count shape.dims grid.now) shape.count shape.dims grid.now result }
{
    let axes = shape.axes()?;
    if grid.len() != knots_of_all(axes) {
        return Err(Refusal::DimensionMismatch);
    }
    Ok(Joined { axes, knots: grid })
}

// The checks of a record and its grid: the shape and the grid's length, the length of the coefficients, the knots. The joined
// grid, where they pass.
pub fn looked_at(shape: Shape, grid: &[f64], coeffs: usize) -> Result<Joined<'_>, Refusal>
    ensures { JoinedOnce (map_answer shape.count shape.dims grid.now coeffs) shape.count shape.dims grid.now result }
{
    let joined = joined(shape, grid)?;
    if coeffs != points_by_stride(joined.axes) {
        return Err(Refusal::DimensionMismatch);
    }
    if !joined.rises() {
        return Err(Refusal::NotIncreasing);
    }
    Ok(joined)
}

pub fn check_map(count: usize, dims: [usize; 4], grid: &[f64], coeffs: usize) -> Result<(), Refusal>
    ensures { answer_number result ≡ map_answer count dims grid.now coeffs }
{
    looked_at(Shape { count, dims }, grid, coeffs)?;
    Ok(())
}

// Nothing but zeros. Kept as a public function.
pub fn blank() -> MultiBsplineRectilinear
    ensures { map_of result ≡ blank }
{
    let dims = [0, 0, 0, 0];
    let low = no_ghosts();
    let high = no_ghosts();
    MultiBsplineRectilinear {
        count: 0,
        dims,
        low_ghost_coeffs: low,
        high_ghost_coeffs: high,
        linearize_extrapolation: false,
    }
}

// An accepted map: entries of axes not in use are zero.
fn accepted(joined: Joined<'_>, linear: bool) -> MultiBsplineRectilinear
    ensures { map_of result ≡ made binary64 joined.entry.axes.count joined.entry.axes.dims joined.entry.knots.now linear }
{
    let axes = joined.axes;
    MultiBsplineRectilinear {
        count: axes.count,
        dims: used_of(axes.count, axes.dims, 0),
        low_ghost_coeffs: ghosts_of::<Low>(joined),
        high_ghost_coeffs: ghosts_of::<High>(joined),
        linearize_extrapolation: linear,
    }
}

pub fn build(
    shape: Shape,
    grid: &[f64],
    linear: bool,
    coeffs: usize,
) -> Result<MultiBsplineRectilinear, Refusal>
    ensures { BuiltAs binary64 (map_answer shape.count shape.dims grid.now coeffs) shape.count shape.dims grid.now linear result }
{
    let joined = looked_at(shape, grid, coeffs)?;
    Ok(accepted(joined, linear))
}

// From the grid alone; the knots are left to the calls that evaluate the map.
pub fn of_grid(shape: Shape, grid: &[f64], linear: bool) -> Result<MultiBsplineRectilinear, Refusal>
    ensures { BuiltAs binary64 (grid_answer shape.count shape.dims grid.now) shape.count shape.dims grid.now linear result }
{
    let joined = joined(shape, grid)?;
    Ok(accepted(joined, linear))
}

pub fn from_values(
    shape: Shape,
    grid: &[f64],
    linear: bool,
    vals: &[f64],
    coeffs: &mut [f64],
    scratch: &mut [f64],
) -> Result<MultiBsplineRectilinear, Refusal>
    ensures built_by_fit { BuiltByFit binary64 shape.count shape.dims grid.now linear vals.now coeffs.old scratch.old result }
    ensures rectilinear_fitted { RectilinearFitted binary64 shape.count shape.dims grid.now vals.now coeffs.old scratch.old (answer_number result) coeffs.new scratch.new }
{
    let Shape { count, dims } = shape;
    rectilinear::coefficients(shape, grid, vals, coeffs, scratch)?;
    let axes = Axes { count, dims };
    Ok(accepted(Joined { axes, knots: grid }, linear))
}
