// The fit with a regular grid: the shape and the length of the grid are looked at first, the steps once it has fitted.
ghost use Rattle.std.specs.Prelude.{◌≡◌};
ghost use Rattle.std.specs.Float.{binary64};
ghost use Rattle.shape.specs.Checks.{first_refusal};
ghost use Rattle.shape.specs.Refusal.{answer_number};
ghost use Rattle.capi_parts.specs.Regular.{grid_ready_checks, FromValues};

use crate::inputs::{four_from, shape_of};
use regular_map::MultiBsplineRegular;
use shape::Refusal;

// The shape, then the length of a regular grid.
fn check_grid(dims: &[usize], grid: &[f64]) -> Result<(), Refusal>
    ensures { answer_number result ≡ first_refusal (grid_ready_checks dims.now grid.now) }
{
    let shape = shape_of(dims);
    shape.check()?;
    if grid.len() != 2 * dims.len() {
        return Err(Refusal::DimensionMismatch);
    }
    Ok(())
}

pub fn from_values(
    dims: &[usize],
    grid: &[f64],
    vals: &[f64],
    coeffs: &mut [f64],
    scratch: &mut [f64],
) -> Result<(), Refusal>
    ensures { FromValues binary64 dims.now grid.now vals.now coeffs.old scratch.old (answer_number result) coeffs.new scratch.new }
{
    check_grid(dims, grid)?;
    let shape = shape_of(dims);
    let starts = four_from(grid, 0);
    let steps = four_from(grid, dims.len());
    MultiBsplineRegular::from_values_with_workspace(
        shape, starts, steps, vals, coeffs, scratch, false,
    )?;
    Ok(())
}
