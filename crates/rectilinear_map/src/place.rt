// The place of a coordinate on an axis of a rectilinear map.
ghost use Rattle.rectilinear_map.specs.Place.{RectilinearPlaced};

use crate::build::looked_at;
use knots::{Loc, get_loc};
use shape::{Refusal, Shape};

// The record's shape and the grid are checked as `check` does, for as many coefficients as the shape wants.
pub fn place(shape: Shape, grid: &[f64], axis: usize, x: f64) -> Result<Loc, Refusal>
    ensures { RectilinearPlaced shape.count shape.dims grid.now axis x result }
{
    let joined = looked_at(shape, grid, shape.coeff_storage_len())?;
    if joined.axes.count <= axis {
        return Err(Refusal::NoSuchLine);
    }
    Ok(get_loc(joined.along(axis), x))
}
