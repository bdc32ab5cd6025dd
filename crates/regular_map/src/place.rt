// The place of a coordinate on an axis of a regular map.
ghost use Rattle.std.specs.Float.{binary64};
ghost use Rattle.regular_map.specs.Place.{RegularPlaced};

use crate::build::looked_at;
use crate::record::MultiBsplineRegular;
use multibspline::Saturation;
use regular_weights::get_loc;
use shape::{Refusal, Shape};

// The record is checked as `check` does, for as many coefficients as its shape wants.
pub fn place(map: MultiBsplineRegular, axis: usize, x: f64) -> Result<(Saturation, usize), Refusal>
    ensures { RegularPlaced binary64 map.count map.dims map.starts map.steps axis x result }
{
    let MultiBsplineRegular {
        count,
        dims,
        starts,
        steps,
        ..
    } = map;
    let shape = Shape { count, dims };
    looked_at(shape, steps, shape.coeff_storage_len())?;
    if count <= axis {
        return Err(Refusal::NoSuchLine);
    }
    match get_loc(dims[axis], starts[axis], steps[axis], x) {
        Some(loc) => Ok((loc.sat, loc.origin)),
        None => Err(Refusal::Unrepresentable),
    }
}
