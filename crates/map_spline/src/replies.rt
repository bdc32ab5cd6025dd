// A query of the map.
ghost use Rattle.std.specs.Prelude.{◌≡◌, length};
ghost use Rattle.shape.specs.Below.{any_below};
ghost use Rattle.map_spline.specs.Outside.{axis_outside};
ghost use Rattle.map_spline.specs.Surface.{surface_by, surface_in, Replied};

use crate::asked::{Asked, OnRectilinear, OnRegular};
use crate::build::Map;
use shape::Refusal;

// What an accepted query answers: the value, the gradient, and whether it counts as outside.
#[derive(Clone, Copy)]
pub struct Reply {
    pub value: f64,
    pub outside: bool,
    pub parts: [f64; 4],
}

// Whether a query is outside: some axis has an Outside place for it.
fn is_outside<M: Asked>(map: &M, x: &[f64]) -> bool
    requires { M.Accepted map.now × (length x.now ≡ (M.spline map.now).axes) }
    ensures { result ≡ any_below (axis_outside (M.outside_on map.now) x.now) (M.spline map.now).axes }
{
    for (a, y) in x.iter().enumerate() {
        if map.is_outside_on(a, *y) {
            return true;
        }
    }
    false
}

fn ask<M: Asked>(map: &M, x: &[f64]) -> Result<Reply, Refusal>
    ensures { Replied (surface_by (M.spline map.now) (M.outside_on map.now)) x.now result }
{
    let value = map.value(x)?;
    let parts = map.gradient(x)?;
    let outside = is_outside(map, x);
    Ok(Reply {
        value,
        outside,
        parts,
    })
}

// A map, with what its queries read: its row, which is the grid of a rectilinear map, and its coefficients.
#[derive(Clone, Copy)]
pub struct FittedMap<'a> {
    pub map: Map,
    pub row: &'a [f64],
    pub coeffs: &'a [f64],
}

impl<'a> FittedMap<'a> {
    // A query of a map on either grid.
    pub fn ask(&self, x: &[f64]) -> Result<Reply, Refusal>
        ensures { Replied (surface_in self.now) x.now result }
    {
        let coeffs = self.coeffs;
        match self.map {
            Map::Regular(map) => ask(&OnRegular { map, coeffs }, x),
            Map::Rectilinear(map) => {
                let grid = self.row;
                ask(&OnRectilinear { map, grid, coeffs }, x)
            }
        }
    }
}
