// The joined grid of a rectilinear map, and the knots of an axis as a part of it.
ghost use Rattle.std.specs.Prelude.{◌≡◌, ◌≤◌, ◌<◌, length, take};
ghost use Rattle.shape.specs.Checks.{most_points};
ghost use Rattle.knots.specs.Joined.{total, knots_of, all_rise};

use crate::order::rising;
use shape::Axes;

// How many knots some axes have.
fn knots_on(dims: &[usize]) -> usize
    requires { total dims.now ≤ most_points }
    ensures { result ≡ total dims.now }
{
    let mut sum: usize = 0;
    for n in dims {
        sum += *n;
    }
    sum
}

// How many knots all axes have: the length of the joined grid.
pub fn knots_of_all(axes: Axes) -> usize
    ensures { result ≡ total (take axes.count axes.dims) }
{
    knots_on(&axes.dims[..axes.count])
}

// The axes, and the knots of each, axis after axis, which are lent.
#[derive(Clone, Copy)]
pub struct Joined<'a> {
    pub axes: Axes,
    pub knots: &'a [f64],
    ghost as_many: { length knots.now ≡ total (take axes.count axes.dims) },
}

impl<'a> Joined<'a> {
    // The knots of an axis.
    pub fn along(self, axis: usize) -> &'a [f64]
        requires { axis < self.axes.count }
        ensures { result.now ≡ knots_of self.entry.knots.now (take self.entry.axes.count self.entry.axes.dims) axis }
    {
        let dims = self.axes.dims;
        let knots = self.knots;
        let from = knots_on(&dims[..axis]);
        let to = from + dims[axis];
        &knots[from..to]
    }

    // Whether the knots of each axis rise.
    pub fn rises(self) -> bool
        ensures { result ≡ all_rise self.entry.knots.now (take self.entry.axes.count self.entry.axes.dims) self.entry.axes.count }
    {
        (0..self.axes.count).all(|axis| rising(self.along(axis)))
    }
}
