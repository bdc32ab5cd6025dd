// The joined grid by its parts, for a caller whose record has axis count and lengths: `axis_knots` is for `rectilinear_blocks`,
// `grid_len` for `map_work`. No caller is left here for `all_rise`; it stays as a public function. Else hand on a `Joined`.
ghost use Rattle.std.specs.Prelude.{◌≡◌, ◌<◌, length, take};
ghost use Rattle.shape.specs.Usable.{Usable};
ghost use Rattle.knots.specs.Joined.{total, knots_of, all_rise};

use crate::joined::{Joined, knots_of_all};
use shape::Axes;

// How many knots all axes have: the length of the joined grid.
pub fn grid_len(count: usize, dims: [usize; 4]) -> usize
    requires { Usable count dims }
    ensures { result ≡ total (take count dims) }
{
    knots_of_all(Axes { count, dims })
}

// The knots of an axis.
pub fn axis_knots(grid: &[f64], count: usize, dims: [usize; 4], axis: usize) -> &[f64]
    requires { (axis < count) × Usable count dims × (length grid.now ≡ total (take count dims)) }
    ensures { result.now ≡ knots_of grid.now (take count dims) axis }
{
    let axes = Axes { count, dims };
    Joined { axes, knots: grid }.along(axis)
}

// Whether the knots of each axis rise.
pub fn all_rise(grid: &[f64], count: usize, dims: [usize; 4]) -> bool
    requires { Usable count dims × (length grid.now ≡ total (take count dims)) }
    ensures { result ≡ all_rise grid.now (take count dims) count }
{
    let axes = Axes { count, dims };
    Joined { axes, knots: grid }.rises()
}
