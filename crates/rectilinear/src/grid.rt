// A rectilinear grid, as far as a fit goes: the system of each axis is that of its knots.
ghost use Rattle.std.specs.Prelude.{◌≡◌, take};
ghost use Rattle.std.specs.Float.{binary64};
ghost use Rattle.knots.proofs.Totals.{length-knots_of};
ghost use Rattle.rectilinear.specs.Fit.{axis_system};

use fits::Grid;
use knots::Joined;
use rectilinear_lines::Axis;
use rectilinear_weights::{high_ghost_coeffs, low_ghost_coeffs};
use shape::Axes;

#[derive(Clone, Copy)]
pub struct RectilinearGrid<'a> {
    pub joined: Joined<'a>,
}

impl<'a> Grid for RectilinearGrid<'a> {
    type Axis = Axis<'a>;

    ghost dims = { λ grid. take grid.joined.axes.count grid.joined.axes.dims };

    ghost rows = { λ grid. axis_system binary64 grid.joined.knots.now (take grid.joined.axes.count grid.joined.axes.dims) };

    ghost as_many_points = { λ grid a h. length-knots_of grid.joined.knots.now (take grid.joined.axes.count grid.joined.axes.dims) a h grid.joined.as_many };

    fn axes(self) -> Axes {
        self.joined.axes
    }

    // The ghost numbers are worked out here, once for all lines of the axis.
    fn axis(self, a: usize) -> Axis<'a> {
        let grid = self.joined.along(a);
        let low_ghost = low_ghost_coeffs(grid);
        let high_ghost = high_ghost_coeffs(grid);
        Axis {
            grid,
            low_ghost,
            high_ghost,
        }
    }
}
