// A regular grid: its axes say all of it, as far as a fit goes.
ghost use Rattle.std.specs.Prelude.{◌≡◌, take, refl};
ghost use Rattle.std.specs.Float.{binary64};
ghost use Rattle.shape.specs.Shape.{points};
ghost use Rattle.regular_lines.specs.Rows.{system};

use fits::Grid;
use regular_lines::Axis;
use shape::Axes;

#[derive(Clone, Copy)]
pub struct RegularGrid {
    pub axes: Axes,
}

impl Grid for RegularGrid {
    type Axis = Axis;

    ghost dims = { λ grid. take grid.axes.count grid.axes.dims };

    ghost rows = { λ grid a. system binary64 (points (take grid.axes.count grid.axes.dims) a) };

    ghost as_many_points = { λ grid a h. refl };

    fn axes(self) -> Axes {
        self.axes
    }

    fn axis(self, a: usize) -> Axis {
        let dims = self.axes.dims;
        Axis { n: dims[a] }
    }
}
