// An accepted rectilinear map with its joined grid and its strides.
ghost use Rattle.std.specs.Float.{binary64};
ghost use Rattle.evaluation.specs.Granted.{Ready};
ghost use Rattle.rectilinear_blocks.specs.Eval.{rectilinear_axes};
ghost use Rattle.rectilinear_blocks.specs.Ghosts.{ghosts};
ghost use Rattle.rectilinear_blocks.specs.Map.{map_from};
ghost use Rattle.rectilinear_blocks.specs.Sound.{Gridded};

use evaluation::Map;
use knots::axis_knots;
use rectilinear_axis::Knots;
use rectilinear_weights::Ghost;

#[derive(Clone, Copy)]
pub struct Grid<'a> {
    pub count: usize,
    pub dims: [usize; 4],
    pub strides: [usize; 4],
    pub knots: &'a [f64],
    // the ghost numbers of the low end of each axis, and those of the high end
    pub low: [Ghost; 4],
    pub high: [Ghost; 4],
    pub linear: bool,
    ghost ready: { Ready count dims strides },
    ghost gridded: { Gridded count dims knots.now },
}

impl<'a> Map for Grid<'a> {
    type Along = Knots<'a>;

    ghost view = { λ g. rectilinear_axes binary64 (map_from g.count g.dims (ghosts g.low) (ghosts g.high) g.linear) g.knots.now };

    fn count(&self) -> usize {
        self.count
    }

    fn strides(&self) -> [usize; 4] {
        self.strides
    }

    fn axis(&self, a: usize) -> Knots<'a> {
        Knots {
            knots: axis_knots(self.knots, self.count, self.dims, a),
            low: self.low[a],
            high: self.high[a],
            linear: self.linear,
        }
    }
}
