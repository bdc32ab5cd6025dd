// A map as the calls that evaluate it are lent it: its record and its joined grid, or the grid alone.
ghost use Rattle.std.specs.Float.{binary64};
ghost use Rattle.rectilinear_blocks.specs.Eval.{map_checks, rectilinear_axes};
ghost use Rattle.rectilinear_map.specs.Laws.{numbered};
ghost use Rattle.rectilinear_map.specs.Map.{of_grid};
ghost use Rattle.rectilinear_map.specs.Records.{map_of};

use crate::build::looked_at;
use crate::ends::{High, Low, ghosts_of};
use crate::record::MultiBsplineRectilinear;
use evaluation::strides_of;
use map_calls::Lent;
use rectilinear_blocks::Grid;
use shape::{Refusal, Shape};

#[derive(Clone, Copy)]
pub struct WithGrid<'a> {
    pub map: MultiBsplineRectilinear,
    pub grid: &'a [f64],
}

impl<'a> Lent for WithGrid<'a> {
    type Accepted = Grid<'a>;

    ghost view = { λ lent. rectilinear_axes binary64 (map_of lent.map) lent.grid.now };

    ghost checks = { λ lent coefs. map_checks lent.map.count lent.map.dims lent.grid.now coefs };

    fn accept(self, coeffs: usize) -> Result<Grid<'a>, Refusal> {
        let MultiBsplineRectilinear {
            count,
            dims,
            low_ghost_coeffs,
            high_ghost_coeffs,
            linearize_extrapolation,
        } = self.map;
        let joined = looked_at(Shape { count, dims }, self.grid, coeffs)?;
        Ok(Grid {
            count,
            dims,
            strides: strides_of(joined.axes),
            knots: self.grid,
            low: low_ghost_coeffs,
            high: high_ghost_coeffs,
            linear: linearize_extrapolation,
        })
    }

    ghost positive = { λ lent coefs. numbered lent.map.count lent.map.dims lent.grid.now coefs };
}

// What a caller lends who has the grid and no record, and asks more than a value: the ghost numbers of both ends of each axis are
// worked out once, before any query is looked at. `ByGrid` (src/of_grid.rt) is for a single value; the two lend one map, but what
// they accept differs, so that they are two.
#[derive(Clone, Copy)]
pub struct WithGhosts<'a> {
    pub shape: Shape,
    pub grid: &'a [f64],
    pub linear: bool,
}

impl<'a> Lent for WithGhosts<'a> {
    type Accepted = Grid<'a>;

    ghost view = { λ g. rectilinear_axes binary64 (of_grid binary64 g.shape.count g.shape.dims g.grid.now g.linear) g.grid.now };

    ghost checks = { λ g coefs. map_checks g.shape.count g.shape.dims g.grid.now coefs };

    fn accept(self, coeffs: usize) -> Result<Grid<'a>, Refusal> {
        let Shape { count, dims } = self.shape;
        let joined = looked_at(self.shape, self.grid, coeffs)?;
        Ok(Grid {
            count,
            dims,
            strides: strides_of(joined.axes),
            knots: self.grid,
            low: ghosts_of::<Low>(joined),
            high: ghosts_of::<High>(joined),
            linear: self.linear,
        })
    }

    ghost positive = { λ g coefs. numbered g.shape.count g.shape.dims g.grid.now coefs };
}
