// A regular map as C hands it over, which the calls that evaluate maps are lent: `grid` has the start of each axis, then the
// step of each axis. A rectilinear one is `rectilinear_map`'s own, by its shape and its knots.
ghost use Rattle.std.specs.Prelude.{◌≡◌, ◌≤◌, List, length};
ghost use Rattle.std.specs.Float.{binary64};
ghost use Rattle.multibspline.specs.Numbers.{f0};
ghost use Rattle.shape.specs.Checks.{Check};
ghost use Rattle.shape.specs.Refusal.{answer_number, answer_or};
ghost use Rattle.evaluation.specs.Axes.{query};
ghost use Rattle.evaluation.specs.ByAxis.{spline_of};
ghost use Rattle.evaluation.specs.Entries.{Answered};
ghost use Rattle.map_calls.specs.Accepted.{Filled};
ghost use Rattle.regular_blocks.specs.Eval.{regular_axes};
ghost use Rattle.regular_blocks.specs.Records.{map_of};
ghost use Rattle.regular_map.specs.Records as Record;
ghost use Rattle.capi_parts.specs.Laws.{numbered};
ghost use Rattle.capi_parts.specs.Regular.{regular_map, regular_checks};

use crate::inputs::{four_from, shape_of};
use map_calls::Lent;
use regular_blocks::Grid;
use regular_map::MultiBsplineRegular;
use shape::{Refusal, Shape};

#[derive(Clone, Copy)]
pub struct RegularFromC<'a> {
    pub dims: &'a [usize],
    pub grid: &'a [f64],
    pub linear: bool,
}

impl<'a> RegularFromC<'a> {
    // Its record.
    fn record(self) -> MultiBsplineRegular
        ensures { Record.map_of result ≡ regular_map self.entry.dims.now self.entry.grid.now self.entry.linear }
    {
        let Shape { count, dims } = shape_of(self.dims);
        let starts = four_from(self.grid, 0);
        let steps = four_from(self.grid, self.dims.len());
        MultiBsplineRegular {
            count,
            dims,
            starts,
            steps,
            linearize_extrapolation: self.linear,
        }
    }
}

impl<'a> Lent for RegularFromC<'a> {
    type Accepted = Grid;

    ghost view = { λ m. regular_axes binary64 (regular_map m.dims.now m.grid.now m.linear) };

    ghost checks = { λ m coefs. regular_checks m.dims.now m.grid.now coefs };

    // The record looks at the shape: only a grid of another length is left to refuse here, by the shape first.
    #[inline(always)]
    fn accept(self, coeffs: usize) -> Result<Grid, Refusal> {
        if self.grid.len() != 2 * self.dims.len() {
            let shape = shape_of(self.dims);
            shape.check()?;
            return Err(Refusal::DimensionMismatch);
        }
        self.record().accept(coeffs)
    }

    fn value_at(map: &Grid, coeffs: &[f64], x: &[f64]) -> Result<f64, Refusal>
        requires { Filled (regular_axes binary64 (map_of map.now)) (length coeffs.now) × (map.now.count ≤ length x.now) }
        ensures { (checks : List Check) → Answered (spline_of binary64 (regular_axes binary64 (map_of map.now)) checks coeffs.now) (query map.now.count x.now 1 0) (answer_number result) (answer_or f0 result) }
    {
        MultiBsplineRegular::value_at(map, coeffs, x)
    }

    ghost positive = { λ m coefs. numbered m.dims.now m.grid.now coefs };
}
