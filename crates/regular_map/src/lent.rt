// The record as the calls that evaluate it are lent it.
ghost use Rattle.std.specs.Float.{binary64};
ghost use Rattle.regular_blocks.specs.Checks.{map_checks};
ghost use Rattle.regular_blocks.specs.Eval.{regular_axes};
ghost use Rattle.regular_map.specs.Laws.{numbered};
ghost use Rattle.regular_map.specs.Records.{map_of};

use crate::build::looked_at;
use crate::record::MultiBsplineRegular;
use crate::single::value_at;
use evaluation::strides_of;
use map_calls::Lent;
use regular_blocks::Grid;
use shape::{Refusal, Shape};

impl Lent for MultiBsplineRegular {
    type Accepted = Grid;

    ghost view = { λ m. regular_axes binary64 (map_of m) };

    ghost checks = { λ m coefs. map_checks m.count m.dims m.steps coefs };

    // Compiled into each call: left as a call of its own, it adds a fifth to a third to a single value on one or two axes.
    #[inline(always)]
    fn accept(self, coeffs: usize) -> Result<Grid, Refusal> {
        let MultiBsplineRegular {
            count,
            dims,
            starts,
            steps,
            linearize_extrapolation,
        } = self;
        let axes = looked_at(Shape { count, dims }, steps, coeffs)?;
        Ok(Grid {
            count,
            dims,
            strides: strides_of(axes),
            starts,
            steps,
            linear: linearize_extrapolation,
        })
    }

    fn value_at(map: &Grid, coeffs: &[f64], x: &[f64]) -> Result<f64, Refusal> {
        value_at(map, coeffs, x)
    }

    ghost positive = { λ m coefs. numbered m.count m.dims m.steps coefs };
}
