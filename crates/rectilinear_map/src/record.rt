// The record of a rectilinear map. It travels by value; its joined grid and its coefficients are lent beside it, and each
// call looks at all three anew. The record of either grid has interpn's methods; what they do stands once below them (`map_calls`,
// `shape`) or differs with the grid.
ghost use Rattle.std.specs.Prelude.{◌≡◌, length};
ghost use Rattle.multibspline.specs.Numbers.{f0};
ghost use Rattle.evaluation.specs.Axes.{zeros};
ghost use Rattle.std.specs.Float.{binary64};
ghost use Rattle.shape.specs.Refusal.{answer_number, answer_or};
ghost use Rattle.shape.specs.Sizes.{stride_of};
ghost use Rattle.rectilinear.specs.Fit.{RectilinearFitted};
ghost use Rattle.evaluation.specs.Spline.{OneValue, OneGradient};
ghost use Rattle.evaluation.specs.Batch.{ValueBatch, GradientBatch};
ghost use Rattle.rectilinear_map.specs.Map.{made};
ghost use Rattle.rectilinear_map.specs.Records.{map_of, BuiltAs, BuiltByFit};
ghost use Rattle.rectilinear_map.specs.Place.{RectilinearPlaced};
ghost use Rattle.rectilinear_blocks.specs.Eval.{grid_answer, map_answer, rectilinear};

use crate::lent::WithGrid;
use crate::of_grid::ByGrid;
use crate::{build, place};
use knots::Loc;
use rectilinear_weights::Ghost;
use shape::{Refusal, Shape};

// Entries for axes not in use are not looked at; building sets them to zero.
#[derive(Clone, Copy)]
pub struct MultiBsplineRectilinear {
    pub count: usize,
    pub dims: [usize; 4],
    // the ghost numbers of the low end of each axis
    pub low_ghost_coeffs: [Ghost; 4],
    // those of the high end
    pub high_ghost_coeffs: [Ghost; 4],
    // whether the map goes on in a straight line outside its grid
    pub linearize_extrapolation: bool,
}

impl MultiBsplineRectilinear {
    // Whether the map is accepted with this grid and these coefficients, or the first of these refusals: 1, 2, 3 for the
    // record's shape; 2, the length of the joined grid; 2, the length of the coefficients; 5, a knot not above the one before
    // it.
    pub fn check(self, grid: &[f64], coeffs: &[f64]) -> Result<(), Refusal>
        ensures { answer_number result ≡ map_answer self.count self.dims grid.now (length coeffs.now) }
    {
        build::check_map(self.count, self.dims, grid, coeffs.len())
    }

    // How far apart two neighbours on an axis are among the coefficients: 1 on the last axis. 0 where the shape is refused
    // and for an axis that the map has not.
    pub fn stride(self, axis: usize) -> usize
        ensures { result ≡ stride_of self.count self.dims axis }
    {
        let dims = self.dims;
        let shape = Shape {
            count: self.count,
            dims,
        };
        shape.stride(axis)
    }

    // The place of a coordinate on an axis, or the first of these refusals: 1, 2, 3 for the record's shape; 2, the length of
    // the joined grid; 5, a knot not above the one before it; 7, no such axis. No coordinate is refused.
    pub fn place(self, grid: &[f64], axis: usize, x: f64) -> Result<Loc, Refusal>
        ensures { RectilinearPlaced self.count self.dims grid.now axis x result }
    {
        let dims = self.dims;
        let shape = Shape {
            count: self.count,
            dims,
        };
        place::place(shape, grid, axis, x)
    }

    // The value at a query of one coordinate an axis, or the first of these refusals: 1, 2, 3 for the record's shape; 2, the
    // length of the joined grid; 2, the length of the coefficients; 5, a knot not above the one before it; 2, the number of
    // coordinates. No coordinate is refused; at a NaN the arithmetic gives what it gives.
    pub fn interp_one(self, grid: &[f64], coeffs: &[f64], x: &[f64]) -> Result<f64, Refusal>
        ensures { OneValue (rectilinear binary64 (map_of self) grid.now coeffs.now) x.now (answer_number result) (answer_or f0 result) }
    {
        map_calls::interp_one(WithGrid { map: self, grid }, coeffs, x)
    }

    // The gradient at a query, with the refusals of interp_one.
    pub fn interp_one_grad(
        self,
        grid: &[f64],
        coeffs: &[f64],
        x: &[f64],
    ) -> Result<[f64; 4], Refusal>
        ensures { OneGradient (rectilinear binary64 (map_of self) grid.now coeffs.now) x.now (answer_number result) (answer_or zeros result) }
    {
        map_calls::interp_one_grad(WithGrid { map: self, grid }, coeffs, x)
    }

    // Values at a batch of queries, axis after axis: `out.len()` coordinates of axis 0, then those of axis 1, and so on. The
    // refusals of interp_one, 2 where the numbers of coordinates and outputs disagree. A refusal leaves `out` as it was.
    pub fn interp(
        self,
        grid: &[f64],
        coeffs: &[f64],
        x: &[f64],
        out: &mut [f64],
    ) -> Result<(), Refusal>
        ensures { ValueBatch (rectilinear binary64 (map_of self) grid.now coeffs.now) x.now out.old (answer_number result) out.new }
    {
        map_calls::interp(WithGrid { map: self, grid }, coeffs, x, out)
    }

    // Gradients at a batch of queries, both axis after axis: of n entries, part k of entry i at k n + i. As `interp`; 2 also
    // where the length of `out` is no multiple of the axis count.
    pub fn interp_grad(
        self,
        grid: &[f64],
        coeffs: &[f64],
        x: &[f64],
        out: &mut [f64],
    ) -> Result<(), Refusal>
        ensures { GradientBatch (rectilinear binary64 (map_of self) grid.now coeffs.now) x.now out.old (answer_number result) out.new }
    {
        map_calls::interp_grad(WithGrid { map: self, grid }, coeffs, x, out)
    }

    // A map from its coefficients, or the first of these refusals: 1, 2, 3 for the shape; 2, the length of the joined grid;
    // 2, the length of `coeffs`; 5, a knot not above the one before it.
    pub fn new(
        shape: Shape,
        grid: &[f64],
        coeffs: &[f64],
        linearize_extrapolation: bool,
    ) -> Result<MultiBsplineRectilinear, Refusal>
        ensures { BuiltAs binary64 (map_answer shape.count shape.dims grid.now (length coeffs.now)) shape.count shape.dims grid.now linearize_extrapolation result }
    {
        build::build(shape, grid, linearize_extrapolation, coeffs.len())
    }

    // A map from its grid, for a caller that builds it anew for each call that evaluates it: that call looks at the knots
    // and the coefficients, so that they are looked at once. 1, 2, 3 for the shape; 2, the length of the joined grid.
    pub fn of_grid(
        shape: Shape,
        grid: &[f64],
        linearize_extrapolation: bool,
    ) -> Result<MultiBsplineRectilinear, Refusal>
        ensures { BuiltAs binary64 (grid_answer shape.count shape.dims grid.now) shape.count shape.dims grid.now linearize_extrapolation result }
    {
        build::of_grid(shape, grid, linearize_extrapolation)
    }

    // The value at a query of the map that `new` builds, with the refusals of interp_one, for a caller that has no map: the ghost
    // numbers of an axis are worked out only where the query lies at an end of it.
    pub fn value_of_grid(
        shape: Shape,
        grid: &[f64],
        coeffs: &[f64],
        linear: bool,
        x: &[f64],
    ) -> Result<f64, Refusal>
        ensures { OneValue (rectilinear binary64 (made binary64 shape.count shape.dims grid.now linear) grid.now coeffs.now) x.now (answer_number result) (answer_or f0 result) }
    {
        let by_grid = ByGrid {
            shape,
            grid,
            linear,
        };
        map_calls::interp_one(by_grid, coeffs, x)
    }

    // Fits the values, then builds the map. The refusals of the fit, with `coeffs` and `scratch` untouched; a map whose fit
    // is accepted is not refused.
    pub fn from_values_with_workspace(
        shape: Shape,
        grid: &[f64],
        vals: &[f64],
        coeffs: &mut [f64],
        scratch: &mut [f64],
        linearize_extrapolation: bool,
    ) -> Result<MultiBsplineRectilinear, Refusal>
        ensures built_by_fit { BuiltByFit binary64 shape.count shape.dims grid.now linearize_extrapolation vals.now coeffs.old scratch.old result }
        ensures rectilinear_fitted { RectilinearFitted binary64 shape.count shape.dims grid.now vals.now coeffs.old scratch.old (answer_number result) coeffs.new scratch.new }
    {
        build::from_values(shape, grid, linearize_extrapolation, vals, coeffs, scratch)
    }
}
