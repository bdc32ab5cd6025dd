// The record of a regular map. It travels by value; its coefficients are lent beside it, and each call looks at it anew. The record
// of either grid has interpn's methods; what they do stands once below them (`map_calls`, `shape`) or differs with the grid.
ghost use Rattle.std.specs.Prelude.{◌≡◌, length};
ghost use Rattle.multibspline.specs.Numbers.{f0};
ghost use Rattle.evaluation.specs.Axes.{zeros};
ghost use Rattle.std.specs.Float.{binary64};
ghost use Rattle.shape.specs.Refusal.{answer_number, answer_or};
ghost use Rattle.shape.specs.Sizes.{stride_of};
ghost use Rattle.regular.specs.Fit.{RegularFitLeaves};
ghost use Rattle.evaluation.specs.Spline.{OneValue, OneGradient};
ghost use Rattle.evaluation.specs.Batch.{ValueBatch, GradientBatch};
ghost use Rattle.regular_map.specs.Map.{RegularBuilt};
ghost use Rattle.regular_map.specs.Records.{map_of};
ghost use Rattle.regular_map.specs.Place.{RegularPlaced};
ghost use Rattle.regular_blocks.specs.Checks.{map_answer, from_values_answer, regular};

use crate::{build, place};
use multibspline::Saturation;
use shape::{Refusal, Shape};

// Entries for axes not in use are not looked at; building sets them to zero.
#[derive(Clone, Copy)]
pub struct MultiBsplineRegular {
    pub count: usize,
    pub dims: [usize; 4],
    // the first point of each axis
    pub starts: [f64; 4],
    // the distance of two points on each axis
    pub steps: [f64; 4],
    // whether the map goes on in a straight line outside its grid
    pub linearize_extrapolation: bool,
}

impl MultiBsplineRegular {
    // Whether the map is accepted with these coefficients, or the first of these refusals: 1, 2, 3 for the record's shape; 2,
    // the length of the coefficients; 5, a step not above zero.
    pub fn check(self, coeffs: &[f64]) -> Result<(), Refusal>
        ensures { answer_number result ≡ map_answer self.count self.dims self.steps (length coeffs.now) }
    {
        let dims = self.dims;
        let steps = self.steps;
        build::check_map(self.count, dims, steps, coeffs.len())
    }

    // How far apart two neighbours on an axis are among the coefficients: 1 on the last axis. 0 where the shape is refused
    // and for an axis that the map has not.
    pub fn stride(self, axis: usize) -> usize
        ensures { result ≡ stride_of self.count self.dims axis }
    {
        let dims = self.dims;
        let shape = Shape {
            count: self.count,
            dims: dims,
        };
        shape.stride(axis)
    }

    // The place of a coordinate on an axis, or the first of these refusals: 1, 2, 3 for the record's shape; 5, a step not
    // above zero; 7, no such axis; 6, a cell that cannot be represented.
    pub fn place(self, axis: usize, x: f64) -> Result<(Saturation, usize), Refusal>
        ensures { RegularPlaced binary64 self.count self.dims self.starts self.steps axis x result }
    {
        place::place(self, axis, x)
    }

    // The value at a query of one coordinate an axis, or the first of these refusals: 1, 2, 3 for the record's shape; 2, the
    // length of the coefficients; 5, a step not above zero; 2, the number of coordinates; 6, a coordinate whose cell cannot
    // be represented.
    pub fn interp_one(self, coeffs: &[f64], x: &[f64]) -> Result<f64, Refusal>
        ensures { OneValue (regular binary64 (map_of self) coeffs.now) x.now (answer_number result) (answer_or f0 result) }
    {
        map_calls::interp_one(self, coeffs, x)
    }

    // The gradient at a query, with the refusals of interp_one.
    pub fn interp_one_grad(self, coeffs: &[f64], x: &[f64]) -> Result<[f64; 4], Refusal>
        ensures { OneGradient (regular binary64 (map_of self) coeffs.now) x.now (answer_number result) (answer_or zeros result) }
    {
        map_calls::interp_one_grad(self, coeffs, x)
    }

    // Values at a batch of queries, axis after axis: `out.len()` coordinates of axis 0, then those of axis 1, and so on. The
    // refusals of interp_one, 2 where the numbers of coordinates and outputs disagree. A batch that is refused with 6 at an
    // entry has written the entries before it and none from it on; any other refusal leaves `out` as it was.
    pub fn interp(self, coeffs: &[f64], x: &[f64], out: &mut [f64]) -> Result<(), Refusal>
        ensures { ValueBatch (regular binary64 (map_of self) coeffs.now) x.now out.old (answer_number result) out.new }
    {
        map_calls::interp(self, coeffs, x, out)
    }

    // Gradients at a batch of queries, both axis after axis: of n entries, part k of entry i at k n + i. As `interp`; 2 also
    // where the length of `out` is no multiple of the axis count.
    pub fn interp_grad(self, coeffs: &[f64], x: &[f64], out: &mut [f64]) -> Result<(), Refusal>
        ensures { GradientBatch (regular binary64 (map_of self) coeffs.now) x.now out.old (answer_number result) out.new }
    {
        map_calls::interp_grad(self, coeffs, x, out)
    }

    // A map from its coefficients, or the first of these refusals: 1, 2, 3 for the shape; 2, the length of `coeffs`; 5, a
    // step not above zero.
    pub fn new(
        shape: Shape,
        starts: [f64; 4],
        steps: [f64; 4],
        coeffs: &[f64],
        linearize_extrapolation: bool,
    ) -> Result<MultiBsplineRegular, Refusal>
        ensures { RegularBuilt (map_answer shape.count shape.dims steps (length coeffs.now)) shape.count shape.dims starts steps linearize_extrapolation result }
    {
        let dims = shape.dims;
        build::build(
            shape.count,
            dims,
            starts,
            steps,
            linearize_extrapolation,
            coeffs.len(),
        )
    }

    // Fits the values, then builds the map. The refusals of the fit, with `coeffs` and `scratch` untouched; then 5, a step
    // not above zero, with the coefficients and scratch written.
    pub fn from_values_with_workspace(
        shape: Shape,
        starts: [f64; 4],
        steps: [f64; 4],
        vals: &[f64],
        coeffs: &mut [f64],
        scratch: &mut [f64],
        linearize_extrapolation: bool,
    ) -> Result<MultiBsplineRegular, Refusal>
        ensures regular_built { RegularBuilt
            (from_values_answer shape.count shape.dims steps (length vals.now) (length coeffs.old) (length scratch.old))
            shape.count shape.dims starts steps linearize_extrapolation result }
        ensures regular_fit_leaves { RegularFitLeaves binary64 shape.count shape.dims vals.now coeffs.old scratch.old coeffs.new scratch.new }
    {
        let dims = shape.dims;
        build::from_values(
            shape.count,
            dims,
            starts,
            steps,
            linearize_extrapolation,
            vals,
            coeffs,
            scratch,
        )
    }
}
