// The shape of a map of one to four axes, and why the library's calls refuse. No floats here.
#![tactic(auto)]

mod answers;
mod axes;
mod line;
mod spans;

ghost use Rattle.std.specs.Prelude.{◌≡◌, take};
ghost use Rattle.shape.specs.Shape.{longest};
ghost use Rattle.shape.specs.Axes.{AxesFound};
ghost use Rattle.shape.specs.Checks.{shape_checks, first_refusal};
ghost use Rattle.shape.specs.Refusal.{answer_number};
ghost use Rattle.shape.specs.Sizes.{coeff_storage_len, construction_scratch_len, stride_of, lines_of, FirstCellFound};

pub use answers::{Refusal, answer_number};
pub use axes::Axes;
pub use line::{Line, first_cell_of};
use spans::{any_short, longest_of, points_to_limit};

// Axis count and lengths, axis 0 first; lengths past the axis count are not looked at. The last axis is the fastest.
#[derive(Clone, Copy)]
pub struct Shape {
    pub count: usize,
    pub dims: [usize; 4],
}

// Each method looks at the shape anew. A method that has no answer for a shape or an axis says 0, or the refusal.
impl Shape {
    // The axes of the shape, or the first of these refusals: 1, the axis count is not 1 to 4; 2, an axis has fewer than 4 points;
    // 3, the map has more than 16,777,216 points.
    pub fn axes(self) -> Result<Axes, Refusal>
        ensures { AxesFound self.count self.dims result }
    {
        let Shape { count, dims } = self;
        if count == 0 || 4 < count {
            return Err(Refusal::AxisCount);
        }
        if any_short(&dims[..count]) {
            return Err(Refusal::DimensionMismatch);
        }
        if 16777216 < points_to_limit(&dims[..count]) {
            return Err(Refusal::TooManyPoints);
        }
        Ok(Axes { count, dims })
    }

    // Whether the shape is accepted, or why not.
    pub fn check(self) -> Result<(), Refusal>
        ensures { answer_number result ≡ first_refusal (shape_checks self.count self.dims) }
    {
        self.axes()?;
        Ok(())
    }

    // The length of the longest axis.
    pub fn longest(self) -> usize
        ensures { result ≡ longest (take self.count self.dims) }
    {
        let Shape { count, dims } = self;
        longest_of(&dims[..count.min(4)])
    }

    // How many coefficients the map has, as many as it has points.
    pub fn coeff_storage_len(self) -> usize
        ensures { result ≡ coeff_storage_len self.count self.dims }
    {
        match self.axes() {
            Ok(axes) => axes.points(),
            Err(_) => 0,
        }
    }

    // How much scratch a fit needs, twice the longest axis.
    pub fn construction_scratch_len(self) -> usize
        ensures { result ≡ construction_scratch_len self.count self.dims }
    {
        match self.axes() {
            Ok(axes) => axes.scratch_len(),
            Err(_) => 0,
        }
    }

    // How far apart two neighbours on an axis are: 1 on the last axis.
    pub fn stride(self, axis: usize) -> usize
        ensures { result ≡ stride_of self.count self.dims axis }
    {
        match self.axes() {
            Ok(axes) if axis < axes.count => axes.stride(axis),
            _ => 0,
        }
    }

    // How many lines an axis has.
    pub fn lines(self, axis: usize) -> usize
        ensures { result ≡ lines_of self.count self.dims axis }
    {
        match self.axes() {
            Ok(axes) if axis < axes.count => axes.lines(axis),
            _ => 0,
        }
    }

    // The first cell of a line, or the refusal: 1 to 3 for the shape, 7 where there is no such axis or line. After the
    // Rust's line_base_index.
    pub fn first_cell(self, axis: usize, line: usize) -> Result<usize, Refusal>
        ensures { FirstCellFound self.count self.dims axis line result }
    {
        match self.axes()?.line(axis, line) {
            Some(found) => Ok(found.base),
            None => Err(Refusal::NoSuchLine),
        }
    }
}
