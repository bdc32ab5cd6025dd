// The axes of a map whose shape is accepted: what a fit works out of them, with no need to look at the shape again.
ghost use Rattle.std.specs.Prelude.{◌≡◌, ◌*◌, ◌<◌, take};
ghost use Rattle.shape.specs.Shape.{longest, size, stride, lines};
ghost use Rattle.shape.specs.Usable.{Usable};
ghost use Rattle.shape.specs.Line.{LineLooked};

use crate::line::{Line, first_cell_of};
use crate::spans::{longest_of, span};

// One to four axes of at least four points, at most 16,777,216 points in all; `Shape::axes` makes it. Lengths past the axis count
// are not looked at.
#[derive(Clone, Copy)]
pub struct Axes {
    pub count: usize,
    pub dims: [usize; 4],
    ghost usable: { Usable count dims },
}

impl Axes {
    // How many points the map has.
    pub fn points(self) -> usize
        ensures { result ≡ size (take self.count self.dims) }
    {
        span(&self.dims[..self.count])
    }

    // The length of the longest axis.
    pub fn longest(self) -> usize
        ensures { result ≡ longest (take self.count self.dims) }
    {
        longest_of(&self.dims[..self.count])
    }

    // How much scratch a fit needs, twice the longest axis.
    pub fn scratch_len(self) -> usize
        ensures { result ≡ 2 * longest (take self.count self.dims) }
    {
        2 * self.longest()
    }

    // How far apart two neighbours on an axis are.
    pub fn stride(self, axis: usize) -> usize
        requires { axis < self.count }
        ensures { result ≡ stride (take self.count self.dims) axis }
    {
        span(&self.dims[axis + 1..self.count])
    }

    // How many lines an axis has.
    pub fn lines(self, axis: usize) -> usize
        requires { axis < self.count }
        ensures { result ≡ lines (take self.count self.dims) axis }
    {
        span(&self.dims[..axis]) * self.stride(axis)
    }

    // The numbers of a line, unless there is no such axis or line. Compiled into its callers: the first cell alone needs no longest
    // axis.
    #[inline(always)]
    pub fn line(self, axis: usize, line: usize) -> Option<Line>
        ensures { LineLooked (take self.count self.dims) axis line result }
    {
        if self.count <= axis {
            return None;
        }
        if self.lines(axis) <= line {
            return None;
        }
        let n = self.dims[axis];
        let stride = self.stride(axis);
        let base = first_cell_of(n, stride, line);
        let longest = self.longest();
        Some(Line {
            n,
            stride,
            base,
            longest,
        })
    }
}
