// A line of a map by its numbers.
ghost use Rattle.std.specs.Prelude.{◌≡◌, ◌*◌, ◌≤◌, ◌<◌};
ghost use Rattle.shape.specs.Shape.{first_cell};
ghost use Rattle.shape.specs.Checks.{most_points};

// Its n cells stand from `base` on, `stride` apart; `longest` is the length of the longest axis.
#[derive(Clone, Copy)]
pub struct Line {
    pub n: usize,
    pub stride: usize,
    pub base: usize,
    pub longest: usize,
}

// The first cell of line l of an axis of n points that are s apart. An inner function of the library.
pub fn first_cell_of(n: usize, s: usize, l: usize) -> usize
    requires { (0 < s) × (n * s ≤ most_points) × (first_cell n s l < most_points) }
    ensures { result ≡ first_cell n s l }
{
    l / s * (n * s) + l % s
}
