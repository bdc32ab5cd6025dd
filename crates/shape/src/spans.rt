// Tests and products of the lengths of axes, axis 0 first.
ghost use Rattle.std.specs.Prelude.{◌≡◌, false, ◌≤◌, length, min};
ghost use Rattle.shape.specs.Shape.{product, longest, size, NotEmpty};
ghost use Rattle.shape.specs.Checks.{any_short, most_points};

// Whether one of the lengths is below four.
pub fn any_short(dims: &[usize]) -> bool
    ensures { result ≡ any_short dims.now }
{
    for n in dims {
        if *n < 4 {
            return true;
        }
    }
    false
}

// The product of the lengths, or 16,777,217 where it is above 16,777,216. A factor above that is not multiplied, so that nothing
// overflows.
pub fn points_to_limit(dims: &[usize]) -> usize
    requires { any_short dims.now ≡ false }
    ensures { result ≡ min (size dims.now) 16777217 }
{
    let mut total: usize = 1;
    for n in dims {
        if 16777216 < *n {
            return 16777217;
        }
        total *= *n;
        if 16777216 < total {
            return 16777217;
        }
    }
    total
}

// These lengths, which are at most four: said to the compiler too, which then writes four turns out and makes no loop for many.
fn at_most_four(dims: &[usize]) -> &[usize]
    requires { length dims.now ≤ 4 }
    ensures { result.now ≡ dims.now }
{
    &dims[..dims.len().min(4)]
}

// The product of the lengths of some axes of an accepted map.
pub fn span(dims: &[usize]) -> usize
    requires positive { NotEmpty dims.now }
    requires few { product dims.now ≤ most_points }
    requires short { length dims.now ≤ 4 }
    ensures { result ≡ product dims.now }
{
    let mut total: usize = 1;
    for n in at_most_four(dims) {
        total *= *n;
    }
    total
}

// The longest of the axes.
pub fn longest_of(dims: &[usize]) -> usize
    requires { length dims.now ≤ 4 }
    ensures { result ≡ longest dims.now }
{
    let mut most: usize = 0;
    for n in at_most_four(dims) {
        most = most.max(*n);
    }
    most
}
