// What C hands over: lengths of axes in a slice that is as long as there are axes, starts and steps in one slice.
ghost use Rattle.std.specs.Prelude.{◌≡◌, ◌<◌, ◌^◌, length, get_or};
ghost use Rattle.multibspline.specs.Numbers.{f0};
ghost use Rattle.capi_parts.specs.Inputs.{lens_of, shape_of, four_from};

use shape::Shape;

// Entry i of what C hands over, or `none` past its end.
fn entry_or<T: Copy>(entries: &[T], i: usize, none: T) -> T
    ensures { result ≡ get_or entries.now i none }
{
    if i < entries.len() {
        return entries[i];
    }
    none
}

// The lengths as the library takes them. More than four are refused, and so are not read.
fn lens_of(dims: &[usize]) -> [usize; 4]
    ensures { result ≡ lens_of dims.now }
{
    if 4 < dims.len() {
        return [0, 0, 0, 0];
    }
    [
        entry_or(dims, 0, 0),
        entry_or(dims, 1, 0),
        entry_or(dims, 2, 0),
        entry_or(dims, 3, 0),
    ]
}

pub fn shape_of(dims: &[usize]) -> Shape
    ensures { result ≡ shape_of dims.now }
{
    let lens = lens_of(dims);
    Shape {
        count: dims.len(),
        dims: lens,
    }
}

// Four numbers of the grid, which C hands over as one list, from a place in it on. Those of axes not in use are not looked at.
pub fn four_from(grid: &[f64], from: usize) -> [f64; 4]
    requires { from < 2 ^ 63 }
    ensures { result ≡ four_from from grid.now }
{
    [
        entry_or(grid, from, 0.0),
        entry_or(grid, from + 1, 0.0),
        entry_or(grid, from + 2, 0.0),
        entry_or(grid, from + 3, 0.0),
    ]
}
