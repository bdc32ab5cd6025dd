// The strides of the four axes of an accepted map, zeros for those not in use.
ghost use Rattle.std.specs.Prelude.{◌≡◌, take};
ghost use Rattle.shape.specs.Shape.{size};
ghost use Rattle.evaluation.specs.Axes.{strides};

use shape::Axes;

// The stride of an axis is the product of the lengths of the axes after it. Each number of axes has its own line: a single query
// works out the strides of its map, and a loop over the axes would take as long as one of its places.
pub fn strides_of(axes: Axes) -> [usize; 4]
    ensures { result ≡ strides axes.count axes.dims }
{
    let Axes { count, dims } = axes;
    if count == 1 {
        return [1, 0, 0, 0];
    }
    if count == 2 {
        return [dims[1], 1, 0, 0];
    }
    if count == 3 {
        return [dims[1] * dims[2], dims[2], 1, 0];
    }
    let last = dims[2] * dims[3];
    [dims[1] * last, last, dims[3], 1]
}

// How many points the map has: those of the first axis, each with a stride's worth of the others. A call that works out the strides
// has no need to go through the axes again.
pub fn points_by_stride(axes: Axes) -> usize
    ensures { result ≡ size (take axes.count axes.dims) }
{
    let dims = axes.dims;
    let strides = strides_of(axes);
    dims[0] * strides[0]
}
