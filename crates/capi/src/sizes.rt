// The shape of a map, and the sizes of its buffers.
ghost use Rattle.std.specs.Prelude.{◌≡◌, length, take};
ghost use Rattle.shape.specs.Shape.{first};
ghost use Rattle.shape.specs.Checks.{first_refusal, shape_checks};
ghost use Rattle.shape.specs.Sizes.{coeff_storage_len, construction_scratch_len, stride_of, lines_of, first_cell_answer};
ghost use Rattle.capi_parts.specs.Inputs.{lens_of};
ghost use Rattle.capi_parts.specs.Outputs.{Wrote};

use capi_parts::{number, put, shape_of};

#[unsafe(no_mangle)]
pub extern "C" fn corvezan_check_shape(dims: &[usize]) -> u32
    ensures { result ≡ first_refusal (shape_checks (length dims.now) (lens_of dims.now)) }
{
    let shape = shape_of(dims);
    number(shape.check())
}

#[unsafe(no_mangle)]
pub extern "C" fn corvezan_points(dims: &[usize]) -> usize
    ensures { result ≡ coeff_storage_len (length dims.now) (lens_of dims.now) }
{
    let shape = shape_of(dims);
    shape.coeff_storage_len()
}

#[unsafe(no_mangle)]
pub extern "C" fn corvezan_scratch_len(dims: &[usize]) -> usize
    ensures { result ≡ construction_scratch_len (length dims.now) (lens_of dims.now) }
{
    let shape = shape_of(dims);
    shape.construction_scratch_len()
}

#[unsafe(no_mangle)]
pub extern "C" fn corvezan_stride(dims: &[usize], axis: usize) -> usize
    ensures { result ≡ stride_of (length dims.now) (lens_of dims.now) axis }
{
    let shape = shape_of(dims);
    shape.stride(axis)
}

#[unsafe(no_mangle)]
pub extern "C" fn corvezan_lines(dims: &[usize], axis: usize) -> usize
    ensures { result ≡ lines_of (length dims.now) (lens_of dims.now) axis }
{
    let shape = shape_of(dims);
    shape.lines(axis)
}

#[unsafe(no_mangle)]
pub extern "C" fn corvezan_first_cell(
    dims: &[usize],
    axis: usize,
    line: usize,
    cell: &mut usize,
) -> u32
    ensures { Wrote (first_cell_answer (length dims.now) (lens_of dims.now) axis line) (first (take (length dims.now) (lens_of dims.now)) axis line) cell.old result cell.new }
{
    let shape = shape_of(dims);
    number(put(shape.first_cell(axis, line), cell))
}
