// What float buffers hold before a call.
ghost use Rattle.std.specs.Prelude.{◌≡◌, length};
ghost use Rattle.oracle_list.specs.Cells.{counted, same_cells, half, one, minus_quarter, minus_one};

use crate::arrays::array_of;
use float_text::same_bits;

// What a buffer holds before a call, so that a cell that was not written shows: cell i is `first` and i steps.
#[derive(Clone, Copy)]
pub struct Filling {
    pub first: f64,
    pub step: f64,
}

impl Filling {
    // Of coefficients and outputs: cell i holds i + 1/2.
    pub fn output() -> Filling
        ensures first { result.first ≡ half }
        ensures step { result.step ≡ one }
    {
        Filling {
            first: 0.5,
            step: 1.0,
        }
    }

    // Of scratch: cell i holds -i - 1/4.
    pub fn scratch() -> Filling
        ensures first { result.first ≡ minus_quarter }
        ensures step { result.step ≡ minus_one }
    {
        Filling {
            first: -0.25,
            step: -1.0,
        }
    }
}

// Sets each cell.
pub fn fill(filling: Filling, cells: &mut [f64])
    ensures { cells.new ≡ counted filling.first filling.step (length cells.old) }
{
    let mut x = filling.first;
    let step = filling.step;
    for cell in cells.iter_mut() {
        *cell = x;
        x += step;
    }
}

// Whether the cells are still as `fill` sets them.
pub fn is_filled(filling: Filling, cells: &[f64]) -> bool
    ensures { result ≡ same_cells cells.now (counted filling.first filling.step (length cells.now)) }
{
    let mut x = filling.first;
    let step = filling.step;
    for cell in cells {
        if !same_bits(*cell, x) {
            return false;
        }
        x += step;
    }
    true
}

// A buffer that is filled. Its contract has the length alone, so that no proof above sees the cells.
pub fn filled(filling: Filling) -> [f64; 3072]
    ensures { 3072 ≡ length result }
{
    let mut cells = array_of(0.0);
    fill(filling, &mut cells);
    cells
}
