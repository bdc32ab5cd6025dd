// A solved line is kept in scratch, as a line solved alone would have left it.
ghost use Rattle.std.specs.Prelude.{◌≡◌, ℕ, ◌+◌, ◌-◌, ◌≤◌, ◌<◌, length, set};
ghost use Rattle.shape.specs.Cells.{put, from};
ghost use Rattle.shape.specs.Line.{LineInside};
ghost use Rattle.multibspline.specs.Records.{samples};

use multibspline::entry;
use shape::Line;

// Entry i of a line is put among the right sides.
fn keep_entry(along: Line, i: usize, coeffs: &[f64], scratch: &mut [f64])
    requires inside { (i < along.n) × LineInside along (length coeffs.now) }
    requires room { along.longest + along.n ≤ length scratch.old }
    ensures { scratch.new ≡ set scratch.old (along.longest + i) (samples along coeffs.now i) }
{
    scratch[along.longest + i] = entry(along, i, coeffs);
}

// All of them.
pub fn keep_line(along: Line, coeffs: &[f64], scratch: &mut [f64])
    requires inside { LineInside along (length coeffs.now) }
    requires room { along.longest + along.n ≤ length scratch.old }
    ensures { scratch.new ≡ put (from along.longest) (samples along coeffs.now) along.n scratch.old }
{
    // The number says a cell at a stride, and one of scratch.
    for i in 0..along.n {
        keep_entry(along, i, coeffs, scratch);
    }
}
