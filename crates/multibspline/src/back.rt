// Back substitution. In scratch the upper numbers stand from 0 on and the right sides from the longest axis's length on.
ghost use Rattle.std.specs.Prelude.{◌≡◌, ℕ, ◌+◌, ◌-◌, ◌<◌, length, set};
ghost use Rattle.std.specs.Float.{binary64};
ghost use Rattle.shape.specs.Cells.{put, from, on_line, write_line};
ghost use Rattle.shape.specs.Line.{LineInside};
ghost use Rattle.multibspline.specs.Thomas.{at, back_step};
ghost use Rattle.multibspline.specs.Scratch.{solved, put_down};
ghost use Rattle.multibspline.specs.Records.{LineRoom};

use crate::entries::set_entry;
use shape::Line;

// Row i, from the coefficient after it. The coefficient goes to the right sides and to the line.
fn back_row(along: Line, i: usize, after: f64, coeffs: &mut [f64], scratch: &mut [f64]) -> f64
    requires inside { (i < along.n) × LineInside along (length coeffs.old) }
    requires room { LineRoom along (length scratch.old) }
    ensures value { result ≡ back_step binary64 (at scratch.old i) (at scratch.old (along.longest + i)) after }
    ensures coeffs_after { coeffs.new ≡ set coeffs.old (on_line along.base along.stride i) result }
    ensures scratch_after { scratch.new ≡ set scratch.old (along.longest + i) result }
{
    let m = along.longest;
    let x = scratch[m + i] - scratch[i] * after;
    scratch[m + i] = x;
    set_entry(along, i, x, coeffs);
    x
}

// From the last row but one to the first. A row is three cells, in both halves of scratch and on the line, whose entries lie a
// stride apart: its number gives all three, where an iterator would have to zip them.
fn back_rows(along: Line, coeffs: &mut [f64], scratch: &mut [f64])
    requires inside { (0 < along.n) × LineInside along (length coeffs.old) }
    requires room { LineRoom along (length scratch.old) }
    ensures coeffs_after { coeffs.new ≡ put_down (on_line along.base along.stride) (solved binary64 along.n along.longest scratch.old) (along.n - 1) coeffs.old }
    ensures scratch_after { scratch.new ≡ put (from along.longest) (solved binary64 along.n along.longest scratch.old) along.n scratch.old }
{
    let last = along.n - 1;
    let mut x = scratch[along.longest + last];
    for i in (0..last).rev() {
        x = back_row(along, i, x, coeffs, scratch);
    }
}

// The right sides become the solution, which is written to the line. The last entry is written last: where the stride is 0 all
// entries are one cell, and it is the last entry that stays there.
pub fn back_substitute(along: Line, coeffs: &mut [f64], scratch: &mut [f64])
    requires inside { (0 < along.n) × LineInside along (length coeffs.old) }
    requires room { LineRoom along (length scratch.old) }
    ensures coeffs_after { coeffs.new ≡ write_line along.base along.stride (solved binary64 along.n along.longest scratch.old) along.n coeffs.old }
    ensures scratch_after { scratch.new ≡ put (from along.longest) (solved binary64 along.n along.longest scratch.old) along.n scratch.old }
{
    let end = along.n - 1;
    let last = scratch[along.longest + end];
    back_rows(along, coeffs, scratch);
    set_entry(along, end, last, coeffs);
}
