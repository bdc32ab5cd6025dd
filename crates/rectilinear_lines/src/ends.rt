// The two end rows: the ghost coefficient of the end folded in, and the third term that this brings eliminated by the row beside.
ghost use Rattle.std.specs.Prelude.{◌≡◌};
ghost use Rattle.std.specs.Float.{binary64};
ghost use Rattle.multibspline.specs.Records.{left_of};
ghost use Rattle.rectilinear_weights.specs.Records.{ghost_numbers};
ghost use Rattle.rectilinear_lines.specs.Rows.{low_factor, low_left, high_factor, high_left};

use multibspline::Left;
use rectilinear_weights::Ghost;

// An end row: what the row beside it is multiplied by to take its third term away, and its left side after that.
#[derive(Clone, Copy)]
pub struct End {
    pub factor: f64,
    pub left: Left,
}

// Each end has its own row: the term that goes is the last of three at the low end and the first at the high end, so that one
// function for both would be handed all its numbers in the other order.

// The first row, from the weights at the first knot and at the second.
pub fn low_end(w: [f64; 4], v: [f64; 4], low_ghost: Ghost) -> End
    ensures factor { result.factor ≡ low_factor binary64 w v (ghost_numbers low_ghost) }
    ensures left { left_of result.left ≡ low_left binary64 w v (ghost_numbers low_ghost) }
{
    let e0 = w[1] + w[0] * low_ghost.p0;
    let e1 = w[2] + w[0] * low_ghost.p1;
    let e2 = w[3] + w[0] * low_ghost.p2;
    let factor = e2 / v[2];
    End {
        factor,
        left: Left {
            lower: 0.0,
            diag: e0 - factor * v[0],
            upper: e1 - factor * v[1],
        },
    }
}

// The last row, from the weights at the last knot and at the one before.
pub fn high_end(w: [f64; 4], v: [f64; 4], high_ghost: Ghost) -> End
    ensures factor { result.factor ≡ high_factor binary64 w v (ghost_numbers high_ghost) }
    ensures left { left_of result.left ≡ high_left binary64 w v (ghost_numbers high_ghost) }
{
    let e0 = w[0] + w[3] * high_ghost.p0;
    let e1 = w[1] + w[3] * high_ghost.p1;
    let e2 = w[2] + w[3] * high_ghost.p2;
    let factor = e0 / v[0];
    End {
        factor,
        left: Left {
            lower: e1 - factor * v[1],
            diag: e2 - factor * v[2],
            upper: 0.0,
        },
    }
}
