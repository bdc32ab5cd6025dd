// The ghost numbers of the two ends.
ghost use Rattle.std.specs.Prelude.{◌≡◌, ◌≤◌, length};
ghost use Rattle.std.specs.Float.{binary64};
ghost use Rattle.rectilinear_weights.specs.Ghosts.{low_ghost_coeffs, high_ghost_coeffs};
ghost use Rattle.rectilinear_weights.specs.Records.{ghost_numbers};

use rectilinear_slopes::span_weight_third_derivatives;

// The factors of the three stored coefficients beside a ghost coefficient, in their order on the line.
#[derive(Clone, Copy)]
pub struct Ghost {
    pub p0: f64,
    pub p1: f64,
    pub p2: f64,
}

// Each end has its own: which of the four derivatives divides, and which three it divides, would both have to be handed to one
// function for the two.
pub fn low_ghost_coeffs(grid: &[f64]) -> Ghost
    requires { 4 ≤ length grid.now }
    ensures { ghost_numbers result ≡ low_ghost_coeffs binary64 grid.now }
{
    let q = span_weight_third_derivatives(grid, 0);
    Ghost {
        p0: -q[1] / q[0],
        p1: -q[2] / q[0],
        p2: -q[3] / q[0],
    }
}

pub fn high_ghost_coeffs(grid: &[f64]) -> Ghost
    requires { 4 ≤ length grid.now }
    ensures { ghost_numbers result ≡ high_ghost_coeffs binary64 grid.now }
{
    let q = span_weight_third_derivatives(grid, grid.len() - 2);
    Ghost {
        p0: -q[0] / q[3],
        p1: -q[1] / q[3],
        p2: -q[2] / q[3],
    }
}
