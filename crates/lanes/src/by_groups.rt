// All the lines of an axis, group by group. On an axis that is not the last a group is a slab: as many lines as the stride, which
// are adjacent. On the last axis it is a bundle: some lines, end to end, so that the cells of a row are a line apart.
ghost use Rattle.std.specs.Prelude.{◌≡◌, ◌+◌, ◌*◌, ◌≤◌, ◌<◌, length};
ghost use Rattle.std.specs.Float.{binary64, nan};
ghost use Rattle.shape.specs.Fit.{solve_lines};
ghost use Rattle.lines.specs.Rows.{coefficient, upper_number};
ghost use Rattle.lanes.specs.Lanes.{Uppers, solve_from};

use crate::group::{Adjacent, Apart, Group};
use crate::solve::solve_group;
use lines::System;

// Slab k.
fn solve_slab<S: System>(
    system: S,
    s: usize,
    slabs: usize,
    k: usize,
    upper: &[f64],
    coeffs: &mut [f64],
)
    requires inside { (0 < s) × (k < slabs) × (slabs * ((S.rows system).points * s) ≤ length coeffs.old) }
    requires uppers { Uppers (upper_number binary64 (S.rows system)) (S.rows system).points upper.now }
    ensures { coeffs.new ≡ solve_from nan (coefficient binary64 (S.rows system)) (S.rows system).points s (k * s) s coeffs.old }
{
    let slab = Group {
        n: system.points(),
        stride: s,
        first: k * s,
        count: s,
        gap: Adjacent,
    };
    solve_group(system, slab, upper, coeffs);
}

// All the slabs.
pub fn solve_slabs<S: System>(system: S, s: usize, slabs: usize, upper: &[f64], coeffs: &mut [f64])
    requires inside { (0 < s) × (slabs * ((S.rows system).points * s) ≤ length coeffs.old) }
    requires uppers { Uppers (upper_number binary64 (S.rows system)) (S.rows system).points upper.now }
    ensures { coeffs.new ≡ solve_lines nan (coefficient binary64 (S.rows system)) (S.rows system).points s (slabs * s) coeffs.old }
{
    // counted: a slab is known by its number
    for k in 0..slabs {
        solve_slab(system, s, slabs, k, upper, coeffs);
    }
}

// How many of the lines from `first` on are solved together on the last axis: eight, or those that are left. With more of them
// the cells of a row, a line apart, can fall on the same few lines of the cache.
fn bundle_size(first: usize, lines: usize) -> usize
    requires { first < lines }
    ensures { (0 < result) × (first + result ≤ lines) }
{
    (lines - first).min(8)
}

// The next bundle from line `first` on. Answers how many lines it has.
fn solve_bundle<S: System>(
    system: S,
    lines: usize,
    first: usize,
    upper: &[f64],
    coeffs: &mut [f64],
) -> usize
    requires inside { (first < lines) × (lines * (S.rows system).points ≤ length coeffs.old) }
    requires uppers { Uppers (upper_number binary64 (S.rows system)) (S.rows system).points upper.now }
    ensures some { (0 < result) × (first + result ≤ lines) }
    ensures coeffs_after { coeffs.new ≡ solve_from nan (coefficient binary64 (S.rows system)) (S.rows system).points 1 first result coeffs.old }
{
    let n = system.points();
    let count = bundle_size(first, lines);
    let bundle = Group {
        n,
        stride: 1,
        first,
        count,
        gap: Apart { by: n },
    };
    solve_group(system, bundle, upper, coeffs);
    count
}

// All the lines of the last axis.
pub fn solve_ends<S: System>(system: S, lines: usize, upper: &[f64], coeffs: &mut [f64])
    requires inside { lines * (S.rows system).points ≤ length coeffs.old }
    requires uppers { Uppers (upper_number binary64 (S.rows system)) (S.rows system).points upper.now }
    ensures { coeffs.new ≡ solve_lines nan (coefficient binary64 (S.rows system)) (S.rows system).points 1 lines coeffs.old }
{
    // By hand, since a bundle says how many lines it took: `step_by` would need the eight here a second time.
    let mut first = 0;
    while first < lines {
        first += solve_bundle(system, lines, first, upper, coeffs);
    }
}
