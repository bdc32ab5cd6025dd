// The ghost numbers of the two ends of each axis of a map that is built.
ghost use Rattle.std.specs.Prelude.{◌≡◌, cond, List, Float, [], ◌∷◌, ◌<◌, ◌≤◌, ltb, length, take};
ghost use Rattle.std.specs.Float.{binary64};
ghost use Rattle.evaluation.specs.Axes.{per_axis};
ghost use Rattle.knots.specs.Joined.{knots_of};
ghost use Rattle.rectilinear_weights.specs.Ghosts.{low_ghost_coeffs, high_ghost_coeffs};
ghost use Rattle.rectilinear_weights.specs.Records.{ghost_numbers};
ghost use Rattle.rectilinear_blocks.specs.Ghosts.{ghosts};
ghost use Rattle.rectilinear_map.specs.Map.{no_ghost};

use knots::Joined;
use rectilinear_weights::{Ghost, high_ghost_coeffs, low_ghost_coeffs};

// An end of an axis.
pub trait End {
    // The ghost numbers that the knots of the axis give.
    ghost numbers: { List Float → List Float };

    fn ghost_of(knots: &[f64]) -> Ghost
        requires { 4 ≤ length knots.now }
        ensures { ghost_numbers result ≡ numbers knots.now };
}

pub struct Low;

impl End for Low {
    ghost numbers = { low_ghost_coeffs binary64 };

    fn ghost_of(knots: &[f64]) -> Ghost {
        low_ghost_coeffs(knots)
    }
}

pub struct High;

impl End for High {
    ghost numbers = { high_ghost_coeffs binary64 };

    fn ghost_of(knots: &[f64]) -> Ghost {
        high_ghost_coeffs(knots)
    }
}

fn no_ghost() -> Ghost
    ensures { ghost_numbers result ≡ no_ghost }
{
    Ghost {
        p0: 0.0,
        p1: 0.0,
        p2: 0.0,
    }
}

pub fn no_ghosts() -> [Ghost; 4]
    ensures { ghosts result ≡ no_ghost ∷ no_ghost ∷ no_ghost ∷ no_ghost ∷ [] }
{
    [no_ghost(), no_ghost(), no_ghost(), no_ghost()]
}

// Those of axis a, or zeros where it is not in use.
fn ghost_on<E: End>(joined: Joined<'_>, a: usize) -> Ghost
    requires { a < 4 }
    ensures { ghost_numbers result ≡ cond (ltb a joined.entry.axes.count) (E.numbers (knots_of joined.entry.knots.now (take joined.entry.axes.count joined.entry.axes.dims) a)) no_ghost }
{
    if joined.axes.count <= a {
        return no_ghost();
    }
    E::ghost_of(joined.along(a))
}

// Those of each axis.
pub fn ghosts_of<E: End>(joined: Joined<'_>) -> [Ghost; 4]
    ensures { ghosts result ≡ per_axis no_ghost joined.entry.axes.count (λ a. E.numbers (knots_of joined.entry.knots.now (take joined.entry.axes.count joined.entry.axes.dims) a)) }
{
    [
        ghost_on::<E>(joined, 0),
        ghost_on::<E>(joined, 1),
        ghost_on::<E>(joined, 2),
        ghost_on::<E>(joined, 3),
    ]
}
