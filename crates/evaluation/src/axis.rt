// One axis of a map, on either grid.
ghost use Rattle.std.specs.Mem.{type_size};
ghost use Rattle.std.specs.Prelude.{◌≡◌, ◌*◌, ◌<◌, ◌^◌, ℕ, true, Bool, Float, List, MatchOption};
ghost use Rattle.evaluation.specs.Axis.{OneAxis, FoundAt};

// What an axis can be asked. A place is kept between the stages of a block, so that slopes and weights need not find it again.
pub trait Axis: Copy {
    type Place: Copy;

    ghost view: { Self → OneAxis };

    // what is kept of the place of a coordinate
    ghost Kept: { Self → Float → Self.Place → Type 0 };

    // As a buffer of places is filled before its first block. A block's places lie in memory.
    fn blank() -> Self::Place
        ensures { 32 * type_size Self.Place.row < 2 ^ 63 };

    // The first of the four coefficients that count at x, and the place; None where x has no place.
    fn place(self, x: f64) -> Option<(usize, Self::Place)>
        ensures { MatchOption result ((view self).no_place x ≡ true) (λ found. FoundAt (view self) x found.0 × Kept self x found.1) };

    // The weights of these coefficients.
    fn weights(self, place: Self::Place, x: f64) -> [f64; 4]
        requires { Kept self x place }
        ensures { result ≡ (view self).weights x };

    // The slopes of the weights.
    fn slopes(self, place: Self::Place, x: f64) -> [f64; 4]
        requires { Kept self x place }
        ensures { result ≡ (view self).slopes x };
}
