// A rectilinear axis, and what it answers a coordinate.
ghost use denote.Builtin.{usize};
ghost use Rattle.std.specs.Mem.{type_size};
ghost use Rattle.std.specs.Prelude.{◌≡◌, ◌*◌, ◌<◌, ◌^◌, true, false, ◌≤◌, length};
ghost use Rattle.std.specs.Float.{binary64};
ghost use Rattle.knots.specs.Knots.{rises, count_below};
ghost use Rattle.rectilinear_weights.specs.Records.{ghost_numbers};
ghost use Rattle.rectilinear_axis.specs.Axis.{rectilinear_axis};

use evaluation::Axis;
use knots::{count_below, loc_of};
use rectilinear_basis::inner_weights;
use rectilinear_slopes::basis_span_weight_derivatives;
use rectilinear_weights::{Ghost, interp_weight_derivatives, interp_weights};

// The knots of an axis, and what the weights at its two ends depend on besides. It travels by value.
#[derive(Clone, Copy)]
pub struct Knots<'a> {
    pub knots: &'a [f64],
    pub low: Ghost,
    pub high: Ghost,
    // whether the map goes on in a straight line outside its grid
    pub linear: bool,
    ghost four: { 4 ≤ length knots.now },
    ghost rising: { rises knots.now ≡ true },
}

// A place is kept by the count of the knots below it: span, origin and saturation follow from that.
impl<'a> Axis for Knots<'a> {
    type Place = usize;

    ghost view = { λ k. rectilinear_axis binary64 k.knots.now (ghost_numbers k.low) (ghost_numbers k.high) k.linear };

    ghost Kept = { λ k x c. c ≡ count_below k.knots.now x };

    fn blank() -> usize
        ensures { 32 * type_size usize < 2 ^ 63 }
    {
        0
    }

    fn place(self, x: f64) -> Option<(usize, usize)> {
        let c = count_below(self.knots, x);
        Some((loc_of(self.knots.len(), c).origin, c))
    }

    // Where the six knots beside the span are knots of the grid, as on most spans, there is no test on the way and no call out of a
    // loop over the queries.
    fn weights(self, c: usize, x: f64) -> [f64; 4] {
        let loc = loc_of(self.knots.len(), c);
        let span = loc.span;
        if 2 <= span && span + 3 < self.knots.len() {
            return inner_weights(self.knots, span, x);
        }
        interp_weights(
            self.knots,
            span,
            x,
            loc.sat,
            self.linear,
            self.low,
            self.high,
        )
    }

    // On most spans they are those of the span, and the place need not be looked at.
    fn slopes(self, c: usize, x: f64) -> [f64; 4] {
        let loc = loc_of(self.knots.len(), c);
        if 2 <= loc.span && loc.span + 3 < self.knots.len() {
            return basis_span_weight_derivatives(self.knots, loc.span, x);
        }
        interp_weight_derivatives(
            self.knots,
            loc.span,
            x,
            loc.sat,
            self.linear,
            self.low,
            self.high,
        )
    }
}
