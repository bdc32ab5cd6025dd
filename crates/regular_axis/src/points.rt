// A regular axis, and what it answers a coordinate.
ghost use Rattle.std.specs.Prelude.{◌≡◌, ◌≤◌};
ghost use Rattle.std.specs.Float.{binary64};
ghost use Rattle.shape.specs.Checks.{most_points};
ghost use Rattle.regular_axis.specs.Axis.{regular_axis, SeatAt};

use evaluation::Axis;
use multibspline::Saturation;
use regular_weights::{
    cubic_bspline_weights, get_loc, interp_weight_derivatives, interp_weights, past_origin,
};

// An axis of n points.
#[derive(Clone, Copy)]
pub struct Points {
    pub n: usize,
    pub start: f64,
    pub step: f64,
    // whether the map goes on in a straight line outside its grid
    pub linear: bool,
    ghost four: { 4 ≤ n },
    ghost few: { n ≤ most_points },
}

// A place, and how far the coordinate lies past the point after its origin, in steps.
#[derive(Clone, Copy)]
pub struct Seat {
    pub sat: Saturation,
    pub t: f64,
}

// Each is compiled into the loop over the queries that asks it, so that no call is left in it.
impl Axis for Points {
    type Place = Seat;

    ghost view = { λ p. regular_axis binary64 p.n p.start p.step p.linear };

    ghost Kept = { λ p x seat. SeatAt binary64 p.n p.start p.step x seat.sat seat.t };

    fn blank() -> Seat {
        Seat {
            sat: Saturation::None,
            t: 0.0,
        }
    }

    #[inline(always)]
    fn place(self, x: f64) -> Option<(usize, Seat)> {
        match get_loc(self.n, self.start, self.step, x) {
            Some(loc) => {
                let t = past_origin(self.start, self.step, x, loc.origin);
                Some((loc.origin, Seat { sat: loc.sat, t: t }))
            }
            None => None,
        }
    }

    // The inner span, where most queries lie, is told apart first, so that a loop over the queries holds its weights and no more.
    #[inline(always)]
    fn weights(self, seat: Seat, x: f64) -> [f64; 4] {
        if let Saturation::None = seat.sat {
            return cubic_bspline_weights(seat.t);
        }
        interp_weights(seat.t, seat.sat, self.linear)
    }

    #[inline(always)]
    fn slopes(self, seat: Seat, x: f64) -> [f64; 4] {
        interp_weight_derivatives(seat.t, seat.sat, self.linear, self.step)
    }
}
