// Where a query lies on an axis, and what is taken there.
ghost use Rattle.std.specs.Prelude.{◌≡◌, Bool, List, Float};
ghost use Rattle.multibspline.specs.Place.{by_place};

#[derive(Clone, Copy)]
pub enum Saturation {
    // between the second point and the last but one
    None,
    // in the first span
    InsideLow,
    // before the first point
    OutsideLow,
    // in the last span
    InsideHigh,
    // at or past the last point on a regular axis, past it on a rectilinear one
    OutsideHigh,
}

// What may be taken, weights or slopes: those of an inner span, and those of an end, gone on from it in a straight line or not.
pub trait AtPlace {
    ghost inner: { Self → List Float };

    ghost low: { Self → Bool → List Float };

    ghost high: { Self → Bool → List Float };

    fn inner(self) -> [f64; 4]
        ensures { result ≡ inner self };

    fn low(self, straight: bool) -> [f64; 4]
        ensures { result ≡ low self straight };

    fn high(self, straight: bool) -> [f64; 4]
        ensures { result ≡ high self straight };
}

// What is taken at a place, by the axis's flag. A place inside is never extended in a straight line.
pub fn by_place<A: AtPlace>(asked: A, sat: Saturation, linear: bool) -> [f64; 4]
    ensures { result ≡ by_place linear (A.inner asked) (A.low asked) (A.high asked) sat }
{
    match sat {
        Saturation::None => asked.inner(),
        Saturation::InsideLow => asked.low(false),
        Saturation::OutsideLow => asked.low(linear),
        Saturation::InsideHigh => asked.high(false),
        Saturation::OutsideHigh => asked.high(linear),
    }
}
