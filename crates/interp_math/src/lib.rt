// Four-term sums, and the sum over the axes by the 4 by 4 table of partial sums. After interpn's interp_math and the vertex
// loop of multibspline. A multiply and an add are rounded one after the other.
//
// `at` is a place in the coefficients and no length beside them: the neighbours lie a stride apart behind it in the one list, and
// a slice from it on would be cut anew for each of four, with the same bound.
#![tactic(auto)]

ghost use Rattle.std.specs.Prelude.{◌≡◌};
ghost use Rattle.std.specs.Float.{binary64};
ghost use Rattle.interp_math.specs.Sum.{mul_add, dot4 as dot4_of};

mod slopes;
mod table;

pub use table::{NoAxis, OneMore, Sums, neighbours, turn};

pub fn mul_add(a: f64, b: f64, c: f64) -> f64
    ensures { result ≡ mul_add binary64 a b c }
{
    a * b + c
}

pub fn dot4(weights: [f64; 4], vals: [f64; 4]) -> f64
    ensures { result ≡ dot4_of binary64 weights vals }
{
    let lo = weights[1] * vals[1] + weights[0] * vals[0];
    let hi = weights[3] * vals[3] + weights[2] * vals[2];
    lo + hi
}
