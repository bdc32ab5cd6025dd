// The slopes of the four weights on a span, and their third derivatives.
ghost use Rattle.std.specs.Prelude.{◌≡◌, [], ◌∷◌, ◌+◌, ◌<◌, ◌≤◌, length};
ghost use Rattle.std.specs.Float.{binary64};
ghost use Rattle.rectilinear_basis.specs.Basis.{four};
ghost use Rattle.rectilinear_slopes.specs.Slopes.{span_samples, sampled as sampled_of, term as term_of, basis_derivative, basis_span_weight_derivatives, third_divided_difference, span_weight_third_derivatives};
ghost use Rattle.rectilinear_slopes.specs.Columns.{columns, derivative_by};

use rectilinear_basis::{span_knots, weights_between};

fn span_samples(grid: &[f64], span: usize) -> [f64; 4]
    requires { span + 1 < length grid.now }
    ensures { result ≡ span_samples binary64 grid.now span }
{
    let a = grid[span];
    let h = grid[span + 1] - a;
    [a, a + h / 3.0, a + (h + h) / 3.0, a + h]
}

// The values of each weight at the span's samples. The four samples go through the same operations side by side, which the
// compiler turns into vector instructions because they end side by side here.
fn sampled(grid: &[f64], span: usize, xs: [f64; 4]) -> [[f64; 4]; 4]
    requires { (4 ≤ length grid.now) × (span + 1 < length grid.now) × (xs ≡ span_samples binary64 grid.now span) }
    ensures { result ≡ columns (sampled_of binary64 grid.now span) }
{
    let u = span_knots(grid, span);
    let a = weights_between(u, xs[0]);
    let b = weights_between(u, xs[1]);
    let c = weights_between(u, xs[2]);
    let d = weights_between(u, xs[3]);
    [
        [a[0], b[0], c[0], d[0]],
        [a[1], b[1], c[1], d[1]],
        [a[2], b[2], c[2], d[2]],
        [a[3], b[3], c[3], d[3]],
    ]
}

// The term of xm.
fn term(xj: f64, xm: f64, xk: f64, xl: f64, at: f64) -> f64
    ensures { result ≡ term_of binary64 (xj ∷ xm ∷ xk ∷ xl ∷ []) at 0 1 4 }
{
    1.0 / (xj - xm) * (at - xk) / (xj - xk) * (at - xl) / (xj - xl)
}

// The derivative of the polynomial that is 1 at xj and 0 at the other three.
fn basis_derivative(xj: f64, xk: f64, xl: f64, xm: f64, at: f64) -> f64
    ensures { result ≡ basis_derivative binary64 (xj ∷ xk ∷ xl ∷ xm ∷ []) at 0 4 }
{
    0.0 + term(xj, xk, xl, xm, at) + term(xj, xl, xk, xm, at) + term(xj, xm, xk, xl, at)
}

// The derivatives, at `at`, of the four polynomials that are 1 at one of the places and 0 at the others. They do not depend on
// the values, so that one set of them serves all four weights, and no bit can change by that.
fn basis_derivatives(xs: [f64; 4], at: f64) -> [f64; 4]
    ensures { result ≡ four (λ j. basis_derivative binary64 xs at j 4) }
{
    let d0 = basis_derivative(xs[0], xs[1], xs[2], xs[3], at);
    let d1 = basis_derivative(xs[1], xs[0], xs[2], xs[3], at);
    let d2 = basis_derivative(xs[2], xs[0], xs[1], xs[3], at);
    let d3 = basis_derivative(xs[3], xs[0], xs[1], xs[2], at);
    [d0, d1, d2, d3]
}

// The derivative of the cubic with the values ys.
fn lagrange_derivative(ds: [f64; 4], ys: [f64; 4]) -> f64
    ensures { result ≡ derivative_by binary64 ds ys 4 }
{
    0.0 + ys[0] * ds[0] + ys[1] * ds[1] + ys[2] * ds[2] + ys[3] * ds[3]
}

pub fn basis_span_weight_derivatives(grid: &[f64], span: usize, x: f64) -> [f64; 4]
    requires { (4 ≤ length grid.now) × (span + 1 < length grid.now) }
    ensures { result ≡ basis_span_weight_derivatives binary64 grid.now span x }
{
    let xs = span_samples(grid, span);
    let values = sampled(grid, span, xs);
    let ds = basis_derivatives(xs, x);
    [
        lagrange_derivative(ds, values[0]),
        lagrange_derivative(ds, values[1]),
        lagrange_derivative(ds, values[2]),
        lagrange_derivative(ds, values[3]),
    ]
}

fn third_divided_difference(xs: [f64; 4], ys: [f64; 4]) -> f64
    ensures { result ≡ third_divided_difference binary64 xs ys }
{
    let d01 = (ys[1] - ys[0]) / (xs[1] - xs[0]);
    let d12 = (ys[2] - ys[1]) / (xs[2] - xs[1]);
    let d23 = (ys[3] - ys[2]) / (xs[3] - xs[2]);
    let d012 = (d12 - d01) / (xs[2] - xs[0]);
    let d123 = (d23 - d12) / (xs[3] - xs[1]);
    (d123 - d012) / (xs[3] - xs[0])
}

pub fn span_weight_third_derivatives(grid: &[f64], span: usize) -> [f64; 4]
    requires { (4 ≤ length grid.now) × (span + 1 < length grid.now) }
    ensures { result ≡ span_weight_third_derivatives binary64 grid.now span }
{
    let xs = span_samples(grid, span);
    let values = sampled(grid, span, xs);
    [
        6.0 * third_divided_difference(xs, values[0]),
        6.0 * third_divided_difference(xs, values[1]),
        6.0 * third_divided_difference(xs, values[2]),
        6.0 * third_divided_difference(xs, values[3]),
    ]
}
