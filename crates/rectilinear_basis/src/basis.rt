// The four weights on a span.
ghost use Rattle.std.specs.Prelude.{◌≡◌, [], ◌∷◌, ◌+◌, ◌<◌, ◌≤◌, length};
ghost use Rattle.std.proofs.Math.IntN.{sub_ℕ};
ghost use Rattle.std.specs.Float.{binary64};
ghost use Rattle.multibspline.specs.Numbers.{f0};
ghost use Rattle.multibspline.specs.Thomas.{at};
ghost use Rattle.rectilinear_basis.specs.Knot.{knot as knot_of};
ghost use Rattle.rectilinear_basis.specs.Basis.{basis, four, basis_span_weights};
ghost use Rattle.rectilinear_basis.specs.Between.{span_knots, weights_between};

// The knot at p - 2. Before the first knot and past the last one the end spacing goes on.
fn knot(grid: &[f64], p: usize) -> f64
    requires { (4 ≤ length grid.now) × (p < length grid.now + 4) }
    ensures { result ≡ knot_of binary64 grid.now (sub_ℕ p 2) }
{
    let n = grid.len();
    if p < 2 {
        return grid[0] + -((2 - p) as f64) * (grid[1] - grid[0]);
    }
    let i = p - 2;
    if i < n {
        return grid[i];
    }
    grid[n - 1] + ((i - (n - 1)) as f64) * (grid[n - 1] - grid[n - 2])
}

// The six knots beside a span: three up to its first one, three from its last one on. On most spans all are knots of the grid.
pub fn span_knots(grid: &[f64], span: usize) -> [f64; 6]
    requires { (4 ≤ length grid.now) × (span + 1 < length grid.now) }
    ensures { result ≡ span_knots binary64 grid.now span }
{
    if 2 <= span {
        if span + 3 < grid.len() {
            return [
                grid[span - 2],
                grid[span - 1],
                grid[span],
                grid[span + 1],
                grid[span + 2],
                grid[span + 3],
            ];
        }
    }
    let a = knot(grid, span);
    let b = knot(grid, span + 1);
    let c = knot(grid, span + 2);
    let d = knot(grid, span + 3);
    let e = knot(grid, span + 4);
    let f = knot(grid, span + 5);
    [a, b, c, d, e, f]
}

// A2.2, degree by degree, unrolled.
fn cubic(l1: f64, l2: f64, l3: f64, r1: f64, r2: f64, r3: f64) -> [f64; 4]
    ensures { result ≡ four (basis binary64 (at (f0 ∷ l1 ∷ l2 ∷ l3 ∷ [])) (at (f0 ∷ r1 ∷ r2 ∷ r3 ∷ [])) 3) }
{
    // degree 1
    let t10 = 1.0 / (r1 + l1);
    let n10 = 0.0 + r1 * t10;
    let n11 = l1 * t10;
    // degree 2
    let t20 = n10 / (r1 + l2);
    let n20 = 0.0 + r1 * t20;
    let t21 = n11 / (r2 + l1);
    let n21 = l2 * t20 + r2 * t21;
    let n22 = l1 * t21;
    // degree 3
    let t30 = n20 / (r1 + l3);
    let t31 = n21 / (r2 + l2);
    let t32 = n22 / (r3 + l1);
    [
        0.0 + r1 * t30,
        l3 * t30 + r2 * t31,
        l2 * t31 + r3 * t32,
        l1 * t32,
    ]
}

// The weights at x, by the six knots.
pub fn weights_between(u: [f64; 6], x: f64) -> [f64; 4]
    ensures { result ≡ weights_between binary64 u x }
{
    cubic(x - u[2], x - u[1], x - u[0], u[3] - x, u[4] - x, u[5] - x)
}

// Each knot goes straight into its difference. As `weights_between` of `span_knots` it is slower, since the six go through memory:
// the fit of a line of 4096 knots took 186 µs in place of 91.
pub fn basis_span_weights(grid: &[f64], span: usize, x: f64) -> [f64; 4]
    requires { (4 ≤ length grid.now) × (span + 1 < length grid.now) }
    ensures { result ≡ basis_span_weights binary64 grid.now span x }
{
    cubic(
        x - knot(grid, span + 2),
        x - knot(grid, span + 1),
        x - knot(grid, span),
        knot(grid, span + 3) - x,
        knot(grid, span + 4) - x,
        knot(grid, span + 5) - x,
    )
}

// The same where all six knots are knots of the grid, with no test of where they are. A closure that gives a knot, for one function
// of both, would need a contract longer than this.
pub fn inner_weights(grid: &[f64], span: usize, x: f64) -> [f64; 4]
    requires { (2 ≤ span) × (span + 3 < length grid.now) }
    ensures { result ≡ basis_span_weights binary64 grid.now span x }
{
    cubic(
        x - grid[span],
        x - grid[span - 1],
        x - grid[span - 2],
        grid[span + 1] - x,
        grid[span + 2] - x,
        grid[span + 3] - x,
    )
}
