// The calls under test: those of the map that a record and its grid describe.
ghost use Rattle.std.specs.Prelude.{◌≤◌};

use oracle_list::number_at;
use oracle_run::shape_of;
use rectilinear_map::{MultiBsplineRectilinear, no_ghosts};
use regular_map::MultiBsplineRegular;
use shape::Refusal;
use std::array;

// A map of either grid, with what is lent beside it. Each instance hands on to the methods of its record, which keep the Rust's
// names and parameters.
pub trait Map {
    // The batch of values.
    fn values(&self, xs: &[f64], out: &mut [f64]) -> Result<(), Refusal>;

    // The batch of gradients.
    fn gradients(&self, xs: &[f64], out: &mut [f64]) -> Result<(), Refusal>;

    // The value of a single query.
    fn value(&self, x: &[f64]) -> Result<f64, Refusal>;

    // Its gradient.
    fn gradient(&self, x: &[f64]) -> Result<[f64; 4], Refusal>;
}

// Whether the map goes on in a straight line outside its grid.
fn is_linear(text: &[u8]) -> bool {
    number_at(text, 7) != 0
}

// Float i; 0 where there are fewer.
pub fn float_of(floats: &[f64], i: usize) -> f64 {
    floats.get(i).copied().unwrap_or(0.0)
}

// Four floats of the grid: a regular one is four starts, then four steps. No replay is built on the library's parts for C.
fn four_from(grid: &[f64], i: usize) -> [f64; 4]
    requires { i ≤ 4 }
{
    array::from_fn(|k| float_of(grid, i + k))
}

#[derive(Clone, Copy)]
pub struct Regular<'a> {
    map: MultiBsplineRegular,
    coeffs: &'a [f64],
}

impl<'a> Regular<'a> {
    // Building the map from its coefficients, and the map, with what the record has for axes not in use.
    pub fn of(text: &[u8], grid: &[f64], coeffs: &'a [f64]) -> (Result<(), Refusal>, Regular<'a>) {
        let shape = shape_of(text);
        let dims = shape.dims;
        let starts = four_from(grid, 0);
        let steps = four_from(grid, 4);
        let built = MultiBsplineRegular::new(shape, starts, steps, coeffs, is_linear(text));
        let map = MultiBsplineRegular {
            count: shape.count,
            dims,
            starts,
            steps,
            linearize_extrapolation: is_linear(text),
        };
        (built.map(|_| ()), Regular { map, coeffs })
    }
}

impl<'a> Map for Regular<'a> {
    fn values(&self, xs: &[f64], out: &mut [f64]) -> Result<(), Refusal> {
        self.map.interp(self.coeffs, xs, out)
    }

    fn gradients(&self, xs: &[f64], out: &mut [f64]) -> Result<(), Refusal> {
        self.map.interp_grad(self.coeffs, xs, out)
    }

    fn value(&self, x: &[f64]) -> Result<f64, Refusal> {
        self.map.interp_one(self.coeffs, x)
    }

    fn gradient(&self, x: &[f64]) -> Result<[f64; 4], Refusal> {
        self.map.interp_one_grad(self.coeffs, x)
    }
}

#[derive(Clone, Copy)]
pub struct Rectilinear<'a> {
    map: MultiBsplineRectilinear,
    grid: &'a [f64],
    coeffs: &'a [f64],
}

// A rectilinear map without ghost numbers.
fn bare(text: &[u8]) -> MultiBsplineRectilinear {
    let shape = shape_of(text);
    let dims = shape.dims;
    let low_ghost_coeffs = no_ghosts();
    let high_ghost_coeffs = no_ghosts();
    MultiBsplineRectilinear {
        count: shape.count,
        dims,
        low_ghost_coeffs,
        high_ghost_coeffs,
        linearize_extrapolation: is_linear(text),
    }
}

impl<'a> Rectilinear<'a> {
    // Building the map from its coefficients, and the map: as building makes it, or, where that is refused, a bare one, so that
    // the call itself refuses it.
    pub fn of(
        text: &[u8],
        grid: &'a [f64],
        coeffs: &'a [f64],
    ) -> (Result<(), Refusal>, Rectilinear<'a>) {
        let built = MultiBsplineRectilinear::new(shape_of(text), grid, coeffs, is_linear(text));
        let answer = built.map(|_| ());
        let map = built.unwrap_or(bare(text));
        (answer, Rectilinear { map, grid, coeffs })
    }
}

impl<'a> Map for Rectilinear<'a> {
    fn values(&self, xs: &[f64], out: &mut [f64]) -> Result<(), Refusal> {
        self.map.interp(self.grid, self.coeffs, xs, out)
    }

    fn gradients(&self, xs: &[f64], out: &mut [f64]) -> Result<(), Refusal> {
        self.map.interp_grad(self.grid, self.coeffs, xs, out)
    }

    fn value(&self, x: &[f64]) -> Result<f64, Refusal> {
        self.map.interp_one(self.grid, self.coeffs, x)
    }

    fn gradient(&self, x: &[f64]) -> Result<[f64; 4], Refusal> {
        self.map.interp_one_grad(self.grid, self.coeffs, x)
    }
}
