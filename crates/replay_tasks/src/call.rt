// The calls under test, on the shape of a record and one grid or the other.
ghost use Rattle.std.specs.Prelude.{◌≡◌, true, ◌≤◌, length};
ghost use Rattle.oracle_match.specs.Lists.{ListLeft};

use crate::record::Tasks;
use shape::{Refusal, Shape};

// What a stepwise fit keeps between its calls: coefficients and ledger.
#[derive(Drop)]
pub struct State<'a> {
    pub coeffs: &'a mut [f64],
    pub ledger: &'a mut [u8],
    ghost few_coeffs: { length coeffs.now ≤ 1024 },
    ghost short_ledger: { length ledger.now ≤ 1024 },
}

impl<'a> State<'a> {
    // Whether it, and the answers of a list of at most 512 calls, are as the record says.
    pub fn agrees(&self, text: &[u8], tasks: Tasks, told: &[u8]) -> bool
        requires { length told.now ≤ 512 }
        ensures { result ≡ true → ListLeft text.now tasks.first told.now self.now.coeffs.now self.now.ledger.now }
    {
        oracle_match::list_agrees(text, tasks.first, told, self.coeffs, self.ledger)
    }
}

// A stepwise fit: its begin, its line call, and its list of line calls. Each instance hands on to its grid's functions of
// `stepwise`, which are those that C calls.
pub trait Stepwise {
    fn begin(&self, samples: &[f64], state: &mut State, scratch: &[f64]) -> Result<(), Refusal>;

    fn solve_line(
        &self,
        axis: usize,
        line: usize,
        state: &mut State,
        scratch: &mut [f64],
    ) -> Result<(), Refusal>;

    fn fit_by_list(
        &self,
        samples: &[f64],
        axes: &[usize],
        lines: &[usize],
        state: &mut State,
        scratch: &mut [f64],
        told: &mut [u8],
    ) -> Result<(), Refusal>;
}

#[derive(Clone, Copy)]
pub struct Regular {
    pub shape: Shape,
}

impl Stepwise for Regular {
    fn begin(&self, samples: &[f64], state: &mut State, scratch: &[f64]) -> Result<(), Refusal> {
        stepwise::begin_regular(self.shape, samples, state.coeffs, state.ledger, scratch)
    }

    fn solve_line(
        &self,
        axis: usize,
        line: usize,
        state: &mut State,
        scratch: &mut [f64],
    ) -> Result<(), Refusal> {
        stepwise::solve_regular_line(self.shape, axis, line, state.coeffs, state.ledger, scratch)
    }

    fn fit_by_list(
        &self,
        samples: &[f64],
        axes: &[usize],
        lines: &[usize],
        state: &mut State,
        scratch: &mut [f64],
        told: &mut [u8],
    ) -> Result<(), Refusal> {
        stepwise::fit_regular_by_list(
            self.shape,
            samples,
            axes,
            lines,
            state.coeffs,
            state.ledger,
            scratch,
            told,
        )
    }
}

#[derive(Clone, Copy)]
pub struct Rectilinear<'a> {
    pub shape: Shape,
    pub knots: &'a [f64],
}

impl<'a> Stepwise for Rectilinear<'a> {
    fn begin(&self, samples: &[f64], state: &mut State, scratch: &[f64]) -> Result<(), Refusal> {
        stepwise::begin_rectilinear(
            self.shape,
            self.knots,
            samples,
            state.coeffs,
            state.ledger,
            scratch,
        )
    }

    fn solve_line(
        &self,
        axis: usize,
        line: usize,
        state: &mut State,
        scratch: &mut [f64],
    ) -> Result<(), Refusal> {
        stepwise::solve_rectilinear_line(
            self.shape,
            self.knots,
            axis,
            line,
            state.coeffs,
            state.ledger,
            scratch,
        )
    }

    fn fit_by_list(
        &self,
        samples: &[f64],
        axes: &[usize],
        lines: &[usize],
        state: &mut State,
        scratch: &mut [f64],
        told: &mut [u8],
    ) -> Result<(), Refusal> {
        stepwise::fit_rectilinear_by_list(
            self.shape,
            self.knots,
            samples,
            axes,
            lines,
            state.coeffs,
            state.ledger,
            scratch,
            told,
        )
    }
}
