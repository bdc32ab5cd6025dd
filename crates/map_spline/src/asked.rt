// What the map program asks of a map: its value and its gradient at a query, and whether the query is outside on an axis. Once for
// each grid, with what the calls of its record are lent beside it.
ghost use Rattle.std.specs.Prelude.{◌≡◌, ◌<◌, ℕ, Bool, Float, List, length, IfOk};
ghost use Rattle.std.specs.Float.{binary64};
ghost use Rattle.multibspline.specs.Numbers.{f0};
ghost use Rattle.shape.specs.Checks.{first_refusal};
ghost use Rattle.shape.specs.Refusal.{answer_number, answer_or};
ghost use Rattle.evaluation.specs.Axes.{zeros};
ghost use Rattle.evaluation.specs.Spline.{Spline, OneValue, OneGradient};
ghost use Rattle.regular_blocks.specs.Checks.{regular};
ghost use Rattle.regular_map.specs.Place as Regular;
ghost use Rattle.regular_map.specs.Records as RegularRecord;
ghost use Rattle.rectilinear_blocks.specs.Eval.{rectilinear};
ghost use Rattle.rectilinear_map.specs.Place as Rectilinear;
ghost use Rattle.rectilinear_map.specs.Records as RectilinearRecord;
ghost use Rattle.map_spline.specs.Outside.{is_outside, is_outside_loc};

use multibspline::Saturation;
use rectilinear_map::MultiBsplineRectilinear;
use regular_map::MultiBsplineRegular;
use shape::Refusal;

pub trait Asked {
    ghost spline: { Self → Spline };

    // the checks that `place` makes have passed
    ghost Accepted: { Self → Type 0 };

    // whether a coordinate has an Outside place on an axis
    ghost outside_on: { Self → ℕ → Float → Bool };

    fn value(&self, x: &[f64]) -> Result<f64, Refusal>
        ensures value { OneValue (spline self.now) x.now (answer_number result) (answer_or f0 result) }
        ensures accepted { IfOk result (λ v. Accepted self.now × (length x.now ≡ (spline self.now).axes)) };

    fn gradient(&self, x: &[f64]) -> Result<[f64; 4], Refusal>
        ensures { OneGradient (spline self.now) x.now (answer_number result) (answer_or zeros result) };

    fn is_outside_on(&self, axis: usize, x: f64) -> bool
        requires { Accepted self.now × (axis < (spline self.now).axes) }
        ensures { result ≡ outside_on self.now axis x };
}

fn is_outside(sat: Saturation) -> bool
    ensures { result ≡ is_outside sat }
{
    match sat {
        Saturation::OutsideLow | Saturation::OutsideHigh => true,
        Saturation::None | Saturation::InsideLow | Saturation::InsideHigh => false,
    }
}

// A regular map.
#[derive(Clone, Copy)]
pub struct OnRegular<'a> {
    pub map: MultiBsplineRegular,
    pub coeffs: &'a [f64],
}

impl<'a> Asked for OnRegular<'a> {
    ghost spline = { λ m. regular binary64 (RegularRecord.map_of m.map) m.coeffs.now };

    ghost Accepted = { λ m. first_refusal (Regular.record_checks m.map.count m.map.dims m.map.steps) ≡ 0 };

    ghost outside_on = { λ m a x. is_outside_loc (Regular.loc_at binary64 m.map.dims m.map.starts m.map.steps a x) };

    fn value(&self, x: &[f64]) -> Result<f64, Refusal> {
        self.map.interp_one(self.coeffs, x)
    }

    fn gradient(&self, x: &[f64]) -> Result<[f64; 4], Refusal> {
        self.map.interp_one_grad(self.coeffs, x)
    }

    fn is_outside_on(&self, axis: usize, x: f64) -> bool {
        match self.map.place(axis, x) {
            Ok((sat, _)) => is_outside(sat),
            Err(_) => false,
        }
    }
}

// A rectilinear map.
#[derive(Clone, Copy)]
pub struct OnRectilinear<'a> {
    pub map: MultiBsplineRectilinear,
    pub grid: &'a [f64],
    pub coeffs: &'a [f64],
}

impl<'a> Asked for OnRectilinear<'a> {
    ghost spline = { λ m. rectilinear binary64 (RectilinearRecord.map_of m.map) m.grid.now m.coeffs.now };

    ghost Accepted = { λ m. first_refusal (Rectilinear.grid_checks m.map.count m.map.dims m.grid.now) ≡ 0 };

    ghost outside_on = { λ m a x. is_outside (Rectilinear.loc_at m.map.count m.map.dims m.grid.now a x).sat };

    fn value(&self, x: &[f64]) -> Result<f64, Refusal> {
        self.map.interp_one(self.grid, self.coeffs, x)
    }

    fn gradient(&self, x: &[f64]) -> Result<[f64; 4], Refusal> {
        self.map.interp_one_grad(self.grid, self.coeffs, x)
    }

    fn is_outside_on(&self, axis: usize, x: f64) -> bool {
        match self.map.place(self.grid, axis, x) {
            Ok(loc) => is_outside(loc.sat),
            Err(_) => false,
        }
    }
}
