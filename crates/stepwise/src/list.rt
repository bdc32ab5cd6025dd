// A list of line calls, on any grid. Begin's checks are made once; a call of the list then looks at its own line only.
ghost use Rattle.std.specs.Prelude.{◌≡◌, ◌<◌, length, take, get_or};
ghost use Rattle.std.specs.Float.{binary64, nan};
ghost use Rattle.shape.specs.Checks.{first_refusal};
ghost use Rattle.shape.specs.Refusal.{answer_number};
ghost use Rattle.fits.specs.Fit.{solve, upper};
ghost use Rattle.ledger.specs.Ready.{call_ready_checks};
ghost use Rattle.book.specs.LineCall.{call_of, state_of};
ghost use Rattle.stepwise.specs.Calls.{OneRan, ListRan, Ran};

use crate::spacing::Spacing;
use crate::steps::{call_ready, check_begin};
use ledger::{check_lists, start};
use shape::{Axes, Refusal, Shape, answer_number};

// Call i of a list solves line `lines[i]` of axis `axes[i]`.
#[derive(Clone, Copy)]
struct Tasks<'a> {
    axes: &'a [usize],
    lines: &'a [usize],
    ghost as_many: { length lines.now ≡ length axes.now },
}

// Call i of a list; its answer goes into byte i.
fn run_one<S: Spacing>(
    map: Axes,
    spacing: S,
    tasks: Tasks,
    i: usize,
    coeffs: &mut [f64],
    ledger: &mut [u8],
    scratch: &mut [f64],
    answers: &mut [u8],
)
    requires i_in_bounds { (i < length tasks.axes.now) × (length answers.old ≡ length tasks.axes.now) }
    requires scratch_value { first_refusal (call_ready_checks map.count map.dims
        (S.grid_checks spacing (take map.count map.dims)) (S.knots_checks spacing (take map.count map.dims))
        (length coeffs.old) (length ledger.old) (length scratch.old)) ≡ 0 }
    ensures { OneRan map.count map.dims (S.grid_checks spacing (take map.count map.dims)) (S.knots_checks spacing (take map.count map.dims))
        nan (upper binary64 (S.rows spacing (take map.count map.dims))) (solve binary64 (S.rows spacing (take map.count map.dims)))
        (call_of (get_or tasks.entry.axes.now i 0) (get_or tasks.entry.lines.now i 0) scratch.old) i
        (state_of coeffs.old ledger.old) answers.old
        (state_of coeffs.new ledger.new) scratch.new answers.new }
{
    let answer = call_ready(
        map,
        spacing,
        tasks.axes[i],
        tasks.lines[i],
        coeffs,
        ledger,
        scratch,
    );
    answers[i] = answer_number(answer) as u8;
}

// All the calls of a list, one after the other.
fn run_list<S: Spacing>(
    map: Axes,
    spacing: S,
    tasks: Tasks,
    coeffs: &mut [f64],
    ledger: &mut [u8],
    scratch: &mut [f64],
    answers: &mut [u8],
)
    requires answers_len { length answers.old ≡ length tasks.axes.now }
    requires scratch_value { first_refusal (call_ready_checks map.count map.dims
        (S.grid_checks spacing (take map.count map.dims)) (S.knots_checks spacing (take map.count map.dims))
        (length coeffs.old) (length ledger.old) (length scratch.old)) ≡ 0 }
    ensures { ListRan map.count map.dims (S.grid_checks spacing (take map.count map.dims)) (S.knots_checks spacing (take map.count map.dims))
        nan (upper binary64 (S.rows spacing (take map.count map.dims))) (solve binary64 (S.rows spacing (take map.count map.dims)))
        tasks.entry.axes.now tasks.entry.lines.now
        (state_of coeffs.old ledger.old) scratch.old
        (state_of coeffs.new ledger.new) scratch.new answers.new }
{
    // The number says a call: two lists are read at it, and one is written. What is left is said from it on; three iterators side
    // by side, one of them over bytes to write, would say it three times.
    for i in 0..tasks.axes.len() {
        run_one(map, spacing, tasks, i, coeffs, ledger, scratch, answers);
    }
}

// Begins a fit and makes a list of line calls, one after the other.
pub fn fit_by_list<S: Spacing>(
    shape: Shape,
    spacing: S,
    vals: &[f64],
    axes: &[usize],
    lines: &[usize],
    coeffs: &mut [f64],
    ledger: &mut [u8],
    scratch: &mut [f64],
    answers: &mut [u8],
) -> Result<(), Refusal>
    ensures { Ran shape.count shape.dims (S.grid_checks spacing (take shape.count shape.dims)) (S.knots_checks spacing (take shape.count shape.dims))
        nan (upper binary64 (S.rows spacing (take shape.count shape.dims))) (solve binary64 (S.rows spacing (take shape.count shape.dims)))
        vals.now axes.now lines.now
        (state_of coeffs.old ledger.old) scratch.old answers.old
        (answer_number result) (state_of coeffs.new ledger.new) scratch.new answers.new }
{
    let map = check_begin(
        shape,
        spacing,
        vals.len(),
        coeffs.len(),
        ledger.len(),
        scratch.len(),
    )?;
    check_lists(axes.len(), lines.len(), answers.len())?;
    start(vals, coeffs, ledger);
    let tasks = Tasks { axes, lines };
    run_list(map, spacing, tasks, coeffs, ledger, scratch, answers);
    Ok(())
}
