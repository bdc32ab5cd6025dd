// The runs of a record: a begin that is refused, or a list by the line call and the same list by one call. Coefficients, ledger and
// answers have the record's lengths.
//
// Text, tasks and fit, or fit, samples, state and scratch, go on one by one, since each call lends others of them.
//
// The bound of `told` is a clause: a list's answers are not what `State` keeps between the calls, and the line call has them one
// by one.
ghost use Rattle.std.specs.Prelude.{◌≡◌, true, ◌≤◌, length};
ghost use Rattle.oracle_match.specs.Lists.{ListLeft};

use crate::call::{Rectilinear, Regular, State, Stepwise};
use crate::record::{Lengths, Record, Tasks};
use crate::steps::{answer_of, steps};
use oracle_list::{Filling, array_of, every_fourth, filled, number_at, read_cells};
use oracle_run::{Grid, length_at, shape_of};
use shape::Refusal;

// What a run says of fresh buffers.
fn on_fresh<F: FnOnce(&mut State, &mut [f64; 3072]) -> bool>(lengths: Lengths, run: F) -> bool
    requires { F.IsAlwaysCallable run }
{
    let mut coeffs = filled(Filling::output());
    let mut ledger: [u8; 1024] = array_of(170);
    let mut scratch = filled(Filling::scratch());
    let mut state = State {
        coeffs: &mut coeffs[..lengths.coeffs],
        ledger: &mut ledger[..lengths.ledger],
    };
    run(&mut state, &mut scratch)
}

// A begin that is to be refused: whether it was, with the number of word 12, and left all as it was.
fn is_refused<S: Stepwise>(
    text: &[u8],
    fit: &S,
    samples: &[f64],
    state: &mut State,
    scratch: &mut [f64],
) -> bool {
    let told = answer_of(state, scratch, |state, scratch| {
        fit.begin(samples, state, scratch)
    });
    match told {
        Ok(number) => u64::from(number) == number_at(text, 12),
        Err(_) => false,
    }
}

// Begin, on scratch of length w, and the tasks by the line call: whether all is as the record says.
fn by_lines<S: Stepwise>(
    text: &[u8],
    tasks: Tasks,
    w: usize,
    fit: &S,
    samples: &[f64],
    state: &mut State,
    scratch: &mut [f64],
    told: &mut [u8],
) -> bool
    requires { (w ≤ length scratch.old) × (length told.old ≤ 512) }
    ensures { result ≡ true → ListLeft text.now tasks.first told.new state.new.coeffs.now state.new.ledger.now }
{
    if let Err(_) = fit.begin(samples, state, &scratch[..w]) {
        return false;
    }
    steps(text, tasks, fit, state, scratch, told);
    state.agrees(text, tasks, told)
}

// The list by one call, on scratch of begin's length: whether all is as the record says.
fn by_list<S: Stepwise>(
    text: &[u8],
    tasks: Tasks,
    fit: &S,
    samples: &[f64],
    state: &mut State,
    scratch: &mut [f64],
    told: &mut [u8],
) -> bool
    requires { length told.old ≤ 512 }
    ensures { result ≡ true → ListLeft text.now tasks.first told.new state.new.coeffs.now state.new.ledger.now }
{
    let first = tasks.first;
    let n = told.len();
    let mut axes: [usize; 512] = array_of(0);
    every_fourth(text, first, &mut axes);
    let mut lines: [usize; 512] = array_of(0);
    every_fourth(text, first + 1, &mut lines);
    if let Err(_) = fit.fit_by_list(samples, &axes[..n], &lines[..n], state, scratch, told) {
        return false;
    }
    state.agrees(text, tasks, told)
}

// Whether some call of the list is refused for its short scratch.
fn has_short(text: &[u8], tasks: Tasks) -> bool {
    let short = Refusal::ScratchTooSmall.number();
    (0..tasks.n).any(|i| number_at(text, tasks.first + i * 4 + 3) == short)
}

// A record whose begin is refused.
fn is_refusal_right<S: Stepwise>(text: &[u8], fit: &S, samples: &[f64]) -> bool {
    let Ok(lengths) = Lengths::of(text) else {
        return false;
    };
    let Ok(w) = length_at(text, 11, 1024) else {
        return false;
    };
    on_fresh(lengths, |state, scratch| {
        is_refused(text, fit, samples, state, &mut scratch[..w])
    })
}

// A record with tasks, both ways; a list with a call whose scratch is too short only by the line call.
fn is_list_right<S: Stepwise>(text: &[u8], tasks: Tasks, fit: &S, samples: &[f64]) -> bool {
    let Ok(w) = length_at(text, 11, 1024) else {
        return false;
    };
    let n = tasks.n;
    let lines = on_fresh(
        tasks.lengths,
        |state, scratch|
            requires { (w ≤ 1024) × (n ≤ 512) }
        {
            let mut told: [u8; 512] = array_of(170);
            by_lines(text, tasks, w, fit, samples, state, scratch, &mut told[..n])
        },
    );
    if !lines || has_short(text, tasks) {
        return lines;
    }
    on_fresh(
        tasks.lengths,
        |state, scratch|
            requires { (w ≤ 1024) × (n ≤ 512) }
        {
            let mut told: [u8; 512] = array_of(170);
            by_list(
                text,
                tasks,
                fit,
                samples,
                state,
                &mut scratch[..w],
                &mut told[..n],
            )
        },
    )
}

// A record whose floats have been read; it has tasks where its begin is accepted.
fn is_right<S: Stepwise>(text: &[u8], tasks: Option<Tasks>, fit: &S, samples: &[f64]) -> bool {
    match tasks {
        Some(tasks) => is_list_right(text, tasks, fit, samples),
        None => is_refusal_right(text, fit, samples),
    }
}

// Whether all is as a record expects.
pub fn replay(record: Record<'_>, tasks: Option<Tasks>) -> bool {
    let Record { text, grid, sizes } = record;
    let end = sizes.floats();
    let mut floats: [f64; 2048] = array_of(0.0);
    read_cells(text, 14, &mut floats[..end]);
    let floats = &floats[..end];
    let knots = &floats[..sizes.knots];
    let samples = &floats[sizes.knots..];
    let shape = shape_of(text);
    match grid {
        Grid::Regular => is_right(text, tasks, &Regular { shape }, samples),
        Grid::Rectilinear => is_right(text, tasks, &Rectilinear { shape, knots }, samples),
    }
}
