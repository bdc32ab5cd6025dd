// A list by the line call, one task after the other. Fit, state, scratch and answers go on one by one, since each call lends
// others. A task is known by its place in the words of the record, as the definitions have it.
ghost use Rattle.std.specs.Prelude.{◌≡◌, ◌≤◌, length};

use crate::call::{State, Stepwise};
use crate::record::Tasks;
use oracle_list::{Filling, array_of, copy_of, fill, size_at};
use oracle_match::is_kept;
use shape::Refusal;

// A task that has no answer to compare.
#[derive(Clone, Copy)]
pub enum Misstep {
    // it wants more scratch than there is
    ScratchTooLong,
    // it is refused and does not leave all as it was
    NotKept,
}

// What a call answers on scratch that has been filled, as a byte; a refused call has to leave all as it was.
pub fn answer_of<F: FnOnce(&mut State, &mut [f64]) -> Result<(), Refusal>>(
    state: &mut State,
    scratch: &mut [f64],
    call: F,
) -> Result<u8, Misstep>
    requires { F.IsAlwaysCallable call }
{
    let c = state.coeffs.len();
    let l = state.ledger.len();
    let kept: [f64; 1024] = copy_of(state.coeffs, 0.0);
    let saved: [u8; 1024] = copy_of(state.ledger, 0);
    fill(Filling::scratch(), scratch);
    match call(state, scratch) {
        Ok(()) => Ok(0),
        Err(refusal) => {
            if is_kept(state.coeffs, &kept[..c], state.ledger, &saved[..l], scratch) {
                Ok(refusal.number() as u8)
            } else {
                Err(Misstep::NotKept)
            }
        }
    }
}

// The task at word `at`: axis, line, length of the scratch that the call is lent, answer.
fn step_at<S: Stepwise>(
    text: &[u8],
    at: usize,
    fit: &S,
    state: &mut State,
    scratch: &mut [f64],
) -> Result<u8, Misstep>
    requires { at ≤ 65536 }
{
    let axis = size_at(text, at);
    let line = size_at(text, at + 1);
    let w = size_at(text, at + 2);
    if w > scratch.len() {
        return Err(Misstep::ScratchTooLong);
    }
    answer_of(state, &mut scratch[..w], |state, scratch| {
        fit.solve_line(axis, line, state, scratch)
    })
}

// Every task. Their answers go into `told`, 255 where a task has none: a list that expects 255 there agrees.
pub fn steps<S: Stepwise>(
    text: &[u8],
    tasks: Tasks,
    fit: &S,
    state: &mut State,
    scratch: &mut [f64],
    told: &mut [u8],
)
    requires { length told.old ≤ 512 }
{
    for (i, byte) in told.iter_mut().enumerate() {
        *byte = step_at(text, tasks.first + i * 4, fit, state, scratch).unwrap_or(255);
    }
}
