// The lines of a group, row by row in place, with the upper numbers at hand. The last row's right side is taken first, since the
// sweep changes the row before it; from then on each row needs only the row beside it. `lines` and `multibspline` have rows of the
// same names and are no twins: a line alone works its upper numbers out with its right sides and leaves both in scratch, as its
// promise says. What the two share is `System` and `Turn`.
ghost use Rattle.std.specs.Prelude.{◌≡◌, ◌+◌, ◌-◌, ◌≤◌, ◌<◌, length};
ghost use Rattle.std.specs.Float.{binary64, nan};
ghost use Rattle.lines.specs.Rows.{coefficient, upper_number};
ghost use Rattle.multibspline.specs.Records.{left_of};
ghost use Rattle.lanes.specs.Lanes.{Uppers, solve_from, back_cell};
ghost use Rattle.lanes.specs.Groups.{group_of, LanesIn, LanesOf, turned, turned_up, turned_down, inner_cell, inner_at, last_at};

use crate::group::{Gap, Group, turn_row};
use lines::{Less, Step, System, Turn};
use multibspline::Left;

// What is done to the cells of a row between the ends: the right side is made of the sample, and the row before is eliminated.
#[derive(Clone, Copy)]
struct Inner<S> {
    system: S,
    lower: f64,
    divisor: f64,
}

impl<S: System> Turn for Inner<S> {
    ghost op = { λ turn. inner_cell binary64 (S.rows turn.system).inner_right turn.lower turn.divisor };

    fn of(self, x: f64, z: f64) -> f64 {
        (self.system.inner_right(x) - self.lower * z) / self.divisor
    }
}

// Row i, between the ends.
fn inner_row<S: System, G: Gap>(
    system: S,
    group: Group<G>,
    i: usize,
    upper: &[f64],
    coeffs: &mut [f64],
)
    requires between { (0 < i) × (i + 1 < group.n) × (group.n ≤ length upper.now) }
    requires lanes { LanesOf (S.rows system) (group_of G.cells group) (length coeffs.old) }
    ensures { coeffs.new ≡ turned (inner_at binary64 (S.rows system) upper.now i) (group_of G.cells group) i (i - 1) coeffs.old }
{
    let left = system.inner_row(i);
    let turn = Inner {
        system,
        lower: left.lower,
        divisor: left.diag - left.lower * upper[i - 1],
    };
    turn_row(turn, group, i, i - 1, coeffs);
}

// The rows between the ends.
fn inner_rows<S: System, G: Gap>(system: S, group: Group<G>, upper: &[f64], coeffs: &mut [f64])
    requires room { group.n ≤ length upper.now }
    requires lanes { LanesOf (S.rows system) (group_of G.cells group) (length coeffs.old) }
    ensures { coeffs.new ≡ turned_up (inner_at binary64 (S.rows system) upper.now) (group_of G.cells group) (group.n - 2) coeffs.old }
{
    let last = group.n - 1;
    // The number says a row of the system, an upper number and the cells of two rows.
    for i in 1..last {
        inner_row(system, group, i, upper, coeffs);
    }
}

// The last row, with the row before it eliminated.
fn last_row<G: Gap>(left: Left, group: Group<G>, upper: &[f64], coeffs: &mut [f64])
    requires room { group.n ≤ length upper.now }
    requires lanes { LanesIn (group_of G.cells group) (length coeffs.old) }
    ensures { coeffs.new ≡ turned (last_at binary64 (left_of left) group.n upper.now) (group_of G.cells group) (group.n - 1) (group.n - 2) coeffs.old }
{
    let n = group.n;
    let turn = Step {
        factor: left.lower,
        divisor: left.diag - left.lower * upper[n - 2],
    };
    turn_row(turn, group, n - 1, n - 2, coeffs);
}

// Back substitution in row i.
fn back_row<G: Gap>(group: Group<G>, i: usize, upper: &[f64], coeffs: &mut [f64])
    requires before { (i + 1 < group.n) × (group.n ≤ length upper.now) }
    requires lanes { LanesIn (group_of G.cells group) (length coeffs.old) }
    ensures { coeffs.new ≡ turned (back_cell binary64 upper.now i) (group_of G.cells group) i (i + 1) coeffs.old }
{
    turn_row(Less { factor: upper[i] }, group, i, i + 1, coeffs);
}

// Back substitution, from the last row but one to the first.
fn back_rows<G: Gap>(group: Group<G>, upper: &[f64], coeffs: &mut [f64])
    requires room { group.n ≤ length upper.now }
    requires lanes { LanesIn (group_of G.cells group) (length coeffs.old) }
    ensures { coeffs.new ≡ turned_down (back_cell binary64 upper.now) (group_of G.cells group) (group.n - 1) coeffs.old }
{
    let last = group.n - 1;
    // The number says an upper number and the cells of two rows.
    for i in (0..last).rev() {
        back_row(group, i, upper, coeffs);
    }
}

pub fn solve_group<S: System, G: Gap>(system: S, group: Group<G>, upper: &[f64], coeffs: &mut [f64])
    requires lanes { LanesOf (S.rows system) (group_of G.cells group) (length coeffs.old) }
    requires uppers { Uppers (upper_number binary64 (S.rows system)) group.n upper.now }
    ensures { coeffs.new ≡ solve_from nan (coefficient binary64 (S.rows system)) group.n group.stride group.first group.count coeffs.old }
{
    let first = system.first_row();
    let last = system.last_row();
    let n = group.n;
    turn_row(last.right, group, n - 1, n - 2, coeffs);
    turn_row(first.right, group, 0, 1, coeffs);
    inner_rows(system, group, upper, coeffs);
    last_row(last.left, group, upper, coeffs);
    back_rows(group, upper, coeffs);
}
